//! The leaf that a reader lends.
ghost use Rattle.std.specs.Prelude.{◌≡◌, ◌<◌, ◌≤◌, [], IfOk, length};
ghost use Rattle.bound_certificate.specs.Taken.{with_weights};

use escrow_desk::NoMemory;
use proof_tree::{Leaf, MOST_WEIGHTS, Prices, Side, SumWeight, Weights};
use std::alloc::Global;
use std::marker::Model;
use std::mem::swap;

/// The leaf that a reader lends, with room for the weights of sums of any leaf. Contracts see the leaf.
#[derive(Debug, Drop)]
pub(crate) struct LentLeaf {
    /// The leaf.
    pub leaf: Leaf,
    // Weights whose memory stands by while the leaf has none.
    spare: Weights,
}

impl Model for LentLeaf {
    ghost use Rattle.std.specs.Prelude.{◌≡◌, ◌<◌, [], length};
    ghost use Rattle.proof_tree.specs.declared.tree.Leaf.{Leaf};

    ghost Value = { Leaf };

    ghost view = { λ l. l.leaf };

    ghost invariant = { λ l. (l.leaf.weights ≡ [] → 0 < length l.spare) × (0 < length l.leaf.weights → l.spare ≡ []) };
}

// Room for the weights of any leaf.
fn room(alloc: Global) -> Result<Weights, NoMemory>
    ensures { IfOk result (λ spare. 0 < length spare) }
{
    let any = SumWeight {
        sum: 0,
        side: Side::AtMost,
        weight: 1,
    };
    Weights::new(vec![in alloc; any; 1]?)
}

impl LentLeaf {
    /// A leaf with a price for each of so many need dates, all 0.
    ///
    /// # Errors
    ///
    /// Where memory ran out.
    pub fn make(alloc: Global, dates: u16) -> Result<LentLeaf, NoMemory>
        ensures { IfOk result (λ leaf. length leaf.prices ≡ dates) }
    {
        let prices = vec![in alloc; 0; usize::from(dates)]?;
        let leaf = Leaf {
            rho: 0,
            mu: 0,
            prices: Prices::new(prices),
            weights: Weights::none(alloc),
        };
        let spare = room(alloc)?;
        Ok(LentLeaf { leaf, spare })
    }

    /// The leaf.
    pub fn as_leaf(&self) -> &Leaf
        ensures { result.now ≡ self.now }
    {
        &self.leaf
    }

    /// Says the weights of the cost and of the limit, and that no sum is weighed.
    pub fn weigh(&mut self, rho: u64, mu: u64)
        ensures { self.new ≡ record { rho = rho; mu = mu; prices = self.old.prices; weights = [] } }
    {
        self.leaf.rho = rho;
        self.leaf.mu = mu;
        if !self.leaf.weights.as_slice().is_empty() {
            swap(&mut self.leaf.weights, &mut self.spare);
        }
    }

    /// Says the weights of sums.
    pub fn weigh_sums(&mut self, weights: &[SumWeight])
        requires { length weights.now ≤ MOST_WEIGHTS }
        ensures { self.new ≡ with_weights self.old weights.now }
    {
        if self.leaf.weights.as_slice().is_empty() != weights.is_empty() {
            swap(&mut self.leaf.weights, &mut self.spare);
        }
        if !weights.is_empty() {
            self.leaf.weights.refill(weights);
        }
    }
}
