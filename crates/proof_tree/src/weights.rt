//! The weights of sums of a leaf.
ghost use Rattle.std.specs.Prelude.{◌≡◌, ◌<◌, ◌≤◌, [], IfOk, length};

use escrow_desk::NoMemory;
use std::alloc::Global;
use std::marker::Model;

/// The greatest number of sums that a leaf weighs.
pub const MOST_WEIGHTS: usize = 64;

/// Which end of the interval of a sum a weight counts.
#[derive(Clone, Copy, Debug, Default, PartialEq, Eq)]
pub enum Side {
    /// The sum is at most its high end.
    #[default]
    AtMost,
    /// The sum is at least its low end.
    AtLeast,
}

/// The weight of a sum over the coarse lines.
#[derive(Clone, Copy, Debug, Default, PartialEq, Eq)]
pub struct SumWeight {
    /// The sum: that of a need date, counted from 0.
    pub sum: u16,
    /// Which of its ends counts.
    pub side: Side,
    /// What a cent of a step counts, in units of 1 / `PRICE_SCALE`: from 1 to `PRICE_SCALE`.
    pub weight: u64,
}

/// The weights of sums of a leaf, by rising sums. Where there are any, their memory has room for [`MOST_WEIGHTS`]. Contracts see the list of
/// them.
#[derive(Debug, Drop)]
pub struct Weights {
    weights: Vec<SumWeight>,
}

impl Model for Weights {
    ghost use Rattle.std.specs.Prelude.{◌<◌, ◌≤◌, List, length};
    ghost use Rattle.std.specs.Vec.{vec_capacity};
    ghost use Rattle.proof_tree.specs.declared.weights.SumWeight.{SumWeight};
    ghost use Rattle.proof_tree.specs.declared.weights.TheConstants.{MOST_WEIGHTS};

    ghost Value = { List SumWeight };

    ghost view = { λ w. w.weights.items };

    ghost invariant = { λ w. 0 < length w.weights.items → MOST_WEIGHTS ≤ vec_capacity w.weights };
}

impl Weights {
    /// These weights.
    ///
    /// # Errors
    ///
    /// Where memory ran out.
    pub fn new(weights: Vec<SumWeight>) -> Result<Weights, NoMemory>
        ensures { IfOk result (λ own. own ≡ weights.items) }
    {
        let mut own = weights;
        own.reserve(MOST_WEIGHTS)?;
        Ok(Weights { weights: own })
    }

    /// No weights. It takes no memory.
    pub fn none(alloc: Global) -> Weights
        ensures { result ≡ [] }
    {
        Weights {
            weights: Vec::new(alloc),
        }
    }

    /// The weights as a slice.
    pub fn as_slice(&self) -> &[SumWeight]
        ensures { result.now ≡ self.now }
    {
        self.weights.as_slice()
    }

    /// The same weights once more.
    ///
    /// # Errors
    ///
    /// Where memory ran out.
    pub fn copy(&self, alloc: Global) -> Result<Weights, NoMemory>
        ensures { IfOk result (λ weights. weights ≡ self.now) }
    {
        if self.weights.is_empty() {
            return Ok(Weights::none(alloc));
        }
        let mut weights = Vec::with_capacity(alloc, MOST_WEIGHTS)?;
        weights.extend_from_slice(self.weights.as_slice())?;
        Ok(Weights { weights })
    }

    /// Leaves no weights. It takes no memory.
    pub fn clear(&mut self)
        ensures { self.new ≡ [] }
    {
        self.weights.clear();
    }

    /// Takes over other weights, in the memory of those that were there. It takes no memory.
    pub fn refill(&mut self, weights: &[SumWeight])
        requires some { 0 < length self.old }
        requires few { length weights.now ≤ MOST_WEIGHTS }
        ensures { self.new ≡ weights.now }
    {
        self.weights.clear();
        let _filled = self.weights.extend_from_slice(weights);
    }
}
