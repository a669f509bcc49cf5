//! Room for the vectors of a packed certificate.
ghost use Rattle.std.specs.Prelude.{◌≡◌, ◌≤◌, ◌<◌, ◌++◌, ◌∷◌, [], IfOk, length, option_map};
ghost use Rattle.bound_certificate.specs.Packed.{vector_of};

use crate::limits::{MOST_DATES, MOST_VECTORS};
use arrayvec::ArrayVec;
use escrow_desk::NoMemory;
use std::alloc::Global;
use std::marker::Model;

/// The prices of a vector, at most one for each of 480 need dates. Contracts see the list of them.
#[derive(Debug, Drop)]
pub(crate) struct Vector {
    prices: ArrayVec<u64, MOST_DATES>,
}

impl Model for Vector {
    ghost use Rattle.std.specs.Prelude.{ℕ, List};

    ghost Value = { List ℕ };

    ghost view = { λ v. v.prices.items };
}

impl Vector {
    // A vector of these prices.
    fn of(prices: &[u64]) -> Vector
        requires { length prices.now ≤ MOST_DATES }
        ensures { result ≡ prices.now }
    {
        let mut own = ArrayVec::new();
        for price in prices {
            own.push(*price);
        }
        Vector { prices: own }
    }

    /// The prices.
    pub(crate) fn as_slice(&self) -> &[u64]
        ensures { result.now ≡ self.now }
    {
        self.prices.as_slice()
    }
}

/// Room for 64 vectors, taken at once, and those that came. No byte of it is written before a vector comes. Contracts see the list
/// of those that came.
#[derive(Debug, Drop)]
pub(crate) struct VectorRoom {
    vectors: Vec<Vector>,
}

impl Model for VectorRoom {
    ghost use Rattle.std.specs.Prelude.{◌≤◌, ℕ, List, length};
    ghost use Rattle.std.specs.Vec.{vec_capacity};
    ghost use Rattle.bound_certificate.specs.declared.limits.TheConstants.{MOST_VECTORS};

    ghost Value = { List (List ℕ) };

    ghost view = { λ r. r.vectors.items };

    ghost invariant = { λ r. (length r.vectors.items ≤ MOST_VECTORS) × (MOST_VECTORS ≤ vec_capacity r.vectors) };
}

impl VectorRoom {
    /// Room for 64 vectors, of which none came.
    ///
    /// # Errors
    ///
    /// [`NoMemory`] where memory ran out.
    pub(crate) fn make(alloc: Global) -> Result<VectorRoom, NoMemory>
        ensures { IfOk result (λ room. room ≡ []) }
    {
        let vectors = Vec::with_capacity(alloc, MOST_VECTORS as usize)?;
        Ok(VectorRoom { vectors })
    }

    /// How many vectors came, at most 64.
    pub(crate) fn count(&self) -> u16
        ensures value { result ≡ length self.now }
        ensures bound { result ≤ MOST_VECTORS }
    {
        self.vectors.len() as u16
    }

    /// The prices of the vector of a number, from 1; 0 names none.
    pub(crate) fn of(&self, number: u16) -> Option<&[u64]>
        requires { number ≤ length self.now }
        ensures { option_map (λ prices. prices.now) result ≡ vector_of self.now number }
    {
        if number == 0 {
            return None;
        }
        Some(self.vectors[usize::from(number) - 1].as_slice())
    }

    /// One more, of at most 480 prices, where fewer than 64 came.
    pub(crate) fn put(&mut self, prices: &[u64])
        requires room { length self.old < MOST_VECTORS }
        requires few { length prices.now ≤ MOST_DATES }
        ensures { self.new ≡ self.old ++ prices.now ∷ [] }
    {
        let _pushed = self.vectors.push(Vector::of(prices));
    }
}
