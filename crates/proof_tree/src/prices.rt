//! The prices of a leaf.
ghost use Rattle.std.specs.Prelude.{◌≡◌, ◌<◌, length, slice_set};

use std::marker::Model;

/// The price, or the weight, that stands for 1.
pub const PRICE_SCALE: u64 = 1_000_000_000_000;

/// Prices of a cent on each need date, in order of day, in units of 1 / [`PRICE_SCALE`]. Contracts see the list of them.
#[derive(Debug, Drop)]
pub struct Prices {
    prices: Vec<u64>,
}

impl Model for Prices {
    ghost use Rattle.std.specs.Prelude.{ℕ, List};

    ghost Value = { List ℕ };

    ghost view = { λ p. p.prices.items };
}

impl Prices {
    /// These prices.
    pub fn new(prices: Vec<u64>) -> Prices
        ensures { result ≡ prices.items }
    {
        Prices { prices }
    }

    /// The prices as a slice.
    pub fn as_slice(&self) -> &[u64]
        ensures { result.now ≡ self.now }
    {
        self.prices.as_slice()
    }

    /// The prices as they were given.
    pub fn into_vec(self) -> Vec<u64>
        ensures { result.items ≡ self }
    {
        self.prices
    }

    /// Takes over as many prices as there are.
    pub fn copy(&mut self, prices: &[u64])
        requires { length self.old ≡ length prices.now }
        ensures { self.new ≡ prices.now }
    {
        self.prices.as_mut_slice().copy_from_slice(prices);
    }

    /// Sets the price at a place, from 0, and changes no other.
    pub fn put(&mut self, place: u16, price: u64)
        requires { place < length self.old }
        ensures { self.new ≡ slice_set self.old place price }
    {
        let place = usize::from(place);
        self.prices[place] = price;
    }
}
