//! What a solve is for.

use sparse_basis::Price;

/// What a solve is for. It decides whether the cost counts, and how far prices and the multiplier of the yield limit may go.
#[derive(Clone, Copy, Debug, PartialEq, Eq)]
pub enum Purpose {
    /// The least cost. Prices go up to 256 and the multiplier up to 16,000, so that it is dear to lack cash or to pass the limit.
    Cost,
    /// Whether the needs can be met within the limit at all: the cost doesn't count. Prices go up to 2, and the multiplier up to 1.
    Needs,
}

/// Whether the cost counts, and how far prices and the multiplier may go.
#[derive(Clone, Copy)]
pub(crate) struct Aim {
    purpose: Purpose,
    /// The greatest price.
    pub price: Price,
    /// The greatest multiplier.
    pub multiplier: Price,
}

// The greatest price, as a whole number.
fn greatest_price(purpose: Purpose) -> u16 {
    match purpose {
        Purpose::Cost => 256,
        Purpose::Needs => 2,
    }
}

// The greatest multiplier, as a whole number.
fn greatest_multiplier(purpose: Purpose) -> u16 {
    match purpose {
        Purpose::Cost => 16_000,
        Purpose::Needs => 1,
    }
}

impl Aim {
    /// For a purpose.
    pub(crate) fn new(purpose: Purpose) -> Aim {
        Aim {
            purpose,
            price: Price::whole(greatest_price(purpose)),
            multiplier: Price::whole(greatest_multiplier(purpose)),
        }
    }

    /// Whether the cost counts.
    pub(crate) fn costs(self) -> bool {
        self.purpose == Purpose::Cost
    }

    /// The greatest price, as a whole number.
    pub(crate) fn greatest_price(self) -> u16 {
        greatest_price(self.purpose)
    }

    /// The greatest multiplier, as a whole number.
    pub(crate) fn greatest_multiplier(self) -> u16 {
        greatest_multiplier(self.purpose)
    }
}
