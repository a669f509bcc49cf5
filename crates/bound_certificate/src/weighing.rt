//! How a leaf's line says how much it weighs the cost.
ghost use Rattle.std.specs.Prelude.{◌≡◌};
ghost use Rattle.bound_certificate.specs.Weights.{least_vector as least_vector_of, most_weight, rho_number, rho_said};

use proof_tree::PRICE_SCALE;

/// How a leaf's line says how much it weighs the cost.
#[derive(Clone, Copy, Debug, PartialEq, Eq)]
pub(crate) enum Weighing {
    /// By 1, where the cost counts wholly, or 0, where it doesn't count: in versions 1 and 2.
    WholeOrNone,
    /// By the weight itself: in version 3, which alone has stairs, and splits and weights of sums.
    Number,
}

impl Weighing {
    /// The greatest number that says a weight.
    pub(crate) fn most(self) -> u64
        ensures { result ≡ most_weight self }
    {
        match self {
            Weighing::WholeOrNone => 1,
            Weighing::Number => PRICE_SCALE,
        }
    }

    /// The least number of a vector: 0 stands for stairs.
    pub(crate) fn least_vector(self) -> u64
        ensures { result ≡ least_vector_of self }
    {
        match self {
            Weighing::WholeOrNone => 1,
            Weighing::Number => 0,
        }
    }

    /// The weight that a number says.
    pub(crate) fn weight(self, number: u64) -> u64
        ensures { result ≡ rho_said self number }
    {
        match self {
            Weighing::WholeOrNone if number == 1 => PRICE_SCALE,
            Weighing::WholeOrNone => 0,
            Weighing::Number => number,
        }
    }

    /// The number that says a weight.
    pub(crate) fn number(self, weight: u64) -> u64
        ensures { result ≡ rho_number self weight }
    {
        match self {
            Weighing::WholeOrNone => u64::from(weight != 0),
            Weighing::Number => weight,
        }
    }
}
