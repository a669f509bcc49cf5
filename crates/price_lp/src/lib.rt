//! The linear relaxation of a book: prices of the need dates, and amounts of the lines, by a bounded dual simplex in whole
//! numbers.
//!
//! What it proposes is only a proposal: a leaf that keeps its limits, or amounts. Who uses it compares exact bounds and tests
//! exact plans.
#![tactic(auto)]

mod aim;
mod base;
mod direction;
mod duals;
mod leaving;
mod line_ranges;
mod pivoting;
mod primal;
mod program;
mod proposing;
mod ratio;
mod simplex;
mod starts;
mod sums;

pub use aim::Purpose;
pub use line_ranges::Holding;
pub use proposing::LEAST_WEIGHT;
pub use simplex::{COLD_ITERATIONS, Simplex, SolveEnd, WARM_ITERATIONS};
pub use sparse_basis::{Basis, Stop};
