//! The greatest common cap on the SLGS rates at which an escrow is found.
#![tactic(auto)]

mod ends;
mod finding;
mod progress;
#[cfg(test)]
mod tests;

pub use ends::{CapEnd, CappedEscrow, CaseAtZero, GreatestCap, Obstacle, Unfound};
pub use finding::find_cap;
