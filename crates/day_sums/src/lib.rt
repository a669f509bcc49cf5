//! Sums of amounts by day.
#![tactic(auto)]

mod laws;
mod sums;
#[cfg(test)]
mod tests;

pub use laws::summed_laws;
pub use sums::DaySums;
