//! Ranges of units, one for each line and one for each sum of a book, as the splits of a tree narrow them.
#![tactic(auto)]

mod costing;
mod laws;
mod lines;
mod ranges;
mod sums;

pub use costing::least_cost;
pub use laws::range_laws;
pub use ranges::Ranges;
