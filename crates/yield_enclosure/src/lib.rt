//! The exact yield of flows for a cost, as an interval of at most two units of 10^-10.
#![tactic(auto)]

mod answer;
mod enclosure;
mod laws;
mod timeline;

pub use answer::YieldAnswer;
pub use enclosure::{interval, within};
pub use laws::{limit_laws, zero_yield_law};
