//! Better prices for a leaf: the best of the linear program's prices, the given leaf and each of its steps.
#![tactic(auto)]

mod given;
mod parts;
mod payers;
mod steps;
mod sweep;
mod table;
mod tuner;

pub use tuner::{Tuner, improve};
