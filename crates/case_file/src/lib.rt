//! The case that the three input files give: a book, a limit on the yield, an allowance and a budget.
#![tactic(auto)]

mod case;
mod limit;

pub use case::{Case, read_case};
