//! A test of issue files that no sheet of worked figures says: its rows are too many.
//!
//! It stands in a crate of its own, since a crate with tests is proved twice, with them and without.
#![tactic(auto)]

#[cfg(test)]
mod closed_day_tests;
