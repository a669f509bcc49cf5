//! Tests of the program's one call that no case of `escrow_cases` can say: files whose lines are worked out, made-up cases, and bounds.
//!
//! They stand in a crate of their own, since a crate with tests is proved twice, with them and without.
#![tactic(auto)]

#[cfg(test)]
mod bound_tests;
#[cfg(test)]
mod limit_tests;
#[cfg(test)]
mod make_tests;
#[cfg(test)]
mod test_runs;
#[cfg(test)]
mod tests;
