//! Tests of what is said beside a verdict: reports, savings, rolls, caps, and what holdings leave.
//!
//! They stand in a crate of their own, since a crate with tests is proved twice, with them and without.
#![tactic(auto)]

#[cfg(test)]
mod held_escrow_tests;
#[cfg(test)]
mod plans;
#[cfg(test)]
mod rate_cap_tests;
#[cfg(test)]
mod roll_plan_tests;
#[cfg(test)]
mod savings_table_tests;
#[cfg(test)]
mod verification_report_tests;
