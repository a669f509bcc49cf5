//! Tests of the linear program: worked figures of `sparse_basis` and `price_lp`, each of several moves.
//!
//! They stand in a crate of their own, since a crate with tests is proved twice, with them and without.
#![tactic(auto)]

#[cfg(test)]
mod price_lp_tests;
#[cfg(test)]
mod sparse_basis_tests;
#[cfg(test)]
mod test_files;
