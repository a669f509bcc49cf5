//! Made-up cases, each from a number: files to try the program on.
#![tactic(auto)]

mod dates;
mod draws;
mod files;
mod rows;

pub use files::{Made, make};

#[cfg(test)]
mod tests;
