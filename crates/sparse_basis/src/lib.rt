//! A basis of a linear program on dates: its columns, sparse and made triangular, in fixed point.
//!
//! The rows are runs of dates that share a price, and behind them the multiplier of the yield limit where it is free. Nothing is
//! said of how exact a solution is: who uses it compares exact bounds and tests exact plans.
#![tactic(auto)]

mod basis;
mod cells;
mod factor;
mod factored;
mod factoring;
mod matrix;
mod number;
mod repairing;
mod scatter;
mod segments;
mod solving;
mod sparse;
mod total;

pub use basis::{Basis, LineState, Multiplier};
pub use cells::{product, push_within, put, read};
pub use factored::FactoredBasis;
pub use matrix::{Matrix, last_date};
pub use number::{AMOUNT_PLACES, Amount, PRICE_PLACES, Price};
pub use segments::{Segment, Segments};
pub use sparse::{Entry, MOST_ENTRIES, Stop};
pub use total::{TOTAL_PLACES, Total};
