//! The daily table of greatest rates, the offers beside it, and the greatest rate for a maturity.
#![tactic(auto)]

mod draft;
mod fields;
mod index;
mod lookup;
mod read;
mod row;
mod table;

pub use index::RateIndex;
pub use lookup::maximum;
pub use read::read_rates;
pub use table::{Offer, Offers, RateFile, RateRange, RateRanges};
