//! A common cap on the rates of SLGS securities, and the search of the greatest at which an escrow is found.
#![tactic(auto)]

mod cap;
mod search;

pub use cap::{at_cap, cap_laws, top_rate};
pub use search::{CapSearch, search_laws};
