//! Plans for every case: a dive over the linear relaxation, made exact in cents.
//!
//! A dive fixes one line after the other where the relaxation is cheapest. A ledger keeps what its plan costs and pays exactly; by it
//! the plan is mended where it is short, and trimmed where it pays more than it has to. Then dives over parts of the lines look for a
//! cheaper plan near the best one.
//!
//! A small stack is enough: what is kept stands on the heap, and functions that have tables or payments of a line as locals aren't inlined,
//! so that those of several calls don't stand beside one another.
#![tactic(auto)]

mod account;
mod again;
mod best;
mod dive;
mod draw;
mod finder;
mod finding;
mod ledger;
mod limit;
mod mend;
mod neighbours;
mod order;
mod parts;
mod search;
mod terms;
mod trimming;

pub use finder::Finder;
pub use finding::{Proposal, find};
pub use limit::YieldLimit;
pub use neighbours::{Neighbours, next_to};
