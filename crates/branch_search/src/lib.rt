//! The search for the cheapest permitted purchases, with a tree that shows how much cheaper others can be.
//!
//! A small stack is enough: the steps of a search aren't inlined that have tables as locals, or make what it holds, so that those of
//! several steps don't stand beside one another.
#![tactic(auto)]

mod cheapest;
mod found;
mod gaps;
mod growing;
mod hint;
mod parts;
mod pointing;
mod searching;
mod watcher;

pub use found::{Found, SearchEnd, Spent, found_laws, purchases_of, settled_laws};
pub use hint::Hint;
pub use searching::{search, search_from};
pub use watcher::{Sight, Standing, Unwatched, Watcher};
