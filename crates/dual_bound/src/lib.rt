//! The lower bound on the cost of a portfolio that the weights of a leaf give.
#![tactic(auto)]

mod changes;
mod column;
mod columns;
mod date_days;
mod day_table;
mod form;
mod laws;
mod leaf_bound;
mod leasts;
mod loads;
mod rooms;
mod series;
mod sums;
mod tableau;
mod worth;

pub use columns::Columns;
pub use form::Form;
pub use laws::bound_laws;
pub use leaf_bound::{bound, price_on, priced_needs};
