//! The issue file: settlement, the old bonds and their call, needs, and the refunding issue's own terms.
#![tactic(auto)]

mod add;
mod bond;
mod distinct_days;
mod draft;
mod issue;
mod laws;
mod limits;
mod lists;
mod read;
mod row;
mod schedule;

pub use issue::{Bond, Call, Issue, Restricted};
pub use laws::{bond_laws, needs_laws};
pub use lists::{Bonds, Flows};
pub use read::read_issue;
pub use schedule::needs;
