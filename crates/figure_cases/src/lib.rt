//! What sheets of worked figures say of a case: its files, and leaves and ranges of its trees.
#![tactic(auto)]

mod files;
mod leaves;
mod sides;

pub use files::Files;
pub use leaves::{leaf_of, leaf_text, own_leaf};
pub use sides::{is_side, ranges_of};
