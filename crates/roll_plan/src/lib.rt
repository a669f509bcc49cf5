//! Rollovers: zero-interest certificates of indebtedness, planned beforehand, for what would lie idle in an escrow.
#![tactic(auto)]

mod file_terms;
mod moving;
mod planning;

pub use file_terms::terms_of;
pub use moving::rolled;
pub use planning::{Roll, rolls};
