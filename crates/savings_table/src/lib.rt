//! What a refunding saves in present value, and what the limit on the yield of its escrow costs.
#![tactic(auto)]

mod discounting;
mod laws;
mod limits;
mod old_bonds;
mod savings;
mod signed;

pub use discounting::{PvRange, present};
pub use laws::one_set;
pub use limits::SERVICE_LIMIT;
pub use old_bonds::old_service;
pub use savings::{Savings, SignedRange, savings_of};
pub use signed::print_signed;
