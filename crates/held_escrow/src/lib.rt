//! An escrow in which holdings are kept: what it receives of them already serves its needs, and only what is lacking is bought.
//!
//! The yield is that of what is bought alone, which is this project's own choice.
#![tactic(auto)]

mod case;
mod held;
mod laws;
mod shortfall;

pub use case::held_case;
pub use held::read_held;
pub use laws::held_laws;
pub use shortfall::residual;
