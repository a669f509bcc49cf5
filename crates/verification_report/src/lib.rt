//! The texts in which an escrow is reported: its summary, and the verification report.
#![tactic(auto)]

mod cash_flow;
mod figures;
mod proof;
mod purchases;
mod text;
mod verification;

pub use figures::{Figures, push_summary, push_yield};
pub use text::push_line;
pub use verification::{report, summary};
