//! Whether a certificate is accepted for a case.
#![tactic(auto)]

mod checker;
mod closing;
mod hearing;
mod laws;
mod trial;
mod verdict;
mod walk;
mod whole;

pub use checker::Checker;
pub use laws::{reason_laws, text_verdict_laws, verdict_laws};
pub use verdict::{Portfolio, Reason, Verdict};
pub use whole::check;
