//! The terms of a subscription to a SLGS time deposit security: which requests keep them, and what security follows.
#![tactic(auto)]

mod fault;
mod laws;
mod rules;

pub use fault::RuleFault;
pub use laws::rule_laws;
pub use rules::classify;
