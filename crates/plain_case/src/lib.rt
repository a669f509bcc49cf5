//! Plain cases, as laws over their definitions: their backward plan and their bootstrapped prices close the root.
#![tactic(auto)]

mod laws;

pub use laws::{least_laws, plain_laws, plan_laws, purchase_laws};
