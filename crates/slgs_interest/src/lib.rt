//! The payments of SLGS time deposit securities: interest to the cent, and the principal at maturity.
#![tactic(auto)]

mod flows;
mod interest;
mod laws;
mod leap_day;

pub use flows::{payments, schedule};
pub use laws::interest_laws;
