//! The plan that is built backward: own offers of need dates, the prices that are bootstrapped from them, and the purchases
//! that cover the needs from the last to the first; and how a plan is taken down until no line can go down alone.
#![tactic(auto)]

mod backward;
mod bisection;
mod laws;
mod offers;
mod order;
mod price_curve;
mod residual;
mod span;
mod spare;
mod trimming;

pub use backward::{BuildEnd, build};
pub use bisection::least_passing;
pub use laws::{offer_laws, plan_laws, price_laws};
pub use offers::own_offer;
pub use price_curve::bootstrap;
pub use trimming::{trim, trim_at};
