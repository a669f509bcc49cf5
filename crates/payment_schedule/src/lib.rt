//! Payments by their terms: when each falls, for which part of a year it bears interest, and whether the principal is paid with
//! it. By them any amount is paid, and no calendar is read again.
#![tactic(auto)]

mod schedule;

pub use schedule::{HALF_YEAR, ScheduledPayment, scheduled_flows};
