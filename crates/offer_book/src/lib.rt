//! The lines of an escrow: opening cash, and the SLGS securities and marketable notes on offer, what they cost and pay, and
//! the book of one case.
#![tactic(auto)]

mod book;
mod coefficients;
mod files;
mod line;
mod market;
mod offers;
mod payment_days;
mod sums;

pub use book::Book;
pub use coefficients::{
    COEFFICIENT_SCALE, Coefficients, PayCoefficients, ScaledCost, coefficient_laws,
};
pub use files::{book_laws, make_book};
pub use line::{Line, LineKind};
pub use offers::{offer_laws, slgs_lines};
pub use payment_days::PaymentDays;
pub use sums::{coarse_step, line_depth, line_depths};
