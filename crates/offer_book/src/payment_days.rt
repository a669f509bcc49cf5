//! The days that decide when what is bought is paid.

use escrow_units::{ClosedDays, Day};

/// The settlement day, and the days on which no receipt comes.
#[derive(Debug, Drop)]
pub struct PaymentDays {
    /// The settlement day, on which opening cash is there.
    pub settle: Day,
    /// The closed days: a payment of one of them comes on the next open day.
    pub closed: ClosedDays,
}
