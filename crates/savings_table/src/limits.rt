//! How much flows may come to.

/// The most that flows come to whose present value is sought between two cents: 2 * 10^15 cents. What the old bonds of an
/// issue pay without a call keeps to it, since what they pay with one keeps to 10^13 cents, at a price of at least 10 percent.
pub const SERVICE_LIMIT: u64 = 2_000_000_000_000_000;
