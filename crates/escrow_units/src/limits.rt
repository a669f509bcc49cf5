//! The limits that files, contracts and definitions share. Each is this project's own.

/// The greatest amount of a field, and the most that the needs, or the payments, of an issue come to: 10^13 cents.
pub const AMOUNT_LIMIT: u64 = 10_000_000_000_000;

/// The most that flows come to, with what they cost, where their present value is sought: 10^15 cents.
pub const FLOWS_LIMIT: u64 = 1_000_000_000_000_000;

/// The greatest rate or coupon, in thousandths of a percentage point: 30 percent.
pub const GREATEST_RATE: u32 = 30_000;

/// The least price, in units of 10^-8 percent of par: 10 percent.
pub const LEAST_PRICE: u64 = 1_000_000_000;

/// The greatest price, in units of 10^-8 percent of par: 300 percent.
pub const GREATEST_PRICE: u64 = 30_000_000_000;

/// The greatest yield of a field, in units of 10^-10: 29.99 percent.
pub const GREATEST_GIVEN_YIELD: u64 = 2_999_000_000;

/// The greatest yield that is tried, in units of 10^-10: 30 percent.
pub const GREATEST_YIELD: u64 = 3_000_000_000;

/// The greatest index: 40 years of twelve months of thirty days.
pub const GREATEST_INDEX: u32 = 14_400;

/// The fewest days from settlement to a first payment of interest.
pub const FIRST_WAIT: u32 = 30;

/// The most days on which an issue needs money.
pub const MOST_NEED_DATES: usize = 480;

/// The most lines on offer.
pub const MOST_LINES: usize = 512;
