//! Why a field is refused.
use thiserror::Error;

/// Why the bytes of a field are no number, date or price of its range.
#[derive(Clone, Copy, Debug, PartialEq, Eq, Error)]
pub enum NumberFault {
    /// The bytes don't spell a number.
    #[error("not a number")]
    BadNumber,
    /// The bytes don't spell a date of the calendar, as `2025-01-15`, of the years 1900 to 2199.
    #[error("not a date")]
    BadDate,
    /// The number is outside its range.
    #[error("out of range")]
    OutOfRange,
    /// The price is under 10 or over 300 percent of par.
    #[error("price out of range")]
    PriceRange,
}
