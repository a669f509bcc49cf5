//! The rules that a request may break.
use thiserror::Error;

/// Why a request for a SLGS time deposit security is refused.
#[derive(Clone, Copy, Debug, PartialEq, Eq, Error)]
pub enum RuleFault {
    /// The daily table has no rate at that maturity, and the security would bear interest.
    #[error("no rate for this maturity")]
    NoRate,
    /// The rate exceeds the greatest rate of the daily table at that maturity.
    #[error("rate above the daily table")]
    RateAboveTable,
    /// Maturity comes less than 30 days after settlement, or less than 15 where the rate is 0.
    #[error("term too short")]
    TooShort,
    /// Maturity comes more than 40 years after settlement.
    #[error("term too long")]
    TooLong,
    /// The first payment date is a certificate's, or none of the security's dates, or too early or late.
    #[error("first payment date not permitted")]
    FirstDate,
}
