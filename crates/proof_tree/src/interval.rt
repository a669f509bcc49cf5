//! Intervals of units.

/// An interval of units of a line or of a sum, both ends included.
#[derive(Clone, Copy, Debug, PartialEq, Eq)]
pub struct Interval {
    /// The least number of units.
    pub low: u64,
    /// The greatest number of units.
    pub high: u64,
}
