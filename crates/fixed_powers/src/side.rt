//! The side of rounding.

/// The side of the exact value to which a number is rounded.
#[derive(Clone, Copy, Debug, PartialEq, Eq)]
pub enum Side {
    /// At most the exact value.
    Low,
    /// At least the exact value.
    High,
}
