//! The terms of securities.
use crate::amount::{Cents, Rate};
use crate::day::Day;

/// Money that falls on a day.
#[derive(Clone, Copy, Debug, Default, PartialEq, Eq)]
pub struct Flow {
    /// The day on which it falls.
    pub day: Day,
    /// How much, in cents.
    pub cents: Cents,
}

/// The denominations of the securities of one file, in dollars.
#[derive(Clone, Copy, Debug, PartialEq, Eq)]
pub struct Terms {
    /// The least purchase of one security, in dollars.
    pub minimum: u64,
    /// The step by which purchases rise, in dollars.
    pub step: u64,
}

/// The rate that a subscriber asks for.
#[derive(Clone, Copy, Debug, PartialEq, Eq)]
pub enum AskedRate {
    /// The greatest rate of the daily table for that maturity.
    Max,
    /// This rate.
    At(Rate),
}

/// The kinds of SLGS time deposit securities (31 CFR 344.4): they differ by length.
#[derive(Clone, Copy, Debug, PartialEq, Eq)]
pub enum SlgsKind {
    /// A certificate of indebtedness, up to one year.
    Certificate,
    /// A note, up to ten years.
    Note,
    /// A bond, longer than ten years.
    Bond,
}

/// A SLGS time deposit security.
#[derive(Clone, Copy, Debug, PartialEq, Eq)]
pub struct Slgs {
    /// The day on which it is bought and from which it earns interest.
    pub settle: Day,
    /// The day on which it pays its principal.
    pub maturity: Day,
    /// Its rate of interest, in thousandths of a percentage point.
    pub rate: Rate,
    /// Its kind.
    pub kind: SlgsKind,
    /// The day of its first payment; a certificate's is its maturity.
    pub first: Day,
}

/// How the dates of a series are counted back from maturity.
#[derive(Clone, Copy, Debug, PartialEq, Eq)]
pub enum StepRule {
    /// Each date has maturity's day of the month, or is the last day of a shorter month.
    SameDay,
    /// As `SameDay`, but from a month's last day each date is a month's last day.
    MonthEnd,
}
