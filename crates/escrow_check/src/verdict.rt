//! What is answered to a certificate.

use bound_certificate::CertFault;
use cash_table::Plan;
use escrow_units::{Cents, Day};
use yield_enclosure::YieldAnswer;

/// The portfolio of an accepted certificate.
#[derive(Drop)]
pub struct Portfolio {
    /// The units of each line of the case.
    pub plan: Plan,
    /// What it costs, opening cash included.
    pub cost: Cents,
    /// The yield of its securities.
    pub answer: YieldAnswer,
    /// By how much a rival may cost less.
    pub gap: Cents,
}

/// Why a certificate isn't accepted: the first reason that stands, in this order.
#[derive(Clone, Copy, Debug, PartialEq, Eq)]
pub enum Reason {
    /// The bytes are no text of a certificate.
    Grammar(CertFault),
    /// The first purchase that names a line that isn't offered, or units that aren't permitted; its line.
    NotPermitted(u16),
    /// The first day on which the portfolio doesn't meet the needs.
    ShortOn(Day),
    /// The portfolio's yield isn't within the limit.
    YieldAbove,
    /// The first split that isn't proper, by its number, from 1.
    BadSplit(u32),
    /// The first leaf or point that isn't closed, by its number, from 1.
    WeakLeaf(u32),
    /// The gap is more than the issue allows.
    GapAbove,
}

/// What is answered to a certificate.
#[derive(Drop)]
pub enum Verdict {
    /// It is accepted, with its portfolio.
    Yes(Portfolio),
    /// It is accepted, and shows that there is no rival.
    YesNone,
    /// It isn't accepted.
    No(Reason),
}
