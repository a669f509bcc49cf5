//! What an issue file says.
use crate::lists::{Bonds, Flows};
use escrow_units::{Cents, ClosedDays, Day, Price8, Rate, YieldUnits};

/// An old bond that is refunded. It pays interest by the half-year, last at maturity.
#[derive(Clone, Copy, Debug, Default, PartialEq, Eq)]
pub struct Bond {
    /// The day on which its principal is due.
    pub maturity: Day,
    /// Its principal, in cents: at most 10^13.
    pub principal: Cents,
    /// Its coupon, in thousandths of a percentage point: at most 30 percent.
    pub coupon: Rate,
}

/// The call of the old bonds.
#[derive(Clone, Copy, Debug, PartialEq, Eq)]
pub struct Call {
    /// The day on which the bonds that mature later are paid off.
    pub day: Day,
    /// The price, in units of 10^-8 percent of par: from 10 to 300 percent.
    pub price: Price8,
}

/// The restricted yield, which the yield of the escrow may not materially exceed.
#[derive(Clone, Copy, Debug, PartialEq, Eq)]
pub enum Restricted {
    /// It is given: at most 29.99 percent.
    Given(YieldUnits),
    /// It is the yield of the refunding issue's own payments against its issue price.
    Computed {
        /// The row in which the price stands, from 1.
        row: u32,
        /// The price, in cents.
        price: Cents,
    },
}

/// What an issue file says.
#[derive(Debug, Drop)]
pub struct Issue {
    /// The settlement day, from 2000-01-01 to 2150-01-01.
    pub settle: Day,
    /// The call of the old bonds, where they are called; it is after settlement.
    pub call: Option<Call>,
    /// The old bonds, each of which matures after settlement.
    pub bonds: Bonds,
    /// Needs that are given as such, from settlement on.
    pub direct: Flows,
    /// The greatest opening cash, in cents; 0 where not given.
    pub cash: Cents,
    /// The restricted yield.
    pub restricted: Restricted,
    /// The payments of the refunding issue, after settlement.
    pub pays: Flows,
    /// The greatest gap that is allowed, in cents; 0 where not given.
    pub allowance: Cents,
    /// The greatest number of nodes of the search, from 1 to 10,000; 1,000 where not given.
    pub budget: u32,
    /// The days on which no receipt comes: weekends or not, and at most 1,000 days, each after settlement.
    pub closed: ClosedDays,
}
