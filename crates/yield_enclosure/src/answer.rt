//! What is known of a yield.

use escrow_units::YieldUnits;

/// What is known of the exact yield of flows for a cost.
#[derive(Clone, Copy, Debug, PartialEq, Eq)]
pub enum YieldAnswer {
    /// There are no flows and the cost is 0, so that there is no yield.
    Empty,
    /// The cost is more than the sum of the flows.
    Negative,
    /// The exact yield lies from `lo` to `hi`, which are at most two units apart.
    Between {
        /// The lower end.
        lo: YieldUnits,
        /// The upper end.
        hi: YieldUnits,
    },
    /// The flows are worth the cost even at 30 percent.
    Above,
}
