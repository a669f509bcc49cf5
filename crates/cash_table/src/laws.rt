//! Laws of portfolios, for callers to cite. None of these calls does anything.

ghost use Rattle.std.specs.Prelude.{◌≡◌, ℕ, ◌+◌, ◌*◌, ◌^◌, ◌≤◌, ◌↔◌, List, [], drop, slice_index};
ghost use Rattle.std.specs.List.{All};
ghost use Rattle.escrow_units.specs.declared.limits.TheConstants.{FLOWS_LIMIT};
ghost use Rattle.escrow_units.specs.Flows.{indexed, total, FallWithinFortyYears};
ghost use Rattle.escrow_units.specs.PresentValue.{YieldLiesIn};
ghost use Rattle.cash_table.specs.LaterFlows.{HaveLaterAmount};
ghost use Rattle.cash_table.specs.Points.{BeyondLimitAreExcluded, BeyondLimitAreNoRivals, ExcludedAreNoRivals};
ghost use Rattle.offer_book.specs.Book.{AreWithoutInterest, BookContents, IsBook};
ghost use Rattle.offer_book.specs.Portfolio.{IsPermitted, Meets, cost, security_cost, security_flows, total_needs};

/// A law: every permitted portfolio of securities without interest that meets the needs costs at least the sum of the
/// needs. So no portfolio is cheaper than one that costs just that.
pub fn meets_cost()
    ensures { (book : BookContents) (plan : List ℕ)
        → IsBook book
        → AreWithoutInterest book.lines
        → IsPermitted book plan
        → Meets book plan
        → total_needs book ≤ cost book plan }
{}

/// A law: the exact yield of every permitted portfolio of securities without interest is 0.
pub fn zero_yield()
    ensures { (book : BookContents) (plan : List ℕ)
        → IsBook book
        → AreWithoutInterest book.lines
        → IsPermitted book plan
        → YieldLiesIn (indexed book.days.settle (security_flows book plan)) (security_cost book plan) 0 0 }
{}

/// A law: without interest the security flows of a permitted portfolio come to its security cost.
pub fn zero_interest_total()
    ensures { (book : BookContents) (plan : List ℕ)
        → IsBook book
        → AreWithoutInterest book.lines
        → IsPermitted book plan
        → total (security_flows book plan) ≡ security_cost book plan }
{}

/// A law: security flows fall from settlement to 40 years after it. Where there are any, one above 0 falls at an index of 1
/// or more, since each security matures there; so the yield matters.
pub fn flow_days()
    ensures within { (book : BookContents) (plan : List ℕ)
        → IsBook book
        → FallWithinFortyYears book.days.settle (security_flows book plan) }
    ensures later { (book : BookContents) (plan : List ℕ)
        → IsBook book
        → HaveLaterAmount book.days.settle (security_flows book plan) }
{}

/// A law: a permitted portfolio costs at most 1,720 billion dollars, and its securities pay at most 6,900 billion. So what they
/// pay and cost is within the 10^15 cents for which a yield is sought.
pub fn bounds()
    ensures cost { (book : BookContents) (plan : List ℕ)
        → IsBook book
        → IsPermitted book plan
        → cost book plan ≤ 172 * 10 ^ 12 }
    ensures flows { (book : BookContents) (plan : List ℕ)
        → IsBook book
        → IsPermitted book plan
        → total (security_flows book plan) ≤ 69 * 10 ^ 13 }
    ensures limit { (book : BookContents) (plan : List ℕ)
        → IsBook book
        → IsPermitted book plan
        → total (security_flows book plan) + security_cost book plan ≤ FLOWS_LIMIT }
{}

/// A law: the cost of a permitted portfolio is its opening cash, which is the units of line 0, and its security cost.
pub fn cost_parts()
    ensures { (book : BookContents) (plan : List ℕ)
        → IsBook book
        → IsPermitted book plan
        → cost book plan ≡ slice_index plan 0 + security_cost book plan }
{}

/// A law: a permitted portfolio has no security flows exactly where every line from 1 has 0 units, and exactly where
/// its security cost is 0.
pub fn empty_flows()
    ensures units { (book : BookContents) (plan : List ℕ)
        → IsBook book
        → IsPermitted book plan
        → (security_flows book plan ≡ []) ↔ All (λ units. units ≡ 0) (drop 1 plan) }
    ensures cost { (book : BookContents) (plan : List ℕ)
        → IsBook book
        → IsPermitted book plan
        → (security_flows book plan ≡ []) ↔ (security_cost book plan ≡ 0) }
{}

/// Laws of points: a portfolio that is excluded one unit below a limit is no rival under the limit. Of books that keep every
/// limit and of yield limits from one unit to 30 percent: a portfolio whose yield isn't within the limit is excluded one unit
/// below it, and so is no rival.
pub fn excluded_laws()
    ensures rivals { ExcludedAreNoRivals }
    ensures beyond { BeyondLimitAreExcluded }
    ensures limit { BeyondLimitAreNoRivals }
{}
