//! The greatest rate for one maturity.
ghost use Rattle.std.specs.Prelude.{◌≡◌, ◌↔◌, Some, IsNone, IfSome, true, false, All, Any, Contains};
ghost use Rattle.rate_table.specs.Table.{AreApart, holds as holds_day, maximum_of};
ghost use Rattle.rate_table.specs.declared.table.RateRange.{RateRange};

use crate::table::{RateFile, RateRange};
use escrow_units::{Day, Rate};

// Whether a range holds a day.
fn holds(range: &RateRange, day: Day) -> bool
    ensures { result ≡ holds_day day range.now }
{
    range.from <= day && day <= range.to
}

// The rate of the first range that holds a day.
fn first_rate(ranges: &[RateRange], day: Day) -> Option<Rate>
    ensures { result ≡ maximum_of ranges.now day }
{
    ranges
        .iter()
        .find(|range| holds(range, day))
        .map(|range| range.most)
}

/// The greatest rate for a maturity, in thousandths of a percentage point: that of the range that holds the day.
///
/// None exactly where no range holds it. It takes no memory.
pub fn maximum(file: &RateFile, maturity: Day) -> Option<Rate>
    requires { AreApart file.now.ranges }
    ensures value { result ≡ maximum_of file.now.ranges maturity }
    ensures held { (range : RateRange) → Contains file.now.ranges range → holds_day maturity range ≡ true
        → result ≡ Some range.most }
    ensures rate { IfSome result (λ rate. Any (λ range. (holds_day maturity range ≡ true) × (range.most ≡ rate)) file.now.ranges) }
    ensures none { IsNone result ↔ All (λ range. holds_day maturity range ≡ false) file.now.ranges }
{
    first_rate(file.ranges.as_slice(), maturity)
}
