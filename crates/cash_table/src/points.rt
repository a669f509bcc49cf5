//! Whether a single portfolio is no rival.

ghost use Rattle.std.specs.Prelude.{◌≡◌, ◌≤◌, ◌<◌, ◌^◌, ◌*◌, ◌↔◌, ℤ, IsTrue, nat_lt};
ghost use Rattle.std.specs.List.{All, sum_by, zip};
ghost use Rattle.escrow_units.specs.Flows.{indexed, FallWithinFortyYears};
ghost use Rattle.escrow_units.specs.SlgsTerms.{IsSettlement};
ghost use Rattle.fixed_powers.specs.DiscountPowers.{one};
ghost use Rattle.fixed_powers.specs.PresentValues.{present_value};
ghost use Rattle.fixed_powers.specs.declared.side.Side.TheVariants.{Low};
ghost use Rattle.offer_book.specs.Book.{IsLine};
ghost use Rattle.offer_book.specs.Portfolio.{IsPermitted, IsPermittedUnits, line_payments, security_cost as security_cost_of};
ghost use Rattle.cash_table.specs.Points.{IsExcluded, is_excluded, low_value};

use crate::cash::first_short;
use crate::costs::security_cost;
use crate::plan::Plan;
use escrow_units::{Day, Flow, GREATEST_INDEX, index360};
use fixed_powers::{ONE, Powers};
use offer_book::{Book, Line, PaymentDays};

/// Whether a permitted portfolio is short on a day, or its securities are worth more than they cost at the yield of the
/// powers, rounded down.
///
/// The powers are of the low side, up to 14,400 days. Where they are those of one unit below a limit, a portfolio for which
/// this is true is no rival under the limit; and it is true of each portfolio whose yield isn't within the limit. It takes no
/// memory.
pub fn point_excluded(book: &Book, powers: &Powers, plan: &Plan) -> bool
    requires permitted { IsPermitted book.now plan.now }
    requires low { powers.now.side ≡ Low }
    requires longest { GREATEST_INDEX ≤ powers.now.longest }
    ensures value { result ≡ is_excluded book.now powers.now.yield_units plan.now }
    ensures meaning { IsTrue result ↔ IsExcluded book.now powers.now.yield_units plan.now }
{
    first_short(book, plan).is_some() || is_dearer(book, powers, plan)
}

// Whether the securities of a permitted portfolio are worth more than they cost.
fn is_dearer(book: &Book, powers: &Powers, plan: &Plan) -> bool
    requires permitted { IsPermitted book.now plan.now }
    requires low { powers.now.side ≡ Low }
    requires longest { GREATEST_INDEX ≤ powers.now.longest }
    ensures { result ≡ nat_lt (one * security_cost_of book.now plan.now) (low_value book.now powers.now.yield_units plan.now) }
{
    let lines = book.lines();
    let worth = lines_value(powers, book.payment_days(), &lines[1..], &plan.units()[1..]);
    ONE as u128 * (security_cost(book, plan).0 as u128) < worth
}

// What the payments of the bought lines are worth, in units of 2^-62 of a cent. A line without units pays nothing, so its
// dates aren't looked for.
fn lines_value(powers: &Powers, days: &PaymentDays, lines: &[Line], plan: &[u64]) -> u128
    requires longest { GREATEST_INDEX ≤ powers.now.longest }
    requires settlement { IsSettlement days.now.settle }
    requires lines { All (λ line. IsLine days.now line) lines.now }
    requires permitted { All (λ p. IsPermittedUnits p.0 p.1) (zip lines.now plan.now) }
    requires room { sum_by (λ p. present_value powers.now.side powers.now.yield_units (indexed days.now.settle (line_payments days.now p.0 p.1))) (zip lines.now plan.now) < 2 ^ 128 }
    ensures { result ≡ sum_by (λ p. present_value powers.now.side powers.now.yield_units (indexed days.now.settle (line_payments days.now p.0 p.1))) (zip lines.now plan.now) }
{
    let mut total = 0;
    for (line, units) in lines.iter().zip(plan) {
        if *units > 0 {
            total += flows_value(powers, days.settle, line.payments(days, *units).as_slice());
        }
    }
    total
}

// What flows are worth, in units of 2^-62 of a cent.
fn flows_value(powers: &Powers, settle: Day, flows: &[Flow]) -> u128
    requires longest { GREATEST_INDEX ≤ powers.now.longest }
    requires days { FallWithinFortyYears settle flows.now }
    requires room { present_value powers.now.side powers.now.yield_units (indexed settle flows.now) < 2 ^ 128 }
    ensures { result ≡ present_value powers.now.side powers.now.yield_units (indexed settle flows.now) }
{
    let mut total = 0;
    for flow in flows {
        total += flow.cents.0 as u128 * powers.power(index360(settle, flow.day)) as u128;
    }
    total
}
