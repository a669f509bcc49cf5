//! What is still needed beside holdings.

ghost use Rattle.std.specs.Prelude.{◌≡◌, ◌≤◌, ◌≤ℤ◌, ℤ, length, IfOk};
ghost use Rattle.escrow_units.specs.Flows.{ComeInOrder, total};
ghost use Rattle.day_sums.specs.Summed.{total_by};
ghost use Rattle.offer_book.specs.Book.{BookContents};
ghost use Rattle.held_escrow.specs.HeldCase.{AreShortAlike, MeetAlike, with_needs};
ghost use Rattle.held_escrow.specs.Passed.{CountsOn};
ghost use Rattle.held_escrow.specs.Residual.{IsResidual, StandsForNeeds, residual_of};

use escrow_desk::NoMemory;
use escrow_units::{AMOUNT_LIMIT, Cents, Day, Flow};
use std::alloc::Global;

// How far amounts in order of day were passed.
#[derive(Clone, Copy)]
struct Passed {
    // How many of them.
    count: usize,
    // What they come to.
    cents: u64,
}

// Amounts, passed up to and on a day, from where they were passed before it.
fn passed_by(flows: &[Flow], before: Passed, day: Day) -> Passed
    requires order { ComeInOrder flows.now }
    requires sum { total flows.now ≤ AMOUNT_LIMIT }
    requires counts { (t : ℤ) → day ≤ℤ t → CountsOn flows.now before t }
    requires count { before.count ≤ length flows.now }
    ensures cents { result.cents ≡ total_by day flows.now }
    ensures counts { (t : ℤ) → day ≤ℤ t → CountsOn flows.now result t }
    ensures count { result.count ≤ length flows.now }
{
    let mut passed = before;
    for flow in &flows[before.count..] {
        if day < flow.day {
            return passed;
        }
        passed.count += 1;
        passed.cents += flow.cents.0;
    }
    passed
}

/// What is still needed beside holdings: on each need date, in order, the growth of the greatest shortfall so far, without zeros. The
/// shortfall of a day is the needs up to and on it, less the holdings up to and on it, or 0. Both lists come in order of day, and are
/// at most 10^13 cents together, each.
///
/// A portfolio meets the residual needs exactly where it meets the needs with the holdings, whatever its book offers; else the first
/// day on which it is short is the same. So it is of whatever is paid. Each list is gone through once.
///
/// # Errors
///
/// Where memory ran out.
pub fn residual(alloc: Global, needs: &[Flow], held: &[Flow]) -> Result<Vec<Flow>, NoMemory>
    requires needs_order { ComeInOrder needs.now }
    requires held_order { ComeInOrder held.now }
    requires needs_sum { total needs.now ≤ AMOUNT_LIMIT }
    requires held_sum { total held.now ≤ AMOUNT_LIMIT }
    ensures residual { IfOk result (λ residual. IsResidual needs.now held.now residual.items) }
    ensures value { IfOk result (λ residual. residual.items ≡ residual_of needs.now held.now) }
    ensures paid { IfOk result (λ residual. StandsForNeeds needs.now held.now residual.items) }
    ensures meet { IfOk result (λ residual. (book : BookContents) → MeetAlike held.now (with_needs book needs.now) (with_needs book residual.items)) }
    ensures short { IfOk result (λ residual. (book : BookContents) → AreShortAlike held.now (with_needs book needs.now) (with_needs book residual.items)) }
{
    let mut residual = Vec::new(alloc);
    let mut wanted = Passed { count: 0, cents: 0 };
    let mut kept = Passed { count: 0, cents: 0 };
    let mut greatest = 0;
    for need in needs {
        wanted = passed_by(needs, wanted, need.day);
        kept = passed_by(held, kept, need.day);
        let short = wanted.cents.saturating_sub(kept.cents);
        if short > greatest {
            residual.push(Flow {
                day: need.day,
                cents: Cents(short - greatest),
            })?;
            greatest = short;
        }
    }
    Ok(residual)
}
