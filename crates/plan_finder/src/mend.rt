//! A plan that is short is mended, at the least cost that one line at a time allows.
ghost use Rattle.std.specs.Prelude.{◌≡◌, ℕ, ◌*◌, ◌^◌, ◌<◌, ◌≤◌, IfSome, length, slice_index_or};
ghost use Rattle.escrow_units.specs.Flows.{total};
ghost use Rattle.day_sums.specs.Summed.{total_by};
ghost use Rattle.offer_book.specs.Portfolio.{IsPermittedUnits};
ghost use Rattle.offer_book.specs.declared.line.Line.{Line};
ghost use Rattle.plan_finder.specs.Mend.{IsRise};

use crate::ledger::{Ledger, Shortage};
use crate::terms::Purchase;
use escrow_units::{Cents, Day, Flow};
use offer_book::{Book, Line};

// A rise of a line to more units.
#[derive(Clone, Copy)]
struct Rise {
    line: u16,
    units: u64,
    // What it costs, in cents, and what is still short afterwards counts twice and a cent.
    weight: u64,
}

// What flows come to up to a day, in cents.
fn paid_until(flows: &[Flow], day: Day) -> u64
    requires { total flows.now < 2 ^ 64 }
    ensures { result ≡ total_by day flows.now }
{
    let mut paid = 0;
    for flow in flows {
        if flow.day <= day {
            paid += flow.cents.0;
        }
    }
    paid
}

// How much more a purchase pays up to a day than another, in cents.
fn gain(held: &Purchase, other: &Purchase, day: Day) -> u64
    requires held { total held.now.payments.items < 2 ^ 64 }
    requires other { total other.now.payments.items < 2 ^ 64 }
{
    paid_until(other.payments.as_slice(), day).saturating_sub(paid_until(
        held.payments.as_slice(),
        day,
    ))
}

// The first units of a line beyond those that are held, if there are any.
fn next_units(line: &Line, held: u64) -> Option<u64>
    ensures { IfSome result (λ units. (line.now.least ≤ units) × (held < units) × (units ≤ line.now.most)) }
{
    if line.most <= held || line.most < line.least {
        None
    } else {
        Some(line.least.max(held + 1))
    }
}

// Units that cover a shortage where each pays as much as the first ones do on average, or the most.
fn enough_units(line: &Line, held: u64, first: u64, gain: u64, short: u64) -> u64
    requires first { first ≤ line.now.most }
    requires more { held < first }
    requires gain { 0 < gain }
    ensures first { first ≤ result }
    ensures most { result ≤ line.now.most }
{
    let more = short.saturating_mul(first - held).div_ceil(gain);
    held.saturating_add(more).max(first).min(line.most)
}

// What a rise weighs: what it costs, and twice what is still short with a cent more, in cents.
fn weight(held: Cents, bought: Cents, filled: u64, short: u64) -> u64 {
    let cost = bought.0.saturating_sub(held.0);
    if filled < short {
        (short - filled)
            .saturating_mul(2)
            .saturating_add(1)
            .saturating_add(cost)
    } else {
        cost
    }
}

// The rise of a line that covers a shortage, or as much of it as the line can, if it pays anything by then.
#[inline(never)]
fn rise_of(ledger: &Ledger, line: u16, shortage: &Shortage) -> Option<Rise>
    requires { line < length ledger.now.book.lines }
    ensures { IfSome result (IsRise ledger.now.book) }
{
    let offer = ledger.book().line(line);
    let units = ledger.units(line);
    let first = next_units(offer, units)?;
    let held = ledger.held(line);
    let gained = gain(held, &ledger.purchase(line, first), shortage.day);
    if gained == 0 {
        return None;
    }
    let enough = enough_units(offer, units, first, gained, shortage.cents);
    let bought = ledger.purchase(line, enough);
    let filled = gain(held, &bought, shortage.day);
    Some(Rise {
        line,
        units: enough,
        weight: weight(held.cost, bought.cost, filled, shortage.cents),
    })
}

// The one of two rises that weighs less, the earlier one where they weigh the same.
fn lighter(book: &Book, first: Option<Rise>, second: Option<Rise>) -> Option<Rise>
    requires first { IfSome first (IsRise book.now) }
    requires second { IfSome second (IsRise book.now) }
    ensures { IfSome result (IsRise book.now) }
{
    match (first, second) {
        (Some(one), Some(other)) => Some(if other.weight < one.weight {
            other
        } else {
            one
        }),
        (None, other) => other,
        (one, None) => one,
    }
}

// The rise of one line that covers a shortage at the least cost.
fn cheapest_rise(ledger: &Ledger, shortage: &Shortage) -> Option<Rise>
    ensures { IfSome result (IsRise ledger.now.book) }
{
    let mut cheapest = None;
    for line in 0..ledger.book().line_count() {
        cheapest = lighter(ledger.book(), cheapest, rise_of(ledger, line, shortage));
    }
    cheapest
}

// The rise of one line that covers the first shortage at the least cost, if there is any.
fn next_rise(ledger: &Ledger) -> Option<Rise>
    ensures { IfSome result (IsRise ledger.now.book) }
{
    match ledger.shortage() {
        Some(shortage) => cheapest_rise(ledger, &shortage),
        None => None,
    }
}

/// Raises lines while the plan is short, each time the one that covers the first shortage at the least cost: at most four times
/// for each line, and 64 times. It answers how often.
pub(crate) fn mend(ledger: &mut Ledger) -> u32
    ensures { ledger.new.book ≡ ledger.old.book }
{
    let most = 4 * u32::from(ledger.book().line_count()) + 64;
    for round in 0..most {
        match next_rise(ledger) {
            Some(rise) => ledger.put(rise.line, rise.units),
            None => return round,
        }
    }
    most
}
