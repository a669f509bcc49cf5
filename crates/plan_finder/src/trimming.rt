//! Plans taken down as far as the needs allow, one line after another.
ghost use Rattle.std.specs.Prelude.{◌≡◌, ◌<◌, ◌≤◌, ◌↔◌, All, IsTrue, length, slice_index_or};
ghost use Rattle.offer_book.specs.Portfolio.{IsPermittedUnits, Meets, line_payments};
ghost use Rattle.backward_build.specs.Spare.{Cover};
ghost use Rattle.offer_book.specs.declared.line.Line.{Line};
ghost use Rattle.backward_build.specs.Spare.{ArePaid};

use crate::account::paid;
use crate::ledger::Ledger;
use crate::order::Ranked;
use backward_build::least_passing;
use cash_table::covers;
use escrow_units::MOST_NEED_DATES;

// A line of a plan, and what it has to pay up to each need date, in cents.
#[derive(Drop)]
struct Duty {
    line: u16,
    due: [u64; MOST_NEED_DATES],
}

// From how many units to how many the fewest lie that suffice: the high end suffices.
#[derive(Clone, Copy)]
struct Bracket {
    low: u64,
    high: u64,
}

// Whether units of a line pay what is due up to each need date.
#[inline(never)]
fn suffices(ledger: &Ledger, duty: &Duty, units: u64) -> bool
    requires line { duty.now.line < length ledger.now.book.lines }
    requires units { (d : Line) → units ≤ (slice_index_or ledger.now.book.lines duty.now.line d).most }
    ensures { (d : Line) → IsTrue result ↔ Cover ledger.now.book.needs duty.now.due (line_payments ledger.now.book.days (slice_index_or ledger.now.book.lines duty.now.line d) units) }
{
    let book = ledger.book();
    let bought = ledger.purchase(duty.line, units);
    covers(
        &paid(book, &bought),
        &duty.due,
        usize::from(book.need_count()),
    )
}

// Looks for the fewest units that suffice downward from some that do, in steps that double.
fn bracket_of(ledger: &Ledger, duty: &Duty, units: u64) -> Bracket
    requires line { duty.now.line < length ledger.now.book.lines }
    requires least { (d : Line) → (slice_index_or ledger.now.book.lines duty.now.line d).least ≤ units }
    requires most { (d : Line) → units ≤ (slice_index_or ledger.now.book.lines duty.now.line d).most }
    requires enough { (d : Line) → Cover ledger.now.book.needs duty.now.due (line_payments ledger.now.book.days (slice_index_or ledger.now.book.lines duty.now.line d) units) }
    ensures least { (d : Line) → (slice_index_or ledger.now.book.lines duty.now.line d).least ≤ result.low }
    ensures ordered { result.low ≤ result.high }
    ensures most { result.high ≤ units }
    ensures enough { (d : Line) → Cover ledger.now.book.needs duty.now.due (line_payments ledger.now.book.days (slice_index_or ledger.now.book.lines duty.now.line d) result.high) }
{
    let least = ledger.book().line(duty.line).least;
    let mut high = units;
    for doublings in 0..63u32 {
        let step = 1u64 << doublings;
        if high - least < step {
            return Bracket { low: least, high };
        }
        if suffices(ledger, duty, high - step) {
            high -= step;
        } else {
            return Bracket {
                low: high - step + 1,
                high,
            };
        }
    }
    Bracket { low: least, high }
}

// The fewest units of a line that suffice within a bracket, by bisection: more units pay no less.
fn fewest_within(ledger: &Ledger, duty: &Duty, bracket: Bracket) -> u64
    requires line { duty.now.line < length ledger.now.book.lines }
    requires ordered { bracket.low ≤ bracket.high }
    requires most { (d : Line) → bracket.high ≤ (slice_index_or ledger.now.book.lines duty.now.line d).most }
    requires enough { (d : Line) → Cover ledger.now.book.needs duty.now.due (line_payments ledger.now.book.days (slice_index_or ledger.now.book.lines duty.now.line d) bracket.high) }
    ensures least { bracket.low ≤ result }
    ensures most { result ≤ bracket.high }
    ensures enough { (d : Line) → Cover ledger.now.book.needs duty.now.due (line_payments ledger.now.book.days (slice_index_or ledger.now.book.lines duty.now.line d) result) }
{
    let passes = |units: u64| -> bool
        requires line { duty.now.line < length ledger.now.book.lines }
        requires most { (d : Line) → units ≤ (slice_index_or ledger.now.book.lines duty.now.line d).most }
        ensures { (d : Line) → IsTrue result ↔ Cover ledger.entry.now.book.needs duty.entry.now.due (line_payments ledger.entry.now.book.days (slice_index_or ledger.entry.now.book.lines duty.entry.now.line d) units) }
    { suffices(ledger, duty, units) };
    least_passing(bracket.low, bracket.high, passes)
}

// The fewest permitted units of a line that suffice, of which some do.
fn fewest(ledger: &Ledger, duty: &Duty, units: u64) -> u64
    requires line { duty.now.line < length ledger.now.book.lines }
    requires permitted { (d : Line) → IsPermittedUnits (slice_index_or ledger.now.book.lines duty.now.line d) units }
    requires enough { (d : Line) → Cover ledger.now.book.needs duty.now.due (line_payments ledger.now.book.days (slice_index_or ledger.now.book.lines duty.now.line d) units) }
    ensures permitted { (d : Line) → IsPermittedUnits (slice_index_or ledger.now.book.lines duty.now.line d) result }
    ensures most { result ≤ units }
    ensures enough { (d : Line) → Cover ledger.now.book.needs duty.now.due (line_payments ledger.now.book.days (slice_index_or ledger.now.book.lines duty.now.line d) result) }
{
    if suffices(ledger, duty, 0) {
        0
    } else {
        let bracket = bracket_of(ledger, duty, units);
        fewest_within(ledger, duty, bracket)
    }
}

// How many numbers of units were tried to take a line down by so many.
fn tries_of(taken: u64) -> u32 {
    2 * (64 - taken.leading_zeros()) + 2
}

// Takes a line down as far as the needs allow. It answers how many numbers of units were tried.
#[inline(never)]
fn trim_line(ledger: &mut Ledger, line: u16) -> u32
    requires line { line < length ledger.old.book.lines }
    requires meets { Meets ledger.old.book ledger.old.plan }
    ensures book { ledger.new.book ≡ ledger.old.book }
    ensures meets { Meets ledger.new.book ledger.new.plan }
{
    let units = ledger.units(line);
    let duty = Duty {
        line,
        due: ledger.due(line),
    };
    let fewest = fewest(ledger, &duty, units);
    ledger.put(line, fewest);
    tries_of(units.saturating_sub(fewest))
}

/// Takes each line of a plan that meets the needs down as far as the needs allow, in an order. What one gives back only
/// tightens the others, so that once is enough. It answers how many numbers of units of a line were tried.
pub(crate) fn trim(ledger: &mut Ledger, order: &[Ranked]) -> u32
    requires meets { Meets ledger.old.book ledger.old.plan }
    requires order { All (λ ranked. ranked.line < length ledger.old.book.lines) order.now }
    ensures book { ledger.new.book ≡ ledger.old.book }
    ensures meets { Meets ledger.new.book ledger.new.plan }
{
    let mut tries = 0u32;
    for ranked in order {
        if ledger.units(ranked.line) > 0 {
            tries = tries.saturating_add(trim_line(ledger, ranked.line));
        }
    }
    tries
}
