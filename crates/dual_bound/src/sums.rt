//! Sums of what days are worth: of a series up to each stop, and of one line.
ghost use Rattle.std.specs.Prelude.{All, ◌≡◌, ◌⊎◌, ◌+◌, ◌*◌, ◌<◌, ◌≤◌, ℕ, length};
ghost use Rattle.std.specs.List.{Contains};
ghost use Rattle.dual_bound.specs.Changes.{IsListedAt};
ghost use Rattle.dual_bound.specs.Columns.{AreSmallSums, AreSums, IsLightWorth, IsStopWithin, IsSummed, sum_after as sum_after_of, sum_before as sum_before_of, worth_together};
ghost use Rattle.dual_bound.specs.declared.date_days.DateDays.{DateDays as DateDaysOf};

use crate::date_days::DateDays;
use crate::series::Stop;
use crate::worth::Worth;
use proof_tree::PRICE_SCALE;

// The sum at a stop, from the sum before it.
fn sum_after(worths: &[Worth], before: Worth, stop: Stop) -> Worth
    requires there { IsStopWithin (length worths.now) stop }
    requires light { All IsLightWorth worths.now }
    requires small { before.above + before.below ≤ 100_000 * (2 * PRICE_SCALE) }
    ensures value { result ≡ sum_after_of worths.now before stop }
    ensures small { result.above + result.below ≤ before.above + before.below + 2 * PRICE_SCALE }
{
    match stop {
        Stop::Start => Worth { above: 0, below: 0 },
        Stop::Day(place) => before.plus(worths[usize::from(place)]),
    }
}

// The sum before a stop: nothing before the first.
fn sum_before(sums: &[Worth], at: usize) -> Worth
    requires { at ≤ length sums.now }
    ensures { result ≡ sum_before_of sums.now at }
{
    if at == 0 {
        Worth { above: 0, below: 0 }
    } else {
        sums[at - 1]
    }
}

/// Sums up what the days of series are worth, up to each stop.
pub(crate) fn sum_up(stops: &[Stop], worths: &[Worth], sums: &mut [Worth])
    requires there { All (IsStopWithin (length worths.now)) stops.now }
    requires light { All IsLightWorth worths.now }
    requires few { length stops.now ≤ 100_000 }
    requires every { length sums.old ≡ length stops.now }
    ensures { AreSums worths.now stops.now sums.new }
{
    let mut together = Worth { above: 0, below: 0 };
    for at in 0..stops.len() {
        together = sum_after(worths, together, stops[at]);
        sums[at] = together;
    }
}

// Mends the sums from a stop on, where what its day is worth has changed: up to the end of its series, or to where a sum is what it was.
fn mend(stops: &[Stop], worths: &[Worth], sums: &mut [Worth], from: usize)
    requires there { All (IsStopWithin (length worths.now)) stops.now }
    requires light { All IsLightWorth worths.now }
    requires few { length stops.now ≤ 100_000 }
    requires every { length sums.old ≡ length stops.now }
    requires small { AreSmallSums sums.old }
    requires from { from < length stops.now }
    ensures small { AreSmallSums sums.new }
    ensures summed { (k : ℕ) → k < length stops.now → (IsSummed worths.now stops.now sums.old k ⊎ (k ≡ from)) → IsSummed worths.now stops.now sums.new k }
{
    let mut before = sum_before(sums, from);
    for at in from..stops.len() {
        let together = sum_after(worths, before, stops[at]);
        if sums[at] == together {
            return;
        }
        sums[at] = together;
        before = together;
    }
}

// Mends the sums at some stops, whose days have changed. A sum that is summed up already stays so.
pub(crate) fn mend_at(stops: &[Stop], worths: &[Worth], sums: &mut [Worth], places: &[usize])
    requires there { All (IsStopWithin (length worths.now)) stops.now }
    requires light { All IsLightWorth worths.now }
    requires few { length stops.now ≤ 100_000 }
    requires every { length sums.old ≡ length stops.now }
    requires small { AreSmallSums sums.old }
    requires places { All (λ place. place < length stops.now) places.now }
    ensures small { AreSmallSums sums.new }
    ensures summed { (k : ℕ) → k < length stops.now → (IsSummed worths.now stops.now sums.old k ⊎ Contains places.now k) → IsSummed worths.now stops.now sums.new k }
{
    for place in places {
        mend(stops, worths, sums, *place);
    }
}

/// Mends the sums, where the days of some need dates have changed. All days are priced before, so that a series is gone through
/// once, from its first changed stop on: at a later one its sum is right already.
pub(crate) fn mend_dates(
    stops: &[Stop],
    worths: &[Worth],
    sums: &mut [Worth],
    lists: &[DateDays],
    dates: &[usize],
)
    requires there { All (IsStopWithin (length worths.now)) stops.now }
    requires light { All IsLightWorth worths.now }
    requires few { length stops.now ≤ 100_000 }
    requires every { length sums.old ≡ length stops.now }
    requires small { AreSmallSums sums.old }
    requires dates { All (λ date. date < length lists.now) dates.now }
    requires lists { All (λ (list : DateDaysOf). All (λ place. place < length stops.now) list.places.items) lists.now }
    requires others { (k : ℕ) → k < length stops.now → IsSummed worths.now stops.now sums.old k ⊎ IsListedAt dates.now lists.now k }
    ensures { AreSums worths.now stops.now sums.new }
{
    for date in dates {
        mend_at(stops, worths, sums, lists[*date].places.as_slice());
    }
}

/// What a cent on each of some days is worth, together.
pub(crate) fn sum_of(worths: &[Worth], places: &[u16]) -> Worth
    requires there { All (λ place. place < length worths.now) places.now }
    requires light { All IsLightWorth worths.now }
    requires few { length places.now ≤ 84 }
    ensures value { result ≡ worth_together worths.now places.now }
    ensures light { result.above + result.below ≤ 84 * (2 * PRICE_SCALE) }
{
    let mut together = Worth { above: 0, below: 0 };
    for place in places {
        together = together.plus(worths[usize::from(*place)]);
    }
    together
}
