//! Sums of amounts by day, to which amounts are added.
ghost use Rattle.std.specs.Prelude.{◌≡◌, true, ◌<◌, ◌≤◌, ◌≤ℤ◌, ◌+◌, ◌^◌, [], ◌∷◌, ◌++◌, All, IfOk, ℤ, pos, ◌+ℤ◌, length, slice_index_or, slice_set, vec_len, vec_capacity};
ghost use Rattle.std.specs.List.{AllWithin};
ghost use Rattle.escrow_units.specs.Flows.{Rise, total, FallWithin};
ghost use Rattle.day_sums.specs.Summed.{cents_on, summed};
ghost use Rattle.day_sums.specs.SummedLaws.{AreAboveZero};
ghost use Rattle.day_sums.specs.Table.{HasPlace, sums_of};

use escrow_desk::NoMemory;
use escrow_units::{Cents, Day, Flow};
use std::alloc::Global;
use std::marker::Model;

/// Sums of amounts that fall on the days of a span, in cents. Contracts see the span and the sums in order of day.
///
/// It is a table with a place for each day up to the last on which an amount falls, so that an amount is added by one look.
#[derive(Drop)]
pub struct DaySums {
    from: Day,
    to: Day,
    // the cents of each day from the first on, up to the last on which an amount falls; there is room for all days
    cents: Vec<u64>,
}

impl Model for DaySums {
    ghost use Rattle.std.specs.Prelude.{vec_len, vec_capacity};
    ghost use Rattle.day_sums.specs.Table.{IsTable, SpanSums, sums_of};

    ghost Value = { SpanSums };

    ghost view = { λ s. record { from = s.from; to = s.to; sums = sums_of s.from s.cents.items } };

    ghost invariant = { λ s. IsTable s.from s.to (vec_len s.cents) (vec_capacity s.cents) };
}

// So many empty places are passed at a time.
const RUN: usize = 4;

// The place of a day in a table that begins on a first day.
fn place_of(first: Day, day: Day) -> usize
    requires { first ≤ℤ day }
    ensures { day ≡ first +ℤ pos result }
{
    (day.number() - first.number()) as usize
}

// Places up to this one, with nothing on the new ones.
fn reach(cents: &mut Vec<u64>, place: usize)
    requires { place < vec_capacity cents.old }
    ensures there { place < vec_len cents.new }
    ensures few { vec_len cents.old ≤ vec_capacity cents.old → vec_len cents.new ≤ vec_capacity cents.old }
    ensures capacity { vec_capacity cents.new ≡ vec_capacity cents.old }
    ensures sums { (first : ℤ) → sums_of first cents.new.items ≡ sums_of first cents.old.items }
{
    for _ in cents.len()..place + 1 {
        cents.push_reserved(0);
    }
}

// Cents, added to those of the day at a place.
fn add_at(cents: &mut [u64], place: usize, more: Cents)
    requires place { place < length cents.old }
    requires room { slice_index_or cents.old place 0 + more.0 < 2 ^ 64 }
    ensures { cents.new ≡ slice_set cents.old place (slice_index_or cents.old place 0 + more.0) }
{
    cents[place] += more.0;
}

// An amount, added to that of its day in a table that begins on a first day.
fn put(cents: &mut Vec<u64>, first: Day, flow: &Flow)
    requires place { HasPlace first (vec_capacity cents.old) flow.now }
    requires room { total (sums_of first cents.old.items) + flow.now.cents.0 < 2 ^ 64 }
    ensures few { vec_len cents.old ≤ vec_capacity cents.old → vec_len cents.new ≤ vec_capacity cents.old }
    ensures capacity { vec_capacity cents.new ≡ vec_capacity cents.old }
    ensures sums { sums_of first cents.new.items ≡ summed (sums_of first cents.old.items ++ flow.now ∷ []) }
{
    let place = place_of(first, flow.day);
    reach(cents, place);
    add_at(cents.as_mut_slice(), place, flow.cents);
}

// Amounts added, each to that of its day in a table that begins on a first day.
fn put_all(cents: &mut Vec<u64>, first: Day, flows: &[Flow])
    requires places { All (HasPlace first (vec_capacity cents.old)) flows.now }
    requires room { total (sums_of first cents.old.items) + total flows.now < 2 ^ 64 }
    ensures few { vec_len cents.old ≤ vec_capacity cents.old → vec_len cents.new ≤ vec_capacity cents.old }
    ensures capacity { vec_capacity cents.new ≡ vec_capacity cents.old }
    ensures sums { sums_of first cents.new.items ≡ summed (sums_of first cents.old.items ++ flows.now) }
{
    for flow in flows {
        put(cents, first, flow);
    }
}

// Whether a run of places begins at one, and nothing falls on their days.
fn is_empty_run(cents: &[u64], place: usize) -> bool
    requires { place ≤ length cents.now }
    ensures bound { result ≡ true → place + 4 ≤ length cents.now }
    ensures empty { result ≡ true → AllWithin (λ amount. amount ≡ 0) cents.now place (place + 4) }
{
    cents.len() - place >= RUN
        && cents[place] == 0
        && cents[place + 1] == 0
        && cents[place + 2] == 0
        && cents[place + 3] == 0
}

// A place from one on, before which nothing falls on any day. Empty places are passed by runs.
fn past_empty(cents: &[u64], from: usize) -> usize
    requires { from ≤ length cents.now }
    ensures order { from ≤ result }
    ensures bound { result ≤ length cents.now }
    ensures empty { AllWithin (λ amount. amount ≡ 0) cents.now from result }
{
    let mut place = from;
    while is_empty_run(cents, place) {
        place += RUN;
    }
    place
}

impl DaySums {
    /// No sums yet, of amounts that fall from one day to another, both included. All memory is taken here.
    ///
    /// # Errors
    ///
    /// Where memory ran out.
    pub fn between(alloc: Global, from: Day, to: Day) -> Result<DaySums, NoMemory>
        requires { from ≤ℤ to }
        ensures { IfOk result (λ sums. sums ≡ record { from = from; to = to; sums = [] }) }
    {
        let cents = Vec::with_capacity(alloc, place_of(from, to) + 1)?;
        Ok(DaySums { from, to, cents })
    }

    /// Amounts added, each to the sum of its day. They and the sums come to less than 2^64 cents together.
    pub fn add(&mut self, flows: &[Flow])
        requires span { FallWithin self.old.from self.old.to flows.now }
        requires room { total self.old.sums + total flows.now < 2 ^ 64 }
        ensures { self.new ≡ record self.old { sums = summed (self.old.sums ++ flows.now) } }
    {
        put_all(&mut self.cents, self.from, flows);
    }

    /// The sum of a day of the span, in cents: 0 where nothing falls on it.
    pub fn on(&self, day: Day) -> Cents
        requires from { self.now.from ≤ℤ day }
        requires to { day ≤ℤ self.now.to }
        ensures { result.0 ≡ cents_on day self.now.sums }
    {
        Cents(match self.cents.get(place_of(self.from, day)) {
            Some(cents) => *cents,
            None => 0,
        })
    }

    /// The sums in order of day, each above 0.
    ///
    /// # Errors
    ///
    /// Where memory ran out.
    pub fn into_flows(self, alloc: Global) -> Result<Vec<Flow>, NoMemory>
        ensures value { IfOk result (λ sums. sums.items ≡ self.sums) }
        ensures rise { IfOk result (λ sums. Rise sums.items) }
        ensures above { IfOk result (λ sums. AreAboveZero sums.items) }
    {
        let table = self.cents.as_slice();
        let mut sums = Vec::new(alloc);
        let mut place = 0;
        while place < table.len() {
            let cents = table[place];
            if cents > 0 {
                let day = Day::new(self.from.number() + place as i32);
                sums.push(Flow {
                    day,
                    cents: Cents(cents),
                })?;
                place += 1;
            } else {
                place = past_empty(table, place + 1);
            }
        }
        Ok(sums)
    }
}
