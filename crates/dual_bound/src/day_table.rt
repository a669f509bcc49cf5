//! The days on which the lines of a book pay, each once.
ghost use Rattle.std.specs.Prelude.{◌≡◌, ◌==◌, ◌+◌, ◌^◌, ◌<◌, ◌≤◌, ◌≤ℤ◌, ◌+ℤ◌, pos, if◌then◌else◌, ℕ, List, [], ◌∷◌, ◌++◌, IfOk, OnOk, length, slice_index, slice_index_or};
ghost use Rattle.escrow_units.specs.Calendar.{years_after_of};
ghost use Rattle.escrow_units.specs.Flows.{Rise, index360_of};
ghost use Rattle.escrow_units.specs.SlgsTerms.{IsSettlement};
ghost use Rattle.fixed_powers.specs.DiscountPowers.{IsLowTable, PowerTable, low, one};
ghost use Rattle.offer_book.specs.Book.{BookContents, IsBook};
ghost use Rattle.dual_bound.specs.Columns.{Extends, IsDayTable, IsPlace, IsPricedDay, kind_power};
ghost use Rattle.dual_bound.specs.LeafBound.{price_on};
ghost use Rattle.dual_bound.specs.declared.worth.PricedDay.{PricedDay};

use crate::worth::PricedDay;
use cash_table::place_of;
use escrow_desk::NoMemory;
use escrow_units::{Day, Flow, index360};
use fixed_powers::Powers;
use offer_book::{Book, LineKind};
use payment_schedule::ScheduledPayment;
use std::alloc::Global;

// The days of 40 years and their first. It shows how much room to take, and nothing rests on it.
const LONGEST: usize = 14_611;

/// The days on which lines pay, each once, and where each stands by its number of days after settlement.
#[derive(Drop)]
pub(crate) struct DayTable {
    /// The days.
    pub days: Vec<PricedDay>,
    /// The place of each day that is there.
    pub places: Vec<Option<u16>>,
}

// The place whose price is that of a day, whatever the prices are.
fn need_place(needs: &[Flow], day: Day) -> usize
    requires { Rise needs.now }
    ensures { (prices : List ℕ) → length prices ≡ length needs.now → slice_index prices result ≡ price_on needs.now prices day }
{
    place_of(needs, day)
}

// The number of days from settlement to a day.
fn days_after(settle: Day, day: Day) -> usize
    requires { settle ≤ℤ day }
    ensures value { settle +ℤ pos result ≡ day }
    ensures small { result < 2 ^ 32 }
{
    (day.number() - settle.number()) as usize
}

// A day as opening cash is priced, which the limit doesn't bind.
fn cash_day(book: &Book, day: Day) -> PricedDay
    requires { IsBook book.now }
    ensures value { IsPricedDay book.now day 0 result }
    ensures within { result.power ≤ one }
{
    PricedDay {
        need: need_place(book.needs(), day),
        power: 0,
    }
}

// A day as securities are priced.
fn security_day(book: &Book, powers: &Powers, day: Day) -> PricedDay
    requires limits { IsBook book.now }
    requires powers { IsLowTable powers.now }
    requires from { book.now.days.settle ≤ℤ day }
    requires to { day ≤ℤ years_after_of book.now.days.settle 40 }
    ensures value { IsPricedDay book.now day (low powers.now.yield_units (index360_of book.now.days.settle day)) result }
    ensures within { result.power ≤ one }
{
    PricedDay {
        need: need_place(book.needs(), day),
        power: powers.power(index360(book.settle(), day)),
    }
}

impl DayTable {
    /// A table without days, with room for so many.
    pub(crate) fn with_room(alloc: Global, days: usize) -> Result<DayTable, NoMemory>
        ensures empty { IfOk result (λ table. table.days.items ≡ []) }
        ensures table { IfOk result (λ table. (n : ℕ) (book : BookContents) → IsDayTable n book table) }
    {
        Ok(DayTable {
            days: Vec::with_capacity(alloc, days)?,
            places: Vec::with_capacity(alloc, LONGEST)?,
        })
    }

    // The place of the day that is so many days after settlement, if it is there.
    fn known(&self, after: usize) -> Option<u16>
        ensures { result ≡ slice_index_or self.now.places.items after None }
    {
        match self.places.get(after) {
            Some(place) => *place,
            None => None,
        }
    }

    // Puts a day behind the others.
    fn push(&mut self, day: PricedDay) -> Result<u16, NoMemory>
        requires { length self.old.days.items < 65_535 }
        ensures place { IfOk result (λ place. place ≡ length self.old.days.items) }
        ensures days { OnOk result (self.new.days.items ≡ self.old.days.items ++ day ∷ []) }
        ensures places { OnOk result (self.new.places.items ≡ self.old.places.items) }
    {
        let place = self.days.len() as u16;
        self.days.push(day)?;
        Ok(place)
    }

    // Keeps the place of the day that is so many days after settlement.
    fn keep(&mut self, after: usize, place: u16) -> Result<(), NoMemory>
        requires { after < 2 ^ 32 }
        ensures days { OnOk result (self.new.days.items ≡ self.old.days.items) }
        ensures places { OnOk result ((other : ℕ) → slice_index_or self.new.places.items other None ≡ (if other == after then Some place else slice_index_or self.old.places.items other None)) }
    {
        let length = self.places.len();
        for _ in length..after + 1 {
            self.places.push(None)?;
        }
        self.places[after] = Some(place);
        Ok(())
    }

    // The place of a day on which a security pays, which is put into the table where it isn't there yet.
    fn security_place(&mut self, book: &Book, powers: &Powers, day: Day) -> Result<u16, NoMemory>
        requires limits { IsBook book.now }
        requires powers { IsLowTable powers.now }
        requires from { book.now.days.settle ≤ℤ day }
        requires to { day ≤ℤ years_after_of book.now.days.settle 40 }
        requires few { length self.old.days.items < 65_535 }
        requires table { IsDayTable powers.now.yield_units book.now self.old }
        ensures table { OnOk result (IsDayTable powers.now.yield_units book.now self.new) }
        ensures extends { OnOk result (Extends self.old.days.items self.new.days.items) }
        ensures more { OnOk result (length self.new.days.items ≤ length self.old.days.items + 1) }
        ensures there { IfOk result (λ place. place < length self.new.days.items) }
        ensures priced { IfOk result (λ place. (d : PricedDay) → IsPricedDay book.now day (low powers.now.yield_units (index360_of book.now.days.settle day)) (slice_index_or self.new.days.items place d)) }
    {
        let after = days_after(book.settle(), day);
        if let Some(place) = self.known(after) {
            return Ok(place);
        }
        let place = self.push(security_day(book, powers, day))?;
        self.keep(after, place)?;
        Ok(place)
    }

    // The place of the day of opening cash, which is a day of its own.
    fn cash_place(&mut self, book: &Book, day: Day) -> Result<u16, NoMemory>
        requires limits { IsBook book.now }
        requires few { length self.old.days.items < 65_535 }
        ensures table { OnOk result ((n : ℕ) → IsDayTable n book.now self.old → IsDayTable n book.now self.new) }
        ensures extends { OnOk result (Extends self.old.days.items self.new.days.items) }
        ensures more { OnOk result (length self.new.days.items ≤ length self.old.days.items + 1) }
        ensures there { IfOk result (λ place. place < length self.new.days.items) }
        ensures priced { IfOk result (λ place. (d : PricedDay) → IsPricedDay book.now day 0 (slice_index_or self.new.days.items place d)) }
    {
        self.push(cash_day(book, day))
    }

    /// The place of the day of a payment of a kind, which is put into the table where it isn't there yet.
    pub(crate) fn place(
        &mut self,
        book: &Book,
        powers: &Powers,
        kind: LineKind,
        payment: &ScheduledPayment,
    ) -> Result<u16, NoMemory>
        requires limits { IsBook book.now }
        requires powers { IsLowTable powers.now }
        requires from { book.now.days.settle ≤ℤ payment.now.day }
        requires to { payment.now.day ≤ℤ years_after_of book.now.days.settle 40 }
        requires few { length self.old.days.items < 65_535 }
        requires table { IsDayTable powers.now.yield_units book.now self.old }
        ensures table { OnOk result (IsDayTable powers.now.yield_units book.now self.new) }
        ensures extends { OnOk result (Extends self.old.days.items self.new.days.items) }
        ensures more { OnOk result (length self.new.days.items ≤ length self.old.days.items + 1) }
        ensures place { IfOk result (IsPlace powers.now.yield_units book.now kind self.new.days.items payment.now) }
    {
        match kind {
            LineKind::Cash => self.cash_place(book, payment.day),
            LineKind::Security(_) | LineKind::Market(_) => self.security_place(
                book,
                powers,
                payment.day,
            ),
        }
    }
}
