//! The plan at hand, with its book and its exact account.
ghost use Rattle.std.specs.Prelude.{◌≡◌, ℕ, ◌+◌, ◌*◌, ◌/◌, ◌^◌, ◌<◌, ◌≤◌, ◌↔◌, IfOk, IfNone, IfSome, IsTrue, length, slice_index, slice_index_or, slice_set};
ghost use Rattle.escrow_units.specs.Flows.{total};
ghost use Rattle.fixed_powers.specs.DiscountPowers.{IsLowTable, PowerTable, one};
ghost use Rattle.offer_book.specs.Portfolio.{IsPermitted, IsPermittedUnits, Meets, cost as cost_of, line_payments, payments, security_cost};
ghost use Rattle.offer_book.specs.declared.line.Line.{Line};
ghost use Rattle.cash_table.specs.Points.{low_value};
ghost use Rattle.plan_finder.specs.Ledger.{AreDue, IsPurchase};

use crate::account::{Account, exchange, paid};
use crate::terms::Purchase;
use cash_table::Plan;
use escrow_desk::NoMemory;
use escrow_units::{Cents, Day, MOST_NEED_DATES, YieldUnits};
use fixed_powers::{ONE, Powers};
use offer_book::Book;
use std::alloc::Global;
use std::marker::Model;

/// A plan of a book, and all that it comes to. A line's units are changed by [`Ledger::put`] alone, which reads that line and the
/// need dates, and no other line. Contracts see the book, the yield by which its securities are worth something against the limit,
/// and the plan.
#[derive(Drop)]
pub(crate) struct Ledger<'a> {
    book: &'a Book,
    yield_units: YieldUnits,
    account: Account,
}

impl<'a> Model for Ledger<'a> {
    ghost use Rattle.plan_finder.specs.Ledger.{IsAccount, LedgerContents};

    ghost Value = { LedgerContents };

    ghost view = { λ l. record { book = l.book.now; yield_units = l.yield_units.0; plan = l.account.plan } };

    ghost invariant = { λ l. IsAccount l.yield_units.0 l.book.now l.account };
}

/// What is short on a need date.
#[derive(Clone, Copy)]
pub(crate) struct Shortage {
    /// The date.
    pub day: Day,
    /// How much is short, in cents.
    pub cents: u64,
}

impl<'a> Ledger<'a> {
    /// The ledger of the plan that buys nothing, against the limit of the powers. It reads the calendar of each line once.
    ///
    /// # Errors
    ///
    /// Where memory ran out.
    pub(crate) fn make(
        alloc: Global,
        book: &'a Book,
        powers: &Powers,
    ) -> Result<Ledger<'a>, NoMemory>
        requires { IsLowTable powers.now }
        ensures { IfOk result (λ ledger. ledger.book ≡ book.now) }
    {
        Ok(Ledger {
            book,
            yield_units: powers.yield_units(),
            account: Account::make(alloc, book, powers)?,
        })
    }

    /// The book.
    pub(crate) fn book(&self) -> &'a Book
        ensures value { result.now ≡ self.now.book }
        ensures permitted { IsPermitted self.now.book self.now.plan }
    {
        self.book
    }

    /// The plan.
    pub(crate) fn plan(&self) -> &Plan
        ensures value { result.now ≡ self.now.plan }
        ensures permitted { IsPermitted self.now.book self.now.plan }
    {
        &self.account.plan
    }

    /// What the plan costs, opening cash included.
    pub(crate) fn cost(&self) -> Cents
        ensures { result.0 ≡ cost_of self.now.book self.now.plan }
    {
        self.account.cost
    }

    /// The units of a line, counted from 0.
    pub(crate) fn units(&self, line: u16) -> u64
        requires { line < length self.now.book.lines }
        ensures { result ≡ slice_index self.now.plan line }
    {
        self.account.plan.get(line)
    }

    /// What the plan's units of a line cost and pay.
    pub(crate) fn held(&self, line: u16) -> &Purchase
        requires { line < length self.now.book.lines }
        ensures { total result.now.payments.items ≤ 2 * 10 ^ 13 }
    {
        &self.account.held[usize::from(line)]
    }

    /// What units of a line would cost and pay.
    pub(crate) fn purchase(&self, line: u16, units: u64) -> Purchase
        requires line { line < length self.now.book.lines }
        requires units { (d : Line) → units ≤ (slice_index_or self.now.book.lines line d).most }
        ensures value { (d : Line) → IsPurchase self.now.yield_units self.now.book.days (slice_index_or self.now.book.lines line d) units result }
        ensures little { total result.payments.items ≤ 2 * 10 ^ 13 }
    {
        self.account.terms[usize::from(line)].purchase(self.book.line(line), units)
    }

    // Puts other units of a line in the place of those that the plan has.
    fn exchange(&mut self, line: u16, units: u64)
        requires line { line < length self.old.book.lines }
        requires permitted { (d : Line) → IsPermittedUnits (slice_index_or self.old.book.lines line d) units }
        ensures { self.new ≡ record { book = self.old.book; yield_units = self.old.yield_units; plan = slice_set self.old.plan line units } }
    {
        let after = self.purchase(line, units);
        let account = &mut self.account;
        let before = &account.held[usize::from(line)];
        exchange(
            &mut *account.received,
            &paid(self.book, before),
            &paid(self.book, &after),
            usize::from(self.book.need_count()),
        );
        account.cost = Cents(account.cost.0 - before.cost.0 + after.cost.0);
        account.worth = account.worth - before.worth + after.worth;
        account.held[usize::from(line)] = after;
        account.plan.put(line, units);
    }

    /// Changes the units of a line, and with them all that the plan comes to.
    #[inline(never)]
    pub(crate) fn put(&mut self, line: u16, units: u64)
        requires line { line < length self.old.book.lines }
        requires permitted { (d : Line) → IsPermittedUnits (slice_index_or self.old.book.lines line d) units }
        ensures { self.new ≡ record { book = self.old.book; yield_units = self.old.yield_units; plan = slice_set self.old.plan line units } }
    {
        if self.units(line) != units {
            self.exchange(line, units);
        }
    }

    /// Changes the plan to another one: the lines alone are read whose units are others, and the need dates for each.
    pub(crate) fn put_plan(&mut self, plan: &Plan)
        requires { IsPermitted self.old.book plan.now }
        ensures { self.new ≡ record { book = self.old.book; yield_units = self.old.yield_units; plan = plan.now } }
    {
        for line in 0..self.book.line_count() {
            self.put(line, plan.get(line));
        }
    }

    /// What a line has to pay up to each need date, in cents, so that nothing is short.
    pub(crate) fn due(&self, line: u16) -> [u64; MOST_NEED_DATES]
        requires { line < length self.now.book.lines }
        ensures permitted { IsPermitted self.now.book self.now.plan }
        ensures value { (d : Line) → AreDue self.now.book.needs (payments self.now.book self.now.plan)
            (line_payments self.now.book.days (slice_index_or self.now.book.lines line d) (slice_index self.now.plan line)) result }
    {
        let account = &self.account;
        let mut due = paid(self.book, &account.held[usize::from(line)]);
        for place in 0..usize::from(self.book.need_count()) {
            due[place] = account.needed[place].saturating_sub(account.received[place] - due[place]);
        }
        due
    }

    // The place of the first need date on which the plan is short, counted from 0.
    fn first_short(&self) -> Option<u16>
        ensures none { IfNone result (Meets self.now.book self.now.plan) }
        ensures some { IfSome result (λ place. (place < length self.now.book.needs) × (¬ Meets self.now.book self.now.plan)) }
    {
        let account = &self.account;
        for place in 0..self.book.need_count() {
            if account.received[usize::from(place)] < account.needed[usize::from(place)] {
                return Some(place);
            }
        }
        None
    }

    /// What is short on the first need date on which the plan is short; None where it meets the needs.
    pub(crate) fn shortage(&self) -> Option<Shortage>
        ensures none { IfNone result (Meets self.now.book self.now.plan) }
        ensures some { IfSome result (λ lack. ¬ Meets self.now.book self.now.plan) }
    {
        let place = self.first_short()?;
        let at = usize::from(place);
        let short = self.account.needed[at].saturating_sub(self.account.received[at]);
        Some(Shortage {
            day: self.book.need(place).day,
            cents: short,
        })
    }

    /// Whether the plan's securities are worth more at the yield of the ledger than they cost, by more than a part in 10^8 of that.
    /// A yield that is higher by a unit of 10^-10 makes less of a difference in forty years.
    pub(crate) fn is_dearer(&self) -> bool
        ensures { IsTrue result ↔ (one * (security_cost self.now.book self.now.plan + security_cost self.now.book self.now.plan / 10 ^ 8)
            < low_value self.now.book self.now.yield_units self.now.plan) }
    {
        let security_cost = u128::from(self.account.cost.0 - self.account.plan.get(0));
        u128::from(ONE) * (security_cost + security_cost / 100_000_000) < self.account.worth
    }
}
