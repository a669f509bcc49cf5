//! The exact account of a plan: what it costs and pays, and what it is worth at the yield limit.
ghost use Rattle.std.specs.Prelude.{◌≡◌, ℕ, ◌+◌, ◌-◌, ◌*◌, ◌/◌, ◌^◌, ◌<◌, ◌≤◌, ◌↔◌, All, IfOk, IfNone, IfSome, IsTrue, length, replicate, slice_index, slice_index_or, slice_set};
ghost use Rattle.escrow_units.specs.Flows.{Rise, total};
ghost use Rattle.escrow_units.specs.declared.security.Flow.{Flow};
ghost use Rattle.fixed_powers.specs.DiscountPowers.{IsLowTable, PowerTable, one};
ghost use Rattle.offer_book.specs.Portfolio.{IsPermitted, IsPermittedUnits, Meets, line_payments, payments, security_cost};
ghost use Rattle.offer_book.specs.declared.line.Line.{Line};
ghost use Rattle.cash_table.specs.Points.{low_value};
ghost use Rattle.backward_build.specs.Spare.{ArePaid};
ghost use Rattle.plan_finder.specs.Ledger.{AreDue, AreHeld, AreTerms, IsAccount, IsPurchase};
ghost use Rattle.plan_finder.specs.declared.terms.Purchase.{Purchase};

use crate::terms::{LineTerms, Purchase};
use cash_table::{Plan, add_receipts, run_up};
use escrow_desk::NoMemory;
use escrow_units::{Cents, Flow, MOST_NEED_DATES};
use fixed_powers::{ONE, Powers};
use offer_book::Book;
use std::alloc::Global;

/// A plan, and all that it comes to. Its tables stand on the heap, so that an account is moved in little room on the stack.
#[derive(Drop)]
pub(crate) struct Account {
    /// The units of each line.
    pub plan: Plan,
    /// What each line costs and pays, by its terms.
    pub terms: Vec<LineTerms>,
    /// What the plan's units of each line cost and pay.
    pub held: Vec<Purchase>,
    /// What is needed up to each need date, in cents.
    pub needed: Box<[u64; MOST_NEED_DATES]>,
    /// What the plan pays up to each need date, in cents.
    pub received: Box<[u64; MOST_NEED_DATES]>,
    /// What the plan costs, opening cash included.
    pub cost: Cents,
    /// What its securities are worth at the yield limit, in units of 2^-62 of a cent.
    pub worth: u128,
}

// What flows come to up to each need date, in cents.
fn paid_by(needs: &[Flow], flows: &[Flow]) -> [u64; MOST_NEED_DATES]
    requires places { length needs.now ≤ MOST_NEED_DATES }
    requires rising { Rise needs.now }
    requires small { total flows.now < 2 ^ 64 }
    ensures { ArePaid needs.now flows.now result }
{
    let mut paid = [0; MOST_NEED_DATES];
    add_receipts(&mut paid, needs, flows);
    run_up(&mut paid, needs.len());
    paid
}

/// What a purchase pays up to each need date, in cents. It isn't inlined: each call would have a table of its own on the stack.
#[inline(never)]
pub(crate) fn paid(book: &Book, purchase: &Purchase) -> [u64; MOST_NEED_DATES]
    requires { total purchase.now.payments.items ≤ 2 * 10 ^ 13 }
    ensures { ArePaid book.now.needs purchase.now.payments.items result }
{
    paid_by(book.needs(), purchase.payments.as_slice())
}

/// Takes off what a line paid before by each date, and adds what it pays now.
pub(crate) fn exchange(received: &mut [u64], before: &[u64], after: &[u64], dates: usize)
    requires received { dates ≤ length received.old }
    requires before { dates ≤ length before.now }
    requires after { dates ≤ length after.now }
    requires part { (k : ℕ) → k < dates → slice_index before.now k ≤ slice_index received.old k }
    requires room { (k : ℕ) → k < dates → slice_index received.old k - slice_index before.now k + slice_index after.now k < 2 ^ 64 }
    ensures { (k : ℕ) → k < dates → slice_index received.new k ≡ slice_index received.old k - slice_index before.now k + slice_index after.now k }
{
    for place in 0..dates {
        received[place] = received[place] - before[place] + after[place];
    }
}

// The terms of the lines of a book.
fn terms_of(alloc: Global, book: &Book, powers: &Powers) -> Result<Vec<LineTerms>, NoMemory>
    requires powers { IsLowTable powers.now }
    ensures { IfOk result (λ terms. AreTerms powers.now.yield_units book.now terms.items) }
{
    let mut terms = Vec::new(alloc);
    for line in 0..book.line_count() {
        terms.push(LineTerms::make(alloc, book.payment_days(), powers, book.line(line))?)?;
    }
    Ok(terms)
}

// Nothing of each line.
fn nothing_held(alloc: Global, book: &Book, terms: &[LineTerms]) -> Result<Vec<Purchase>, NoMemory>
    requires { (n : ℕ) × AreTerms n book.now terms.now }
    ensures { IfOk result (λ held. (n : ℕ) → AreTerms n book.now terms.now → AreHeld n book.now (replicate (length book.now.lines) 0) held.items) }
{
    let mut held = Vec::new(alloc);
    for line in 0..book.line_count() {
        held.push(terms[usize::from(line)].purchase(book.line(line), 0))?;
    }
    Ok(held)
}

impl Account {
    /// The account of the plan that buys nothing, against the limit of the powers. It reads the calendar of each line once. It isn't
    /// inlined: its tables would stand on the stack while the program is made.
    ///
    /// # Errors
    ///
    /// Where memory ran out.
    #[inline(never)]
    pub(crate) fn make(alloc: Global, book: &Book, powers: &Powers) -> Result<Account, NoMemory>
        requires powers { IsLowTable powers.now }
        ensures { IfOk result (IsAccount powers.now.yield_units book.now) }
    {
        let terms = terms_of(alloc, book, powers)?;
        let held = nothing_held(alloc, book, terms.as_slice())?;
        Ok(Account {
            plan: Plan::zero(alloc, book)?,
            terms,
            held,
            needed: Box::new(alloc, paid_by(book.needs(), book.needs()))?,
            received: Box::new(alloc, [0; MOST_NEED_DATES])?,
            cost: Cents(0),
            worth: 0,
        })
    }
}
