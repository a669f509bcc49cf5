//! The columns of the linear program of a book.
ghost use Rattle.std.specs.Prelude.{◌≡◌, ◌+◌, ◌*◌, ◌<◌, ◌≤◌, ◌^◌, All, IfOk, length, unsigned_abs};
ghost use Rattle.escrow_units.specs.Calendar.{years_after_of};
ghost use Rattle.escrow_units.specs.SlgsTerms.{IsSettlement};
ghost use Rattle.escrow_units.specs.declared.limits.TheConstants.{GREATEST_RATE};
ghost use Rattle.fixed_powers.specs.DiscountPowers.{IsLowTable, PowerTable, one};
ghost use Rattle.payment_schedule.specs.Schedule.{IsShort};
ghost use Rattle.offer_book.specs.Book.{IsBook};

use cash_table::place_of;
use escrow_desk::NoMemory;
use escrow_units::{Cents, Day, Rate, index360, years_after};
use fixed_powers::Powers;
use offer_book::{Book, COEFFICIENT_SCALE, PayCoefficients};
use payment_schedule::ScheduledPayment;
use sparse_basis::{Matrix, Price, Stop};
use std::alloc::Global;

// The most payments of a line.
const MOST_PAYMENTS: usize = 84;

// The greatest step, in cents of face.
const GREATEST_STEP: u64 = 100_000_000;

/// What each line costs and pays for a cent of its face.
#[derive(Drop)]
pub(crate) struct Program {
    /// What it pays on the need dates, and what it is worth at the yield of the limit, less what it costs; the second is 0 for
    /// opening cash.
    pub matrix: Matrix,
    /// What it costs, perturbed.
    pub costs: Vec<Price>,
}

// The rate of a line and its step, and by what its coefficients are divided, so that a cent of its face counts.
#[derive(Clone, Copy)]
struct CentScale {
    rate: Rate,
    step: Cents,
    divisor: u128,
    ghost low_rate: { rate.0 ≤ GREATEST_RATE },
    ghost small_step: { step.0 ≤ 10 ^ 8 },
    ghost some: { 1 ≤ divisor },
    ghost small: { divisor ≤ 2 ^ 64 },
}

// The perturbation of a line's cost, by which it is lowered: a fixed hash of the line, below 2^12, in units of 2^-40.
fn perturbation(line: u16) -> i128
    ensures { unsigned_abs result ≤ 2 ^ 12 }
{
    i128::from((u64::from(line) + 1).wrapping_mul(0x9E37_79B9_7F4A_7C15) >> 52)
}

/// A step that is as it should be: from 1 to 10^8 cents.
pub(crate) fn proper_step(step: u64) -> u64
    ensures some { 1 ≤ result }
    ensures small { result ≤ 10 ^ 8 }
{
    step.max(1).min(GREATEST_STEP)
}

// By what the coefficients of a line with a step are divided: so a cent of face is what counts.
fn divisor_of(step: u64) -> u128
    ensures some { 1 ≤ result }
    ensures small { result ≤ 2 ^ 64 }
{
    u128::from(COEFFICIENT_SCALE * proper_step(step))
}

// The power that discounts a day; 0 outside of the forty years in which lines pay.
fn power_on(powers: &Powers, settle: Day, last: Day, day: Day) -> u64
    requires powers { IsLowTable powers.now }
    requires last { last ≡ years_after_of settle 40 }
    ensures { result ≤ one }
{
    if day < settle || last < day {
        return 0;
    }
    powers.power(index360(settle, day))
}

// What an entry is worth at a power.
fn discounted(entry: Price, power: u64) -> i128
    requires { power ≤ one }
    ensures { unsigned_abs result ≤ 2 ^ 58 }
{
    (entry.wide() * i128::from(power)) >> 62
}

// What a payment of a line is by the cent of its face, rounded up.
fn entry_of(payment: &ScheduledPayment, scale: CentScale) -> Price
    requires { IsShort payment.now.accrual }
{
    let pay = PayCoefficients::of(payment, scale.rate, scale.step);
    Price::ratio_up(pay.high, scale.divisor)
}

// Adds what a line pays on the need dates, by the cent of its face, and says what all its payments are worth at the yield of powers. What
// is paid after the last of the dates isn't added.
fn add_pays(
    matrix: &mut Matrix,
    book: &Book,
    powers: &Powers,
    schedule: &[ScheduledPayment],
    scale: CentScale,
) -> Result<i128, Stop>
    requires limits { IsBook book.now }
    requires powers { IsLowTable powers.now }
    requires few { length schedule.now ≤ 84 }
    requires short { All (λ payment. IsShort payment.accrual) schedule.now }
    ensures { IfOk result (λ worth. unsigned_abs worth ≤ 2 ^ 65) }
{
    let needs = book.needs();
    let settle = book.settle();
    let last = years_after(settle, 40);
    let mut worth = 0i128;
    for payment in schedule {
        let entry = entry_of(payment, scale);
        worth += discounted(entry, power_on(powers, settle, last, payment.day));
        let place = place_of(needs, payment.day);
        if place < needs.len() {
            matrix.pay(place as u16 + 1, entry)?;
        }
    }
    Ok(worth)
}

impl Program {
    // Adds a line. There is room for its payments, so that it can't stop. It isn't inlined: the line's payments would stand on the stack
    // while all else of the program is made.
    #[inline(never)]
    fn add_line(&mut self, book: &Book, powers: &Powers, line: u16) -> Result<(), Stop>
        requires powers { IsLowTable powers.now }
        requires limits { IsBook book.now }
        requires line { line < length book.now.lines }
    {
        let own = book.line(line);
        let schedule = own.schedule(book.payment_days());
        let scale = CentScale {
            rate: own.rate(),
            step: Cents(own.step),
            divisor: divisor_of(own.step),
        };
        let cost = Price::ratio_down(own.scaled_cost().low, scale.divisor).wide();
        let worth = add_pays(&mut self.matrix, book, powers, schedule.as_slice(), scale)?;
        let value = if line == 0 { 0 } else { worth - cost };
        if self
            .costs
            .push(Price::clamp(cost - perturbation(line)))
            .is_err()
        {
            return Err(Stop::NoRoom);
        }
        self.matrix.end_line(Price::clamp(value))
    }

    /// The program of a book, at the yield of powers.
    ///
    /// # Errors
    ///
    /// Where memory ran out.
    pub(crate) fn make(alloc: Global, book: &Book, powers: &Powers) -> Result<Program, NoMemory>
        requires { IsLowTable powers.now }
    {
        let lines = book.line_count();
        let payments = MOST_PAYMENTS * usize::from(lines);
        let mut program = Program {
            matrix: Matrix::with_room(alloc, book.need_count(), lines, payments)?,
            costs: Vec::with_capacity(alloc, usize::from(lines))?,
        };
        for line in 0..lines {
            if program.add_line(book, powers, line).is_err() {
                return Err(NoMemory);
            }
        }
        program.matrix.arrange(alloc)?;
        Ok(program)
    }
}
