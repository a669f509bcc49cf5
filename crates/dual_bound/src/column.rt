//! A line as a column of the linear program.
ghost use Rattle.offer_book.specs.declared.payment_days.PaymentDays.{PaymentDays};
ghost use Rattle.std.specs.Prelude.{All, List, ◌≡◌, ◌+◌, ◌*◌, ◌^◌, ◌<◌, ◌≤◌, ◌+ℤ◌, ◌-ℤ◌, ◌*ℤ◌, ◌≢◌, ℕ, ℤ, [], ◌∷◌, ◌++◌, cond, IfOk, OnOk, filter, length, pos, unsigned_abs};
ghost use Rattle.escrow_units.specs.Interest.{earned_of};
ghost use Rattle.escrow_units.specs.SlgsTerms.{IsSettlement, IsSlgs};
ghost use Rattle.fixed_powers.specs.DiscountPowers.{IsLowTable, PowerTable};
ghost use Rattle.offer_book.specs.Book.{BookContents, IsBook, IsLine};
ghost use Rattle.offer_book.specs.Coefficients.{cost_coefficients, pay_by};
ghost use Rattle.offer_book.specs.Portfolio.{line_cost, par};
ghost use Rattle.payment_schedule.specs.Schedule.{IsShort, flow_by};
ghost use Rattle.offer_book.specs.Schedule.{kind_accrued, kind_rate, schedule_of};
ghost use Rattle.slgs_interest.specs.Payments.{slgs_schedule};
ghost use Rattle.dual_bound.specs.Columns.{Extends, HasHead, IsColumn, IsDayTable, IsLightWorth, IsSmallColumn, IsSmallOther, IsSmallPay, KeepsHead, column_form, column_paid, column_reduced, form_plus, is_other, is_principal, is_regular as is_regular_of, other_by, other_forms, others_paid as others_paid_of, paying as paying_of, regular_form as regular_form_of, regular_on, signed_worth, worth_at, worth_together};
ghost use Rattle.cash_table.specs.Schedules.{kept_of};
ghost use Rattle.dual_bound.specs.declared.worth.Worth.{Worth as WorthOf};

use crate::day_table::DayTable;
use crate::form::Form;
use crate::leaf_bound::{scaled_difference, weighed};
use crate::worth::Worth;
use arrayvec::ArrayVec;
use escrow_desk::NoMemory;
use escrow_units::{Accrual, Cents, Day, GREATEST_RATE, Rate, Slgs, earned};
use fixed_powers::Powers;
use offer_book::{Book, Line, LineKind, PayCoefficients, PaymentDays as Days};
use payment_schedule::{HALF_YEAR, ScheduledPayment};
use proof_tree::PRICE_SCALE;
use std::alloc::Global;

// The most payments that a line has.
const MOST_PAYMENTS: usize = 84;

/// A payment of a line that isn't regular: its first interest, or with the principal.
#[derive(Clone, Copy)]
pub(crate) struct OtherPayment {
    /// The place of its day.
    pub place: u16,
    /// The payment.
    pub payment: ScheduledPayment,
    /// What a unit pays, scaled.
    pub coefficients: PayCoefficients,
}

/// A line as a column: what a unit costs and pays, scaled, and the places of its days.
#[derive(Drop)]
pub(crate) struct Column {
    /// The exact cost of a unit, scaled and rounded down.
    pub cost_low: u128,
    /// The exact cost of a unit, scaled and rounded up.
    pub cost_high: u128,
    /// What rounding the cost to the cent can add or take away.
    pub cost_slack: u128,
    /// The part of a year for which interest has accrued.
    pub accrued: Accrual,
    /// What a unit pays on each regular date: half a year's interest.
    pub regular: PayCoefficients,
    /// The places of the days of the regular payments.
    pub places: Vec<u16>,
    /// The other payments.
    pub others: Vec<OtherPayment>,
}

// Whether a payment is half a year's interest and nothing else.
fn is_regular(payment: &ScheduledPayment) -> bool
    ensures { result ≡ is_regular_of payment.now }
{
    payment.accrual.parts == 1 && (payment.accrual.year == 2 && !payment.principal)
}

// What a unit of a line pays by a payment, scaled.
fn coefficients_of(line: &Line, payment: &ScheduledPayment) -> PayCoefficients
    requires line { (days : PaymentDays) × IsLine days line.now }
    requires short { IsShort payment.now.accrual }
    ensures value { result ≡ pay_by (kind_rate line.now.kind) line.now.step payment.now }
    ensures small { IsSmallPay result }
{
    PayCoefficients::of(payment, line.rate(), Cents(line.step))
}

// Another payment of a line, by the place of its day.
fn other_payment(line: &Line, payment: &ScheduledPayment, place: u16) -> OtherPayment
    requires line { (days : PaymentDays) × IsLine days line.now }
    requires short { IsShort payment.now.accrual }
    ensures value { result ≡ record { place = place; payment = payment.now; coefficients = pay_by (kind_rate line.now.kind) line.now.step payment.now } }
    ensures small { IsSmallOther result }
{
    OtherPayment {
        place,
        payment: *payment,
        coefficients: coefficients_of(line, payment),
    }
}

// The payments of a schedule with which the principal is paid.
fn principal_alone(schedule: &[ScheduledPayment]) -> ArrayVec<ScheduledPayment, 84>
    requires { length schedule.now ≤ 84 }
    ensures { result.items ≡ filter is_principal schedule.now }
{
    let mut payments = ArrayVec::new();
    for payment in schedule {
        if payment.principal {
            payments.push(*payment);
        }
    }
    payments
}

// The principal of a security, where it isn't paid with the first payment: the dates before it aren't looked for.
fn late_principal(slgs: &Slgs, days: &Days) -> ArrayVec<ScheduledPayment, 84>
    requires settlement { IsSettlement slgs.now.settle }
    requires terms { IsSlgs slgs.now }
    requires late { slgs.now.first ≢ slgs.now.maturity }
    ensures { result.items ≡ filter is_principal (slgs_schedule slgs.now days.now.closed) }
{
    let mut payments = ArrayVec::new();
    payments.push(ScheduledPayment::due(&days.closed, slgs.maturity, HALF_YEAR, true));
    payments
}

// The payments of a line with which the principal is paid.
fn principal_of(line: &Line, days: &Days) -> ArrayVec<ScheduledPayment, 84>
    requires settlement { IsSettlement days.now.settle }
    requires line { IsLine days.now line.now }
    ensures { result.items ≡ filter is_principal (schedule_of days.now line.now) }
{
    match line.kind {
        LineKind::Security(slgs) if slgs.first != slgs.maturity => late_principal(&slgs, days),
        _ => principal_alone(line.schedule(days).as_slice()),
    }
}

// Half a year's interest, as a payment.
fn regular_payment(day: Day) -> ScheduledPayment
    ensures value { result ≡ regular_on day }
    ensures short { IsShort result.accrual }
{
    ScheduledPayment {
        day,
        accrual: HALF_YEAR,
        principal: false,
    }
}

// Half a year's interest on an amount, in cents.
fn regular_cents(rate: Rate, amount: Cents) -> Cents
    requires rate { rate.0 ≤ GREATEST_RATE }
    requires amount { amount.0 ≤ 10 ^ 13 }
    ensures value { result.0 ≡ earned_of amount.0 rate.0 1 2 }
    ensures small { result.0 ≤ 2 * 10 ^ 13 }
{
    earned(amount, rate, 1, 2)
}

// What an amount pays by another payment, in cents.
fn other_cents(rate: Rate, amount: Cents, payment: &ScheduledPayment) -> Cents
    requires rate { rate.0 ≤ GREATEST_RATE }
    requires amount { amount.0 ≤ 10 ^ 13 }
    requires short { IsShort payment.now.accrual }
    ensures value { result.0 ≡ (flow_by rate.0 amount.0 payment.now).cents.0 }
    ensures small { result.0 ≤ 2 * 10 ^ 13 }
{
    payment.flow(rate, amount).cents
}

// The least that payments with the same coefficients can add to a slope, by what their days are worth together.
fn least_together(low: u128, high: u128, worth: Worth) -> i128
    requires low { low ≤ 10 ^ 18 }
    requires high { high ≤ 10 ^ 18 }
    requires light { worth.above + worth.below ≤ 84 * (2 * PRICE_SCALE) }
    ensures value { result ≡ pos (low * worth.below) -ℤ pos (high * worth.above) }
    ensures small { unsigned_abs result ≤ 2 * 10 ^ 32 }
{
    let below = u128::from(low as u64) * u128::from(worth.below);
    let above = u128::from(high as u64) * u128::from(worth.above);
    below as i128 - above as i128
}

// What rounding can take away from payments with the same coefficients, by what their days are worth together.
fn slack_together(slack: u128, worth: Worth) -> u128
    requires slack { slack ≤ 10 ^ 9 }
    requires light { worth.above + worth.below ≤ 84 * (2 * PRICE_SCALE) }
    ensures value { result ≡ slack * (worth.above + worth.below) }
    ensures small { result ≤ 2 * 10 ^ 23 }
{
    u128::from(slack as u64) * u128::from(worth.above + worth.below)
}

// So many cents at what up to 84 days are worth together.
fn weighed_together(worth: i128, cents: Cents) -> i128
    requires worth { unsigned_abs worth ≤ 84 * (2 * PRICE_SCALE) }
    requires cents { cents.0 ≤ 2 * 10 ^ 13 }
    ensures value { result ≡ worth *ℤ pos cents.0 }
    ensures small { unsigned_abs result ≤ 4 * 10 ^ 27 }
{
    worth * i128::from(cents.0)
}

// What all payments of a line come to, weighed.
fn paid_in_all(regular: i128, others: i128) -> i128
    requires regular { unsigned_abs regular ≤ 4 * 10 ^ 27 }
    requires others { unsigned_abs others ≤ 4 * 10 ^ 27 }
    ensures value { result ≡ regular +ℤ others }
    ensures small { unsigned_abs result ≤ 10 ^ 28 }
{
    regular + others
}

impl Column {
    // The column of a line before its payments, with room for as many regular ones as there may be.
    fn without_payments(alloc: Global, days: &Days, line: &Line) -> Result<Column, NoMemory>
        requires settlement { IsSettlement days.now.settle }
        requires line { IsLine days.now line.now }
        ensures head { IfOk result (HasHead days.now.settle line.now) }
        ensures places { IfOk result (λ column. column.places.items ≡ []) }
        ensures others { IfOk result (λ column. column.others.items ≡ []) }
    {
        let cost = line.scaled_cost();
        let places = Vec::with_capacity(alloc, MOST_PAYMENTS)?;
        Ok(Column {
            cost_low: cost.low,
            cost_high: cost.high,
            cost_slack: cost.slack,
            accrued: line.accrued(),
            regular: coefficients_of(line, &regular_payment(days.settle)),
            places,
            others: Vec::new(alloc),
        })
    }

    // Puts a payment at the place of its day.
    fn put(&mut self, line: &Line, payment: &ScheduledPayment, place: u16) -> Result<(), NoMemory>
        requires line { (days : PaymentDays) × IsLine days line.now }
        requires short { IsShort payment.now.accrual }
        ensures head { OnOk result (KeepsHead self.old self.new) }
        ensures places { OnOk result (self.new.places.items ≡ self.old.places.items ++ cond (is_regular_of payment.now) (place ∷ []) []) }
        ensures others { OnOk result (self.new.others.items ≡ self.old.others.items ++ cond (is_other payment.now) (other_by line.now payment.now place ∷ []) []) }
        ensures small { OnOk result (IsSmallOther (other_by line.now payment.now place)) }
    {
        if is_regular(payment) {
            self.places.push(place)?;
            Ok(())
        } else {
            self.others.push(other_payment(line, payment, place))?;
            Ok(())
        }
    }

    // Puts the payments of a line that pay anything, whose days are put into a table.
    fn put_all(
        &mut self,
        book: &Book,
        powers: &Powers,
        table: &mut DayTable,
        line: &Line,
        payments: &[ScheduledPayment],
    ) -> Result<(), NoMemory>
        requires limits { IsBook book.now }
        requires powers { IsLowTable powers.now }
        requires line { IsLine book.now.days line.now }
        requires room { length table.old.days.items + 84 ≤ 65_535 }
        requires table { IsDayTable powers.now.yield_units book.now table.old }
        requires payments { payments.now ≡ paying_of book.now.days line.now }
        requires few { length payments.now ≤ 84 }
        requires short { All (λ payment. IsShort payment.accrual) payments.now }
        requires head { HasHead book.now.days.settle line.now self.old }
        requires places { self.old.places.items ≡ [] }
        requires others { self.old.others.items ≡ [] }
        ensures table { OnOk result (IsDayTable powers.now.yield_units book.now table.new) }
        ensures extends { OnOk result (Extends table.old.days.items table.new.days.items) }
        ensures more { OnOk result (length table.new.days.items ≤ length table.old.days.items + 84) }
        ensures column { OnOk result (IsColumn powers.now.yield_units book.now table.new.days.items line.now self.new) }
        ensures small { OnOk result (IsSmallColumn self.new) }
    {
        for payment in payments {
            let place = table.place(book, powers, line.kind, payment)?;
            self.put(line, payment, place)?;
        }
        Ok(())
    }

    /// The column of a line of a book, by the payments that are kept of it. Its days are put into a table.
    ///
    /// # Errors
    ///
    /// Where memory ran out.
    pub(crate) fn make(
        alloc: Global,
        book: &Book,
        powers: &Powers,
        table: &mut DayTable,
        line: &Line,
        kept: &[ScheduledPayment],
    ) -> Result<Column, NoMemory>
        requires limits { IsBook book.now }
        requires powers { IsLowTable powers.now }
        requires line { IsLine book.now.days line.now }
        requires kept { kept.now ≡ kept_of book.now.days line.now }
        requires few { length table.old.days.items + 84 ≤ 65_535 }
        requires table { IsDayTable powers.now.yield_units book.now table.old }
        ensures table { OnOk result (IsDayTable powers.now.yield_units book.now table.new) }
        ensures extends { OnOk result (Extends table.old.days.items table.new.days.items) }
        ensures more { OnOk result (length table.new.days.items ≤ length table.old.days.items + 84) }
        ensures column { IfOk result (IsColumn powers.now.yield_units book.now table.new.days.items line.now) }
        ensures small { IfOk result IsSmallColumn }
    {
        let mut column = Column::without_payments(alloc, book.payment_days(), line)?;
        if line.rate().0 == 0 {
            let principal = principal_of(line, book.payment_days());
            column.put_all(book, powers, table, line, principal.as_slice())?;
            return Ok(column);
        }
        column.put_all(book, powers, table, line, kept)?;
        Ok(column)
    }

    // The form of the regular payments, by what their days are worth together.
    #[inline(always)]
    fn regular_form(&self, regular: Worth) -> Form
        requires small { IsSmallColumn self.now }
        requires light { regular.above + regular.below ≤ 84 * (2 * PRICE_SCALE) }
        ensures value { (worths : List WorthOf) → regular ≡ worth_together worths self.now.places.items → result ≡ regular_form_of worths self.now }
        ensures slope { unsigned_abs result.slope ≤ 2 * 10 ^ 32 }
        ensures slack { result.slack ≤ 2 * 10 ^ 23 }
    {
        Form {
            slope: least_together(self.regular.low, self.regular.high, regular),
            slack: slack_together(self.regular.slack, regular),
        }
    }

    // A form with those of the other payments.
    #[inline(always)]
    fn with_others(&self, start: Form, worths: &[Worth]) -> Form
        requires small { IsSmallColumn self.now }
        requires there { All (λ other. other.place < length worths.now) self.now.others.items }
        requires light { All IsLightWorth worths.now }
        requires slope { unsigned_abs start.slope ≤ 3 * 10 ^ 32 }
        requires slack { start.slack ≤ 3 * 10 ^ 23 }
        ensures { result ≡ form_plus start (other_forms worths.now self.now.others.items) }
    {
        let mut form = start;
        for other in self.others.as_slice() {
            let worth = worths[usize::from(other.place)].signed();
            form = form.plus(Form::of_payment(worth, &other.coefficients));
        }
        form
    }

    /// The form of the line, where a cent that it costs counts so much, and its regular days are worth so much together.
    #[inline(always)]
    pub(crate) fn form(&self, own: i128, regular: Worth, worths: &[Worth]) -> Form
        requires small { IsSmallColumn self.now }
        requires own { unsigned_abs own ≤ PRICE_SCALE }
        requires regular { regular ≡ worth_together worths.now self.now.places.items }
        requires together { regular.above + regular.below ≤ 84 * (2 * PRICE_SCALE) }
        requires others_there { All (λ other. other.place < length worths.now) self.now.others.items }
        requires light { All IsLightWorth worths.now }
        ensures { result ≡ column_form own worths.now self.now }
    {
        let costs = Form::of_amount(own, self.cost_low, self.cost_high, self.cost_slack);
        self.with_others(costs.plus(self.regular_form(regular)), worths)
    }

    // What an amount at a rate pays by the other payments, weighed.
    fn others_paid(&self, rate: Rate, amount: Cents, worths: &[Worth]) -> i128
        requires small { IsSmallColumn self.now }
        requires rate { rate.0 ≤ GREATEST_RATE }
        requires amount { amount.0 ≤ 10 ^ 13 }
        requires there { All (λ other. other.place < length worths.now) self.now.others.items }
        requires light { All IsLightWorth worths.now }
        ensures value { result ≡ others_paid_of rate.0 amount.0 worths.now self.now.others.items }
        ensures size { unsigned_abs result ≤ 4 * 10 ^ 27 }
    {
        let mut paid = 0i128;
        for other in self.others.as_slice() {
            let worth = worths[usize::from(other.place)].signed();
            paid += weighed(worth, other_cents(rate, amount, &other.payment));
        }
        paid
    }

    // What an amount at a rate pays, weighed.
    fn paid(&self, rate: Rate, amount: Cents, regular: Worth, worths: &[Worth]) -> i128
        requires small { IsSmallColumn self.now }
        requires rate { rate.0 ≤ GREATEST_RATE }
        requires amount { amount.0 ≤ 10 ^ 13 }
        requires regular { regular ≡ worth_together worths.now self.now.places.items }
        requires together { regular.above + regular.below ≤ 84 * (2 * PRICE_SCALE) }
        requires others_there { All (λ other. other.place < length worths.now) self.now.others.items }
        requires light { All IsLightWorth worths.now }
        ensures value { result ≡ column_paid rate.0 amount.0 worths.now self.now }
        ensures size { unsigned_abs result ≤ 10 ^ 28 }
    {
        let paid = weighed_together(regular.signed(), regular_cents(rate, amount));
        paid_in_all(paid, self.others_paid(rate, amount, worths))
    }

    /// What units of the line cost less what they pay, scaled, where a cent that it costs counts so much, and its regular days are worth so
    /// much together: exactly.
    pub(crate) fn priced_cost(
        &self,
        line: &Line,
        own: i128,
        regular: Worth,
        worths: &[Worth],
        units: u64,
    ) -> i128
        requires small { IsSmallColumn self.now }
        requires line { (days : PaymentDays) × IsLine days line.now }
        requires units { units ≤ line.now.most }
        requires accrued { self.now.accrued ≡ kind_accrued line.now.kind }
        requires own { unsigned_abs own ≤ PRICE_SCALE }
        requires regular { regular ≡ worth_together worths.now self.now.places.items }
        requires together { regular.above + regular.below ≤ 84 * (2 * PRICE_SCALE) }
        requires others_there { All (λ other. other.place < length worths.now) self.now.others.items }
        requires light { All IsLightWorth worths.now }
        ensures { result ≡ column_reduced own (kind_rate line.now.kind) (line_cost line.now units) (par line.now units) worths.now self.now }
    {
        let cost = weighed(own, line.cost_by(self.accrued, units));
        scaled_difference(
            cost,
            self.paid(line.rate(), line.par(units), regular, worths),
        )
    }
}
