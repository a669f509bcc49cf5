//! Lines: what units of them cost and pay.

ghost use Rattle.std.specs.Prelude.{◌≡◌, ◌*◌, ◌^◌, ◌<◌, ◌≤◌, [], ◌∷◌};
ghost use Rattle.market_notes.specs.NoteFlows.{accrual_of, cost_of as note_cost_of};
ghost use Rattle.market_notes.specs.NoteTerms.{IsNote};
ghost use Rattle.offer_book.specs.Schedule.{cash_due};

use crate::coefficients::{Coefficients, ScaledCost, cost_at_par, pays_of, scaled_note_cost};
use crate::payment_days::PaymentDays;
use arrayvec::ArrayVec;
use escrow_units::{Accrual, Cents, Day, Flow, Rate, Slgs, Terms, earned, face_price};
use market_notes::{Note, accrual, note_cost, note_schedule};
use payment_schedule::{HALF_YEAR, ScheduledPayment, scheduled_flows};

/// What a line offers.
#[derive(Clone, Copy, Debug, PartialEq, Eq)]
pub enum LineKind {
    /// Opening cash: a unit is one cent, which is there from the settlement day on.
    Cash,
    /// A SLGS time deposit security.
    Security(Slgs),
    /// A marketable Treasury note.
    Market(Note),
}

/// A line of a book: what can be bought, in units.
///
/// A number of units is permitted where it is 0 or lies from `least` to `most`.
#[derive(Clone, Copy, Debug, PartialEq, Eq)]
pub struct Line {
    /// What is bought.
    pub kind: LineKind,
    /// What one unit costs at par, in cents.
    pub step: u64,
    /// The least number of units of a purchase.
    pub least: u64,
    /// The greatest number of units.
    pub most: u64,
}

// What a face of a note costs, by the part of a year for which interest has accrued.
#[tactic(auto, unfolding(market_notes::specs::NoteFlows::accrued_interest))]
fn note_cost_by(note: &Note, accrued: Accrual, face: Cents) -> Cents
    requires note { IsNote note.now }
    requires accrued { accrued ≡ accrual_of note.now }
    requires days { accrued.parts ≤ 184 }
    requires face { face.0 ≤ 10 ^ 11 }
    ensures { result.0 ≡ note_cost_of note.now face.0 }
{
    let interest = earned(face, note.coupon, accrued.parts, accrued.year);
    Cents(face_price(face, note.price).0 + interest.0)
}

// The schedule of opening cash, which is there on the settlement day.
fn cash_schedule(settle: Day) -> ArrayVec<ScheduledPayment, 84>
    ensures { result.items ≡ cash_due settle ∷ [] }
{
    let mut schedule = ArrayVec::new();
    schedule.push(ScheduledPayment {
        day: settle,
        accrual: HALF_YEAR,
        principal: true,
    });
    schedule
}

impl Line {
    ghost use Rattle.escrow_units.specs.Denomination.{AreTerms};
    ghost use Rattle.escrow_units.specs.Flows.{total, FallWithinFortyYears};
    ghost use Rattle.escrow_units.specs.SlgsTerms.{IsSettlement};
    ghost use Rattle.payment_schedule.specs.Schedule.{IsShort};
    ghost use Rattle.std.specs.Prelude.{All, ℕ, ℤ};
    ghost use Rattle.offer_book.specs.Book.{IsLine};
    ghost use Rattle.offer_book.specs.declared.payment_days.PaymentDays.{PaymentDays as Days};
    ghost use Rattle.offer_book.specs.Coefficients.{EnclosesUnits, cost_coefficients, pay_coefficients};
    ghost use Rattle.offer_book.specs.Denominations.{line_of};
    ghost use Rattle.offer_book.specs.Schedule.{kind_accrued, kind_rate, schedule_of};
    ghost use Rattle.offer_book.specs.Portfolio.{line_cost, line_payments, par as par_of, permits as permits_of};

    // The line of what is bought, of which at most `cap` dollars are sold, by the denominations of its file.
    pub(crate) fn of(terms: Terms, kind: LineKind, cap: u64) -> Line
        requires { AreTerms terms }
        ensures { result ≡ line_of terms kind cap }
    {
        Line {
            kind,
            step: 100 * terms.step,
            least: terms.minimum / terms.step,
            most: cap / terms.step,
        }
    }

    /// Whether a number of units of the line is permitted: 0, or from `least` to `most`.
    pub fn permits(&self, units: u64) -> bool
        ensures { result ≡ permits_of self.now units }
    {
        units == 0 || (self.least <= units && units <= self.most)
    }

    /// What units of the line come to at par, in cents: less than 2^64.
    pub fn par(&self, units: u64) -> Cents
        requires { par_of self.now units < 2 ^ 64 }
        ensures { result.0 ≡ par_of self.now units }
    {
        Cents(self.step * units)
    }

    /// What units of the line cost, in cents: opening cash its amount, a SLGS security its face, and a marketable note its
    /// price and its accrued interest, each rounded once over the whole face.
    ///
    /// The line is one of a book, and the units are at most its `most`.
    pub fn cost(&self, units: u64) -> Cents
        requires line { (days : Days) × IsLine days self.now }
        requires units { units ≤ self.now.most }
        ensures { result.0 ≡ line_cost self.now units }
    {
        let par = self.par(units);
        match self.kind {
            LineKind::Cash => par,
            LineKind::Security(_) => par,
            LineKind::Market(note) => note_cost(&note, par),
        }
    }

    /// What units of the line pay, in order of date, by its [`schedule`](Line::schedule): opening cash its amount on the
    /// settlement day, and a SLGS security and a marketable note their interest and their face.
    ///
    /// Settlement is from 2000-01-01 to 2150-01-01, the line is one of a book with these days, and the units are at
    /// most its `most`. 0 units pay 0 cents on each date. It takes no memory.
    pub fn payments(&self, days: &PaymentDays, units: u64) -> ArrayVec<Flow, 84>
        requires settlement { IsSettlement days.now.settle }
        requires line { IsLine days.now self.now }
        requires units { units ≤ self.now.most }
        ensures value { result.items ≡ line_payments days.now self.now units }
        ensures within { FallWithinFortyYears days.now.settle result.items }
        ensures bound { total result.items ≤ 2 * 10 ^ 13 }
    {
        let schedule = self.schedule(days);
        scheduled_flows(schedule.as_slice(), self.rate(), self.par(units))
    }

    /// The rate of the line's interest: none for opening cash.
    pub fn rate(&self) -> Rate
        ensures { result.0 ≡ kind_rate self.now.kind }
    {
        match self.kind {
            LineKind::Cash => Rate(0),
            LineKind::Security(slgs) => slgs.rate,
            LineKind::Market(note) => note.coupon,
        }
    }

    /// The payments of the line by their terms, in order of date: opening cash is there on the settlement day, and a SLGS
    /// security and a note pay by theirs. By them any number of units is paid, and no calendar has to be read again.
    ///
    /// Settlement is from 2000-01-01 to 2150-01-01, and the line is one of a book with these days; then each payment bears
    /// interest for at most sixteen months. It takes no memory.
    pub fn schedule(&self, days: &PaymentDays) -> ArrayVec<ScheduledPayment, 84>
        requires settlement { IsSettlement days.now.settle }
        requires line { IsLine days.now self.now }
        ensures value { result.items ≡ schedule_of days.now self.now }
        ensures short { All (λ payment. IsShort payment.accrual) result.items }
    {
        match self.kind {
            LineKind::Cash => cash_schedule(days.settle),
            LineKind::Security(slgs) => slgs_interest::schedule(&slgs, &days.closed),
            LineKind::Market(note) => note_schedule(&note, &days.closed),
        }
    }

    /// The part of a year for which a buyer pays the interest that has accrued, which a note alone has: at most 184 days. The line
    /// is one of a book.
    pub fn accrued(&self) -> Accrual
        requires { (days : Days) × IsLine days self.now }
        ensures value { result ≡ kind_accrued self.now.kind }
        ensures days { result.parts ≤ 184 }
    {
        match self.kind {
            LineKind::Cash | LineKind::Security(_) => Accrual { parts: 0, year: 1 },
            LineKind::Market(note) => accrual(&note),
        }
    }

    /// What units of the line cost, in cents, as [`Line::cost`] says, by the line's [`accrued`](Line::accrued): it reads no
    /// calendar.
    pub fn cost_by(&self, accrued: Accrual, units: u64) -> Cents
        requires line { (days : Days) × IsLine days self.now }
        requires accrued { accrued ≡ kind_accrued self.now.kind }
        requires days { accrued.parts ≤ 184 }
        requires units { units ≤ self.now.most }
        ensures { result.0 ≡ line_cost self.now units }
    {
        let par = self.par(units);
        match self.kind {
            LineKind::Cash | LineKind::Security(_) => par,
            LineKind::Market(note) => note_cost_by(&note, accrued, par),
        }
    }

    /// What one unit of the line costs, scaled and rounded outward, as [`coefficients`](Line::coefficients) has it: its payments
    /// aren't looked for. The line is one of a book.
    pub fn scaled_cost(&self) -> ScaledCost
        requires { (days : Days) × IsLine days self.now }
        ensures { cost_coefficients self.now ≡ record { low = result.low; high = result.high; slack = result.slack } }
    {
        let step = Cents(self.step);
        match self.kind {
            LineKind::Cash | LineKind::Security(_) => cost_at_par(step),
            LineKind::Market(note) => scaled_note_cost(&note, step),
        }
    }

    /// What one unit of the line costs and pays, scaled and rounded outward.
    ///
    /// For every number of units, `cost_low * units - cost_slack` to `cost_high * units + cost_slack` holds
    /// [`COEFFICIENT_SCALE`](crate::COEFFICIENT_SCALE) times what they cost, in cents, and so for each payment, in order of
    /// date. Settlement is from 2000-01-01 to 2150-01-01, and the line is one of a book with these days. It takes no
    /// memory.
    pub fn coefficients(&self, days: &PaymentDays) -> Coefficients
        requires settlement { IsSettlement days.now.settle }
        requires line { IsLine days.now self.now }
        ensures costs { cost_coefficients self.now ≡ record { low = result.cost_low; high = result.cost_high; slack = result.cost_slack } }
        ensures pays { result.pays.items ≡ pay_coefficients days.now self.now }
        ensures enclosing { (units : ℕ) → EnclosesUnits days.now self.now units }
    {
        let cost = self.scaled_cost();
        let schedule = self.schedule(days);
        Coefficients {
            cost_low: cost.low,
            cost_high: cost.high,
            cost_slack: cost.slack,
            pays: pays_of(schedule.as_slice(), self.rate(), Cents(self.step)),
        }
    }
}
