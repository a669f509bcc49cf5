//! What one old bond needs.
ghost use Rattle.std.specs.Prelude.{◌≡◌, ◌⊎◌, ◌≤◌, ◌<◌, ◌+◌, [], ◌∷◌, ◌++◌, int_le, if◌then◌else◌, length, ◌≤ℤ◌, ◌<ℤ◌, ◌+ℤ◌, pos, IfSome};
ghost use Rattle.arrayvec.specs.ArrayVec.{array_vec_len};
ghost use Rattle.escrow_units.specs.Calendar.{IsBaseDay, years_after_of};
ghost use Rattle.escrow_units.specs.Series.{AreDatesAfter, IsLastBy, dates_after_of};
ghost use Rattle.escrow_units.specs.SlgsTerms.{IsSettlement};
ghost use Rattle.escrow_units.specs.declared.security.StepRule.TheVariants as rule;
ghost use Rattle.issue_schedule.specs.IssueTerms.{IsBond, IsCall, IsLater};
ghost use Rattle.issue_schedule.specs.Needs.{accrued, accrued_since as accrued_since_of, bond_needs as bond_needs_of, call_price as call_price_of, called_needs as called_needs_of, held_needs as held_needs_of, interest, period_start as period_start_of};

use crate::issue::{Bond, Call};
use arrayvec::ArrayVec;
use escrow_units::{
    AMOUNT_LIMIT, Cents, Day, Flow, GREATEST_PRICE, GREATEST_RATE, StepRule, earned, face_price,
    half_coupon, index360, series_around, series_laws, year_laws,
};

// The interest that has accrued since a day.
fn accrued_since(bond: &Bond, start: Day, day: Day) -> Cents
    requires principal { bond.now.principal.0 ≤ AMOUNT_LIMIT }
    requires coupon { bond.now.coupon.0 ≤ GREATEST_RATE }
    requires order { start ≤ℤ day }
    requires near { day ≤ℤ years_after_of start 40 }
    ensures { result.0 ≡ accrued_since_of bond.now start day }
{
    earned(bond.principal, bond.coupon, index360(start, day), 360)
}

// The later of two dates, of which the second counts only where it is not after a day.
fn later_by(start: Day, date: Day, day: Day) -> Day
    requires { start ≤ℤ day }
    ensures either { (result ≡ start) ⊎ (result ≡ date) }
    ensures by { result ≤ℤ day }
    ensures order { start ≤ℤ result }
    ensures reach { date ≤ℤ day → date ≤ℤ result }
{
    if date <= day && start < date {
        date
    } else {
        start
    }
}

// The last date of a series up to a day, by the last up to settlement and the later dates.
fn period_start(maturity: Day, settle: Day, previous: Day, after: &[Day], day: Day) -> Day
    requires base { IsBaseDay maturity }
    requires near { maturity ≤ℤ (day +ℤ pos 14_640) }
    requires from { settle ≤ℤ day }
    requires previous { IsLastBy maturity StepRule.SameDay settle previous }
    requires after { AreDatesAfter maturity StepRule.SameDay settle after.now }
    ensures value { result ≡ period_start_of maturity day }
    ensures last { IsLastBy maturity StepRule.SameDay day result }
{
    series_laws();
    let mut start = previous;
    for date in after {
        start = later_by(start, *date, day);
    }
    start
}

// An amount, where it falls by a last day.
fn push_by(flows: &mut ArrayVec<Flow, 88>, last: Day, flow: Flow)
    requires room { array_vec_len flows.old < 88 }
    ensures flows { flows.new.items ≡ flows.old.items ++ (if int_le flow.day last then flow ∷ [] else []) }
    ensures room { array_vec_len flows.new ≤ array_vec_len flows.old + 1 }
{
    if flow.day <= last {
        flows.push(flow);
    }
}

// Half-coupons on the dates of the series after settlement, up to a last day.
fn push_interest(flows: &mut ArrayVec<Flow, 88>, last: Day, bond: &Bond, after: &[Day], settle: Day)
    requires room { array_vec_len flows.old ≤ 2 }
    requires few { length after.now ≤ 84 }
    requires after { after.now ≡ dates_after_of bond.now.maturity StepRule.SameDay settle }
    requires principal { bond.now.principal.0 ≤ AMOUNT_LIMIT }
    requires coupon { bond.now.coupon.0 ≤ GREATEST_RATE }
    ensures { flows.new.items ≡ flows.old.items ++ interest settle last bond.now }
{
    let cents = half_coupon(bond.principal, bond.coupon);
    for date in after {
        push_by(flows, last, Flow { day: *date, cents });
    }
}

// Accrued interest at a call, where its half-year begins earlier.
fn push_accrued(flows: &mut ArrayVec<Flow, 88>, bond: &Bond, start: Day, day: Day)
    requires room { array_vec_len flows.old ≤ 1 }
    requires base { IsBaseDay bond.now.maturity }
    requires principal { bond.now.principal.0 ≤ AMOUNT_LIMIT }
    requires coupon { bond.now.coupon.0 ≤ GREATEST_RATE }
    requires before { day <ℤ bond.now.maturity }
    requires late { pos 10_957 ≤ℤ day }
    requires start { start ≡ period_start_of bond.now.maturity day }
    requires last { IsLastBy bond.now.maturity StepRule.SameDay day start }
    ensures flows { flows.new.items ≡ flows.old.items ++ accrued bond.now day }
    ensures room { array_vec_len flows.new ≤ array_vec_len flows.old + 1 }
{
    year_laws();
    if start != day {
        let cents = accrued_since(bond, start, day);
        flows.push(Flow { day, cents });
    }
}

// What a bond needs that isn't called, by the dates of its series after settlement.
fn held_needs(settle: Day, bond: &Bond, after: &[Day]) -> ArrayVec<Flow, 88>
    requires bond { IsBond settle bond.now }
    requires few { length after.now ≤ 84 }
    requires after { after.now ≡ dates_after_of bond.now.maturity StepRule.SameDay settle }
    ensures { result.items ≡ held_needs_of settle bond.now }
{
    let mut flows = ArrayVec::new();
    flows.push(Flow {
        day: bond.maturity,
        cents: bond.principal,
    });
    push_interest(&mut flows, bond.maturity, bond, after, settle);
    flows
}

// What a bond needs that is called, by the dates of its series after settlement and the last before them.
fn called_needs(
    settle: Day,
    bond: &Bond,
    call: &Call,
    previous: Day,
    after: &[Day],
) -> ArrayVec<Flow, 88>
    requires settle { IsSettlement settle }
    requires bond { IsBond settle bond.now }
    requires call { IsCall settle call.now }
    requires before { call.now.day <ℤ bond.now.maturity }
    requires few { length after.now ≤ 84 }
    requires previous { IsLastBy bond.now.maturity StepRule.SameDay settle previous }
    requires after { after.now ≡ dates_after_of bond.now.maturity StepRule.SameDay settle }
    ensures { result.items ≡ called_needs_of settle bond.now call.now }
{
    year_laws();
    series_laws();
    let start = period_start(bond.maturity, settle, previous, after, call.day);
    let mut flows = ArrayVec::new();
    flows.push(Flow {
        day: call.day,
        cents: face_price(bond.principal, call.price),
    });
    push_accrued(&mut flows, bond, start, call.day);
    push_interest(&mut flows, call.day, bond, after, settle);
    flows
}

// What a bond needs, by the dates of its series after settlement and the last before them.
fn needs_by_dates(
    settle: Day,
    call: Option<Call>,
    bond: &Bond,
    previous: Day,
    after: &[Day],
) -> ArrayVec<Flow, 88>
    requires settle { IsSettlement settle }
    requires call { IfSome call (IsCall settle) }
    requires bond { IsBond settle bond.now }
    requires few { length after.now ≤ 84 }
    requires previous { IsLastBy bond.now.maturity StepRule.SameDay settle previous }
    requires after { after.now ≡ dates_after_of bond.now.maturity StepRule.SameDay settle }
    ensures { result.items ≡ bond_needs_of settle call bond.now }
{
    match call {
        Some(call) if call.day < bond.maturity => {
            called_needs(settle, bond, &call, previous, after)
        }
        _ => held_needs(settle, bond, after),
    }
}

/// What a bond needs, on each of its days: the dates of its series are counted back once.
pub(crate) fn bond_needs(settle: Day, call: Option<Call>, bond: &Bond) -> ArrayVec<Flow, 88>
    requires settle { IsSettlement settle }
    requires call { IfSome call (IsCall settle) }
    requires bond { IsBond settle bond.now }
    ensures { result.items ≡ bond_needs_of settle call bond.now }
{
    year_laws();
    let dates = series_around(bond.maturity, StepRule::SameDay, settle);
    needs_by_dates(settle, call, bond, dates.previous, dates.after.as_slice())
}
