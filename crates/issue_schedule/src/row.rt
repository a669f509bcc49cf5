//! The rows of an issue file.
ghost use Rattle.std.specs.Prelude.{◌≡◌, ◌≤ℤ◌, IfOk};
ghost use Rattle.escrow_units.specs.SlgsTerms.{IsSettlement};
ghost use Rattle.issue_schedule.specs.IssueForm.{bond_row_of, budget_row_of, call_row_of, cents_row_of, closed_row_of, first_settle_of, flow_row_of, issue_row_of, price_row_of, settle_row_of, weekends_row_of, yield_row_of};
ghost use Rattle.issue_schedule.specs.declared.row.IssueRow.TheVariants as issue_row_kind;
ghost use Rattle.issue_schedule.specs.IssueRows.{IsBondRow, IsBudget, IsCallRow, IsCents, IsFlowRow, IsGivenYield, IsIssuePrice, IsIssueRow};

use crate::draft::IssuePrice;
use crate::issue::{Bond, Call};
use escrow_desk::RefusalKind;
use escrow_units::{
    Cents, Day, Flow, YieldUnits, is_settlement, read_cents, read_count, read_price, read_rate,
    read_yield,
};
use row_fields::{Row, day_by, day_field, refusal_kind};

/// What a row of an issue file says.
#[derive(Clone, Copy)]
pub(crate) enum IssueRow {
    /// `settle,DATE`
    Settle(Day),
    /// `call,DATE,PRICE`
    Call(Call),
    /// `bond,MATURITY,PRINCIPAL,COUPON`
    Bond(Bond),
    /// `need,DATE,AMOUNT`
    Need(Flow),
    /// `cash,AMOUNT`
    Cash(Cents),
    /// `restricted,YIELD`
    Restricted(YieldUnits),
    /// `price,AMOUNT`
    Price(IssuePrice),
    /// `pay,DATE,AMOUNT`
    Pay(Flow),
    /// `allowance,AMOUNT`
    Allowance(Cents),
    /// `budget,COUNT`
    Budget(u32),
    /// `weekends`
    Weekends,
    /// `closed,DATE`
    Closed(Day),
}

// `settle,DATE`, from 2000-01-01 to 2150-01-01.
fn settle_row(row: &Row) -> Result<Day, RefusalKind>
    ensures value { result ≡ settle_row_of row.now }
    ensures range { IfOk result IsSettlement }
{
    if row.width() != 2 {
        return Err(RefusalKind::WrongFields);
    }
    let day = day_field(row.field(1))?;
    if !is_settlement(day) {
        return Err(RefusalKind::OutOfRange);
    }
    Ok(day)
}

/// The settlement day of row 1, which is `settle`; any other first row is `Missing`.
pub(crate) fn first_settle(row: &Row) -> Result<Day, RefusalKind>
    ensures value { result ≡ first_settle_of row.now }
    ensures range { IfOk result IsSettlement }
{
    if row.word() != b"settle".as_slice() {
        return Err(RefusalKind::Missing);
    }
    settle_row(row)
}

// `call,DATE,PRICE`, with a date up to the last day.
fn call_row(row: &Row, last: Day) -> Result<Call, RefusalKind>
    ensures value { result ≡ call_row_of last row.now }
    ensures call { IfOk result (IsCallRow last) }
{
    if row.width() != 3 {
        return Err(RefusalKind::WrongFields);
    }
    let day = day_by(row.field(1), last)?;
    let price = read_price(row.field(2)).map_err(refusal_kind)?;
    Ok(Call { day, price })
}

// `bond,MATURITY,PRINCIPAL,COUPON`, with a maturity up to the last day.
fn bond_row(row: &Row, last: Day) -> Result<Bond, RefusalKind>
    ensures value { result ≡ bond_row_of last row.now }
    ensures bond { IfOk result (IsBondRow last) }
{
    if row.width() != 4 {
        return Err(RefusalKind::WrongFields);
    }
    let maturity = day_by(row.field(1), last)?;
    let principal = read_cents(row.field(2)).map_err(refusal_kind)?;
    let coupon = read_rate(row.field(3)).map_err(refusal_kind)?;
    Ok(Bond {
        maturity,
        principal,
        coupon,
    })
}

// `need,DATE,AMOUNT`, and `pay,DATE,AMOUNT`, with a date up to the last day.
fn flow_row(row: &Row, last: Day) -> Result<Flow, RefusalKind>
    ensures value { result ≡ flow_row_of last row.now }
    ensures flow { IfOk result (IsFlowRow last) }
{
    if row.width() != 3 {
        return Err(RefusalKind::WrongFields);
    }
    let day = day_by(row.field(1), last)?;
    let cents = read_cents(row.field(2)).map_err(refusal_kind)?;
    Ok(Flow { day, cents })
}

// `cash,AMOUNT`, and `allowance,AMOUNT`
fn cents_row(row: &Row) -> Result<Cents, RefusalKind>
    ensures value { result ≡ cents_row_of row.now }
    ensures cents { IfOk result IsCents }
{
    if row.width() != 2 {
        return Err(RefusalKind::WrongFields);
    }
    read_cents(row.field(1)).map_err(refusal_kind)
}

// `restricted,YIELD`
fn yield_row(row: &Row) -> Result<YieldUnits, RefusalKind>
    ensures value { result ≡ yield_row_of row.now }
    ensures units { IfOk result IsGivenYield }
{
    if row.width() != 2 {
        return Err(RefusalKind::WrongFields);
    }
    read_yield(row.field(1)).map_err(refusal_kind)
}

// `price,AMOUNT`, of at least one cent, where `number` is the row's, from 1.
fn price_row(row: &Row, number: u32) -> Result<IssuePrice, RefusalKind>
    ensures value { result ≡ price_row_of number row.now }
    ensures price { IfOk result IsIssuePrice }
{
    let cents = cents_row(row)?;
    if cents.0 == 0 {
        return Err(RefusalKind::OutOfRange);
    }
    Ok(IssuePrice { row: number, cents })
}

// `budget,COUNT`
fn budget_row(row: &Row) -> Result<u32, RefusalKind>
    ensures value { result ≡ budget_row_of row.now }
    ensures budget { IfOk result IsBudget }
{
    if row.width() != 2 {
        return Err(RefusalKind::WrongFields);
    }
    read_count(row.field(1)).map_err(refusal_kind)
}

// `weekends`
fn weekends_row(row: &Row) -> Result<IssueRow, RefusalKind>
    ensures value { result ≡ weekends_row_of row.now }
    ensures row { IfOk result (λ read. read ≡ issue_row_kind.Weekends) }
{
    if row.width() != 1 {
        return Err(RefusalKind::WrongFields);
    }
    Ok(IssueRow::Weekends)
}

// `closed,DATE`, with a date up to the last day.
fn closed_row(row: &Row, last: Day) -> Result<Day, RefusalKind>
    ensures value { result ≡ closed_row_of last row.now }
    ensures day { IfOk result (λ day. day ≤ℤ last) }
{
    if row.width() != 2 {
        return Err(RefusalKind::WrongFields);
    }
    day_by(row.field(1), last)
}

/// A row by its number, from 1; it names days up to the last one.
pub(crate) fn issue_row(row: &Row, number: u32, last: Day) -> Result<IssueRow, RefusalKind>
    ensures value { result ≡ issue_row_of last number row.now }
    ensures row { IfOk result (IsIssueRow last) }
{
    let word = row.word();
    if word == b"settle".as_slice() {
        Ok(IssueRow::Settle(settle_row(row)?))
    } else if word == b"call".as_slice() {
        Ok(IssueRow::Call(call_row(row, last)?))
    } else if word == b"bond".as_slice() {
        Ok(IssueRow::Bond(bond_row(row, last)?))
    } else if word == b"need".as_slice() {
        Ok(IssueRow::Need(flow_row(row, last)?))
    } else if word == b"cash".as_slice() {
        Ok(IssueRow::Cash(cents_row(row)?))
    } else if word == b"restricted".as_slice() {
        Ok(IssueRow::Restricted(yield_row(row)?))
    } else if word == b"price".as_slice() {
        Ok(IssueRow::Price(price_row(row, number)?))
    } else if word == b"pay".as_slice() {
        Ok(IssueRow::Pay(flow_row(row, last)?))
    } else if word == b"allowance".as_slice() {
        Ok(IssueRow::Allowance(cents_row(row)?))
    } else if word == b"budget".as_slice() {
        Ok(IssueRow::Budget(budget_row(row)?))
    } else if word == b"weekends".as_slice() {
        weekends_row(row)
    } else if word == b"closed".as_slice() {
        Ok(IssueRow::Closed(closed_row(row, last)?))
    } else {
        Err(RefusalKind::UnknownRow)
    }
}
