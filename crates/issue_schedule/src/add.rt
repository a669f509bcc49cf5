//! One more row of an issue file.
ghost use Rattle.std.specs.Prelude.{◌≡◌, ◌≤ℤ◌, Ok};
ghost use Rattle.std.specs.Result.{result_and};
ghost use Rattle.escrow_units.specs.Calendar.{years_after_of};
ghost use Rattle.row_fields.specs.RowForm.{RowAnswers};
ghost use Rattle.issue_schedule.specs.IssueForm.{with_allowance, with_bond, with_budget, with_call, with_cash, with_closed, with_need, with_pay, with_price, with_restricted, with_row, with_weekends};
ghost use Rattle.issue_schedule.specs.IssueRows.{IsBondRow, IsBudget, IsCallRow, IsCents, IsFlowRow, IsGivenYield, IsIssuePrice};

use crate::draft::{Draft, IssuePrice};
use crate::issue::{Bond, Call};
use crate::row::{IssueRow, issue_row};
use escrow_desk::RefusalKind;
use escrow_units::{Cents, Day, Flow, YieldUnits};
use row_fields::{Row, RowFault};

impl Draft {
    // The one call, which is after settlement.
    fn add_call(&mut self, call: Call) -> Result<(), RowFault>
        requires { IsCallRow (years_after_of self.old.settle 40) call }
        ensures { RowAnswers (result_and result (Ok self.new)) (with_call self.old call) }
    {
        if self.read.call.is_some() {
            return Err(RowFault::Refused(RefusalKind::Repeated));
        }
        if call.day <= self.read.settle {
            return Err(RowFault::Refused(RefusalKind::DateOrder));
        }
        self.read.call = Some(call);
        Ok(())
    }

    // One more old bond, which matures after settlement.
    fn add_bond(&mut self, bond: Bond) -> Result<(), RowFault>
        requires { IsBondRow (years_after_of self.old.settle 40) bond }
        ensures { RowAnswers (result_and result (Ok self.new)) (with_bond self.old bond) }
    {
        if bond.maturity <= self.read.settle {
            return Err(RowFault::Refused(RefusalKind::DateOrder));
        }
        self.read.bonds.push(bond)?;
        Ok(())
    }

    // One more direct need, on or after settlement.
    fn add_need(&mut self, need: Flow) -> Result<(), RowFault>
        requires { IsFlowRow (years_after_of self.old.settle 40) need }
        ensures { RowAnswers (result_and result (Ok self.new)) (with_need self.old need) }
    {
        if need.day < self.read.settle {
            return Err(RowFault::Refused(RefusalKind::DateOrder));
        }
        self.read.direct.push(need)?;
        Ok(())
    }

    // The one cash maximum.
    fn add_cash(&mut self, cash: Cents) -> Result<(), RowFault>
        requires { IsCents cash }
        ensures { RowAnswers (result_and result (Ok self.new)) (with_cash self.old cash) }
    {
        if self.read.cash.is_some() {
            return Err(RowFault::Refused(RefusalKind::Repeated));
        }
        self.read.cash = Some(cash);
        Ok(())
    }

    // The one restricted yield, in place of a price and payments.
    fn add_restricted(&mut self, units: YieldUnits) -> Result<(), RowFault>
        requires { IsGivenYield units }
        ensures { RowAnswers (result_and result (Ok self.new)) (with_restricted self.old units) }
    {
        if self.read.restricted.is_some()
            || self.read.price.is_some()
            || !self.read.pays.is_empty()
        {
            return Err(RowFault::Refused(RefusalKind::Repeated));
        }
        self.read.restricted = Some(units);
        Ok(())
    }

    // The one issue price, in place of a restricted yield.
    fn add_price(&mut self, price: IssuePrice) -> Result<(), RowFault>
        requires { IsIssuePrice price }
        ensures { RowAnswers (result_and result (Ok self.new)) (with_price self.old price) }
    {
        if self.read.price.is_some() || self.read.restricted.is_some() {
            return Err(RowFault::Refused(RefusalKind::Repeated));
        }
        self.read.price = Some(price);
        Ok(())
    }

    // One more payment of the refunding issue, after settlement, in place of a restricted yield.
    fn add_pay(&mut self, pay: Flow) -> Result<(), RowFault>
        requires { IsFlowRow (years_after_of self.old.settle 40) pay }
        ensures { RowAnswers (result_and result (Ok self.new)) (with_pay self.old pay) }
    {
        if self.read.restricted.is_some() {
            return Err(RowFault::Refused(RefusalKind::Repeated));
        }
        if pay.day <= self.read.settle {
            return Err(RowFault::Refused(RefusalKind::DateOrder));
        }
        self.read.pays.push(pay)?;
        Ok(())
    }

    // The one allowance.
    fn add_allowance(&mut self, allowance: Cents) -> Result<(), RowFault>
        requires { IsCents allowance }
        ensures { RowAnswers (result_and result (Ok self.new)) (with_allowance self.old allowance) }
    {
        if self.read.allowance.is_some() {
            return Err(RowFault::Refused(RefusalKind::Repeated));
        }
        self.read.allowance = Some(allowance);
        Ok(())
    }

    // The one budget.
    fn add_budget(&mut self, budget: u32) -> Result<(), RowFault>
        requires { IsBudget budget }
        ensures { RowAnswers (result_and result (Ok self.new)) (with_budget self.old budget) }
    {
        if self.read.budget.is_some() {
            return Err(RowFault::Refused(RefusalKind::Repeated));
        }
        self.read.budget = Some(budget);
        Ok(())
    }

    // The weekends, which are closed once.
    fn add_weekends(&mut self) -> Result<(), RowFault>
        ensures { RowAnswers (result_and result (Ok self.new)) (with_weekends self.old) }
    {
        if self.read.weekends {
            return Err(RowFault::Refused(RefusalKind::Repeated));
        }
        self.read.weekends = true;
        Ok(())
    }

    // One more closed day, after settlement, that no earlier row closes.
    fn add_closed(&mut self, day: Day) -> Result<(), RowFault>
        requires { day ≤ℤ years_after_of self.old.settle 40 }
        ensures { RowAnswers (result_and result (Ok self.new)) (with_closed self.old day) }
    {
        if day <= self.read.settle {
            return Err(RowFault::Refused(RefusalKind::DateOrder));
        }
        if self.read.closed.contains(day) {
            return Err(RowFault::Refused(RefusalKind::Repeated));
        }
        self.read.closed.push(day)?;
        Ok(())
    }

    /// One more row, by its number from 1.
    pub(crate) fn add_row(&mut self, row: &Row, number: u32) -> Result<(), RowFault>
        ensures { RowAnswers (result_and result (Ok self.new)) (with_row self.old number row.now) }
    {
        match issue_row(row, number, self.last)? {
            IssueRow::Settle(_) => Err(RowFault::Refused(RefusalKind::Repeated)),
            IssueRow::Call(call) => self.add_call(call),
            IssueRow::Bond(bond) => self.add_bond(bond),
            IssueRow::Need(need) => self.add_need(need),
            IssueRow::Cash(cash) => self.add_cash(cash),
            IssueRow::Restricted(units) => self.add_restricted(units),
            IssueRow::Price(price) => self.add_price(price),
            IssueRow::Pay(pay) => self.add_pay(pay),
            IssueRow::Allowance(allowance) => self.add_allowance(allowance),
            IssueRow::Budget(budget) => self.add_budget(budget),
            IssueRow::Weekends => self.add_weekends(),
            IssueRow::Closed(day) => self.add_closed(day),
        }
    }
}
