//! What has been read of an issue file so far.
ghost use Rattle.std.specs.Prelude.{◌≡◌};
ghost use Rattle.escrow_units.specs.SlgsTerms.{IsSettlement};
ghost use Rattle.issue_schedule.specs.IssueForm.{bare_read};
ghost use Rattle.issue_schedule.specs.IssueTerms.{IsRead};

use crate::distinct_days::DistinctDays;
use crate::issue::Call;
use crate::lists::{Bonds, Flows};
use escrow_units::{Cents, Day, YieldUnits, years_after};
use std::alloc::Global;
use std::marker::Model;

/// The issue price of the refunding issue.
#[derive(Clone, Copy)]
pub(crate) struct IssuePrice {
    /// The row in which it stands, from 1.
    pub row: u32,
    pub cents: Cents,
}

/// What the rows of an issue file say so far.
#[derive(Drop)]
pub(crate) struct IssueRead {
    pub settle: Day,
    pub call: Option<Call>,
    pub bonds: Bonds,
    pub direct: Flows,
    pub cash: Option<Cents>,
    pub restricted: Option<YieldUnits>,
    pub price: Option<IssuePrice>,
    pub pays: Flows,
    pub allowance: Option<Cents>,
    pub budget: Option<u32>,
    pub weekends: bool,
    pub closed: DistinctDays,
}

/// What has been read of an issue file so far. Contracts see what its rows say.
#[derive(Drop)]
pub(crate) struct Draft {
    pub read: IssueRead,
    /// The last day that a row may name, 40 years after settlement.
    pub last: Day,
}

impl Model for Draft {
    ghost use Rattle.issue_schedule.specs.declared.draft.IssueRead.{IssueRead};

    ghost Value = { IssueRead };

    ghost use Rattle.issue_schedule.specs.IssueTerms.{IsDraft};

    ghost view = { λ draft. draft.read };

    ghost invariant = { λ draft. IsDraft draft.last draft.read };
}

impl Draft {
    /// Nothing has been read but the settlement day.
    pub fn new(alloc: Global, settle: Day) -> Draft
        requires { IsSettlement settle }
        ensures { result ≡ bare_read settle }
    {
        Draft {
            read: IssueRead {
                settle,
                call: None,
                bonds: Bonds::none(alloc),
                direct: Flows::none(alloc),
                cash: None,
                restricted: None,
                price: None,
                pays: Flows::none(alloc),
                allowance: None,
                budget: None,
                weekends: false,
                closed: DistinctDays::none(alloc),
            },
            last: years_after(settle, 40),
        }
    }

    /// What the rows say.
    pub fn into_read(self) -> IssueRead
        ensures read { result ≡ self }
        ensures kept { IsRead result }
    {
        self.read
    }
}
