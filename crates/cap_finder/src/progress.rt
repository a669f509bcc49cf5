//! How far the search of the greatest cap has come.

ghost use Rattle.std.specs.Prelude.{◌≡◌, IfOk, OnOk};
ghost use Rattle.case_file.specs.Case.{CaseContents, HasTerms, case_view};
ghost use Rattle.rate_cap.specs.CaseAt.{IsAtCap, IsTopOf, case_at, slgs_rates};
ghost use Rattle.rate_cap.specs.Search.{IsSearch, IsSettled, zero_cap};
ghost use Rattle.rate_table.specs.Table.{IsTableRate};
ghost use Rattle.cap_finder.specs.Ends.{IsCapEnd, IsCappedEscrow, IsInTheWay};
ghost use Rattle.cap_finder.specs.Progress.{IsAsked, IsOneMore, IsProgress, IsZeroUnfound};

use crate::ends::{CapEnd, CappedEscrow, CaseAtZero, GreatestCap, Obstacle, Unfound};
use branch_search::{Hint, Sight, Watcher, search_from};
use case_file::Case;
use escrow_desk::NoMemory;
use escrow_units::Rate;
use rate_cap::{CapSearch, at_cap, cap_laws, search_laws};
use std::alloc::Global;

/// How far the search of a case's greatest cap has come.
#[derive(Drop)]
pub(crate) struct Progress {
    /// The caps that were told.
    pub search: CapSearch,
    /// The escrow at the greatest cap that was found, if one was.
    pub found: Option<CappedEscrow>,
    /// The least cap that wasn't, if there is one.
    pub unfound: Option<Unfound>,
}

// The case at cap 0, which wasn't found.
fn at_zero(alloc: Global, case: &Case, unfound: Option<Unfound>) -> Result<CaseAtZero, NoMemory>
    requires { IsZeroUnfound (case_view case.now) unfound }
    ensures at { IfOk result (λ zero. IsAtCap zero_cap (case_view case.now) (case_view zero.case)) }
    ensures obstacle { IfOk result (λ zero. IsInTheWay (case_view zero.case) zero.obstacle) }
{
    // There is one case at each cap.
    cap_laws();
    let Some(unfound) = unfound else {
        unreachable!()
    };
    let case = at_cap(alloc, case, unfound.cap)?;
    Ok(CaseAtZero {
        case,
        obstacle: unfound.obstacle,
    })
}

impl Progress {
    /// Nothing is told yet, below a top.
    pub(crate) fn start(top: Rate) -> Progress
        requires { IsTableRate top }
        ensures progress { (case : CaseContents) → IsProgress case result }
        ensures top { result.search.top ≡ top }
    {
        Progress {
            search: CapSearch::start(top),
            found: None,
            unfound: None,
        }
    }

    // Tells that an escrow was found at the cap that was asked, and keeps it.
    fn tell_found(&mut self, escrow: CappedEscrow)
        requires { IsAsked self.old.search escrow.cap }
        ensures progress { (case : CaseContents) → IsProgress case self.old → IsCappedEscrow case escrow → IsProgress case self.new }
        ensures told { IsOneMore self.old.search self.new.search }
    {
        self.search.tell(true);
        self.found = Some(escrow);
    }

    // Tells that none was, and keeps why.
    fn tell_unfound(&mut self, unfound: Unfound)
        requires { IsAsked self.old.search unfound.cap }
        ensures progress { (case : CaseContents) → IsProgress case self.old → IsInTheWay (case_at unfound.cap case) unfound.obstacle → IsProgress case self.new }
        ensures told { IsOneMore self.old.search self.new.search }
    {
        self.search.tell(false);
        self.unfound = Some(unfound);
    }

    /// Searches the case at the cap that was asked, with the hint of the cap before, and tells whether an escrow is found. The watcher
    /// sees the cap first.
    #[inline(never)]
    pub(crate) fn try_cap<W: Watcher>(
        &mut self,
        alloc: Global,
        case: &Case,
        cap: Rate,
        hint: &mut Hint,
        watcher: &mut W,
    ) -> Result<(), NoMemory>
        requires terms { HasTerms (case_view case.now) }
        requires progress { IsProgress (case_view case.now) self.old }
        requires asked { IsAsked self.old.search cap }
        ensures progress { OnOk result (IsProgress (case_view case.now) self.new) }
        ensures told { OnOk result (IsOneMore self.old.search self.new.search) }
    {
        // There is one case at each cap.
        cap_laws();
        let at = at_cap(alloc, case, cap)?;
        watcher.see(Sight::Cap(cap));
        match search_from(
            alloc,
            &at.book,
            at.limit,
            at.allowance,
            at.budget,
            hint,
            watcher,
        ) {
            Ok(found) => self.tell_found(CappedEscrow {
                cap,
                case: at,
                found,
            }),
            Err(end) => {
                let obstacle = Obstacle::of_end(end)?;
                self.tell_unfound(Unfound { cap, obstacle });
            }
        }
        Ok(())
    }

    /// What it has come to where nothing more is asked.
    pub(crate) fn end(self, alloc: Global, case: &Case) -> Result<CapEnd, NoMemory>
        requires progress { IsProgress (case_view case.now) self }
        requires search { IsSearch self.search }
        requires settled { IsSettled self.search }
        requires top { IsTopOf (slgs_rates case.now.book.lines) self.search.top }
        ensures { IfOk result (IsCapEnd (case_view case.now)) }
    {
        // What a settled search has come to.
        search_laws();
        let Progress { found, unfound, .. } = self;
        match found {
            Some(escrow) => Ok(CapEnd::Found(GreatestCap {
                escrow,
                next: unfound,
            })),
            None => Ok(CapEnd::NoneFound(at_zero(alloc, case, unfound)?)),
        }
    }
}
