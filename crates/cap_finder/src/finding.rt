//! The search of the greatest cap.

ghost use Rattle.std.specs.Prelude.{All, IfOk};
ghost use Rattle.case_file.specs.Case.{HasTerms, case_view};
ghost use Rattle.rate_cap.specs.CaseAt.{slgs_rates};
ghost use Rattle.rate_table.specs.Table.{IsTableRate};
ghost use Rattle.cap_finder.specs.Ends.{IsCapEnd, IsPlainAtTop};

use crate::ends::CapEnd;
use crate::progress::Progress;
use branch_search::{Hint, Watcher, settled_laws};
use case_file::Case;
use escrow_desk::NoMemory;
use rate_cap::{cap_laws, top_rate};
use std::alloc::Global;

/// The greatest common cap on the SLGS rates of a case at which an escrow is found, by halves: first the top is tried, the greatest
/// of the rates, then 0, and then the middle of the greatest found and the least not found, until they are one hundredth of a
/// percentage point apart. For each the case at the cap is searched, with its allowance and its budget: at most fourteen searches.
/// Each has the hint of the one before, which is but a hint: what is found, and why none is, is so without it.
/// Beside the given case it holds two more at most.
///
/// The rates are whole hundredths of a percentage point, at most 30 percent, as those of files are: `cap_laws` of rate_cap says it.
/// That an escrow is found at no greater cap isn't said: caps between are left out.
///
/// A watcher sees each cap before it is tried, and what the search of its case sees.
///
/// # Errors
///
/// Where memory ran out.
pub fn find_cap<W: Watcher>(alloc: Global, case: &Case, watcher: &mut W) -> Result<CapEnd, NoMemory>
    requires terms { HasTerms (case_view case.now) }
    requires rates { All IsTableRate (slgs_rates case.now.book.lines) }
    ensures end { IfOk result (IsCapEnd (case_view case.now)) }
    ensures plain { IfOk result (IsPlainAtTop (case_view case.now)) }
{
    // A book keeps its limits, and there is one case at each cap; no search of a plain case ends without an escrow.
    prove!(case.book.line_count() > 0);
    cap_laws();
    settled_laws();
    let mut hint = Hint::none();
    let mut progress = Progress::start(top_rate(case));
    while let Some(cap) = progress.search.ask() {
        progress.try_cap(alloc, case, cap, &mut hint, watcher)?;
    }
    progress.end(alloc, case)
}
