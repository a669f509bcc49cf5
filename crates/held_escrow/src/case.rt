//! The case in which holdings are kept.

ghost use Rattle.std.specs.Prelude.{◌≡◌, ◌≤◌, [], IfOk};
ghost use Rattle.escrow_units.specs.Flows.{ComeInOrder, total};
ghost use Rattle.offer_book.specs.Book.{IsBook};
ghost use Rattle.case_file.specs.Case.{HasTerms, case_view};
ghost use Rattle.held_escrow.specs.HeldCase.{AreShortAlike, IsHeldCase, IsItselfWithout, MeetAlike, RivalsAlike, held_case_of, with_needs};
ghost use Rattle.held_escrow.specs.Residual.{IsResidual, residual_of};

use crate::shortfall::residual;
use case_file::Case;
use escrow_desk::NoMemory;
use escrow_units::{AMOUNT_LIMIT, ClosedDays, Flow};
use offer_book::Book;
use std::alloc::{AllocError, Global};

// A copy of closed days.
fn copied_days(alloc: Global, closed: &ClosedDays) -> Result<ClosedDays, AllocError>
    ensures { IfOk result (λ copy. copy ≡ closed.now) }
{
    let days = Vec::from_slice(alloc, closed.days())?;
    ClosedDays::new(alloc, closed.weekends(), days)
}

// A book beside holdings.
fn held_book(alloc: Global, book: &Book, held: &[Flow]) -> Result<Book, NoMemory>
    requires order { ComeInOrder held.now }
    requires sum { total held.now ≤ AMOUNT_LIMIT }
    ensures book { IfOk result (λ kept. kept ≡ with_needs book.now (residual_of book.now.needs held.now)) }
    ensures residual { IfOk result (λ kept. IsResidual book.now.needs held.now kept.needs) }
    ensures itself { IfOk result (λ kept. held.now ≡ [] → kept ≡ book.now) }
    ensures limits { IfOk result IsBook }
{
    let needs = residual(alloc, book.needs(), held)?;
    let lines = Vec::from_slice(alloc, book.lines())?;
    let closed = copied_days(alloc, book.closed())?;
    Ok(Book::make(book.settle(), needs, lines, closed))
}

/// The case in which holdings are kept: its needs are the residual beside them, as [`residual`] has it, and all else stays: the
/// lines, the settlement day and the closed days, the limit, the allowance and the budget. The holdings come in order of day, and are
/// at most 10^13 cents together.
///
/// It is a case again: its book keeps every limit, and its terms stay; without holdings it is the case itself. A portfolio meets its needs exactly where it meets those of
/// the case with the holdings, and else is first short on the same day; its rivals are the held rivals of the case, whose yield is
/// that of what they buy.
///
/// # Errors
///
/// Where memory ran out.
pub fn held_case(alloc: Global, case: &Case, held: &[Flow]) -> Result<Case, NoMemory>
    requires order { ComeInOrder held.now }
    requires sum { total held.now ≤ AMOUNT_LIMIT }
    ensures case { IfOk result (λ kept. IsHeldCase held.now (case_view case.now) (case_view kept)) }
    ensures value { IfOk result (λ kept. case_view kept ≡ held_case_of (case_view case.now) held.now) }
    ensures book { IfOk result (λ kept. IsBook kept.book) }
    ensures itself { IfOk result (λ kept. IsItselfWithout held.now (case_view case.now) (case_view kept)) }
    ensures terms { HasTerms (case_view case.now) → IfOk result (λ kept. HasTerms (case_view kept)) }
    ensures meet { IfOk result (λ kept. MeetAlike held.now case.now.book kept.book) }
    ensures short { IfOk result (λ kept. AreShortAlike held.now case.now.book kept.book) }
    ensures rivals { IfOk result (λ kept. RivalsAlike case.now.limit.0 held.now case.now.book kept.book) }
{
    let book = held_book(alloc, &case.book, held)?;
    Ok(Case {
        book,
        limit: case.limit,
        allowance: case.allowance,
        budget: case.budget,
    })
}
