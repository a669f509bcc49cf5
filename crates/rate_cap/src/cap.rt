//! The case at a common cap on the SLGS rates.

ghost use Rattle.std.specs.Prelude.{◌≡◌, ◌++◌, ◌∷◌, [], All, IfOk, List, map};
ghost use Rattle.rate_table.specs.Table.{IsTableRate};
ghost use Rattle.offer_book.specs.Book.{IsBook};
ghost use Rattle.offer_book.specs.declared.line.Line.{Line};
ghost use Rattle.case_file.specs.Case.{HasTerms, case_view};
ghost use Rattle.rate_cap.specs.CaseAt.{CapsKeepRules, CasesAtCapsAreOne, FilesGiveTableRates, IsAtCap, IsItselfFromTop, IsTopOf, kind_at as kind_at_cap, line_at as line_at_cap, slgs_rate as slgs_rate_of, slgs_rates};

use case_file::Case;
use escrow_desk::NoMemory;
use escrow_units::{ClosedDays, Flow, Rate, Slgs};
use offer_book::{Book, Line, LineKind};
use std::alloc::{AllocError, Global};

// The rate of what is bought, where it is a SLGS security.
fn slgs_rate(kind: &LineKind) -> Option<Rate>
    ensures { result ≡ slgs_rate_of kind.now }
{
    match kind {
        LineKind::Security(slgs) => Some(slgs.rate),
        LineKind::Cash | LineKind::Market(_) => None,
    }
}

// The top of lines with one more.
fn top_with(top: Rate, line: &Line) -> Rate
    ensures { (lines : List Line) → IsTopOf (slgs_rates lines) top → IsTopOf (slgs_rates (lines ++ line.now ∷ [])) result }
{
    match slgs_rate(&line.kind) {
        Some(rate) => { if top.0 < rate.0 { rate } else { top } }
        None => top,
    }
}

/// The greatest rate of the SLGS securities of a case, in thousandths of a percentage point, or 0 where it has none. It takes no
/// memory.
///
/// Where the case was read from files the rates are whole hundredths of a percentage point, and so is the top: [`cap_laws`] says
/// it.
pub fn top_rate(case: &Case) -> Rate
    ensures top { IsTopOf (slgs_rates case.now.book.lines) result }
    ensures hundredths { All IsTableRate (slgs_rates case.now.book.lines) → IsTableRate result }
{
    let lines = case.book.lines();
    let mut top = Rate(0);
    for line in lines {
        top = top_with(top, line);
    }
    top
}

// What is bought, at a cap.
fn kind_at(kind: &LineKind, cap: Rate) -> LineKind
    ensures { result ≡ kind_at_cap cap kind.now }
{
    match *kind {
        LineKind::Cash => LineKind::Cash,
        LineKind::Security(slgs) => LineKind::Security(Slgs {
            rate: Rate(slgs.rate.0.min(cap.0)),
            ..slgs
        }),
        LineKind::Market(note) => LineKind::Market(note),
    }
}

// A line at a cap.
fn line_at(line: &Line, cap: Rate) -> Line
    ensures { result ≡ line_at_cap cap line.now }
{
    Line {
        kind: kind_at(&line.kind, cap),
        ..*line
    }
}

// Lines at a cap.
fn lines_at(alloc: Global, lines: &[Line], cap: Rate) -> Result<Vec<Line>, AllocError>
    ensures { IfOk result (λ at. at.items ≡ map (line_at_cap cap) lines.now) }
{
    lines.iter().map(|line| line_at(line, cap)).collect(alloc)
}

// A copy of needs.
fn copied(alloc: Global, needs: &[Flow]) -> Result<Vec<Flow>, AllocError>
    ensures { IfOk result (λ copy. copy.items ≡ needs.now) }
{
    let mut copy = Vec::new(alloc);
    copy.extend_from_slice(needs)?;
    Ok(copy)
}

// A copy of closed days.
fn copied_days(alloc: Global, closed: &ClosedDays) -> Result<ClosedDays, AllocError>
    ensures { IfOk result (λ copy. copy ≡ closed.now) }
{
    let days = Vec::from_slice(alloc, closed.days())?;
    ClosedDays::new(alloc, closed.weekends(), days)
}

// A book at a cap.
fn book_at(alloc: Global, book: &Book, cap: Rate) -> Result<Book, NoMemory>
    ensures book { IfOk result (λ at. at ≡ record book.now { lines = map (line_at_cap cap) book.now.lines }) }
    ensures limits { IfOk result IsBook }
{
    let lines = lines_at(alloc, book.lines(), cap)?;
    let needs = copied(alloc, book.needs())?;
    let closed = copied_days(alloc, book.closed())?;
    Ok(Book::make(book.settle(), needs, lines, closed))
}

/// The case at a cap, in thousandths of a percentage point: each SLGS security's rate is the lesser of its own and the cap, and
/// all else stays. A subscriber may choose any rate up to the table's, so it can be bought as the case can.
///
/// It is a case again: its book keeps every limit, and its terms stay. At a cap from the top on it is the case itself.
///
/// # Errors
///
/// Where memory ran out.
pub fn at_cap(alloc: Global, case: &Case, cap: Rate) -> Result<Case, NoMemory>
    ensures at { IfOk result (λ at. IsAtCap cap (case_view case.now) (case_view at)) }
    ensures book { IfOk result (λ at. IsBook at.book) }
    ensures terms { HasTerms (case_view case.now) → IfOk result (λ at. HasTerms (case_view at)) }
    ensures itself { IfOk result (λ at. IsItselfFromTop cap (case_view case.now) (case_view at)) }
{
    let book = book_at(alloc, &case.book, cap)?;
    Ok(Case {
        book,
        limit: case.limit,
        allowance: case.allowance,
        budget: case.budget,
    })
}

/// That there is one case at each cap; that each line at a cap is that of an offer which asks for the lesser rate, and keeps every
/// rule of term, rate and denomination; and that the SLGS rates of a case of files are whole hundredths of a percentage point, up
/// to 30 percent.
pub fn cap_laws()
    ensures one { CasesAtCapsAreOne }
    ensures rules { CapsKeepRules }
    ensures rates { FilesGiveTableRates }
{}
