//! What is said of the rolls of a portfolio.

ghost use Rattle.std.specs.Prelude.{◌≡◌, ◌++◌, ◌≤◌, IfOk, IfSome, IsOk, Ok, OnOk, Option, length};
ghost use Rattle.std.specs.List.{flat_map};
ghost use Rattle.escrow_desk.specs.Rows.{rows_of};
ghost use Rattle.escrow_units.specs.Denomination.{AreTerms};
ghost use Rattle.rate_table.specs.RateForm.{rate_file_of};
ghost use Rattle.offer_book.specs.Portfolio.{IsPermitted, Meets, security_flows};
ghost use Rattle.case_file.specs.Case.{IsKept, case_view};
ghost use Rattle.roll_plan.specs.Rolls.{AreRollsOf};
ghost use Rattle.roll_plan.specs.RollsOf.{moved_by};
ghost use Rattle.roll_plan.specs.Steps.{stated_by};
ghost use Rattle.certificate_answers.specs.CaseOf.{AreWithin};
ghost use Rattle.certificate_answers.specs.Reading.{files_view};
ghost use Rattle.certificate_answers.specs.RollsText.{roll_text, rolled_text as rolled_text_of, rolls_text as rolls_text_of, yield_of_flows};

use crate::files::InputFiles;
use case_file::Case;
use cash_table::{Plan, plan_yield, security_cost};
use escrow_desk::{CaseError, FILE_LIMIT, NoMemory};
use escrow_units::{Day, Terms, print_cents, print_day};
use roll_plan::{Roll, rolled, rolls, terms_of};
use std::alloc::Global;
use verification_report::{push_line, push_yield};
use yield_enclosure::{YieldAnswer, interval};

// Adds the line of a roll.
fn push_roll(text: &mut Vec<u8>, roll: &Roll) -> Result<(), NoMemory>
    ensures { OnOk result (text.new.items ≡ text.old.items ++ roll_text roll.now) }
{
    text.extend_from_slice(b"roll ")?;
    text.extend_from_slice(print_day(roll.day).as_bytes())?;
    text.push(b' ')?;
    text.extend_from_slice(print_day(roll.next).as_bytes())?;
    push_line(text, b" ", print_cents(roll.cents).as_bytes())
}

// Adds the lines of rolls.
fn push_rolls(text: &mut Vec<u8>, rolls: &[Roll]) -> Result<(), NoMemory>
    ensures { OnOk result (text.new.items ≡ text.old.items ++ flat_map roll_text rolls.now) }
{
    for roll in rolls {
        push_roll(text, roll)?;
    }
    Ok(())
}

// The lines of rolls, of what the securities yield without them, and of what they yield with them.
fn rolls_text(
    alloc: Global,
    rolls: &[Roll],
    answer: YieldAnswer,
    rolled: YieldAnswer,
) -> Result<Vec<u8>, NoMemory>
    ensures { IfOk result (λ text. text.items ≡ rolls_text_of rolls.now answer rolled) }
{
    let mut text = Vec::new(alloc);
    push_rolls(&mut text, rolls)?;
    push_yield(&mut text, b"yield ", answer)?;
    push_yield(&mut text, b"rolled yield ", rolled)?;
    Ok(text)
}

// The denominations of a rate file that was read before, and wasn't refused.
fn terms_again(alloc: Global, settle: Day, text: &[u8]) -> Result<Option<Terms>, NoMemory>
    requires within { length text.now ≤ FILE_LIMIT }
    requires read { IsOk (stated_by (rate_file_of (rows_of text.now))) }
    ensures terms { IfOk result (λ terms. stated_by (rate_file_of (rows_of text.now)) ≡ Ok terms) }
    ensures kept { IfOk result (λ terms. IfSome terms AreTerms) }
{
    match terms_of(alloc, settle, text) {
        Ok(terms) => Ok(terms),
        Err(CaseError::NoMemory) => Err(NoMemory),
        Err(CaseError::Refused(_)) => unreachable!(),
    }
}

// What the securities of a portfolio yield where its rolls are made.
fn rolled_yield(
    alloc: Global,
    case: &Case,
    plan: &Plan,
    rolls: &[Roll],
) -> Result<YieldAnswer, NoMemory>
    requires permitted { IsPermitted case.now.book plan.now }
    requires meets { Meets case.now.book plan.now }
    requires rolls { (terms : Option Terms) × AreRollsOf case.now.book plan.now terms rolls.now }
    ensures { IfOk result (λ answer. answer ≡ yield_of_flows case.now.book plan.now (moved_by (security_flows case.now.book plan.now) rolls.now)) }
{
    // A book keeps its limits.
    prove!(case.book.line_count() > 0);
    let moved = rolled(alloc, case, plan, rolls)?;
    let cost = security_cost(&case.book, plan);
    interval(alloc, case.book.settle(), moved.as_slice(), cost)
}

/// What is said of the rolls of a permitted portfolio that meets the needs of the case of input files. The denominations of their rate
/// file are read once more, since the case doesn't keep them. It isn't inlined: its tables would stand on the stack while the certificate
/// is read.
#[inline(never)]
pub(crate) fn rolled_text(
    alloc: Global,
    files: &InputFiles,
    case: &Case,
    plan: &Plan,
) -> Result<Vec<u8>, NoMemory>
    requires within { AreWithin (files_view files.now) }
    requires kept { IsKept (rows_of (files_view files.now).issue) (rows_of (files_view files.now).rates) (rows_of (files_view files.now).prices) (case_view case.now) }
    requires permitted { IsPermitted case.now.book plan.now }
    requires meets { Meets case.now.book plan.now }
    ensures { IfOk result (λ text. text.items ≡ rolled_text_of (stated_by (rate_file_of (rows_of (files_view files.now).rates))) (case_view case.now) plan.now) }
{
    let terms = terms_again(alloc, case.book.settle(), files.rates.as_slice())?;
    let rolls = rolls(alloc, case, plan, terms)?;
    let answer = plan_yield(alloc, &case.book, plan)?;
    let rolled = rolled_yield(alloc, case, plan, rolls.as_slice())?;
    rolls_text(alloc, rolls.as_slice(), answer, rolled)
}
