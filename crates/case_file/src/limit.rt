//! The limit on the yield of an escrow.

ghost use Rattle.std.specs.Prelude.{◌≡◌, ◌≤◌, ℕ, IfOk};
ghost use Rattle.escrow_desk.specs.declared.refusal.CaseError.TheVariants.{Refused};
ghost use Rattle.std.specs.Result.{result_map_both};
ghost use Rattle.escrow_units.specs.Flows.{indexed, total, FallWithinFortyYears};
ghost use Rattle.issue_schedule.specs.IssueTerms.{IsIssue};
ghost use Rattle.row_fields.specs.RowForm.{Answers};
ghost use Rattle.yield_enclosure.specs.YieldAnswers.{AreYieldEnds, yield_answer_of};
ghost use Rattle.case_file.specs.Limit.{IsRestrictedYield, RestsOn, limit_of, lower_end_or_refused, out_of_range as out_of_range_at, restricted_yield_of};

use escrow_desk::{CaseError, FileKind, Refusal, RefusalKind};
use escrow_units::{AMOUNT_LIMIT, Cents, Day, Flow, GREATEST_GIVEN_YIELD, YieldUnits};
use issue_schedule::{Issue, Restricted};
use std::alloc::Global;
use yield_enclosure::{YieldAnswer, interval};

// What an escrow may yield above the restricted yield: one thousandth of a percentage point.
const MATERIALLY_HIGHER: u64 = 100_000;

// The refusal of a restricted yield that is out of range, at the row of the issue's price.
fn out_of_range(row: u32) -> CaseError
    ensures { result ≡ Refused (out_of_range_at row) }
{
    CaseError::Refused(Refusal {
        file: FileKind::Issue,
        row,
        kind: RefusalKind::OutOfRange,
    })
}

// The lower end of the yield of an issue's own payments for its price, which stands in a row.
fn lower_end(
    alloc: Global,
    settle: Day,
    pays: &[Flow],
    row: u32,
    price: Cents,
) -> Result<YieldUnits, CaseError>
    requires days { FallWithinFortyYears settle pays.now }
    requires cents { total pays.now ≤ AMOUNT_LIMIT }
    requires price { price.0 ≤ AMOUNT_LIMIT }
    ensures value { Answers (result_map_both (λ units. units.0) (λ error. error) result) (lower_end_or_refused row (yield_answer_of (indexed settle pays.now) price.0)) }
    ensures ends { IfOk result (λ units. (hi : ℕ) × AreYieldEnds (indexed settle pays.now) price.0 units.0 hi) }
    ensures most { IfOk result (λ units. units.0 ≤ GREATEST_GIVEN_YIELD) }
{
    match interval(alloc, settle, pays, price)? {
        YieldAnswer::Between { lo, .. } => {
            if lo.0 > GREATEST_GIVEN_YIELD {
                return Err(out_of_range(row));
            }
            Ok(lo)
        }
        YieldAnswer::Empty | YieldAnswer::Negative | YieldAnswer::Above => Err(out_of_range(row)),
    }
}

// The restricted yield of an issue.
fn restricted_yield(alloc: Global, issue: &Issue) -> Result<YieldUnits, CaseError>
    requires { IsIssue issue.now }
    ensures value { Answers (result_map_both (λ units. units.0) (λ error. error) result) (restricted_yield_of issue.now.settle issue.now.pays issue.now.restricted) }
    ensures yields { IfOk result (λ units. IsRestrictedYield issue.now.settle issue.now.pays issue.now.restricted units.0) }
    ensures most { IfOk result (λ units. units.0 ≤ GREATEST_GIVEN_YIELD) }
{
    match issue.restricted {
        Restricted::Given(units) => Ok(units),
        Restricted::Computed { row, price } => {
            lower_end(alloc, issue.settle, issue.pays.as_slice(), row, price)
        }
    }
}

// The limit on the yield of an escrow: the restricted yield plus one thousandth of a percentage point.
pub(crate) fn limit(alloc: Global, issue: &Issue) -> Result<YieldUnits, CaseError>
    requires { IsIssue issue.now }
    ensures value { Answers (result_map_both (λ units. units.0) (λ error. error) result) (limit_of issue.now) }
    ensures rests { IfOk result (λ units. RestsOn issue.now units.0) }
{
    let restricted = restricted_yield(alloc, issue)?;
    Ok(YieldUnits(restricted.0 + MATERIALLY_HIGHER))
}
