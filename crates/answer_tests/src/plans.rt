//! Portfolios of tests.
ghost use Rattle.std.specs.Prelude.{◌≡◌, length, IfOk};

use cash_table::Plan;
use offer_book::Book;
use std::alloc::Global;
use std::process::Abort;
use std::test::Fail;

/// The portfolio of these units.
pub(crate) fn plan_with(
    rt: &impl Abort,
    alloc: Global,
    book: &Book,
    units: &[u64],
) -> Result<Plan, Fail>
    ensures { IfOk result (λ plan. length plan ≡ length book.now.lines) }
{
    let mut plan = Plan::zero(alloc, book)?;
    let count = book.line_count();
    assert!(rt; units.len() == usize::from(count));
    for line in 0..count {
        plan.put(line, units[usize::from(line)]);
    }
    Ok(plan)
}
