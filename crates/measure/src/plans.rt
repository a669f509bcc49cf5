//! Plans.
ghost use Rattle.std.specs.Prelude.{◌≤◌};

use crate::roots::{micros_since, starved};
use escrow_units::{Cents, GREATEST_YIELD, YieldUnits};
use offer_book::Book;
use plan_finder::{YieldLimit, find};
use std::io;
use std::time::Instant;

/// Measures plans of so many sweeps of work, and how far they cost above a bound, in cents.
pub(crate) fn measure_plans(
    rt: &HostRuntime,
    book: &Book,
    limit: YieldUnits,
    bound: i128,
) -> io::Result<()>
    requires limit_from { 1 ≤ limit.0 }
    requires limit_to { limit.0 ≤ GREATEST_YIELD }
{
    let limit = match YieldLimit::make(rt.alloc(), limit) {
        Ok(limit) => limit,
        Err(_) => return Err(starved()),
    };
    for effort in [1_000, 10_000, 30_000] {
        let start = Instant::now(rt)?;
        let found = find(rt.alloc(), book, &limit, effort, Cents(0));
        let micros = micros_since(rt, start)?;
        match found {
            Ok(Some(proposal)) => {
                let gap = i128::from(proposal.cost.0).saturating_sub(bound);
                println!(rt; "  effort {effort}: {gap} cents above, {micros} us")?;
            }
            Ok(None) => println!(rt; "  effort {effort}: no plan, {micros} us")?,
            Err(_) => return Err(starved()),
        }
    }
    Ok(())
}
