//! Dives again near a plan, with a part of the lines free.
ghost use Rattle.std.specs.Prelude.{◌≡◌, ◌<◌, ◌≤◌};

use crate::dive::Sequence;
use crate::search::Search;
use escrow_desk::NoMemory;

// After how many dives in a row that find nothing cheaper a chain ends.
const MOST_FAILURES: u32 = 250;

// Rounds times this draw the orders of dives over all lines, so that they differ from those of dives near a plan.
const SPREAD: u32 = 7_919;

// How many dives in a row failed, after one more.
fn failures_after(failures: u32, cheaper: bool) -> u32
    requires { failures < MOST_FAILURES }
{
    if cheaper { 0 } else { failures + 1 }
}

// One more dive near the cheapest plan of a chain, with a part of the lines free. It tells whether something cheaper was found.
fn step(search: &mut Search) -> Result<bool, NoMemory>
    ensures { search.new ≡ search.old }
{
    let before = search.near_cost();
    search.draw_part();
    search.dive_near()?;
    search.promote()?;
    Ok(search.near_cost() < before)
}

// Dives near a plan, each time near the cheapest one that was found, until many dives in a row find nothing cheaper.
fn chain(search: &mut Search) -> Result<(), NoMemory>
    ensures { search.new ≡ search.old }
{
    let mut failures = 0u32;
    for _dive in 0..search.effort() {
        if MOST_FAILURES <= failures || search.is_done() {
            return Ok(());
        }
        let cheaper = step(search)?;
        failures = failures_after(failures, cheaper);
    }
    Ok(())
}

// Begins a chain: at first at the best plan, and then by a dive in an order that a round draws.
fn begin(search: &mut Search, round: u32) -> Result<(), NoMemory>
    ensures { search.new ≡ search.old }
{
    if round == 0 {
        return search.return_to_best();
    }
    if round % 3 == 1 {
        search.forget();
        search.dive_whole(Sequence::Drawn(round.wrapping_mul(SPREAD)))?;
    } else {
        search.dive_far(round)?;
    }
    search.promote()
}

/// Follows chains of dives, each near the cheapest plan of its chain, until the search is done. What is cheaper than the best plan
/// takes its place.
///
/// # Errors
///
/// Where memory ran out.
pub(crate) fn dive_again(search: &mut Search) -> Result<(), NoMemory>
    ensures { search.new ≡ search.old }
{
    for round in 0..search.effort() {
        if search.is_done() {
            return Ok(());
        }
        begin(search, round)?;
        chain(search)?;
    }
    Ok(())
}
