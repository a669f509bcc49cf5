//! Programs with ranges that are drawn.
ghost use Rattle.std.specs.Prelude.{◌≡◌, ◌≤◌};
ghost use Rattle.fixed_powers.specs.DiscountPowers.{PowerTable};
ghost use Rattle.proof_tree.specs.Tree.{IsLeaf};

use crate::roots::{powers_of, starved};
use escrow_units::{GREATEST_YIELD, YieldUnits};
use offer_book::Book;
use price_lp::{COLD_ITERATIONS, Purpose, Simplex, SolveEnd, WARM_ITERATIONS};
use proof_tree::{Interval, Leaf};
use rand::RngExt;
use rand_core::SeedableRng;
use rand_pcg::Pcg32;
use std::io;

// After how many programs what they are for is drawn anew, and each range is whole again.
const TOGETHER: u32 = 8;

// How many solves ended in which way, and how many began again from nothing.
#[derive(Clone, Copy)]
struct Tally {
    optimal: u64,
    capped: u64,
    stopped: u64,
    again: u64,
}

// Where a solve starts.
#[derive(Clone, Copy, PartialEq, Eq)]
enum Start {
    Nothing,
    Basis,
    Leaf,
}

impl Tally {
    // Of no solve.
    fn new() -> Tally {
        Tally {
            optimal: 0,
            capped: 0,
            stopped: 0,
            again: 0,
        }
    }

    // With one solve more.
    fn with(self, end: SolveEnd) -> Tally {
        let mut tally = self;
        match end {
            SolveEnd::Optimal | SolveEnd::AtLimit => {
                tally.optimal = tally.optimal.saturating_add(1);
            }
            SolveEnd::Capped => tally.capped = tally.capped.saturating_add(1),
            SolveEnd::Stopped(_) => tally.stopped = tally.stopped.saturating_add(1),
        }
        tally
    }

    // With one that began again.
    fn with_again(self) -> Tally {
        let mut tally = self;
        tally.again = tally.again.saturating_add(1);
        tally
    }
}

// A range of a line with so many units at most: whole, of one number, or from one end.
fn drawn_interval(draws: &mut Pcg32, most: u64) -> Interval {
    let units = draws.random_range(0..=most);
    match draws.random_range(0u32..4) {
        0 => Interval { low: 0, high: most },
        1 => Interval {
            low: units,
            high: units,
        },
        2 => Interval {
            low: 0,
            high: units,
        },
        _ => Interval {
            low: units,
            high: most,
        },
    }
}

// Draws the ranges of up to twelve lines.
fn draw_ranges(draws: &mut Pcg32, book: &Book, simplex: &mut Simplex)
    ensures { simplex.new ≡ simplex.old }
{
    if book.line_count() == 0 {
        return;
    }
    for _ in 0..draws.random_range(1u32..13) {
        let line = draws.random_range(0..book.line_count());
        let interval = drawn_interval(draws, book.line(line).most);
        simplex.set_range(line, interval);
    }
}

// Gives each line its whole range.
fn free(book: &Book, simplex: &mut Simplex)
    ensures { simplex.new ≡ simplex.old }
{
    for line in 0..book.line_count() {
        let high = book.line(line).most;
        simplex.set_range(line, Interval { low: 0, high });
    }
}

// Draws what the next programs are for.
fn draw_aim(draws: &mut Pcg32, simplex: &mut Simplex)
    ensures { simplex.new ≡ simplex.old }
{
    let purpose = if draws.random_range(0u32..4) == 0 {
        Purpose::Needs
    } else {
        Purpose::Cost
    };
    simplex.aim(purpose);
    simplex.start_greedily();
}

// Draws where a solve starts.
fn drawn_start(draws: &mut Pcg32) -> Start {
    match draws.random_range(0u32..3) {
        0 => Start::Nothing,
        1 => Start::Basis,
        _ => Start::Leaf,
    }
}

// Goes where a solve starts.
fn go(start: Start, simplex: &mut Simplex, leaf: &Leaf)
    ensures { simplex.new ≡ simplex.old }
{
    match start {
        Start::Nothing => simplex.start_greedily(),
        Start::Basis => {}
        Start::Leaf => simplex.start_at(leaf),
    }
}

// Solves a program; one that doesn't come to an end from where it stands is solved from nothing.
fn solve(simplex: &mut Simplex, start: Start, leaf: &Leaf, tally: Tally) -> Tally
    ensures { simplex.new ≡ simplex.old }
{
    go(start, simplex, leaf);
    if start == Start::Nothing {
        return tally.with(simplex.solve(COLD_ITERATIONS, None));
    }
    let end = simplex.solve(WARM_ITERATIONS, None);
    if end == SolveEnd::Optimal {
        return tally.with(end);
    }
    simplex.start_greedily();
    tally
        .with_again()
        .with(simplex.solve(COLD_ITERATIONS, None))
}

// Solves a program from where it stands, from its own leaf or from nothing.
fn try_one(draws: &mut Pcg32, simplex: &mut Simplex, leaf: &mut Leaf, tally: Tally) -> Tally
    requires { IsLeaf simplex.old.dates leaf.old }
    ensures simplex { simplex.new ≡ simplex.old }
    ensures leaf { IsLeaf simplex.new.dates leaf.new }
{
    simplex.propose(leaf);
    let start = drawn_start(draws);
    solve(simplex, start, leaf, tally)
}

// Solves so many programs of a book, with ranges that are drawn.
fn solve_all(book: &Book, simplex: &mut Simplex, leaf: &mut Leaf, programs: u32) -> Tally
    requires { IsLeaf simplex.old.dates leaf.old }
{
    let mut draws = Pcg32::seed_from_u64(1);
    let mut tally = Tally::new();
    for program in 0..programs {
        if program % TOGETHER == 0 {
            free(book, simplex);
            draw_aim(&mut draws, simplex);
        }
        draw_ranges(&mut draws, book, simplex);
        tally = try_one(&mut draws, simplex, leaf, tally);
    }
    tally
}

/// Solves so many programs of a book, with ranges that are drawn, and prints how they ended, and how many solves of them all ended at
/// a wrong place, those that began again among them.
pub(crate) fn try_random(
    rt: &HostRuntime,
    book: &Book,
    limit: YieldUnits,
    programs: u32,
) -> io::Result<()>
    requires limit_from { 1 ≤ limit.0 }
    requires limit_to { limit.0 ≤ GREATEST_YIELD }
{
    let powers = powers_of(rt, limit)?;
    let Ok(mut simplex) = Simplex::make(rt.alloc(), book, &powers) else {
        return Err(starved());
    };
    let Ok(mut leaf) = Leaf::of_zeros(rt.alloc(), true, book.need_count()) else {
        return Err(starved());
    };
    let tally = solve_all(book, &mut simplex, &mut leaf, programs);
    println!(rt;
        ", {programs} programs: {} optimal, {} capped, {} stopped, {} again, {} at a wrong place",
        tally.optimal,
        tally.capped,
        tally.stopped,
        tally.again,
        simplex.wrong_places()
    )
}
