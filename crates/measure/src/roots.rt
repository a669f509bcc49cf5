//! Prices at the root.
ghost use Rattle.std.specs.Prelude.{◌≡◌, ◌≤◌, ◌^◌, IfOk, length};
ghost use Rattle.std.specs.List.{AllZip};
ghost use Rattle.fixed_powers.specs.DiscountPowers.{IsLowTable, PowerTable};
ghost use Rattle.node_ranges.specs.Ranges.{HasRoomFor};

use dual_bound::bound;
use dual_tune::improve;
use escrow_desk::NoMemory;
use escrow_units::{GREATEST_INDEX, GREATEST_YIELD, YieldUnits};
use fixed_powers::{Powers, Side};
use halving_tree::base_leaf;
use node_ranges::Ranges;
use offer_book::{Book, COEFFICIENT_SCALE};
use price_lp::{Basis, COLD_ITERATIONS, Purpose, Simplex, WARM_ITERATIONS};
use proof_tree::{Interval, Leaf, PRICE_SCALE};
use std::io;
use std::io::ErrorKind;
use std::time::Instant;

/// Want of memory, as a fault.
pub(crate) fn starved() -> io::Error {
    io::Error::from(ErrorKind::OutOfMemory)
}

// Nanoseconds since an instant.
fn nanos_since(rt: &HostRuntime, start: Instant) -> io::Result<u64> {
    let nanos = start.elapsed(rt)?.as_nanos();
    Ok(nanos.min(u128::from(u64::MAX)) as u64)
}

/// Microseconds since an instant.
pub(crate) fn micros_since(rt: &HostRuntime, start: Instant) -> io::Result<u64> {
    Ok(nanos_since(rt, start)? / 1_000)
}

/// The powers of a limit, one unit below it.
pub(crate) fn powers_of(rt: &HostRuntime, limit: YieldUnits) -> io::Result<Powers>
    requires limit_from { 1 ≤ limit.0 }
    requires limit_to { limit.0 ≤ GREATEST_YIELD }
    ensures { IfOk result IsLowTable }
{
    match Powers::make(
        rt.alloc(),
        YieldUnits(limit.0 - 1),
        Side::Low,
        GREATEST_INDEX,
    ) {
        Ok(powers) => Ok(powers),
        Err(_) => Err(starved()),
    }
}

// The program of a book for the prices of a leaf.
fn program_of<'a>(rt: &HostRuntime, book: &'a Book, powers: &Powers) -> io::Result<Simplex<'a>>
    requires powers { IsLowTable powers.now }
{
    let Ok(mut simplex) = Simplex::make(rt.alloc(), book, powers) else {
        return Err(starved());
    };
    simplex.aim(Purpose::Cost);
    Ok(simplex)
}

// What a solve from nothing takes, of a program that wasn't solved before.
fn time_of_solve(rt: &HostRuntime, simplex: &mut Simplex) -> io::Result<u64> {
    let start = Instant::now(rt)?;
    simplex.start_greedily();
    simplex.solve(COLD_ITERATIONS, None);
    micros_since(rt, start)
}

// The least time of two more solves from nothing, each of a new program.
fn least_time(rt: &HostRuntime, book: &Book, powers: &Powers, first: u64) -> io::Result<u64>
    requires powers { IsLowTable powers.now }
{
    let mut least = first;
    for _ in 0..2 {
        let mut simplex = program_of(rt, book, powers)?;
        least = least.min(time_of_solve(rt, &mut simplex)?);
    }
    Ok(least)
}

// What a solve takes from a basis after a line's range has changed.
fn time_of_change(
    rt: &HostRuntime,
    simplex: &mut Simplex,
    root: &Basis,
    line: u16,
    interval: Interval,
) -> io::Result<u64> {
    simplex.start_from(root);
    simplex.solve(COLD_ITERATIONS, None);
    simplex.set_range(line, interval);
    let start = Instant::now(rt)?;
    simplex.solve(WARM_ITERATIONS, None);
    nanos_since(rt, start)
}

// The whole number of units below the amount of a line in the solution.
fn units_below(simplex: &Simplex, line: u16, step: u64) -> u64 {
    let cents = simplex.amount(line).max(0) as u64 / 1024;
    cents.checked_div(step).unwrap_or(0)
}

// What it takes after each of two ranges of a line in turn: up to some units, and from one more.
fn time_of_split(
    rt: &HostRuntime,
    simplex: &mut Simplex,
    root: &Basis,
    line: u16,
    units: u64,
    most: u64,
) -> io::Result<u64> {
    let below = Interval {
        low: 0,
        high: units,
    };
    let above = Interval {
        low: units.saturating_add(1),
        high: most,
    };
    let whole = Interval { low: 0, high: most };
    let mut nanos = 0u64;
    for interval in [below, above] {
        nanos = nanos.saturating_add(time_of_change(rt, simplex, root, line, interval)?);
        simplex.set_range(line, whole);
    }
    simplex.start_from(root);
    simplex.solve(COLD_ITERATIONS, None);
    Ok(nanos)
}

// The basis of the solution.
fn basis_of(rt: &HostRuntime, simplex: &Simplex) -> io::Result<Basis> {
    let Ok(mut basis) = simplex.new_basis(rt.alloc()) else {
        return Err(starved());
    };
    simplex.save(&mut basis);
    Ok(basis)
}

// What changed ranges take on average, of each line in the basis: up to its amount, and from one unit more. It says too how many
// solves of the program ended at a wrong place.
fn measure_changes(rt: &HostRuntime, book: &Book, simplex: &mut Simplex) -> io::Result<()> {
    let root = basis_of(rt, simplex)?;
    let mut tries = 0u64;
    let mut nanos = 0u64;
    for line in 0..book.line_count() {
        let most = book.line(line).most;
        let units = units_below(simplex, line, book.line(line).step);
        if simplex.is_basic(line) && units < most {
            nanos = nanos.saturating_add(time_of_split(rt, simplex, &root, line, units, most)?);
            tries = tries.saturating_add(2);
        }
    }
    let mean = nanos.checked_div(tries).unwrap_or(0);
    println!(rt;
        "  changed ranges: {tries}, {mean} ns each, {} solves at a wrong place",
        simplex.wrong_places()
    )
}

/// Measures what the linear program takes at the root, and after a changed range.
pub(crate) fn measure_root(rt: &HostRuntime, book: &Book, limit: YieldUnits) -> io::Result<()>
    requires limit_from { 1 ≤ limit.0 }
    requires limit_to { limit.0 ≤ GREATEST_YIELD }
{
    let powers = powers_of(rt, limit)?;
    let mut simplex = program_of(rt, book, &powers)?;
    let first = time_of_solve(rt, &mut simplex)?;
    let iterations = simplex.iterations();
    let micros = least_time(rt, book, &powers, first)?;
    println!(rt; ", {iterations} iterations, {micros} us")?;
    measure_changes(rt, book, &mut simplex)
}

/// Measures what improving the base leaf takes at the root, and answers the bound in cents.
pub(crate) fn measure_steps(rt: &HostRuntime, book: &Book, limit: YieldUnits) -> io::Result<i128>
    requires limit_from { 1 ≤ limit.0 }
    requires limit_to { limit.0 ≤ GREATEST_YIELD }
{
    match bound_at_root(rt, book, limit)? {
        Ok(bound) => Ok(bound),
        Err(_) => Err(starved()),
    }
}

// The bound of the improved base leaf, in cents; what it took is printed.
fn bound_at_root(
    rt: &HostRuntime,
    book: &Book,
    limit: YieldUnits,
) -> io::Result<Result<i128, NoMemory>>
    requires limit_from { 1 ≤ limit.0 }
    requires limit_to { limit.0 ≤ GREATEST_YIELD }
{
    let powers = powers_of(rt, limit)?;
    let start = Instant::now(rt)?;
    let leaf = match improved(rt, book, &powers) {
        Ok(leaf) => leaf,
        Err(memory) => return Ok(Err(memory)),
    };
    let micros = micros_since(rt, start)?;
    println!(rt; "  improved in {micros} us, bound {} cents", leaf)?;
    Ok(Ok(leaf))
}

// The bound of the base leaf, improved over the ranges of the root, in cents.
fn improved(rt: &HostRuntime, book: &Book, powers: &Powers) -> Result<i128, NoMemory>
    requires powers { IsLowTable powers.now }
{
    let ranges = Ranges::root(rt.alloc(), book)?;
    let base = base_leaf(rt.alloc(), book)?;
    let leaf = improve(rt.alloc(), book, powers, &ranges, &base)?;
    let scale = i128::from(PRICE_SCALE) * i128::from(COEFFICIENT_SCALE);
    Ok(bound(book, powers, &ranges, &leaf) / scale)
}
