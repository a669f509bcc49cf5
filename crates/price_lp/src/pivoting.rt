//! The step from a basis to the next.

use crate::leaving::Leaving;
use crate::ratio::{Breakpoints, Entering};
use sparse_basis::{Basis, LineState, Multiplier, Stop};

// Puts a line at its other end.
fn flip(basis: &mut Basis, line: u16) -> Result<(), Stop> {
    let state = match basis.line(line)? {
        LineState::Low => LineState::High,
        LineState::High => LineState::Low,
        LineState::Basic => LineState::Basic,
    };
    basis.put_line(line, state)
}

// Puts the lines of the breakpoints that were passed at their other ends.
fn flip_passed(basis: &mut Basis, breakpoints: &Breakpoints, passed: usize) -> Result<(), Stop> {
    for place in 0..passed {
        if let Entering::Line(line) = breakpoints.entering(place)? {
            flip(basis, line)?;
        }
    }
    Ok(())
}

// Takes something out of the basis.
fn leave(basis: &mut Basis, leaving: Leaving) -> Result<(), Stop> {
    match leaving {
        Leaving::Line(line, end) => basis.put_line(line, end)?,
        Leaving::Link(link) => basis.put_link(usize::from(link), false)?,
        Leaving::Multiplier(_) => basis.put_multiplier(Multiplier::Free),
    }
    Ok(())
}

// Takes something into the basis.
fn enter(basis: &mut Basis, entering: Entering) -> Result<(), Stop> {
    match entering {
        Entering::Line(line) => basis.put_line(line, LineState::Basic)?,
        Entering::Link(link) => basis.put_link(usize::from(link), true)?,
        Entering::Zero => basis.put_multiplier(Multiplier::Zero),
        Entering::Top => basis.put_multiplier(Multiplier::Top),
    }
    Ok(())
}

/// Goes to the next basis: lines whose breakpoints were passed go to their other ends, one thing leaves, and what is at the next
/// breakpoint enters.
pub(crate) fn pivot(
    basis: &mut Basis,
    breakpoints: &Breakpoints,
    passed: usize,
    leaving: Leaving,
) -> Result<(), Stop> {
    let entering = breakpoints.entering(passed)?;
    flip_passed(basis, breakpoints, passed)?;
    leave(basis, leaving)?;
    enter(basis, entering)
}
