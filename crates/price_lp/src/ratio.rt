//! The bound-flipping ratio test: how far prices move, which lines flip to their other ends on the way, and what enters the basis.

use crate::base::Base;
use crate::direction::Direction;
use crate::duals::Duals;
use crate::leaving::{Leaving, Violation};
use escrow_desk::NoMemory;
use sparse_basis::{Amount, LineState, PRICE_PLACES, Price, Stop, Total, push_within, put, read};
use std::alloc::Global;

/// What can enter the basis. In the order in which one of equal breakpoints is taken.
#[derive(Clone, Copy, PartialEq, Eq, PartialOrd, Ord)]
pub(crate) enum Entering {
    /// A line.
    Line(u16),
    /// An open link: it is joined.
    Link(u16),
    /// The multiplier, at 0.
    Zero,
    /// The multiplier, at its greatest.
    Top,
}

// Where the reduced cost of a line, the step between two prices or the multiplier comes to its end.
#[derive(Clone, Copy)]
struct Breakpoint {
    // How far the move has gone by then, in units of 2^-40.
    at: i128,
    // How much of the distance each unit of the move takes.
    rate: Price,
    entering: Entering,
    // By how much the line's amount changes if it goes to its other end in place of entering; None if it can't.
    width: Option<Amount>,
}

/// The breakpoints of a move, in room that is taken once.
#[derive(Drop)]
pub(crate) struct Breakpoints {
    list: Vec<Breakpoint>,
}

// The pivot tolerance of the ratio test: the greatest rate that passes for none, in units of 2^-40.
const RATE_TOLERANCE: i64 = 1 << 20;

// A breakpoint, if the move goes towards it.
fn breakpoint_at(
    distance: Price,
    rate: Price,
    entering: Entering,
    width: Option<Amount>,
) -> Option<Breakpoint> {
    if rate.get() <= RATE_TOLERANCE {
        return None;
    }
    let left = if distance.get() < 0 {
        0
    } else {
        distance.wide()
    };
    Some(Breakpoint {
        at: (left << PRICE_PLACES) / rate.wide(),
        rate,
        entering,
        width,
    })
}

// Whether a breakpoint comes before another: it is nearer, or its rate is greater, or what enters comes first.
fn comes_before(one: &Breakpoint, other: &Breakpoint) -> bool {
    if one.at != other.at {
        return one.at < other.at;
    }
    if one.rate.get() != other.rate.get() {
        return other.rate.get() < one.rate.get();
    }
    one.entering < other.entering
}

// What the breakpoints of a move come from.
#[derive(Clone, Copy)]
struct Move<'m, 'b> {
    base: &'m Base<'b>,
    duals: &'m Duals,
    direction: &'m Direction,
    leaving: Leaving,
}

impl<'m, 'b> Move<'m, 'b> {
    // Adds the breakpoint of a line, if there is one.
    fn add_line(self, line: u16, breakpoints: &mut Breakpoints) -> Result<(), Stop> {
        if !self.base.may_enter(line)? {
            return Ok(());
        }
        let range = self.base.ranges.range(line)?;
        let width = Some(range.high.minus(range.low));
        let rise = self.direction.rise(self.base, line)?;
        let reduced_cost = self.duals.reduced_cost(line)?;
        let is_high = self.base.factored.basis.line(line)? == LineState::High;
        let (distance, rate) = if is_high {
            (reduced_cost.negated(), rise)
        } else {
            (reduced_cost, rise.negated())
        };
        breakpoints.push(breakpoint_at(distance, rate, Entering::Line(line), width))
    }

    // Adds the breakpoint of a link that is open, if there is one.
    fn add_link(self, link: u16, breakpoints: &mut Breakpoints) -> Result<(), Stop> {
        let place = usize::from(link);
        if self.base.is_joined(place)? {
            return Ok(());
        }
        let step = self.duals.price(place)?.minus(self.duals.price(place + 1)?);
        let after = self.direction.price(place + 1)?;
        let rate = after.minus(self.direction.price(place)?);
        breakpoints.push(breakpoint_at(step, rate, Entering::Link(link), None))
    }

    // Whether the multiplier moves.
    fn moves_multiplier(self) -> bool {
        match self.leaving {
            Leaving::Multiplier(_) => true,
            _ => self.base.factored.is_free(),
        }
    }

    // The breakpoint of the multiplier, if it moves.
    fn multiplier_breakpoint(self) -> Option<Breakpoint> {
        if !self.moves_multiplier() {
            return None;
        }
        let rise = self.direction.multiplier();
        let multiplier = self.duals.multiplier();
        if rise.get() < 0 {
            breakpoint_at(multiplier, rise.negated(), Entering::Zero, None)
        } else {
            let left = self.base.aim.multiplier.minus(multiplier);
            breakpoint_at(left, rise, Entering::Top, None)
        }
    }
}

impl Breakpoints {
    /// Room for the breakpoints of a program.
    ///
    /// # Errors
    ///
    /// Where memory ran out.
    pub(crate) fn make(alloc: Global, base: &Base) -> Result<Breakpoints, NoMemory> {
        let room = usize::from(base.lines()) + usize::from(base.dates()) + 2;
        Ok(Breakpoints {
            list: Vec::with_capacity(alloc, room)?,
        })
    }

    // Adds a breakpoint, if there is one.
    fn push(&mut self, breakpoint: Option<Breakpoint>) -> Result<(), Stop> {
        match breakpoint {
            Some(breakpoint) => push_within(&mut self.list, breakpoint),
            None => Ok(()),
        }
    }

    /// The breakpoints of the move in a direction, as something leaves the basis.
    pub(crate) fn gather(
        &mut self,
        base: &Base,
        duals: &Duals,
        direction: &Direction,
        leaving: Leaving,
    ) -> Result<(), Stop> {
        let along = Move {
            base,
            duals,
            direction,
            leaving,
        };
        self.list.clear();
        for line in 0..base.lines() {
            along.add_line(line, self)?;
        }
        self.gather_links(along)?;
        self.push(along.multiplier_breakpoint())
    }

    // Those of the links.
    fn gather_links(&mut self, along: Move) -> Result<(), Stop> {
        for link in 0..=along.base.dates() {
            along.add_link(link, self)?;
        }
        Ok(())
    }

    // The place of the first breakpoint from a place on.
    fn first_from(&self, start: usize) -> Result<usize, Stop> {
        let mut found = read(self.list.as_slice(), start)?;
        let mut first = start;
        for place in start..self.list.len() {
            if comes_before(&self.list[place], &found) {
                found = self.list[place];
                first = place;
            }
        }
        Ok(first)
    }

    // Brings the first breakpoint from a place on to that place.
    fn bring(&mut self, start: usize) -> Result<Breakpoint, Stop> {
        let first = self.first_from(start)?;
        let found = read(self.list.as_slice(), first)?;
        let other = read(self.list.as_slice(), start)?;
        put(self.list.as_mut_slice(), first, other)?;
        put(self.list.as_mut_slice(), start, found)?;
        read(self.list.as_slice(), start)
    }

    /// How many breakpoints are passed before one at which something enters: the objective rises as long as what the lines that
    /// were passed change together is less than the violation. It stops where it would rise for ever.
    pub(crate) fn pass(&mut self, violation: Violation) -> Result<usize, Stop> {
        let mut slope = Total::of(violation.amount);
        for passed in 0..self.list.len() {
            let breakpoint = self.bring(passed)?;
            let Some(width) = breakpoint.width else {
                return Ok(passed);
            };
            slope = slope.without(breakpoint.rate, width);
            if !slope.is_positive() {
                return Ok(passed);
            }
        }
        Err(Stop::Irregular)
    }

    /// What enters at a breakpoint. It stops where there is no such breakpoint.
    pub(crate) fn entering(&self, place: usize) -> Result<Entering, Stop> {
        let breakpoint = read(self.list.as_slice(), place)?;
        Ok(breakpoint.entering)
    }

    /// How much work it was to pass so many breakpoints: a unit for each that was compared.
    pub(crate) fn passing_work(&self, passed: usize) -> usize {
        passed.saturating_add(1).saturating_mul(self.list.len())
    }
}
