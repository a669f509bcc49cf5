//! The basis of a solution.

use crate::cells::{put, read};
use crate::sparse::Stop;
use escrow_desk::NoMemory;
use std::alloc::Global;

/// Where a line stands.
#[derive(Clone, Copy, PartialEq, Eq)]
pub enum LineState {
    /// At the low end of its range.
    Low,
    /// At the high end of its range.
    High,
    /// In the basis: anywhere within its range.
    Basic,
}

/// Where the multiplier of the yield limit stands.
#[derive(Clone, Copy, PartialEq, Eq)]
pub enum Multiplier {
    /// At 0.
    Zero,
    /// Anywhere: the limit binds.
    Free,
    /// At its greatest.
    Top,
}

/// Where the lines, the links between dates and the multiplier of a solution stand, kept so that another solve can start there.
///
/// Link `t`, from 0 to the number of dates, is the cash carried from date `t` to the next. It is joined where it is in the basis,
/// so that both dates have the same price, and else open, so that nothing is carried.
#[derive(Drop)]
pub struct Basis {
    lines: Vec<LineState>,
    joined: Vec<bool>,
    multiplier: Multiplier,
}

// Copies a list into one of the same length.
fn copy_whole<T: Copy>(into: &mut [T], from: &[T]) -> Result<(), Stop> {
    if into.len() != from.len() {
        return Err(Stop::WrongPlace);
    }
    into.copy_from_slice(from);
    Ok(())
}

impl Basis {
    /// Room for so many lines and dates: every line at its low end, every link but the first joined, the multiplier at 0.
    ///
    /// # Errors
    ///
    /// Where memory ran out.
    pub fn with_room(alloc: Global, lines: u16, dates: u16) -> Result<Basis, NoMemory> {
        let mut joined = vec![in alloc; true; usize::from(dates) + 1]?;
        joined[0] = false;
        Ok(Basis {
            lines: vec![in alloc; LineState::Low; usize::from(lines)]?,
            joined,
            multiplier: Multiplier::Zero,
        })
    }

    /// Where a line stands. It stops where there is no such line.
    pub fn line(&self, line: u16) -> Result<LineState, Stop> {
        read(self.lines.as_slice(), usize::from(line))
    }

    /// Puts a line. It stops where there is no such line.
    pub fn put_line(&mut self, line: u16, state: LineState) -> Result<(), Stop> {
        put(self.lines.as_mut_slice(), usize::from(line), state)
    }

    /// Whether a link is joined. It stops where there is no such link.
    pub fn is_joined(&self, link: usize) -> Result<bool, Stop> {
        read(self.joined.as_slice(), link)
    }

    /// Joins or opens a link. It stops where there is no such link.
    pub fn put_link(&mut self, link: usize, joined: bool) -> Result<(), Stop> {
        put(self.joined.as_mut_slice(), link, joined)
    }

    /// Where the multiplier stands.
    pub fn multiplier(&self) -> Multiplier {
        self.multiplier
    }

    /// Puts the multiplier.
    pub fn put_multiplier(&mut self, multiplier: Multiplier) {
        self.multiplier = multiplier;
    }

    /// Every line at its low end, every link joined, the multiplier as given.
    pub fn reset(&mut self, multiplier: Multiplier) {
        self.lines.as_mut_slice().fill(LineState::Low);
        self.joined.as_mut_slice().fill(true);
        self.multiplier = multiplier;
    }

    /// Takes over another basis. It stops where that is of more or fewer lines or dates.
    pub fn copy(&mut self, other: &Basis) -> Result<(), Stop> {
        copy_whole(self.lines.as_mut_slice(), other.lines.as_slice())?;
        copy_whole(self.joined.as_mut_slice(), other.joined.as_slice())?;
        self.multiplier = other.multiplier;
        Ok(())
    }
}
