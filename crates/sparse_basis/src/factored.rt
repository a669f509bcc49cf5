//! A basis with its columns and their factor.

use crate::basis::{Basis, LineState, Multiplier};
use crate::cells::read;
use crate::factor::Factor;
use crate::matrix::Matrix;
use crate::segments::Segments;
use crate::sparse::Stop;
use escrow_desk::NoMemory;
use std::alloc::Global;

/// The columns of a linear program, where they stand, and the factor of those that are basic. The factor is made anew in each
/// iteration, from the first column that changed. All its memory is taken when it is made.
#[derive(Drop)]
pub struct FactoredBasis {
    /// The columns of all lines.
    pub matrix: Matrix,
    /// Where lines, links and the multiplier stand.
    pub basis: Basis,
    /// The runs of joined dates.
    pub segments: Segments,
    pub(crate) factor: Factor,
}

impl FactoredBasis {
    /// The first basis of a matrix.
    ///
    /// # Errors
    ///
    /// Where memory ran out.
    pub fn make(alloc: Global, matrix: Matrix) -> Result<FactoredBasis, NoMemory> {
        Ok(FactoredBasis {
            basis: Basis::with_room(alloc, matrix.lines(), matrix.dates())?,
            segments: Segments::make(alloc, matrix.dates())?,
            factor: Factor::make(alloc, matrix.dates(), matrix.entry_count())?,
            matrix,
        })
    }

    /// How many columns the factor has.
    pub fn count(&self) -> usize {
        self.factor.pivots.len()
    }

    /// The line of a column of the factor, counted from 0 in the order of the factor. It stops where there is no such column.
    pub fn line_of(&self, column: usize) -> Result<u16, Stop> {
        let pivot = read(self.factor.pivots.as_slice(), column)?;
        Ok(pivot.line)
    }

    /// Whether a line is in the basis. It stops where there is no such line.
    pub fn is_basic(&self, line: u16) -> Result<bool, Stop> {
        Ok(self.basis.line(line)? == LineState::Basic)
    }

    /// Whether the multiplier is in the basis.
    pub fn is_free(&self) -> bool {
        self.basis.multiplier() == Multiplier::Free
    }

    /// The row of the multiplier, where it is free.
    pub fn multiplier_row(&self) -> usize {
        usize::from(self.segments.multiplier_row())
    }

    /// Whether no column of the factor has entries below its pivot.
    pub fn is_triangular(&self) -> bool {
        self.factor.eliminations.is_empty()
    }

    /// How much work it is to solve by the factor: a unit for each of its entries beside the pivots that is kept.
    pub fn solving_work(&self) -> usize {
        self.factor
            .upper
            .entry_count()
            .saturating_add(self.factor.lower.entry_count())
    }

    /// How much work it was to make the columns of the factor behind so many first ones: a unit for each elimination that each of
    /// them was tried for.
    pub fn factoring_work(&self, kept: usize) -> usize {
        let made = self.count().saturating_sub(kept);
        made.saturating_mul(self.factor.eliminations.len())
    }
}
