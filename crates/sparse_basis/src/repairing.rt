//! Repairing: a basis is made regular.
ghost use Rattle.std.specs.Prelude.{◌≤◌};

use crate::basis::{LineState, Multiplier};
use crate::factored::FactoredBasis;
use crate::segments::Segment;
use crate::sparse::Stop;

// The least pivot of a basis that is made regular, in units of 2^-40. It is greater than that of another, so that the next bases
// are regular too.
const REPAIR_TOLERANCE: u64 = 1 << 30;

impl FactoredBasis {
    // The factor of the columns that don't depend on those before them; the others leave the basis.
    fn refactor_independent(&mut self) -> Result<(), Stop> {
        self.begin(0)?;
        for place in 0..self.matrix.order().len() {
            if let Some(line) = self.basic_at(place)? {
                if !self.add_line(line, REPAIR_TOLERANCE)? {
                    self.basis.put_line(line, LineState::Low)?;
                }
            }
        }
        Ok(())
    }

    // Whether the run of a date begins with it and has no pivot.
    fn begins_without_pivot(&self, date: usize) -> Result<bool, Stop>
        requires { 1 ≤ date }
    {
        match self.segments.of(date)? {
            Segment::Free(row) => {
                Ok(!self.factor.is_pivoted(row)? && !self.basis.is_joined(date - 1)?)
            }
            Segment::Head | Segment::Tail => Ok(false),
        }
    }

    // Joins the runs without a pivot to those before them. Whether there were any.
    fn join_runs(&mut self) -> Result<bool, Stop> {
        let mut is_joined = false;
        for date in 1..usize::from(self.matrix.dates()) + 1 {
            if self.begins_without_pivot(date)? {
                self.basis.put_link(date - 1, true)?;
                is_joined = true;
            }
        }
        Ok(is_joined)
    }

    // Ends a free multiplier without a pivot. Whether it did.
    fn end_multiplier(&mut self, nearer: Multiplier) -> Result<bool, Stop> {
        let row = self.segments.multiplier_row();
        let is_ended = self.is_free() && !self.factor.is_pivoted(row)?;
        if is_ended {
            self.basis.put_multiplier(nearer);
        }
        Ok(is_ended)
    }

    /// Makes the basis regular: columns that depend on others leave it, runs without a pivot are joined to those before them, and a
    /// free multiplier without one goes to the end that is named. The runs and the factor are those of the basis that comes out.
    pub fn repair(&mut self, nearer: Multiplier) -> Result<(), Stop> {
        // Each round but the last takes a row away.
        for _ in 0..usize::from(self.matrix.dates()) + 3 {
            self.segments.refresh(&self.basis)?;
            self.refactor_independent()?;
            if self.factor.is_full() {
                return Ok(());
            }
            let is_ended = self.end_multiplier(nearer)?;
            let is_joined = self.join_runs()?;
            if !is_ended && !is_joined {
                return Err(Stop::Irregular);
            }
        }
        Err(Stop::Irregular)
    }
}
