//! What leaves the basis.

use crate::base::Base;
use crate::primal::Primal;
use sparse_basis::{Amount, LineState, Multiplier, Stop};

/// What leaves the basis, since it is beyond an end.
#[derive(Clone, Copy)]
pub(crate) enum Leaving {
    /// A line, which goes to its low end or to its high one.
    Line(u16, LineState),
    /// A joined link that carries less than nothing: it opens.
    Link(u16),
    /// The multiplier, from where it stands: it becomes free.
    Multiplier(Multiplier),
}

/// A violation: what leaves the basis, and how far it is beyond its end.
#[derive(Clone, Copy)]
pub(crate) struct Violation {
    /// What leaves.
    pub leaving: Leaving,
    /// How far it is beyond its end.
    pub amount: Amount,
}

// The primal tolerance: the greatest violation that passes for none, a quarter of a cent in units of 2^-10.
const PRIMAL_TOLERANCE: i64 = 1 << 8;

// How far the worst violation so far is beyond its end.
fn size_of(worst: &Option<Violation>) -> i64 {
    match worst {
        Some(violation) => violation.amount.get(),
        None => PRIMAL_TOLERANCE,
    }
}

// The worse of a violation and another, the earlier of equal ones.
fn worse(worst: Option<Violation>, leaving: Leaving, amount: Amount) -> Option<Violation> {
    if size_of(&worst) < amount.get() {
        Some(Violation { leaving, amount })
    } else {
        worst
    }
}

impl<'a> Base<'a> {
    // With a basic line.
    fn worse_of_line(
        &self,
        worst: Option<Violation>,
        line: u16,
        amount: Amount,
    ) -> Result<Option<Violation>, Stop> {
        let range = self.ranges.range(line)?;
        let lacking = range.low.minus(amount);
        let beyond = amount.minus(range.high);
        let worst = worse(worst, Leaving::Line(line, LineState::Low), lacking);
        Ok(worse(worst, Leaving::Line(line, LineState::High), beyond))
    }

    // Among the basic lines.
    fn worst_line(&self, primal: &Primal) -> Result<Option<Violation>, Stop> {
        let mut worst = None;
        for column in 0..self.factored.count() {
            let line = self.factored.line_of(column)?;
            worst = self.worse_of_line(worst, line, primal.amount(line)?)?;
        }
        Ok(worst)
    }

    // With the joined links.
    fn worse_of_links(
        &self,
        primal: &Primal,
        before: Option<Violation>,
    ) -> Result<Option<Violation>, Stop> {
        let mut worst = before;
        for link in 0..=self.dates() {
            let place = usize::from(link);
            if self.is_joined(place)? {
                let lacking = primal.carried(place)?.negated();
                worst = worse(worst, Leaving::Link(link), lacking);
            }
        }
        Ok(worst)
    }

    // With the multiplier.
    fn worse_of_multiplier(&self, excess: Amount, worst: Option<Violation>) -> Option<Violation> {
        let from = self.multiplier();
        let amount = match from {
            Multiplier::Zero => excess,
            Multiplier::Top => excess.negated(),
            Multiplier::Free => Amount::zero(),
        };
        worse(worst, Leaving::Multiplier(from), amount)
    }

    /// The greatest violation of more than the primal tolerance; None where the basis is optimal.
    pub(crate) fn greatest_violation(&self, primal: &Primal) -> Result<Option<Violation>, Stop> {
        let worst = self.worst_line(primal)?;
        let worst = self.worse_of_links(primal, worst)?;
        Ok(self.worse_of_multiplier(primal.excess(), worst))
    }
}
