//! The span of days whose payments serve a need date first.
ghost use Rattle.std.specs.Prelude.{◌≡◌, ◌<◌, length};
ghost use Rattle.backward_build.specs.OwnOffer.{need_at};

use escrow_units::{Day, Flow};

/// The days after the need date before, if there is one, up to and on a need date.
#[derive(Clone, Copy, Debug, PartialEq, Eq)]
pub(crate) struct Span {
    /// The need date before.
    pub after: Option<Day>,
    /// The need date.
    pub until: Day,
}

impl Span {
    ghost use Rattle.backward_build.specs.Span.{falls_in, span_of};

    /// The span of the need date at a place, counted from 0.
    pub(crate) fn of(needs: &[Flow], place: usize) -> Span
        requires { place < length needs.now }
        ensures { result ≡ span_of needs.now place }
    {
        let after = if place == 0 {
            None
        } else {
            Some(needs[place - 1].day)
        };
        Span {
            after,
            until: needs[place].day,
        }
    }

    /// Whether a day falls in the span.
    pub(crate) fn holds(&self, day: Day) -> bool
        ensures { result ≡ falls_in self.now day }
    {
        let is_after = match self.after {
            None => true,
            Some(before) => before < day,
        };
        is_after && day <= self.until
    }
}
