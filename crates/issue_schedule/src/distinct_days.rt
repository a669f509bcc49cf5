//! Days, each once.
ghost use Rattle.std.specs.Prelude.{◌≡◌, [], ◌∷◌, ◌++◌, if◌then◌else◌, false, is_ok};
ghost use Rattle.std.specs.List.{list_any};
ghost use Rattle.std.specs.Ordering.{int_eq};

use escrow_desk::NoMemory;
use escrow_units::Day;
use std::alloc::Global;
use std::collections::BTreeSet;
use std::marker::Model;

/// Days, each once, in the order in which they came. Contracts see the list of them.
#[derive(Drop)]
pub(crate) struct DistinctDays {
    days: Vec<Day>,
    // the numbers of the same days, so that a day is looked up among many
    numbers: BTreeSet<i32>,
}

impl Model for DistinctDays {
    ghost use Rattle.std.specs.Prelude.{List, ℤ};
    ghost use Rattle.issue_schedule.specs.DistinctDays.{IsSetOf};

    ghost Value = { List ℤ };

    ghost view = { λ d. d.days.items };

    ghost invariant = { λ d. IsSetOf d.days.items d.numbers };
}

impl DistinctDays {
    /// No days.
    pub fn none(alloc: Global) -> DistinctDays
        ensures { result ≡ [] }
    {
        DistinctDays {
            days: Vec::new(alloc),
            numbers: BTreeSet::new(alloc),
        }
    }

    /// Whether a day is among them.
    pub fn contains(&self, day: Day) -> bool
        ensures { result ≡ list_any (int_eq day) self.now }
    {
        let number = day.number();
        self.numbers.contains(&number)
    }

    /// One more day, which isn't among them. Where memory ran out the days stay.
    pub fn push(&mut self, day: Day) -> Result<(), NoMemory>
        requires { list_any (int_eq day) self.old ≡ false }
        ensures { self.new ≡ (if is_ok result then self.old ++ day ∷ [] else self.old) }
    {
        self.days.reserve(1)?;
        self.numbers.insert(day.number())?;
        self.days.push(day)?;
        Ok(())
    }

    /// The days as a `Vec`.
    pub fn into_vec(self) -> Vec<Day>
        ensures { result.items ≡ self }
    {
        self.days
    }
}
