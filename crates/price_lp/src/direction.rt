//! How prices move as something leaves the basis.
ghost use Rattle.std.specs.Prelude.{◌≤◌, ◌^◌, IfOk, length, unsigned_abs};

use crate::base::Base;
use crate::leaving::Leaving;
use escrow_desk::NoMemory;
use sparse_basis::{
    Entry, LineState, MOST_ENTRIES, Multiplier, Price, Segment, Stop, product, put, read,
};
use std::alloc::Global;

/// How the prices and the multiplier move, for each unit by which what leaves the basis moves. All its memory is taken when it is
/// made.
#[derive(Drop)]
pub(crate) struct Direction {
    // From the day of settlement to the date after the last.
    prices: Vec<Price>,
    // The first date whose price moves; the number of places where there is none.
    first: usize,
    multiplier: Price,
    // The right-hand side of each column.
    right: Vec<Price>,
    // How the price of each row moves.
    rows: Vec<Price>,
}

// By how much a date moves against the others of its run as a link opens: in the run with the day of settlement the dates after
// the link fall, in other runs those up to it rise.
fn shift(run: Segment, link: usize, date: usize) -> Price {
    shift_worth(run, link, date, Price::one()).negated()
}

// What the shift of a date takes from what is paid on it.
fn shift_worth(run: Segment, link: usize, date: usize, paid: Price) -> Price {
    if run == Segment::Head {
        if link < date { paid } else { Price::zero() }
    } else if date <= link {
        paid.negated()
    } else {
        Price::zero()
    }
}

// The right-hand side of the column of a line, as another line leaves to an end.
fn by_line(line: u16, leaving: u16, end: LineState) -> Price {
    if line != leaving {
        Price::zero()
    } else if end == LineState::Low {
        Price::one().negated()
    } else {
        Price::one()
    }
}

// How the multiplier moves where it isn't free.
fn multiplier_move(leaving: Leaving) -> Price {
    match leaving {
        Leaving::Multiplier(Multiplier::Zero) => Price::one(),
        Leaving::Multiplier(Multiplier::Top) => Price::one().negated(),
        _ => Price::zero(),
    }
}

impl<'a> Base<'a> {
    // What the shift of the dates of a link's run is worth to a line, with the sign turned.
    fn shifted(&self, line: u16, link: usize) -> Result<Price, Stop> {
        let run = self.run_of(link)?;
        let mut worth = Price::zero();
        for entry in self.pays(line)? {
            let date = usize::from(entry.place);
            if self.run_of(date)? == run {
                worth = worth.plus(shift_worth(run, link, date, entry.value));
            }
        }
        Ok(worth)
    }

    // The right-hand side of the column of a line, as the multiplier leaves.
    fn by_multiplier(&self, line: u16, from: Multiplier) -> Result<Price, Stop> {
        let value = self.value(line)?;
        if from == Multiplier::Top {
            Ok(value.negated())
        } else {
            Ok(value)
        }
    }

    // The right-hand side of the column of a line.
    fn moved(&self, leaving: Leaving, line: u16) -> Result<Price, Stop> {
        match leaving {
            Leaving::Line(other, end) => Ok(by_line(line, other, end)),
            Leaving::Link(link) => self.shifted(line, usize::from(link)),
            Leaving::Multiplier(from) => self.by_multiplier(line, from),
        }
    }

    // By how much a date moves against the others of its run.
    fn shift_of(&self, leaving: Leaving, date: usize) -> Result<Price, Stop> {
        let Leaving::Link(link) = leaving else {
            return Ok(Price::zero());
        };
        let link = usize::from(link);
        let run = self.run_of(link)?;
        if self.run_of(date)? == run {
            Ok(shift(run, link, date))
        } else {
            Ok(Price::zero())
        }
    }
}

impl Direction {
    /// Room for a program.
    ///
    /// # Errors
    ///
    /// Where memory ran out.
    pub(crate) fn make(alloc: Global, base: &Base) -> Result<Direction, NoMemory> {
        let dates = usize::from(base.dates());
        Ok(Direction {
            prices: vec![in alloc; Price::zero(); dates + 2]?,
            first: 0,
            multiplier: Price::zero(),
            right: vec![in alloc; Price::zero(); dates + 2]?,
            rows: vec![in alloc; Price::zero(); dates + 2]?,
        })
    }

    // What payments are worth at the moves of their dates: nothing where the last of them is before the first that moves.
    fn worth(&self, pays: &[Entry]) -> Result<i128, Stop>
        requires { length pays.now ≤ MOST_ENTRIES }
        ensures { IfOk result (λ sum. unsigned_abs sum ≤ 2 ^ 125) }
    {
        match pays.last() {
            Some(last) if self.first <= usize::from(last.place) => {
                product(pays, self.prices.as_slice())
            }
            _ => Ok(0),
        }
    }

    /// How the reduced cost of a line moves.
    pub(crate) fn rise(&self, base: &Base, line: u16) -> Result<Price, Stop> {
        let own = self.multiplier.times(base.value(line)?);
        let worth = self.worth(base.pays(line)?)?;
        Ok(Price::narrowed(own - worth))
    }

    /// How the price of a date moves.
    pub(crate) fn price(&self, date: usize) -> Result<Price, Stop> {
        read(self.prices.as_slice(), date)
    }

    /// How the multiplier moves.
    pub(crate) fn multiplier(&self) -> Price {
        self.multiplier
    }

    /// The direction in which something leaves the basis.
    pub(crate) fn refresh(&mut self, base: &Base, leaving: Leaving) -> Result<(), Stop> {
        self.set_right(base, leaving)?;
        base.factored
            .solve_prices(self.right.as_slice(), self.rows.as_mut_slice())?;
        self.multiplier = if base.factored.is_free() {
            read(self.rows.as_slice(), base.factored.multiplier_row())?
        } else {
            multiplier_move(leaving)
        };
        self.spread(base, leaving)
    }

    // Sets the right-hand side of each column.
    fn set_right(&mut self, base: &Base, leaving: Leaving) -> Result<(), Stop> {
        for column in 0..base.factored.count() {
            let line = base.factored.line_of(column)?;
            let right = base.moved(leaving, line)?;
            put(self.right.as_mut_slice(), column, right)?;
        }
        Ok(())
    }

    // How the run of a date moves, by the rows.
    fn run_move(&self, run: Segment) -> Result<Price, Stop> {
        match run {
            Segment::Free(run) => read(self.rows.as_slice(), usize::from(run)),
            Segment::Head | Segment::Tail => Ok(Price::zero()),
        }
    }

    // Sets how the price of each date moves.
    fn spread(&mut self, base: &Base, leaving: Leaving) -> Result<(), Stop> {
        self.first = self.prices.len();
        for date in (0..usize::from(base.dates()) + 2).rev() {
            let run = self.run_move(base.run_of(date)?)?;
            let price = run.plus(base.shift_of(leaving, date)?);
            put(self.prices.as_mut_slice(), date, price)?;
            if !price.is_zero() {
                self.first = date;
            }
        }
        Ok(())
    }
}
