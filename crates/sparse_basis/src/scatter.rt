//! A column that is being made triangular.

use crate::cells::{push_within, put};
use crate::number::Price;
use crate::sparse::{Entry, Stop};
use escrow_desk::NoMemory;
use std::alloc::Global;

// What a column has in a row.
#[derive(Clone, Copy)]
struct Cell {
    value: Price,
    met: bool,
}

impl Cell {
    // Of a row that wasn't met.
    fn empty() -> Cell {
        Cell {
            value: Price::zero(),
            met: false,
        }
    }
}

/// A column by its rows, most of which hold nothing. It remembers which rows it met, so that only those are cleared.
#[derive(Drop)]
pub(crate) struct Scatter {
    cells: Vec<Cell>,
    rows: Vec<u16>,
}

impl Scatter {
    /// Room for so many rows.
    ///
    /// # Errors
    ///
    /// Where memory ran out.
    pub(crate) fn with_room(alloc: Global, rows: usize) -> Result<Scatter, NoMemory> {
        Ok(Scatter {
            cells: vec![in alloc; Cell::empty(); rows]?,
            rows: Vec::with_capacity(alloc, rows)?,
        })
    }

    /// The rows that it met, in the order in which it met them.
    pub(crate) fn rows(&self) -> &[u16] {
        self.rows.as_slice()
    }

    /// The value of a row. It stops where there is no such row.
    pub(crate) fn get(&self, row: u16) -> Result<Price, Stop> {
        match self.cells.get(usize::from(row)) {
            Some(cell) => Ok(cell.value),
            None => Err(Stop::WrongPlace),
        }
    }

    // Puts the value of a row, and tells whether it is met for the first time.
    fn put_value(&mut self, row: u16, value: Price) -> Result<bool, Stop> {
        match self.cells.get_mut(usize::from(row)) {
            Some(cell) => {
                let first = !cell.met;
                *cell = Cell { value, met: true };
                Ok(first)
            }
            None => Err(Stop::WrongPlace),
        }
    }

    /// Puts the value of a row. It stops where there is no such row.
    pub(crate) fn put(&mut self, row: u16, value: Price) -> Result<(), Stop> {
        if self.put_value(row, value)? {
            push_within(&mut self.rows, row)?;
        }
        Ok(())
    }

    // Adds to the value of a row, and tells whether it is met for the first time.
    fn add_value(&mut self, row: u16, value: Price) -> Result<bool, Stop> {
        match self.cells.get_mut(usize::from(row)) {
            Some(cell) => {
                let first = !cell.met;
                *cell = Cell {
                    value: cell.value.plus(value),
                    met: true,
                };
                Ok(first)
            }
            None => Err(Stop::WrongPlace),
        }
    }

    /// Adds to the value of a row. It stops where there is no such row.
    pub(crate) fn add(&mut self, row: u16, value: Price) -> Result<(), Stop> {
        if self.add_value(row, value)? {
            push_within(&mut self.rows, row)?;
        }
        Ok(())
    }

    /// Takes off so many times another column. It stops where there is no such row.
    pub(crate) fn subtract(&mut self, column: &[Entry], times: Price) -> Result<(), Stop> {
        for entry in column {
            let rest = self.get(entry.place)?.less_product(entry.value, times);
            self.put(entry.place, rest)?;
        }
        Ok(())
    }

    /// Leaves nothing in any row.
    pub(crate) fn clear(&mut self) -> Result<(), Stop> {
        for row in self.rows.as_slice() {
            put(self.cells.as_mut_slice(), usize::from(*row), Cell::empty())?;
        }
        self.rows.clear();
        Ok(())
    }
}
