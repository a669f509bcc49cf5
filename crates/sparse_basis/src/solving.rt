//! Solving by a factor: for prices, and for amounts.
ghost use Rattle.std.specs.Prelude.{◌≤◌, ◌^◌, IfOk, unsigned_abs};

use crate::cells::{product, product_in_runs, put, read, subtract, subtract_in_runs};
use crate::factor::{Pivot, over_pivot};
use crate::factored::FactoredBasis;
use crate::number::{Amount, Price};
use crate::sparse::Stop;

// What a column pays by its pivot as an amount of it. It stops where the pivot is too near to 0.
fn amount_over(right: Amount, pivot: Price) -> Result<Amount, Stop> {
    if right.is_zero() {
        return Ok(Amount::zero());
    }
    right.over(pivot).ok_or(Stop::Irregular)
}

impl FactoredBasis {
    // What a column has above its pivot, each times the price of its row. The price of the pivot's row is 0.
    fn product_above(&self, column: usize, line: u16, prices: &[Price]) -> Result<i128, Stop>
        ensures { IfOk result (λ sum. unsigned_abs sum ≤ 2 ^ 125) }
    {
        if column < self.factor.standing {
            let pays = self.matrix.pays(line)?;
            product_in_runs(pays, self.factor.runs.as_slice(), prices)
        } else {
            product(self.factor.upper.column(column)?, prices)
        }
    }

    // Takes what an amount of a column pays above its pivot off the amounts of the rows. That of the pivot's row isn't read any
    // more.
    fn subtract_above(
        &self,
        column: usize,
        line: u16,
        rows: &mut [Amount],
        amount: Amount,
    ) -> Result<(), Stop> {
        if column < self.factor.standing {
            let pays = self.matrix.pays(line)?;
            subtract_in_runs(rows, pays, self.factor.runs.as_slice(), amount)
        } else {
            subtract(rows, self.factor.upper.column(column)?, amount)
        }
    }

    // Solves a column as it was made triangular, after those before it.
    fn solve_column(
        &self,
        column: usize,
        pivot: Pivot,
        right: Price,
        rows: &mut [Price],
    ) -> Result<(), Stop> {
        let row = usize::from(pivot.row);
        put(rows, row, Price::zero())?;
        let taken = self.product_above(column, pivot.line, rows)?;
        put(rows, row, over_pivot(right.widened() - taken, pivot.value)?)
    }

    // Undoes the eliminations, from the last to the first.
    fn undo_eliminations(&self, rows: &mut [Price]) -> Result<(), Stop> {
        for place in (0..self.factor.eliminations.len()).rev() {
            let elimination = self.factor.eliminations[place];
            let row = usize::from(elimination.row);
            let taken = product(self.factor.lower.column(elimination.column)?, rows)?;
            let left = read(rows, row)?.less_wide(taken);
            put(rows, row, left)?;
        }
        Ok(())
    }

    /// Solves for the price of each row, from what each column has to be worth.
    pub fn solve_prices(&self, right: &[Price], rows: &mut [Price]) -> Result<(), Stop> {
        self.solve_prices_from(0, right, rows)
    }

    /// The same, where the prices of the rows of so many first columns are there already, and no elimination changed them. As long
    /// as the right-hand side is 0 from the first column on, so is what comes of it.
    pub fn solve_prices_from(
        &self,
        first: usize,
        right: &[Price],
        rows: &mut [Price],
    ) -> Result<(), Stop> {
        if right.len() < self.factor.pivots.len() {
            return Err(Stop::WrongPlace);
        }
        let mut is_met = first > 0;
        for column in first..self.factor.pivots.len() {
            let pivot = self.factor.pivots[column];
            is_met = is_met || !right[column].is_zero();
            if is_met {
                self.solve_column(column, pivot, right[column], rows)?;
            } else {
                put(rows, usize::from(pivot.row), Price::zero())?;
            }
        }
        self.undo_eliminations(rows)
    }

    // Carries out the eliminations on a right-hand side.
    fn eliminate_right(&self, right: &mut [Amount]) -> Result<(), Stop> {
        for elimination in self.factor.eliminations.as_slice() {
            let amount = read(right, usize::from(elimination.row))?;
            subtract(right, self.factor.lower.column(elimination.column)?, amount)?;
        }
        Ok(())
    }

    /// Solves for the amount of each column, from what each row has to be paid, which is used up.
    pub fn solve_amounts(&self, right: &mut [Amount], columns: &mut [Amount]) -> Result<(), Stop> {
        self.eliminate_right(right)?;
        for column in (0..self.factor.pivots.len()).rev() {
            let pivot = self.factor.pivots[column];
            let amount = amount_over(read(right, usize::from(pivot.row))?, pivot.value)?;
            put(columns, column, amount)?;
            self.subtract_above(column, pivot.line, right, amount)?;
        }
        Ok(())
    }
}
