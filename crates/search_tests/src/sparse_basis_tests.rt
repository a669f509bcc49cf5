//! Worked figures of a factor.

use sparse_basis::{
    Amount, Entry, FactoredBasis, LineState, Matrix, Multiplier, Price, Segment, Stop, product,
};
use std::alloc::Global;
use std::test::Fail;

// What stands for one.
const ONE: i128 = 1 << 40;

// Adds a line, by what a cent of it pays on the two dates, in whole cents, and is worth, in hundredths.
fn add_line(matrix: &mut Matrix, pays: [u16; 2], value: i16) -> Result<(), Fail> {
    for date in 0..2u16 {
        let paid = pays[usize::from(date)];
        if paid > 0 && matrix.pay(date + 1, Price::whole(paid)).is_err() {
            return Err(Fail::new("no room for a payment"));
        }
    }
    match matrix.end_line(Price::clamp(i128::from(value) * ONE / 100)) {
        Ok(()) => Ok(()),
        Err(_) => Err(Fail::new("no room for a line")),
    }
}

// Something that was set, on a line or a link that is there.
fn set(done: Result<(), Stop>) -> Result<(), Fail> {
    match done {
        Ok(()) => Ok(()),
        Err(_) => Err(Fail::new("no such place")),
    }
}

// Opening cash, which pays at once, and two lines: one pays on the first date, and the other on both. Both lines are basic, and each
// date has a price of its own.
fn factored(alloc: Global) -> Result<FactoredBasis, Fail> {
    let mut matrix = Matrix::with_room(alloc, 2, 3, 6)?;
    add_line(&mut matrix, [1, 0], 0)?;
    add_line(&mut matrix, [2, 0], -1)?;
    add_line(&mut matrix, [1, 4], -2)?;
    matrix.arrange(alloc)?;
    let mut factored = FactoredBasis::make(alloc, matrix)?;
    set(factored.basis.put_line(1, LineState::Basic))?;
    set(factored.basis.put_line(2, LineState::Basic))?;
    set(factored.basis.put_link(1, false))?;
    set(factored.basis.put_link(2, false))?;
    Ok(factored)
}

#[test]
fn prices_and_amounts_solve_a_basis(rt: HostRuntime) -> Result<(), Fail> {
    let mut factored = factored(rt.alloc())?;
    assert_eq!(rt; factored.refactor().ok(), Some(0));
    let mut prices = [Price::zero(); 2];
    // They cost 1 and 1.5: prices of 1 / 2, and (1.5 - 1 / 2) / 4.
    let right = [Price::whole(1), Price::clamp(ONE * 3 / 2)];
    assert!(rt; factored.solve_prices(&right, &mut prices).is_ok());
    assert_eq!(rt; [prices[0].wide(), prices[1].wide()], [ONE / 2, ONE / 4]);
    // 10^8 cents on each date: a quarter of it, and half of the other three quarters.
    let mut right = [Amount::clamp(102_400_000_000); 2];
    let mut amounts = [Amount::zero(); 2];
    assert!(rt; factored.solve_amounts(&mut right, &mut amounts).is_ok());
    assert_eq!(rt;
        [amounts[0].get(), amounts[1].get()],
        [38_400_000_000, 25_600_000_000]
    );
    Ok(())
}

#[test]
fn columns_before_the_first_change_stay(rt: HostRuntime) -> Result<(), Fail> {
    let mut factored = factored(rt.alloc())?;
    assert_eq!(rt; factored.refactor().ok(), Some(0));
    assert_eq!(rt; factored.refactor().ok(), Some(2));
    // The second date joins the first, and its line leaves.
    set(factored.basis.put_line(2, LineState::Low))?;
    set(factored.basis.put_link(1, true))?;
    assert_eq!(rt; factored.refactor().ok(), Some(1));
    // The multiplier gets a row.
    factored.basis.put_multiplier(Multiplier::Free);
    set(factored.basis.put_line(2, LineState::Basic))?;
    assert_eq!(rt; factored.refactor().ok(), Some(0));
    assert!(rt; !factored.is_triangular());
    Ok(())
}

#[test]
fn columns_that_depend_on_others_leave_the_basis(rt: HostRuntime) -> Result<(), Fail> {
    let mut factored = factored(rt.alloc())?;
    set(factored.basis.put_line(0, LineState::Basic))?;
    factored.basis.put_multiplier(Multiplier::Free);
    set(factored.basis.put_link(1, true))?;
    assert_eq!(rt; factored.refactor(), Err(Stop::Irregular));
    // A run and the multiplier have their pivots in the first two lines.
    assert!(rt; factored.repair(Multiplier::Top).is_ok());
    assert_eq!(rt;
        [factored.is_basic(1), factored.is_basic(2)],
        [Ok(true), Ok(false)]
    );
    assert!(rt; factored.segments.of(1).ok() == Some(Segment::Free(0)));
    assert!(rt; factored.segments.of(3).ok() == Some(Segment::Tail));
    // Opening cash alone gives the multiplier none.
    set(factored.basis.put_line(1, LineState::Low))?;
    assert!(rt; factored.repair(Multiplier::Top).is_ok());
    assert!(rt; factored.basis.multiplier() == Multiplier::Top && factored.count() == 1);
    Ok(())
}

#[test]
fn a_place_that_is_not_there_stops(rt: HostRuntime) -> Result<(), Fail> {
    let mut factored = factored(rt.alloc())?;
    // Three lines, two dates and the day of settlement, each with a link behind it, and the date after the last.
    assert_eq!(rt;
        factored.basis.put_line(3, LineState::Basic),
        Err(Stop::WrongPlace)
    );
    assert_eq!(rt; factored.basis.put_link(3, true), Err(Stop::WrongPlace));
    assert_eq!(rt; factored.basis.is_joined(3), Err(Stop::WrongPlace));
    assert_eq!(rt; factored.is_basic(3), Err(Stop::WrongPlace));
    assert!(rt; factored.segments.of(4).is_err());
    assert_eq!(rt; factored.refactor(), Ok(0));
    assert_eq!(rt; factored.line_of(2), Err(Stop::WrongPlace));
    // Two columns have two right-hand sides and two rows.
    let right = [Price::whole(1); 2];
    let mut one = [Price::zero(); 1];
    assert_eq!(rt;
        factored.solve_prices(&right, &mut one),
        Err(Stop::WrongPlace)
    );
    let mut needs = [Amount::zero(); 1];
    let mut amounts = [Amount::zero(); 2];
    assert_eq!(rt;
        factored.solve_amounts(&mut needs, &mut amounts),
        Err(Stop::WrongPlace)
    );
    let entry = Entry {
        place: 1,
        value: Price::one(),
    };
    assert_eq!(rt; product(&[entry], &one), Err(Stop::WrongPlace));
    Ok(())
}

#[test]
fn a_line_that_was_not_added_stops(rt: HostRuntime) -> Result<(), Fail> {
    let mut matrix = Matrix::with_room(rt.alloc(), 2, 2, 4)?;
    add_line(&mut matrix, [1, 0], 0)?;
    matrix.arrange(rt.alloc())?;
    let mut factored = FactoredBasis::make(rt.alloc(), matrix)?;
    set(factored.basis.put_line(1, LineState::Basic))?;
    set(factored.basis.put_link(1, false))?;
    assert_eq!(rt; factored.refactor(), Err(Stop::WrongPlace));
    Ok(())
}
