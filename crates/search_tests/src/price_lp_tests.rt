//! Worked figures of solves. They come from another program.

ghost use Rattle.std.specs.Prelude.{◌≡◌, IfOk, length};

use crate::test_files::{FOUR_OFFERS, TWO_NEEDS, case_of};
use case_file::Case;
use escrow_units::{Cents, Day, Flow, GREATEST_INDEX, YieldUnits};
use fixed_powers::{Powers, Side};
use price_lp::{Basis, Holding, Purpose, Simplex, SolveEnd, Stop};
use proof_tree::{Interval, Leaf};
use sparse_basis::LineState;
use std::alloc::Global;
use std::test::Fail;

fn simplex_of<'a>(alloc: Global, case: &'a Case) -> Result<Simplex<'a>, Fail>
    ensures { IfOk result (λ simplex. simplex.dates ≡ length case.now.book.needs) }
{
    let powers = Powers::make(alloc, YieldUnits(350_100_000), Side::Low, GREATEST_INDEX)?;
    Ok(Simplex::make(alloc, &case.book, &powers)?)
}

// The leaf that a solution proposes, over so many need dates.
fn leaf_of(alloc: Global, simplex: &Simplex, dates: u16) -> Result<Leaf, Fail>
    requires { simplex.now.dates ≡ dates }
{
    let mut leaf = Leaf::of_zeros(alloc, true, dates)?;
    simplex.propose(&mut leaf);
    Ok(leaf)
}

// The whole cents of the objective.
fn cents_of(simplex: &Simplex) -> i128 {
    simplex.objective() >> 40
}

#[test]
fn a_solve_keeps_to_the_yield_limit(rt: HostRuntime) -> Result<(), Fail> {
    let case = case_of(&rt, rt.alloc(), TWO_NEEDS, FOUR_OFFERS, b"")?;
    let mut simplex = simplex_of(rt.alloc(), &case)?;
    simplex.start_greedily();
    assert_eq!(rt; simplex.solve(100, None), SolveEnd::Optimal);
    assert_eq!(rt; simplex.iterations(), 1);
    assert_eq!(rt; cents_of(&simplex), 285_028_911);
    let amounts = [0, 97_122_537_446, 0, 85_954_225_172, 108_792_843_366];
    for line in 0..5u16 {
        assert_eq!(rt; Some(&simplex.amount(line)), amounts.get(usize::from(line)));
        assert_eq!(rt; simplex.is_basic(line), line == 1 || 3 <= line);
    }
    // 1,080,565,599,353 and 1,026,680,214,347 in units of 2^-40.
    let leaf = leaf_of(rt.alloc(), &simplex, case.book.need_count())?;
    assert_eq!(rt;
        leaf.prices.as_slice(),
        [982_768_687_529, 933_760_215_363].as_slice()
    );
    // A line that isn't in the basis goes with its range.
    simplex.set_range(
        0,
        Interval {
            low: 100,
            high: 1000,
        },
    );
    assert_eq!(rt; simplex.solve(100, None), SolveEnd::Optimal);
    assert_eq!(rt; simplex.amount(0), 102_400);
    Ok(())
}

#[test]
fn a_fixed_line_pays_exactly_until_it_is_free(rt: HostRuntime) -> Result<(), Fail> {
    let case = case_of(&rt, rt.alloc(), TWO_NEEDS, FOUR_OFFERS, b"")?;
    let mut simplex = simplex_of(rt.alloc(), &case)?;
    let half_a_year = [Flow {
        day: Day::new(20284),
        cents: Cents(50_991_781),
    }];
    simplex.start_greedily();
    assert_eq!(rt; simplex.solve(100, None), SolveEnd::Optimal);
    // 500,000 dollars of a line that is in the basis: it leaves it.
    let holding = Holding {
        units: 500_000,
        cost: Cents(50_000_000),
        payments: &half_a_year,
        excess: 0,
    };
    simplex.fix(1, &holding);
    assert_eq!(rt; simplex.solve(100, None), SolveEnd::Optimal);
    assert!(rt; !simplex.is_basic(1));
    assert_eq!(rt; simplex.amount(1), 51_200_000_000);
    assert_eq!(rt; cents_of(&simplex), 284_918_460);
    simplex.set_range(
        1,
        Interval {
            low: 0,
            high: 10_000_000,
        },
    );
    assert_eq!(rt; simplex.solve(100, None), SolveEnd::Optimal);
    assert_eq!(rt; cents_of(&simplex), 285_028_911);
    Ok(())
}

#[test]
fn a_solve_starts_from_a_leaf_or_a_basis(rt: HostRuntime) -> Result<(), Fail> {
    let case = case_of(&rt, rt.alloc(), TWO_NEEDS, FOUR_OFFERS, b"")?;
    let mut simplex = simplex_of(rt.alloc(), &case)?;
    let mut basis = simplex.new_basis(rt.alloc())?;
    assert_eq!(rt; simplex.solve(100, None), SolveEnd::Optimal);
    let leaf = leaf_of(rt.alloc(), &simplex, case.book.need_count())?;
    let solved = simplex.iterations();
    simplex.start_at(&leaf);
    assert_eq!(rt; simplex.solve(1, None), SolveEnd::Optimal);
    assert_eq!(rt; simplex.iterations(), solved);
    simplex.save(&mut basis);
    // Without the last line it costs more.
    simplex.set_range(4, Interval { low: 0, high: 0 });
    assert_eq!(rt; simplex.solve(0, None), SolveEnd::Capped);
    assert_eq!(rt; simplex.solve(100, Some(285_028_910)), SolveEnd::AtLimit);
    simplex.set_range(4, Interval { low: 0, high: 1000 });
    simplex.start_from(&basis);
    let nothing = Holding {
        units: 0,
        cost: Cents(0),
        payments: &[],
        excess: 0,
    };
    simplex.fix(0, &nothing);
    assert_eq!(rt; simplex.solve(100, None), SolveEnd::Optimal);
    // More columns than runs of dates.
    assert!(rt; basis.put_line(2, LineState::Basic).is_ok());
    simplex.start_from(&basis);
    assert_eq!(rt; simplex.solve(1, None), SolveEnd::Stopped(Stop::Irregular));
    simplex.aim(Purpose::Cost);
    simplex.start_greedily();
    assert_eq!(rt; simplex.solve(100, None), SolveEnd::Optimal);
    Ok(())
}

#[test]
fn a_wrong_place_stops_the_next_solve_and_is_counted(rt: HostRuntime) -> Result<(), Fail> {
    let case = case_of(&rt, rt.alloc(), TWO_NEEDS, FOUR_OFFERS, b"")?;
    let mut simplex = simplex_of(rt.alloc(), &case)?;
    let wrong = SolveEnd::Stopped(Stop::WrongPlace);
    // Opening cash and four offers: there is no line 5.
    simplex.start_greedily();
    simplex.set_range(5, Interval { low: 0, high: 1 });
    assert_eq!(rt; simplex.solve(100, None), wrong);
    assert_eq!(rt; simplex.solve(100, None), SolveEnd::Optimal);
    assert_eq!(rt; cents_of(&simplex), 285_028_911);
    // Line 1 pays on the first of the two need dates alone.
    let on_the_second = [Flow {
        day: Day::new(20833),
        cents: Cents(1),
    }];
    let holding = Holding {
        units: 1,
        cost: Cents(1),
        payments: &on_the_second,
        excess: 0,
    };
    simplex.fix(1, &holding);
    assert_eq!(rt; simplex.solve(100, None), wrong);
    // A basis of fewer lines, one of more dates, and a leaf of more dates too.
    let narrow = Basis::with_room(rt.alloc(), 4, 2)?;
    simplex.start_from(&narrow);
    assert_eq!(rt; simplex.solve(100, None), wrong);
    let long = Basis::with_room(rt.alloc(), 5, 3)?;
    simplex.start_from(&long);
    assert_eq!(rt; simplex.solve(100, None), wrong);
    let leaf = Leaf::of_zeros(rt.alloc(), true, 3)?;
    simplex.start_at(&leaf);
    assert_eq!(rt; simplex.solve(100, None), wrong);
    assert_eq!(rt; simplex.wrong_places(), 5);
    Ok(())
}
