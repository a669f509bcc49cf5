//! Worked figures.
ghost use Rattle.std.specs.Prelude.{◌≡◌};
ghost use Rattle.escrow_units.specs.DayNumber.{IsDayNumber};
ghost use Rattle.day_sums.specs.Summed.{on as on_day};

use crate::{DaySums, summed_laws};
use escrow_units::{Cents, Day, Flow};
use std::test::Fail;

// So many cents on a day, by its number.
fn on(day: i32, cents: u64) -> Flow
    requires { IsDayNumber day }
    ensures { result ≡ on_day day cents }
{
    Flow {
        day: Day::new(day),
        cents: Cents(cents),
    }
}

#[test]
fn amounts_are_summed_by_day(rt: HostRuntime) -> Result<(), Fail> {
    summed_laws();
    let (first, last) = (Day::new(-3), Day::new(9));
    let none = DaySums::between(rt.alloc(), first, last)?;
    assert_eq!(rt; none.into_flows(rt.alloc())?.len(), 0);
    let mut sums = DaySums::between(rt.alloc(), first, last)?;
    sums.add(&[on(9, 5), on(7, 1), on(8, 0)]);
    sums.add(&[on(9, 6), on(-3, 2), on(7, 0)]);
    let by_day = [sums.on(first), sums.on(Day::new(8)), sums.on(last)];
    assert_eq!(rt; by_day, [Cents(2), Cents(0), Cents(11)]);
    let expected = [on(-3, 2), on(7, 1), on(9, 11)];
    assert_eq!(rt;
        sums.into_flows(rt.alloc())?.as_slice(),
        expected.as_slice()
    );
    Ok(())
}
