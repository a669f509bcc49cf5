//! The interest that a face earns, and what it costs at a price.
ghost use Rattle.std.specs.Prelude.{◌≡◌, ◌^◌, ◌<◌, ◌≤◌};
ghost use Rattle.escrow_units.specs.Interest.{earned_of, face_price_of, half_coupon_of};

use crate::amount::{Cents, Price8, Rate};
use crate::limits::{AMOUNT_LIMIT, GREATEST_INDEX, GREATEST_PRICE, GREATEST_RATE};
use crate::rounding::near;

/// A part of a year for which interest is earned.
#[derive(Clone, Copy, Debug, PartialEq, Eq)]
pub struct Accrual {
    /// For how many days it is earned.
    pub parts: u32,
    /// How many such days the year has: 360, 365 or 366, or twice those of a half-year.
    pub year: u32,
}

/// What a face earns in so many parts of a year that has `year` of them, to the cent, halves up.
///
/// A rate counts 100,000 to the face and a year: the interest is `face * rate * parts / (100,000 * year)`. The parts are
/// days, of a year of 360, 365 or 366 days, or of twice a half-year.
pub fn earned(face: Cents, rate: Rate, parts: u32, year: u32) -> Cents
    requires face { face.0 ≤ AMOUNT_LIMIT }
    requires rate { rate.0 ≤ GREATEST_RATE }
    requires parts { parts ≤ GREATEST_INDEX }
    requires year { 0 < year }
    ensures value { result.0 ≡ earned_of face.0 rate.0 parts year }
    ensures bound { result.0 < 2 ^ 62 }
{
    let year_of_rate = 100_000 * year as u128;
    Cents(near(
        face.0 as u128 * rate.0 as u128 * parts as u128,
        year_of_rate,
    ) as u64)
}

/// Half a coupon: the interest of a half-year on a face, to the cent, halves up.
pub fn half_coupon(face: Cents, rate: Rate) -> Cents
    requires face { face.0 ≤ AMOUNT_LIMIT }
    requires rate { rate.0 ≤ GREATEST_RATE }
    ensures value { result.0 ≡ half_coupon_of face.0 rate.0 }
    ensures bound { result.0 < 2 ^ 62 }
{
    Cents(near(face.0 as u128 * rate.0 as u128, 200_000) as u64)
}

/// What a face costs at a price, without accrued interest, to the cent, halves up.
pub fn face_price(face: Cents, price: Price8) -> Cents
    requires face { face.0 ≤ AMOUNT_LIMIT }
    requires price { price.0 ≤ GREATEST_PRICE }
    ensures value { result.0 ≡ face_price_of face.0 price.0 }
    ensures bound { result.0 < 2 ^ 62 }
{
    Cents(near(face.0 as u128 * price.0 as u128, 10_000_000_000) as u64)
}
