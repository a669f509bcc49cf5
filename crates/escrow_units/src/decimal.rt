//! Decimal fields.
ghost use Rattle.std.specs.Prelude.{◌≡◌, ◌+◌, ◌*◌, ◌≤◌, ◌<◌, ◌^◌, ◌==◌, length, IfSome, IfOk, OnSome, option_map, position};
ghost use Rattle.escrow_units.specs.NumberText.{whole_of, parted_of, decimal_of, ranged};

use crate::fault::NumberFault;

/// The number that 1 to `most` digits write; None where the bytes are no such digits. Leading zeros are allowed.
#[tactic(auto, unfolding(crate::specs::NumberText::whole_of))]
pub fn whole_number(bytes: &[u8], most: usize) -> Option<u64>
    requires { most ≤ 19 }
    ensures value { result ≡ whole_of most bytes.now }
    ensures bound { IfSome result (λ n. n < 10 ^ length bytes.now) }
    ensures few { OnSome result (length bytes.now ≤ most) }
{
    if bytes.is_empty() || bytes.len() > most {
        return None;
    }
    let mut number = 0;
    for byte in bytes {
        if !byte.is_ascii_digit() {
            return None;
        }
        number = 10 * number + (*byte - b'0') as u64;
    }
    Some(number)
}

// A number times a power of ten.
fn scaled(n: u64, places: usize) -> u64
    requires power { places ≤ 19 }
    requires fits { n * 10 ^ places < 2 ^ 64 }
    ensures { result ≡ n * 10 ^ places }
{
    n * 10u64.pow(places as u32)
}

// The units of 10^-places that digits before a point and digits after it write.
#[tactic(auto, unfolding(crate::specs::NumberText::parted_of))]
fn parted(front: &[u8], back: &[u8], most: usize, places: usize) -> Option<u64>
    requires { most + places ≤ 19 }
    ensures { result ≡ parted_of most places front.now back.now }
{
    let whole = whole_number(front, most)?;
    let part = whole_number(back, places)?;
    Some(scaled(whole, places) + scaled(part, places - back.len()))
}

// A whole number as units of 10^-places.
fn unparted(bytes: &[u8], most: usize, places: usize) -> Option<u64>
    requires { most + places ≤ 19 }
    ensures { result ≡ option_map (λ whole. whole * 10 ^ places) (whole_of most bytes.now) }
{
    let whole = whole_number(bytes, most)?;
    Some(scaled(whole, places))
}

// Where a byte first stands.
pub(crate) fn place_of(bytes: &[u8], mark: u8) -> Option<usize>
    ensures place { result ≡ position (λ byte. byte == mark) bytes.now }
    ensures bound { IfSome result (λ place. place < length bytes.now) }
{
    bytes.iter().position(|byte| *byte == mark)
}

// The units of 10^-places that 1 to `most` digits write, then optionally a point and 1 to `places` digits.
#[tactic(auto, unfolding(crate::specs::NumberText::decimal_of))]
pub(crate) fn decimal(bytes: &[u8], most: usize, places: usize) -> Option<u64>
    requires { most + places ≤ 19 }
    ensures { result ≡ decimal_of most places bytes.now }
{
    match place_of(bytes, b'.') {
        Some(point) => parted(&bytes[..point], &bytes[point + 1..], most, places),
        None => unparted(bytes, most, places),
    }
}

// The number of a field, where it has one from `least` to `most`; else why it has none.
pub(crate) fn in_range(
    number: Option<u64>,
    least: u64,
    most: u64,
    outside: NumberFault,
) -> Result<u64, NumberFault>
    ensures value { result ≡ ranged (λ n. n) least most outside number }
    ensures range { IfOk result (λ n. (least ≤ n) × (n ≤ most)) }
{
    match number {
        None => Err(NumberFault::BadNumber),
        Some(n) if least <= n && n <= most => Ok(n),
        Some(_) => Err(outside),
    }
}
