//! Fields of rows.
ghost use Rattle.std.specs.Prelude.{◌≡◌, ◌<◌, ◌∷◌, ◌++◌, codes, OnOk};
ghost use Rattle.escrow_units.specs.Digits.{fixed, last_digits};

use escrow_desk::NoMemory;
use itoa::Buffer;

/// A rate in hundredths of a percentage point.
#[derive(Clone, Copy)]
pub(crate) struct Hundredths(pub(crate) u32);

/// Adds a comma and a field.
pub(crate) fn push_field(text: &mut Vec<u8>, field: &[u8]) -> Result<(), NoMemory>
    ensures { OnOk result (text.new.items ≡ text.old.items ++ 44 ∷ field.now) }
{
    text.push(b',')?;
    text.extend_from_slice(field)?;
    Ok(())
}

// Adds a number of two digits.
fn push_two_digits(text: &mut Vec<u8>, n: u32) -> Result<(), NoMemory>
    requires { n < 100 }
    ensures { OnOk result (text.new.items ≡ text.old.items ++ last_digits 2 n) }
{
    text.push(b'0' + (n / 10) as u8)?;
    text.push(b'0' + (n % 10) as u8)?;
    Ok(())
}

/// Adds a comma and a rate in percent, with two decimals.
pub(crate) fn push_rate(text: &mut Vec<u8>, rate: Hundredths) -> Result<(), NoMemory>
    ensures { OnOk result (text.new.items ≡ text.old.items ++ 44 ∷ fixed 2 rate.0) }
{
    let mut digits = Buffer::new();
    push_field(text, digits.format(rate.0 / 100).as_bytes())?;
    text.push(b'.')?;
    push_two_digits(text, rate.0 % 100)
}

/// Adds a comma and a price of 102 percent and thirty-seconds.
pub(crate) fn push_price(text: &mut Vec<u8>, thirty_seconds: u32) -> Result<(), NoMemory>
    requires { thirty_seconds < 100 }
    ensures { OnOk result (text.new.items ≡ text.old.items ++ 44 ∷ codes "102-" ++ last_digits 2 thirty_seconds) }
{
    push_field(text, b"102-")?;
    push_two_digits(text, thirty_seconds)
}
