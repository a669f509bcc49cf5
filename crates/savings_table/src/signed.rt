//! Printed amounts that may be below 0.
ghost use Rattle.std.specs.Prelude.{◌≡◌, ◌+◌, ◌≤◌, ◌<◌, ◌++◌, ◌^◌};
ghost use Rattle.arrayvec.specs.ArrayString.{array_string_len};
ghost use Rattle.escrow_units.specs.Digits.{fixed};
ghost use Rattle.savings_table.specs.SignedText.{signed_cents};

use arrayvec::ArrayString;
use itoa::Buffer;

// Adds cents in dollars with two decimals.
fn push_dollars(text: &mut ArrayString<48>, cents: u128)
    requires { array_string_len text.old ≤ 1 }
    ensures { text.new.bytes ≡ text.old.bytes ++ fixed 2 cents }
{
    let mut dollars = Buffer::new();
    text.push_str(dollars.format(cents / 100));
    text.push('.');
    text.push((b'0' + (cents % 100 / 10) as u8) as char);
    text.push((b'0' + (cents % 10) as u8) as char);
}

/// Prints an amount of cents in dollars with two decimals, and `-` before an amount below 0, as `-0.01`.
pub fn print_signed(value: i128) -> ArrayString<48>
    ensures { result.bytes ≡ signed_cents value }
{
    let mut text = ArrayString::new();
    if value < 0 {
        text.push('-');
    }
    push_dollars(&mut text, value.unsigned_abs());
    text
}
