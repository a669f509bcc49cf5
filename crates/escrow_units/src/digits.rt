//! Decimal digits that are printed.
ghost use Rattle.std.specs.Prelude.{◌≡◌, ◌+◌, ◌/◌, ◌%◌, ◌<◌, ◌≤◌, ◌^◌, ◌++◌, ◌∷◌, [], length, decimal};
ghost use Rattle.arrayvec.specs.ArrayString.{array_string_len};
ghost use Rattle.escrow_units.specs.Digits.{last_digits, fixed};

use arrayvec::ArrayString;

// Adds an ASCII character.
pub(crate) fn push_ascii(text: &mut ArrayString<32>, byte: u8)
    requires ascii { byte < 128 }
    requires room { array_string_len text.old < 32 }
    ensures { text.new.bytes ≡ text.old.bytes ++ byte ∷ [] }
{
    text.push(byte as char);
}

// Adds the digits of a number.
#[tactic(auto, using(crate::proofs::DigitFacts::digit_facts))]
pub(crate) fn push_decimal(text: &mut ArrayString<32>, n: u64)
    requires { array_string_len text.old + length (decimal n) ≤ 32 }
    ensures { text.new.bytes ≡ text.old.bytes ++ decimal n }
{
    if n < 10 {
        push_ascii(text, b'0' + n as u8);
        return;
    }
    push_decimal(text, n / 10);
    push_ascii(text, b'0' + (n % 10) as u8);
}

// Adds the last digits of a number, with leading zeros.
#[tactic(auto, using(crate::proofs::DigitFacts::digit_facts))]
pub(crate) fn push_last(text: &mut ArrayString<32>, places: u8, n: u64)
    requires { array_string_len text.old + places ≤ 32 }
    ensures { text.new.bytes ≡ text.old.bytes ++ last_digits places n }
{
    if places == 0 {
        return;
    }
    push_last(text, places - 1, n / 10);
    push_ascii(text, b'0' + (n % 10) as u8);
}
