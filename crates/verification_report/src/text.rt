//! Lines of words.

ghost use Rattle.std.specs.Prelude.{◌≡◌, ◌∷◌, ◌++◌, OnOk};
ghost use Rattle.std.specs.Fmt.{decimal};
ghost use Rattle.verification_report.specs.Summary.{text_line};

use escrow_desk::NoMemory;
use itoa::Buffer;

/// Adds a line of words and a value, with a line feed.
///
/// # Errors
///
/// Where memory ran out; then a part of the line may have been added.
pub fn push_line(text: &mut Vec<u8>, words: &[u8], value: &[u8]) -> Result<(), NoMemory>
    ensures { OnOk result (text.new.items ≡ text.old.items ++ text_line words.now value.now) }
{
    text.extend_from_slice(words)?;
    text.extend_from_slice(value)?;
    text.push(b'\n')?;
    Ok(())
}

/// Adds a space and a word.
pub(crate) fn push_word(text: &mut Vec<u8>, word: &[u8]) -> Result<(), NoMemory>
    ensures { OnOk result (text.new.items ≡ text.old.items ++ 32 ∷ word.now) }
{
    text.push(b' ')?;
    text.extend_from_slice(word)?;
    Ok(())
}

/// Adds a number.
pub(crate) fn push_number(text: &mut Vec<u8>, number: u16) -> Result<(), NoMemory>
    ensures { OnOk result (text.new.items ≡ text.old.items ++ decimal number) }
{
    let mut digits = Buffer::new();
    text.extend_from_slice(digits.format(number).as_bytes())?;
    Ok(())
}
