//! Bytes that no line of text can hold, by escapes.

use std::alloc::{AllocError, Global};

// What a digit of a hexadecimal number stands for; 0 where it is none.
fn digit(byte: u8) -> u8 {
    match byte {
        b'0'..=b'9' => byte - b'0',
        b'a'..=b'f' => byte - b'a' + 10,
        _ => 0,
    }
}

/// The bytes that escapes stand for: `\n`, `\r`, `\t`, `\\`, and `\x` with two digits. A line feed of the text itself is none.
pub fn unescape(alloc: Global, text: &[u8]) -> Result<Vec<u8>, AllocError> {
    let mut bytes = Vec::new(alloc);
    let mut rest = text;
    for _ in 0..text.len() {
        match rest {
            [] => break,
            [b'\\', b'x', high, low, behind @ ..] => {
                bytes.push((digit(*high) << 4) | digit(*low))?;
                rest = behind;
            }
            [b'\\', letter, behind @ ..] => {
                bytes.push(match *letter {
                    b'n' => b'\n',
                    b'r' => b'\r',
                    b't' => b'\t',
                    other => other,
                })?;
                rest = behind;
            }
            [b'\n', behind @ ..] => rest = behind,
            [byte, behind @ ..] => {
                bytes.push(*byte)?;
                rest = behind;
            }
        }
    }
    Ok(bytes)
}

/// Whether each escape of a text is one that stands for a byte.
pub fn is_escaped(text: &[u8]) -> bool {
    let mut rest = text;
    for _ in 0..text.len() {
        rest = match rest {
            [b'\\', b'x', high, low, behind @ ..] if is_hex(*high) && is_hex(*low) => behind,
            [b'\\', b'n' | b'r' | b't' | b'\\', behind @ ..] => behind,
            [] | [b'\\', ..] => break,
            [_, behind @ ..] => behind,
        };
    }
    rest.is_empty()
}

// Whether a byte is a digit as `digit` reads it.
fn is_hex(byte: u8) -> bool {
    matches!(byte, b'0'..=b'9' | b'a'..=b'f')
}
