//! The words of a line.

use crate::unread::Unread;
use std::alloc::{AllocError, Global};

// The first word of a text that begins with one, and what stands behind it. A word in double quotes may be empty or
// have blanks.
fn first_word(text: &str) -> (&str, &str) {
    let quoted = text.strip_prefix('"').and_then(|rest| rest.split_once('"'));
    match quoted {
        Some((word, rest)) => (word, rest),
        None => text.split_once(' ').unwrap_or((text, "")),
    }
}

/// The words of a text, which blanks part. Double quotes stand round a word that is empty or has blanks, and are no
/// part of it.
///
/// # Errors
///
/// Where memory ran out.
pub fn words_of(alloc: Global, text: &str) -> Result<Vec<&str>, AllocError> {
    let mut words = Vec::new(alloc);
    let mut rest = text.trim();
    for _ in 0..text.len() {
        if rest.is_empty() {
            break;
        }
        let (word, behind) = first_word(rest);
        words.push(word)?;
        rest = behind.trim_start();
    }
    Ok(words)
}

// What a digit of a hexadecimal number stands for.
fn digit(byte: u8) -> Option<u8> {
    match byte {
        b'0'..=b'9' => Some(byte - b'0'),
        b'a'..=b'f' => Some(byte - b'a' + 10),
        _ => None,
    }
}

/// The bytes that a word gives: its own, and for `\n`, `\\` and `\xff` those that they stand for.
///
/// # Errors
///
/// `Argument` where a backslash begins none of these, and `NoMemory` where memory ran out.
pub fn bytes_of(alloc: Global, word: &str) -> Result<Vec<u8>, Unread> {
    let mut bytes = Vec::new(alloc);
    let mut rest = word.as_bytes();
    for _ in 0..word.len() {
        let (byte, behind) = match rest {
            [] => break,
            [b'\\', b'n', behind @ ..] => (b'\n', behind),
            [b'\\', b'\\', behind @ ..] => (b'\\', behind),
            [b'\\', b'x', high, low, behind @ ..] => (hex(*high, *low)?, behind),
            [b'\\', ..] => return Err(Unread::Argument),
            [byte, behind @ ..] => (*byte, behind),
        };
        bytes.push(byte)?;
        rest = behind;
    }
    Ok(bytes)
}

// The byte that two digits of a hexadecimal number stand for.
fn hex(high: u8, low: u8) -> Result<u8, Unread> {
    match (digit(high), digit(low)) {
        (Some(high), Some(low)) => Ok((high << 4) | low),
        _ => Err(Unread::Argument),
    }
}
