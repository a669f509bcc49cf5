//! The words of a line that is longer than any right one.
ghost use Rattle.std.specs.Prelude.{◌≡◌, ◌≤◌, List, ℕ};
ghost use Rattle.std.specs.List.{fold};
ghost use Rattle.bound_certificate.specs.declared.row.Row.TheVariants as row_of;
ghost use Rattle.bound_certificate.specs.declared.weighing.Weighing.TheVariants as weighing_of;
ghost use Rattle.bound_certificate.specs.LongLine.{at_byte as at_byte_of, counted as counted_of, nothing_seen, seen_of, seen_with, word_ended as word_ended_of, words_fit};
ghost use Rattle.line_words.specs.Words.{words_of};

use crate::limits::{MOST_DATES, WORDS_COUNTED};
use crate::row::Row;
use crate::weighing::Weighing;

/// Where the last byte of a line stands.
#[derive(Clone, Copy, Debug, PartialEq, Eq)]
pub(crate) enum At {
    /// Before a word.
    Start,
    /// At a `t` that begins a word.
    Letter,
    /// Within a word that isn't `t`.
    Within,
    /// Behind the first word that is `t`.
    Tail,
}

/// What the words of a line are.
#[derive(Clone, Copy, Debug, PartialEq, Eq)]
pub(crate) struct Seen {
    /// How many ended before the first that is `t`, up to a thousand.
    front: u64,
    /// How many ended from it on, up to a thousand.
    tail: u64,
    /// Where the last byte stands.
    at: At,
}

// One more, up to a thousand.
fn counted(count: u64) -> u64
    ensures { result ≡ counted_of count }
{
    if count < WORDS_COUNTED {
        count + 1
    } else {
        count
    }
}

// Where a byte of a word stands.
fn at_byte(at: At, byte: u8) -> At
    ensures { result ≡ at_byte_of at byte }
{
    match at {
        At::Start if byte == b't' => At::Letter,
        At::Tail => At::Tail,
        _ => At::Within,
    }
}

impl Seen {
    /// Before the first byte.
    pub(crate) fn nothing() -> Seen
        ensures { result ≡ nothing_seen }
    {
        Seen {
            front: 0,
            tail: 0,
            at: At::Start,
        }
    }

    // A word ended.
    fn word_ended(self) -> Seen
        ensures { result ≡ word_ended_of self self.at }
    {
        match self.at {
            At::Start | At::Within => Seen {
                front: counted(self.front),
                tail: self.tail,
                at: At::Start,
            },
            At::Letter | At::Tail => Seen {
                front: self.front,
                tail: counted(self.tail),
                at: At::Tail,
            },
        }
    }

    // With one more byte.
    fn with(self, byte: u8) -> Seen
        ensures { result ≡ seen_with self byte }
    {
        if byte == b' ' {
            return self.word_ended();
        }
        Seen {
            front: self.front,
            tail: self.tail,
            at: at_byte(self.at, byte),
        }
    }

    /// With more bytes.
    pub(crate) fn with_all(self, bytes: &[u8]) -> Seen
        ensures { result ≡ fold seen_with self bytes.now }
    {
        let mut seen = self;
        for byte in bytes {
            seen = seen.with(*byte);
        }
        seen
    }

    // Whether so many words make a leaf of version 3, which may have a tail.
    fn fits_leaf(self, dates: u16) -> bool
        requires { dates ≤ MOST_DATES }
        ensures { (line : List ℕ) → self ≡ seen_of line → result ≡ words_fit dates (row_of.Leaf weighing_of.Number) (words_of line) }
    {
        let leaf = Row::Leaf(Weighing::Number);
        match self.at {
            At::Start | At::Within => leaf.fits(dates, self.front as usize),
            At::Letter | At::Tail => {
                leaf.fits(dates, self.front.saturating_sub(1) as usize)
                    && Row::Tail.fits(dates, self.tail as usize)
            }
        }
    }

    /// Whether so many words make a line of a row. The last of them hasn't ended.
    pub(crate) fn fits(self, row: Row, dates: u16) -> bool
        requires { dates ≤ MOST_DATES }
        ensures { (line : List ℕ) → self ≡ seen_of line → result ≡ words_fit dates row (words_of line) }
    {
        if row.may_have_tail() {
            return self.fits_leaf(dates);
        }
        row.fits(dates, self.front.saturating_add(self.tail) as usize)
    }
}
