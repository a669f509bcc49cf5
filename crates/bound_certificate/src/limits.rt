//! The limits of a certificate's numbers. They are this project's own.
use line_words::GREATEST_NUMBER;

/// The most purchases of a certificate of version 1.
pub const MOST_BUYS: u64 = 257;

/// The greatest gap, in cents.
pub const GREATEST_GAP: u64 = GREATEST_NUMBER;

/// The most nodes of a tree.
pub const MOST_NODES: u64 = 10_000;

/// The most need dates, for each of which a leaf has a price.
pub const MOST_DATES: usize = 480;

/// The most purchases of a packed certificate.
pub const MOST_PACKED_BUYS: u64 = 513;

/// The most vectors of a packed certificate.
pub const MOST_VECTORS: u64 = 64;

/// The most numbers of a line of a packed certificate before a tail: a leaf's three, and two for each need date.
pub(crate) const MOST_NUMBERS: usize = 3 + 2 * MOST_DATES;

/// More bytes than a right line has: a first word of at most 20, 963 numbers of at most 16 digits, and a tail of a `t` and 192 such
/// numbers, each behind a space.
pub(crate) const LINE_ROOM: usize = 19_700;

/// More words than a right line has before its tail, and than its tail has; so many of them are counted at least.
pub(crate) const WORDS_COUNTED: u64 = 1_000;
