//! The versions of a certificate's text.
ghost use Rattle.std.specs.Prelude.{◌≡◌};
ghost use Rattle.bound_certificate.specs.Grammar.{has_sums as has_sums_of, leaf_row as leaf_row_of, most_buys as most_buys_of, title_version as title_version_of, title_weighing as title_weighing_of, title_word};

use crate::limits::{MOST_BUYS, MOST_PACKED_BUYS};
use crate::row::Row;
use crate::weighing::Weighing;

/// The version of a certificate's text, which its first line says.
#[derive(Clone, Copy, Debug, PartialEq, Eq)]
pub(crate) enum Version {
    /// 1: each leaf has all its prices, and weighs the cost wholly or not at all.
    One,
    /// 2 or 3: leaves share vectors of prices, and weigh the cost so.
    Packed(Weighing),
}

impl Version {
    /// The first line.
    pub(crate) fn title(self) -> &'static [u8]
        ensures { result.now ≡ title_word self }
    {
        match self {
            Version::One => b"escrow-certificate 1",
            Version::Packed(Weighing::WholeOrNone) => b"escrow-certificate 2",
            Version::Packed(Weighing::Number) => b"escrow-certificate 3",
        }
    }

    /// The version that a first line says: 1 unless it is that of version 2 or 3.
    pub(crate) fn of_title(line: &[u8]) -> Version
        ensures { result ≡ title_version_of line.now }
    {
        let packed = Version::Packed(weighing_of_title(line));
        if packed.title() == line {
            packed
        } else {
            Version::One
        }
    }

    /// The most purchases.
    pub(crate) fn most_buys(self) -> u64
        ensures { result ≡ most_buys_of self }
    {
        match self {
            Version::One => MOST_BUYS,
            Version::Packed(_) => MOST_PACKED_BUYS,
        }
    }

    /// Whether it has splits of sums: version 3 alone has them.
    pub(crate) fn has_sums(self) -> bool
        ensures { result ≡ has_sums_of self }
    {
        matches!(self, Version::Packed(Weighing::Number))
    }

    /// How its leaves are written.
    pub(crate) fn leaf_row(self) -> Row
        ensures { result ≡ leaf_row_of self }
    {
        match self {
            Version::One => Row::Priced,
            Version::Packed(weighing) => Row::Leaf(weighing),
        }
    }
}

/// How a first line says that leaves weigh the cost: as in version 2 unless it is that of version 3.
pub(crate) fn weighing_of_title(line: &[u8]) -> Weighing
    ensures { result ≡ title_weighing_of line.now }
{
    if Version::Packed(Weighing::Number).title() == line {
        Weighing::Number
    } else {
        Weighing::WholeOrNone
    }
}
