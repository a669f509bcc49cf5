//! What a rate file says.
ghost use Rattle.std.specs.Prelude.{◌≡◌};

use escrow_units::{AskedRate, Day, Rate, Terms};
use std::marker::Model;

/// Maturities that share a greatest rate.
#[derive(Clone, Copy, Debug, PartialEq, Eq)]
pub struct RateRange {
    /// The first day.
    pub from: Day,
    /// The last day, which is included.
    pub to: Day,
    /// The greatest rate, in thousandths of a percentage point: whole hundredths, at most 30 percent.
    pub most: Rate,
}

/// A security on offer.
#[derive(Clone, Copy, Debug, PartialEq, Eq)]
pub struct Offer {
    /// The row of the file in which it stands, from 1.
    pub row: u32,
    /// The day on which it pays its principal.
    pub maturity: Day,
    /// The rate that is asked for: whole hundredths of a percentage point.
    pub rate: AskedRate,
    /// The day of its first payment of interest, where one is asked for.
    pub first: Option<Day>,
    /// The greatest purchase, in dollars: from the minimum of the file to 1,000,000,000.
    pub cap: u64,
}

/// Ranges of maturities, in the order of their rows. Contracts see the list of them.
#[derive(Debug, Drop)]
pub struct RateRanges {
    ranges: Vec<RateRange>,
}

impl Model for RateRanges {
    ghost use Rattle.std.specs.Prelude.{List};
    ghost use Rattle.rate_table.specs.declared.table.RateRange.{RateRange};

    ghost Value = { List RateRange };

    ghost view = { λ r. r.ranges.items };
}

impl RateRanges {
    /// These ranges.
    pub fn new(ranges: Vec<RateRange>) -> RateRanges
        ensures { result ≡ ranges.items }
    {
        RateRanges { ranges }
    }

    /// The ranges as a slice.
    pub fn as_slice(&self) -> &[RateRange]
        ensures { result.now ≡ self.now }
    {
        self.ranges.as_slice()
    }

    /// The ranges as they were given.
    pub fn into_vec(self) -> Vec<RateRange>
        ensures { result.items ≡ self }
    {
        self.ranges
    }
}

/// Securities on offer, in the order of their rows. Contracts see the list of them.
#[derive(Debug, Drop)]
pub struct Offers {
    offers: Vec<Offer>,
}

impl Model for Offers {
    ghost use Rattle.std.specs.Prelude.{List};
    ghost use Rattle.rate_table.specs.declared.table.Offer.{Offer};

    ghost Value = { List Offer };

    ghost view = { λ o. o.offers.items };
}

impl Offers {
    /// These offers.
    pub fn new(offers: Vec<Offer>) -> Offers
        ensures { result ≡ offers.items }
    {
        Offers { offers }
    }

    /// The offers as a slice.
    pub fn as_slice(&self) -> &[Offer]
        ensures { result.now ≡ self.now }
    {
        self.offers.as_slice()
    }

    /// The offers as they were given.
    pub fn into_vec(self) -> Vec<Offer>
        ensures { result.items ≡ self }
    {
        self.offers
    }
}

/// What a rate file says: the denominations of its securities, the greatest rates and the offers.
#[derive(Debug, Drop)]
pub struct RateFile {
    /// The least purchase and the step; None where the file has no rows.
    pub terms: Option<Terms>,
    /// The greatest rates, by ranges of maturities that have no day in common.
    pub ranges: RateRanges,
    /// The securities on offer.
    pub offers: Offers,
}
