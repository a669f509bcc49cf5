//! The rate file of a sheet.

use escrow_desk::{FILE_LIMIT, Rows, read_rows};
use escrow_units::{AskedRate, Day, Rate, Terms, print_day, print_rate};
use figure_sheets::{Unread, day, entry, shown_day};
use rate_table::{Offer, RateFile, RateIndex, RateRange, maximum, read_rates};
use std::alloc::{AllocError, Global};
use std::marker::Model;

/// The rows of a part's lines.
pub(crate) fn rows_in(alloc: Global, lines: &str) -> Result<Rows, Unread> {
    if lines.len() as u64 > FILE_LIMIT {
        return Err(Unread::Part);
    }
    match read_rows(alloc, lines.as_bytes()) {
        Ok(rows) => Ok(rows),
        Err(_) => Err(Unread::NoMemory),
    }
}

/// What a rate file says, and its ranges by their first days.
#[derive(Drop)]
pub(crate) struct Rates {
    file: RateFile,
    index: RateIndex,
}

impl Model for Rates {
    ghost use Rattle.rate_table.specs.declared.table.RateFile.{RateFile};

    ghost Value = { RateFile };

    ghost use Rattle.rate_table.specs.Table.{IsRateFile};

    ghost view = { λ rates. rates.file };

    ghost invariant = { λ rates. IsRateFile rates.file };
}

/// Denominations, where a file has them.
pub(crate) fn terms_shown(alloc: Global, terms: Option<Terms>) -> Result<String, AllocError> {
    match terms {
        Some(terms) => format!(in alloc; "{} {}", terms.minimum, terms.step),
        None => String::from_str(alloc, "none"),
    }
}

// A greatest rate, where there is one.
fn rate_shown(alloc: Global, most: Option<Rate>) -> Result<String, AllocError> {
    match most {
        Some(most) => String::from_str(alloc, print_rate(most).as_str()),
        None => String::from_str(alloc, "none"),
    }
}

// A range: its first and its last day, and its rate.
fn range_shown(alloc: Global, range: &RateRange) -> Result<String, AllocError> {
    let (from, to, most) = (
        print_day(range.from),
        print_day(range.to),
        print_rate(range.most),
    );
    format!(in alloc; "{} {} {}", from.as_str(), to.as_str(), most.as_str())
}

// An offer: its row, its maturity, the rate that is asked, the first day that is asked, and the greatest purchase.
fn offer_shown(alloc: Global, offer: &Offer) -> Result<String, AllocError> {
    let rate = match offer.rate {
        AskedRate::Max => String::from_str(alloc, "max")?,
        AskedRate::At(rate) => rate_shown(alloc, Some(rate))?,
    };
    let (maturity, first) = (print_day(offer.maturity), shown_day(alloc, offer.first)?);
    format!(in alloc;
        "{} {} {rate} {first} {}",
        offer.row,
        maturity.as_str(),
        offer.cap
    )
}

impl Rates {
    /// The rate file of a part's lines.
    pub(crate) fn read(alloc: Global, lines: &str) -> Result<Rates, Unread> {
        let rows = rows_in(alloc, lines)?;
        let Ok(file) = read_rates(alloc, Day::default(), &rows) else {
            return Err(Unread::Part);
        };
        match RateIndex::make(alloc, &file) {
            Ok(index) => Ok(Rates { file, index }),
            Err(_) => Err(Unread::NoMemory),
        }
    }

    /// What a call on the file comes to, if it is one.
    pub(crate) fn answer(
        &self,
        alloc: Global,
        name: &str,
        arguments: &[&str],
    ) -> Result<String, Unread> {
        let text = match (name.as_bytes(), arguments) {
            (b"rate_terms", []) => terms_shown(alloc, self.file.terms),
            (b"ranges", []) => format!(in alloc; "{}", self.file.ranges.as_slice().len()),
            (b"range", [number]) => range_shown(alloc, entry(self.file.ranges.as_slice(), number)?),
            (b"offers", []) => format!(in alloc; "{}", self.file.offers.as_slice().len()),
            (b"offer", [number]) => offer_shown(alloc, entry(self.file.offers.as_slice(), number)?),
            (b"maximum", [on]) => rate_shown(alloc, maximum(&self.file, day(on)?)),
            (b"index_maximum", [on]) => rate_shown(alloc, self.index.maximum(day(on)?)),
            _ => return Err(Unread::NoCall),
        };
        Ok(text?)
    }
}
