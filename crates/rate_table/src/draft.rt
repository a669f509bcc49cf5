//! What has been read of a rate file so far.
ghost use Rattle.std.specs.Prelude.{◌≡◌, Some, Ok, IsSomeAnd};
ghost use Rattle.std.specs.Result.{result_and};
ghost use Rattle.escrow_units.specs.Denomination.{AreTerms};
ghost use Rattle.row_fields.specs.RowForm.{RowAnswers};
ghost use Rattle.rate_table.specs.RateForm.{bare_file, with_offer, with_range, with_row};
ghost use Rattle.rate_table.specs.Table.{IsOffer, IsRange, IsRateFile};

use crate::index::RateIndex;
use crate::row::{RateRow, rate_row};
use crate::table::{Offer, Offers, RateFile, RateRange};
use escrow_desk::RefusalKind;
use escrow_units::Terms;
use row_fields::{Row, RowFault};
use std::alloc::Global;
use std::marker::Model;

/// What has been read of a rate file so far. Contracts see it as a file.
#[derive(Drop)]
pub(crate) struct Draft {
    terms: Terms,
    ranges: RateIndex,
    offers: Vec<Offer>,
}

impl Model for Draft {
    ghost use Rattle.std.specs.Prelude.{Some};
    ghost use Rattle.rate_table.specs.declared.table.RateFile.{RateFile};

    ghost Value = { RateFile };

    ghost use Rattle.rate_table.specs.Table.{IsRateFile};

    ghost view = { λ draft. record { terms = Some draft.terms; ranges = draft.ranges; offers = draft.offers.items } };

    ghost invariant = { λ draft. IsRateFile (record { terms = Some draft.terms; ranges = draft.ranges; offers = draft.offers.items }) };
}

impl Draft {
    /// A file of these terms, without ranges and offers.
    pub fn new(alloc: Global, terms: Terms) -> Draft
        requires { AreTerms terms }
        ensures { result ≡ bare_file (Some terms) }
    {
        Draft {
            terms,
            ranges: RateIndex::new(alloc),
            offers: Vec::new(alloc),
        }
    }

    // One more range, where it has no day in common with an earlier one.
    fn add_range(&mut self, range: RateRange) -> Result<(), RowFault>
        requires { IsRange range }
        ensures added { RowAnswers (result_and result (Ok self.new)) (with_range self.old range) }
        ensures terms { self.new.terms ≡ self.old.terms }
    {
        if self.ranges.overlaps(&range) {
            return Err(RowFault::Refused(RefusalKind::Overlap));
        }
        self.ranges.add(&range)?;
        Ok(())
    }

    // One more offer.
    fn add_offer(&mut self, offer: Offer) -> Result<(), RowFault>
        requires { IsSomeAnd self.old.terms (λ terms. IsOffer terms offer) }
        ensures added { RowAnswers (result_and result (Ok self.new)) (with_offer self.old offer) }
        ensures terms { self.new.terms ≡ self.old.terms }
    {
        // Its fields are copied one by one, since the proof of the push reads their types.
        self.offers.push(Offer { ..offer })?;
        Ok(())
    }

    /// One more row, by its number from 1, under the file's denominations.
    pub fn add_row(&mut self, row: &Row, number: u32, terms: Terms) -> Result<(), RowFault>
        requires { self.old.terms ≡ Some terms }
        ensures added { RowAnswers (result_and result (Ok self.new)) (with_row terms self.old number row.now) }
        ensures terms { self.new.terms ≡ self.old.terms }
    {
        match rate_row(row, number, terms) {
            Ok(RateRow::Terms(_)) => Err(RowFault::Refused(RefusalKind::Repeated)),
            Ok(RateRow::Range(range)) => self.add_range(range),
            Ok(RateRow::Offer(offer)) => self.add_offer(offer),
            Err(kind) => Err(RowFault::Refused(kind)),
        }
    }

    /// What has been read, as the file.
    pub fn into_file(self) -> RateFile
        ensures file { result ≡ self }
        ensures kept { IsRateFile result }
    {
        RateFile {
            terms: Some(self.terms),
            ranges: self.ranges.into_ranges(),
            offers: Offers::new(self.offers),
        }
    }
}
