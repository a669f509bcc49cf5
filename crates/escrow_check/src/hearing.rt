//! A certificate that is heard piece by piece.
ghost use Rattle.std.specs.Prelude.{◌≡◌, ◌++◌, ◌≤◌, IfErr, IfOk, List, OnOk, [], length, ℕ};
ghost use Rattle.case_file.specs.Case.{HasTerms, case_view};
ghost use Rattle.offer_book.specs.Book.{IsBook};
ghost use Rattle.escrow_check.specs.Acceptance.{IsVerdict};
ghost use Rattle.escrow_check.specs.Heard.{EndsGap, HasHeard};

use crate::trial::Trial;
use crate::verdict::{Reason, Verdict};
use bound_certificate::CertReader;
use case_file::Case;
use escrow_desk::NoMemory;
use std::alloc::Global;

/// A certificate that is heard: its text is read, and what its lines say is tried.
#[derive(Drop)]
pub(crate) struct Hearing<'a> {
    /// What reads the text.
    pub reader: CertReader,
    /// What is known of the certificate so far.
    pub trial: Trial<'a>,
}

impl<'a> Hearing<'a> {
    /// Nothing was heard yet. All memory is taken here but that of the gap's line, and of rooms for vectors.
    pub fn make(alloc: Global, case: &'a Case) -> Result<Hearing<'a>, NoMemory>
        requires { HasTerms (case_view case.now) }
        ensures heard { IfOk result (λ hearing. HasHeard (case_view case.now) hearing []) }
        ensures book { IsBook case.now.book }
    {
        let dates = case.book.need_count();
        Ok(Hearing {
            reader: CertReader::make(alloc, dates)?,
            trial: Trial::make(alloc, case)?,
        })
    }

    /// One more piece.
    ///
    /// # Errors
    ///
    /// Where memory ran out for the gap's line.
    pub fn feed(&mut self, alloc: Global, case: &Case, piece: &[u8]) -> Result<(), NoMemory>
        requires heard { (bytes : List ℕ) × HasHeard (case_view case.now) self.old bytes }
        requires piece { length piece.now ≤ 65_536 }
        requires book { IsBook case.now.book }
        ensures err { IfErr result (λ _. EndsGap self.old self.new) }
        ensures heard { OnOk result ((bytes : List ℕ) → HasHeard (case_view case.now) self.old bytes → HasHeard (case_view case.now) self.new (bytes ++ piece.now)) }
    {
        let mut rest = piece;
        while !rest.is_empty() {
            let Ok(fed) = self.reader.feed(rest) else {
                return Ok(());
            };
            self.trial.take(
                alloc,
                case,
                fed.item,
                self.reader.leaf(),
                self.reader.vector(),
            )?;
            rest = &rest[fed.used as usize..];
        }
        Ok(())
    }

    /// The verdict on all that was heard. It takes no memory.
    pub fn finish(self, case: &Case) -> Verdict
        requires heard { (bytes : List ℕ) × HasHeard (case_view case.now) self bytes }
        requires book { IsBook case.now.book }
        ensures { (bytes : List ℕ) → HasHeard (case_view case.now) self.entry bytes → IsVerdict (case_view case.now) bytes result }
    {
        match self.reader.finish() {
            Ok(()) => self.trial.verdict(case),
            Err(fault) => Verdict::No(Reason::Grammar(fault)),
        }
    }
}
