//! A checker of certificates that come in pieces.
ghost use Rattle.std.specs.Prelude.{◌≡◌, ◌++◌, ◌≤◌, ◌⊎◌, IfErr, IfOk, List, [], false, length, true, ℕ};
ghost use Rattle.case_file.specs.Case.{HasTerms, case_view};
ghost use Rattle.offer_book.specs.Book.{IsBook};
ghost use Rattle.escrow_check.specs.Acceptance.{IsVerdict};
ghost use Rattle.escrow_check.specs.Checking.{Heard};
ghost use Rattle.escrow_check.specs.Heard.{EndsGap};

use crate::hearing::Hearing;
use crate::verdict::Verdict;
use case_file::Case;
use escrow_desk::NoMemory;
use std::alloc::Global;
use std::marker::Model;

/// A checker of a certificate of any version for a case, in pieces. Contracts see the case, what was heard of the certificate,
/// and whether memory ran out.
#[derive(Drop)]
pub struct Checker<'a> {
    case: &'a Case,
    hearing: Hearing<'a>,
    failed: bool,
}

impl<'a> Model for Checker<'a> {
    ghost use Rattle.case_file.specs.Case.{case_view};
    ghost use Rattle.escrow_check.specs.Checking.{Checking, IsChecking};

    ghost Value = { Checking };

    ghost view = { λ c. record { case = case_view c.case.now; hearing = c.hearing; failed = c.failed } };

    ghost invariant = { λ c. IsChecking (record { case = case_view c.case.now; hearing = c.hearing; failed = c.failed }) };
}

impl<'a> Checker<'a> {
    /// A checker of a certificate for a case, which has heard nothing yet. All memory is taken here, but that of the line of
    /// the gap, and of rooms for vectors: for the reader, the portfolio, the ranges, the discount factors and the open splits.
    ///
    /// # Errors
    ///
    /// Where memory ran out.
    pub fn make(alloc: Global, case: &'a Case) -> Result<Checker<'a>, NoMemory>
        requires { HasTerms (case_view case.now) }
        ensures case { IfOk result (λ checker. checker.case ≡ case_view case.now) }
        ensures book { IfOk result (λ checker. IsBook checker.case.book) }
        ensures going { IfOk result (λ checker. checker.failed ≡ false) }
        ensures heard { IfOk result (λ checker. Heard checker []) }
    {
        let hearing = Hearing::make(alloc, case)?;
        Ok(Checker {
            case,
            hearing,
            failed: false,
        })
    }

    /// Hears one more piece, of at most 65,536 bytes, however the text is cut.
    ///
    /// # Errors
    ///
    /// Where memory ran out for the line of the gap; and in every call after such a one. Where it runs out for rooms, leaves are
    /// checked without.
    pub fn feed(&mut self, alloc: Global, piece: &[u8]) -> Result<(), NoMemory>
        requires { length piece.now ≤ 65_536 }
        ensures case { self.new.case ≡ self.old.case }
        ensures heard { (bytes : List ℕ) → Heard self.old bytes → Heard self.new (bytes ++ piece.now) }
        ensures ok { IfOk result (λ _. self.new.failed ≡ false) }
        ensures err { IfErr result (λ _. self.new.failed ≡ true) }
        ensures cause { IfErr result (λ _. (self.old.failed ≡ true) ⊎ EndsGap self.old.hearing self.new.hearing) }
    {
        if self.failed {
            return Err(NoMemory);
        }
        let fed = self.hearing.feed(alloc, self.case, piece);
        self.failed = fed.is_err();
        fed
    }

    /// The verdict on all that was heard. It takes no memory.
    ///
    /// # Errors
    ///
    /// Where [`Checker::feed`] answered that memory ran out.
    pub fn finish(self) -> Result<Verdict, NoMemory>
        ensures verdict { IfOk result (λ told. (bytes : List ℕ) → Heard self.entry bytes → IsVerdict self.entry.case bytes told) }
        ensures ok { IfOk result (λ _. self.entry.failed ≡ false) }
        ensures err { IfErr result (λ _. self.entry.failed ≡ true) }
    {
        let Checker {
            case,
            hearing,
            failed,
        } = self;
        if failed {
            return Err(NoMemory);
        }
        Ok(hearing.finish(case))
    }
}
