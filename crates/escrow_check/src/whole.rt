//! Checks a certificate that is there whole.
ghost use Rattle.std.specs.Prelude.{IfOk};
ghost use Rattle.case_file.specs.Case.{HasTerms, case_view};
ghost use Rattle.escrow_check.specs.Acceptance.{IsVerdict};
ghost use Rattle.escrow_check.specs.TextMeaning.{IsMeant};

use crate::checker::Checker;
use crate::verdict::Verdict;
use case_file::Case;
use escrow_desk::NoMemory;
use std::alloc::Global;

// The most bytes of a piece.
const PIECE: usize = 65_536;

/// The verdict on the text of a certificate, of any version, for a case, and what it means: a yes with a portfolio that the
/// portfolio is right, one without that there is no rival, and a no that the reason that it gives stands, and none before it.
///
/// # Errors
///
/// Where memory ran out.
pub fn check(alloc: Global, case: &Case, cert: &[u8]) -> Result<Verdict, NoMemory>
    requires { HasTerms (case_view case.now) }
    ensures verdict { IfOk result (λ told. IsVerdict (case_view case.now) cert.now told) }
    ensures means { IfOk result (λ told. IsMeant (case_view case.now) cert.now told) }
{
    let mut checker = Checker::make(alloc, case)?;
    let mut rest = cert;
    while !rest.is_empty() {
        let size = rest.len().min(PIECE);
        checker.feed(alloc, &rest[..size])?;
        rest = &rest[size..];
    }
    checker.finish()
}
