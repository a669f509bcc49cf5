//! The text of a certificate that is written.

ghost use Rattle.std.specs.Prelude.{ℕ, IfOk};
ghost use Rattle.bound_certificate.specs.Packed.{IsPackable, IsPackableCert};
ghost use Rattle.bound_certificate.specs.Versions.{IsPackedFormOf};
ghost use Rattle.branch_search.specs.Search.{IsFound};
ghost use Rattle.case_file.specs.Case.{HasTerms, case_view};
ghost use Rattle.offer_book.specs.Book.{IsBook};
ghost use Rattle.escrow_top.specs.Structure.{IsFoundText};

use bound_certificate::{Certificate, write_packed};
use branch_search::Found;
use case_file::Case;
use certificate_packing::pack;
use escrow_desk::NoMemory;
use std::alloc::Global;

/// The text of a certificate, whose leaves share their prices: of version 2, or of version 3 where that can't say it.
///
/// # Errors
///
/// `NoMemory` where memory fails.
pub(crate) fn certificate_text(alloc: Global, cert: &Certificate) -> Result<Vec<u8>, NoMemory>
    requires { IsPackableCert cert.now }
    ensures { IfOk result (λ text. (dates : ℕ) → IsPackable dates cert.now → IsPackedFormOf dates cert.now text.items) }
{
    let packed = pack(alloc, cert)?;
    write_packed(alloc, &packed)
}

/// The text of the certificate of what was found for a case.
///
/// # Errors
///
/// `NoMemory` where memory fails.
pub(crate) fn found_text(alloc: Global, case: &Case, found: Found) -> Result<Vec<u8>, NoMemory>
    requires book { IsBook case.now.book }
    requires terms { HasTerms (case_view case.now) }
    requires found { IsFound (case_view case.now) found.plan found.tree found.gap }
    ensures { IfOk result (λ text. IsFoundText (case_view case.now) found.plan found.tree found.gap text.items) }
{
    let certificate = found.into_certificate(alloc, &case.book)?;
    let text = certificate_text(alloc, &certificate)?;
    Ok(text)
}
