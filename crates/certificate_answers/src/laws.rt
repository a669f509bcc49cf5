//! What is known beforehand of the case that files give.
ghost use Rattle.certificate_answers.specs.CaseOf.{BooksKeepLimits, CasesAreWorkedOut};
ghost use Rattle.certificate_answers.specs.SaidIssue.{IssuesAreSaid};
ghost use Rattle.certificate_answers.specs.SaidPrices.{NoteFilesAreSaid};
ghost use Rattle.certificate_answers.specs.SaidRates.{RateFilesAreSaid};

/// The readers of input files give just what the rows say. Files within their limits give a case, by the limit on the yield that is
/// worked out, exactly where it is worked out of their rows; and the book of each case that they give keeps every limit.
pub fn case_laws()
    ensures issues { IssuesAreSaid }
    ensures rates { RateFilesAreSaid }
    ensures notes { NoteFilesAreSaid }
    ensures worked_out { CasesAreWorkedOut }
    ensures limits { BooksKeepLimits }
{}
