//! Laws of holdings and of cases beside them, for callers to cite.

ghost use Rattle.held_escrow.specs.HeldForm.{FilesHoldTheirRows};
ghost use Rattle.held_escrow.specs.HeldCase.{HeldCasesAreAlike, HeldCasesAreOne, HeldCasesKeepLimits};
ghost use Rattle.held_escrow.specs.Holdings.{FilesGiveHoldings};
ghost use Rattle.held_escrow.specs.Residual.{ResidualsAreOne};

/// Laws: needs in order of day have one residual beside holdings; a case has one case beside them, which keeps every limit where the
/// case does; what meets its needs, where else it is first short, and what rivals it, is what does so of the case with the holdings;
/// and the holdings of a file are what its rows say, summed by day, and keep every limit.
pub fn held_laws()
    ensures residuals { ResidualsAreOne }
    ensures one { HeldCasesAreOne }
    ensures limits { HeldCasesKeepLimits }
    ensures alike { HeldCasesAreAlike }
    ensures rows { FilesHoldTheirRows }
    ensures holdings { FilesGiveHoldings }
{}
