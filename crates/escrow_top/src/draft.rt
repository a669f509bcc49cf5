//! What `structure` and `structure-held` are about to put out.

use certificate_answers::Answer;

/// A certificate that is written, and what is said after it.
#[derive(Drop)]
pub(crate) struct Texts {
    /// The certificate.
    pub cert: Vec<u8>,
    /// What is said: of a portfolio that was found, or that there is no rival.
    pub said: Vec<u8>,
}

/// What is said of a portfolio that was found.
#[derive(Clone, Copy)]
pub(crate) enum Telling {
    /// Its report.
    Report,
    /// Its summary.
    Summary,
}

/// What `structure` is about to put out. All its texts are built before anything is written.
#[derive(Drop)]
pub(crate) enum Draft {
    /// A portfolio was found.
    Found(Texts),
    /// There is no rival.
    NoneWithinYield(Texts),
    /// This is said, and no file is written.
    Said(Answer),
}
