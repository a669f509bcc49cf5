//! What is asked of a certificate.

use crate::files::FileNames;
use escrow_units::Rate;

/// What is asked of a certificate. Each says why it isn't accepted, and that there is no rival, in the same words.
#[derive(Clone, Copy)]
pub enum Inquiry {
    /// `check`, or `check-held` where holdings are given: the summary of its portfolio, for the case beside them.
    Check,
    /// `savings`: what its portfolio saves, and what idle yield costs.
    Savings,
    /// `roll`: its rolls, and what it yields without them and with them.
    Roll,
    /// `check-cap`: the summary of its portfolio, for the case at this cap on the SLGS rates.
    AtCap(Rate),
}

/// What is asked, of the files of these names.
#[derive(Clone, Copy)]
pub struct Asking<'a> {
    /// What is asked.
    pub inquiry: Inquiry,
    /// The files of which it is asked.
    pub names: FileNames<'a>,
}
