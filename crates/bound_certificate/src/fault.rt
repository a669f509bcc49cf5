//! Why bytes are no text of a certificate.
ghost use Rattle.std.specs.Prelude.{◌≡◌};
ghost use Rattle.bound_certificate.specs.Faults.{rest_fault as rest_fault_of};
ghost use Rattle.bound_certificate.specs.Grammar.{earlier as earlier_of, fault_place};
ghost use Rattle.bound_certificate.specs.declared.fault.CertError.TheVariants as error;

use escrow_desk::NoMemory;
use std::alloc::{AllocError, AllocFailed};

/// Why a line isn't one of a certificate. Where several stand for a line, the first of `Truncated`, `Trailing`, `Header`, `Count`,
/// `Number` and `Order` is answered; of a tree that closes too late, `Count` comes before `Header`.
#[derive(Clone, Copy, Debug, PartialEq, Eq)]
pub enum FaultKind {
    /// The first word isn't one that may stand here.
    Header,
    /// A word isn't a number of its range.
    Number,
    /// A line, a place or a need date of a sum isn't above the one before, or a price is above the one before.
    Order,
    /// The line has another number of words, or the tree closes too early or too late.
    Count,
    /// The bytes end before the line's line feed.
    Truncated,
    /// Bytes follow the last line.
    Trailing,
}

impl FaultKind {
    // Its place in the order in which the faults of a line are answered.
    fn place(self) -> u8
        ensures { result ≡ fault_place self }
    {
        match self {
            FaultKind::Header => 0,
            FaultKind::Count => 1,
            FaultKind::Number => 2,
            FaultKind::Order | FaultKind::Truncated | FaultKind::Trailing => 3,
        }
    }

    /// The one of two faults of a line that is answered.
    pub(crate) fn earlier(self, other: FaultKind) -> FaultKind
        ensures { result ≡ earlier_of self other }
    {
        if self.place() <= other.place() {
            self
        } else {
            other
        }
    }
}

/// The first line that isn't one of a certificate.
#[derive(Clone, Copy, Debug, PartialEq, Eq)]
pub struct CertFault {
    /// The line, from 1.
    pub line: u32,
    /// Why.
    pub kind: FaultKind,
}

/// Why a certificate wasn't read.
#[derive(Clone, Copy, Debug, PartialEq, Eq)]
pub enum CertError {
    /// The bytes are no text of a certificate.
    Fault(CertFault),
    /// Memory ran out.
    NoMemory,
}

impl From<CertFault> for CertError {
    ghost from_gives = { λ fault answer. answer ≡ error.Fault fault };

    fn from(fault: CertFault) -> CertError {
        CertError::Fault(fault)
    }
}

impl From<NoMemory> for CertError {
    ghost from_gives = { λ _ answer. answer ≡ error.NoMemory };

    fn from(_no_memory: NoMemory) -> CertError {
        CertError::NoMemory
    }
}

impl From<AllocError> for CertError {
    ghost from_gives = { λ _ answer. answer ≡ error.NoMemory };

    fn from(_error: AllocError) -> CertError {
        CertError::NoMemory
    }
}

impl<T: Drop> From<AllocFailed<T>> for CertError {
    ghost from_gives = { λ _ answer. answer ≡ error.NoMemory };

    /// What could not be stored is let go.
    fn from(_failed: AllocFailed<T>) -> CertError {
        CertError::NoMemory
    }
}

/// Why the bytes behind the last line feed don't end a text, where the last line came or didn't.
pub(crate) fn rest_fault(over: bool, rest: &[u8]) -> Option<FaultKind>
    ensures { result ≡ rest_fault_of over rest.now }
{
    if !over {
        return Some(FaultKind::Truncated);
    }
    if rest.is_empty() {
        return None;
    }
    Some(FaultKind::Trailing)
}
