//! Why a case, a file or a step wasn't carried out, and how want of memory becomes each.

ghost use Rattle.std.specs.Prelude.{◌≡◌};
ghost use Rattle.escrow_desk.specs.declared.refusal.CaseError.TheVariants.{NoMemory as CaseNoMemory};
ghost use Rattle.escrow_desk.specs.declared.refusal.ReadRefusal.TheVariants.{NoMemory as ReadNoMemory};

use std::alloc::{AllocError, AllocFailed};

/// Memory ran out.
#[derive(Clone, Copy, Debug, PartialEq, Eq)]
pub struct NoMemory;

/// Which of a case's files.
#[derive(Clone, Copy, Debug, PartialEq, Eq)]
pub enum FileKind {
    /// The issue: settlement, needs and the restricted yield.
    Issue,
    /// The rates of the securities on offer, and the offers.
    Rates,
    /// The prices of marketable notes.
    Prices,
    /// What the escrow holds already.
    Held,
    /// The certificate.
    Cert,
}

/// Why a file is refused.
#[derive(Clone, Copy, Debug, PartialEq, Eq)]
pub enum RefusalKind {
    /// The file has more bytes than its limit.
    TooLong,
    /// A row that has to stand is missing.
    Missing,
    /// The first field is none of the file's words.
    UnknownRow,
    /// The number of fields isn't the row's.
    WrongFields,
    /// A field isn't spelled as a number of its kind.
    BadNumber,
    /// A field isn't a date.
    BadDate,
    /// A number or a day is outside its range.
    OutOfRange,
    /// A price is outside its range.
    PriceRange,
    /// A row that may stand once stood before.
    Repeated,
    /// Two dates stand in the wrong order.
    DateOrder,
    /// Two ranges of days have a day in common.
    Overlap,
    /// A note matures by settlement, or on a day of the same index (30/360) as settlement.
    Matured,
    /// The needs together are over their limit.
    NeedsTooLarge,
    /// There are more need dates, or more closed days, than the limit.
    TooManyDates,
    /// No range of rates holds the offer's maturity.
    NoRate,
    /// The offer's rate is above the table's.
    RateAboveTable,
    /// The offer's term is too short.
    TooShort,
    /// The offer's term is too long.
    TooLongTerm,
    /// The offer's first interest date isn't permitted.
    FirstDate,
    /// There are more lines than the limit.
    TooManyLines,
    /// What is offered matures on a day that opens more than 40 years after settlement.
    ClosedPastEnd,
    /// The holdings together are over their limit.
    HeldTooLarge,
}

/// Where a file is refused, and why.
#[derive(Clone, Copy, Debug, PartialEq, Eq)]
pub struct Refusal {
    /// The file.
    pub file: FileKind,
    /// The row, from 1; 0 for the whole file.
    pub row: u32,
    /// Why.
    pub kind: RefusalKind,
}

/// Why a case wasn't read.
#[derive(Clone, Copy, Debug, PartialEq, Eq)]
pub enum CaseError {
    /// A file is refused.
    Refused(Refusal),
    /// Memory ran out.
    NoMemory,
}

/// Why a file wasn't read whole.
#[derive(Clone, Copy, Debug, PartialEq, Eq)]
pub enum ReadRefusal {
    /// A read failed.
    Fault,
    /// There is no such file.
    NoFile,
    /// The file has more bytes than the limit.
    TooLong,
    /// Memory ran out.
    NoMemory,
}

impl<T: Drop> From<AllocFailed<T>> for NoMemory {
    /// What could not be stored is let go.
    fn from(_failed: AllocFailed<T>) -> NoMemory {
        NoMemory
    }
}

impl From<AllocError> for NoMemory {
    fn from(_error: AllocError) -> NoMemory {
        NoMemory
    }
}

impl From<AllocError> for ReadRefusal {
    ghost from_gives = { λ _ refusal. refusal ≡ ReadNoMemory };

    fn from(_error: AllocError) -> ReadRefusal {
        ReadRefusal::NoMemory
    }
}

impl From<NoMemory> for CaseError {
    ghost from_gives = { λ _ error. error ≡ CaseNoMemory };

    fn from(_memory: NoMemory) -> CaseError {
        CaseError::NoMemory
    }
}

impl<T: Drop> From<AllocFailed<T>> for CaseError {
    ghost from_gives = { λ _ error. error ≡ CaseNoMemory };

    /// What could not be stored is let go.
    fn from(_failed: AllocFailed<T>) -> CaseError {
        CaseError::NoMemory
    }
}
