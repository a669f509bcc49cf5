//! Why a row isn't taken, and the refusal of its file.
ghost use Rattle.std.specs.Prelude.{◌≡◌, ◌≢◌, IfErr};
ghost use Rattle.escrow_desk.specs.declared.refusal.CaseError.TheVariants.{NoMemory as CaseNoMemory};
ghost use Rattle.row_fields.specs.RowForm.{Answers, answer_of_row, row_answer_of};
ghost use Rattle.row_fields.specs.declared.fault.RowFault.TheVariants as fault;

use escrow_desk::{CaseError, FileKind, NoMemory, Refusal, RefusalKind};
use std::alloc::AllocFailed;

/// Why a row isn't joined to what was read before it.
#[derive(Clone, Copy, Debug, PartialEq, Eq)]
pub enum RowFault {
    /// The row is refused.
    Refused(RefusalKind),
    /// Memory ran out.
    NoMemory,
}

impl From<RefusalKind> for RowFault {
    ghost from_gives = { λ kind answer. answer ≡ fault.Refused kind };

    fn from(kind: RefusalKind) -> RowFault {
        RowFault::Refused(kind)
    }
}

impl From<NoMemory> for RowFault {
    ghost from_gives = { λ _ answer. answer ≡ fault.NoMemory };

    fn from(_no_memory: NoMemory) -> RowFault {
        RowFault::NoMemory
    }
}

impl<T: Drop> From<AllocFailed<T>> for RowFault {
    ghost from_gives = { λ _ answer. answer ≡ fault.NoMemory };

    /// What could not be stored is let go.
    fn from(_failed: AllocFailed<T>) -> RowFault {
        RowFault::NoMemory
    }
}

/// What a row answers, by its number from 1, as an answer of its file; 0 stands for the file as a whole. It takes no memory.
pub fn row_answer<T>(
    file: FileKind,
    number: u32,
    answer: Result<T, RowFault>,
) -> Result<T, CaseError>
    ensures { result ≡ row_answer_of file number answer }
{
    match answer {
        Ok(value) => Ok(value),
        Err(RowFault::Refused(kind)) => Err(CaseError::Refused(Refusal {
            file,
            row: number,
            kind,
        })),
        Err(RowFault::NoMemory) => Err(CaseError::NoMemory),
    }
}

/// The same of a row that takes no memory.
pub fn at_row<T>(
    file: FileKind,
    number: u32,
    answer: Result<T, RefusalKind>,
) -> Result<T, CaseError>
    ensures answer { Answers result (answer_of_row file number answer) }
    ensures memory { IfErr result (λ error. error ≢ CaseNoMemory) }
{
    row_answer(file, number, answer.map_err(RowFault::Refused))
}
