//! Why a run stopped before it had an answer.

ghost use Rattle.std.specs.Prelude.{◌≡◌};
ghost use Rattle.certificate_answers.specs.declared.stop.Stop.TheVariants.{NoMemory as OutOfMemory};

use crate::status::Status;
use escrow_desk::NoMemory;
use std::alloc::AllocError;

/// Why a run stopped before it had an answer.
#[derive(Clone, Copy, Debug, PartialEq, Eq)]
pub enum Stop {
    /// A read failed.
    ReadFault,
    /// A file isn't there.
    NoFile,
    /// Memory ran out.
    NoMemory,
}

impl From<NoMemory> for Stop {
    ghost from_gives = { λ _ stop. stop ≡ OutOfMemory };

    fn from(_memory: NoMemory) -> Stop {
        Stop::NoMemory
    }
}

impl From<AllocError> for Stop {
    ghost from_gives = { λ _ stop. stop ≡ OutOfMemory };

    fn from(_error: AllocError) -> Stop {
        Stop::NoMemory
    }
}

impl Stop {
    ghost use Rattle.std.specs.Prelude.{◌≡◌};
    ghost use Rattle.certificate_answers.specs.Stopping.{status_of};

    /// The status of the run.
    pub fn status(self) -> Status
        ensures { result ≡ status_of self }
    {
        match self {
            Stop::ReadFault => Status::ReadFault,
            Stop::NoFile => Status::NoFile,
            Stop::NoMemory => Status::NoMemory,
        }
    }
}
