//! Why a line isn't tried.

use std::alloc::{AllocError, AllocFailed};
use thiserror::Error;

/// Why a line of a sheet isn't tried.
#[derive(Clone, Copy, Debug, PartialEq, Eq, Error)]
pub enum Unread {
    /// It doesn't say what is wanted, behind ` = `.
    #[error("nothing is wanted")]
    NothingWanted,
    /// There is no call of its name with so many arguments.
    #[error("no call has this name and so many arguments")]
    NoCall,
    /// An argument isn't what has to stand there.
    #[error("an argument can't be read")]
    Argument,
    /// A part that it needs doesn't stand before it.
    #[error("a part that it needs doesn't stand before it")]
    NoPart,
    /// A part before it isn't what it has to be.
    #[error("a part before it can't be read")]
    Part,
    /// Memory ran out.
    #[error("memory ran out")]
    NoMemory,
}

impl From<AllocError> for Unread {
    fn from(_error: AllocError) -> Unread {
        Unread::NoMemory
    }
}

impl<T: Drop> From<AllocFailed<T>> for Unread {
    /// What could not be stored is let go.
    fn from(_failed: AllocFailed<T>) -> Unread {
        Unread::NoMemory
    }
}
