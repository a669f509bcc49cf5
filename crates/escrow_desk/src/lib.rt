//! The outside of the program: files by name and a place to say text, with every failure counted.
//!
//! All content goes through the trait [`Desk`]. What a file holds, and what was said, is known only of a desk that
//! tells it; that a failure has a cause is known of each desk, by its three counts.
#![tactic(auto)]

mod buffer;
mod desk;
mod files;
mod limits;
mod memory;
mod named;
mod never;
mod refusal;
mod rows;
mod tally;
mod transfer;

pub use desk::{Desk, DeskError, Failed};
pub use limits::{CERTIFICATE_LIMIT, FILE_LIMIT};
pub use memory::MemoryDesk;
pub use named::NamedBytes;
pub use never::NeverFails;
pub use refusal::{CaseError, FileKind, NoMemory, ReadRefusal, Refusal, RefusalKind};
pub use rows::{Rows, read_rows};
pub use transfer::{read_all, say_all, write_all};

#[cfg(test)]
mod tests;
