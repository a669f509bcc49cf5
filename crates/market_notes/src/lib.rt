//! Marketable Treasury notes: the price file, what a note costs and what it pays.
#![tactic(auto)]

mod draft;
mod flows;
mod note;
mod read;
mod row;

pub use flows::{accrual, note_cost, note_payments, note_schedule};
pub use note::{Note, NoteFile, Notes};
pub use read::read_notes;
