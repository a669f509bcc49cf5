//! Sheets of worked figures: a line a call, with its arguments and what is wanted of it.
//!
//! A sheet begins with a paragraph that says what it is about, which ends at the first blank line. Then come its calls,
//! or its parts and then the calls about them. `docs/DEVELOPING.md` says how a line is written.
#![tactic(auto)]

mod arguments;
mod sheet;
mod shown;
mod telling;
mod unread;
mod words;

pub use arguments::{base_day, cents, day, entry, flows_of, number_of, rate, settlement, up_to};
pub use sheet::{Calls, Part, Sheet, have_heads, lines_of};
pub use shown::{shown_day, shown_flows, shown_yes};
pub use telling::{Figures, told};
pub use unread::Unread;
pub use words::{bytes_of, words_of};
