//! The words of a line and the numbers that they are, read quickly: many bytes at once for line feeds, many digits at once for numbers.
#![tactic(auto)]

mod cut;
mod digits;
mod front;
mod range;

pub use cut::{Cut, cut_at, cut_line};
pub use digits::{GREATEST_NUMBER, digit_count};
pub use front::{Taken, front_number_in, quick_front_number};
pub use range::Range;
