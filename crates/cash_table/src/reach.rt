//! Whether what is on offer meets the needs at all.

ghost use Rattle.std.specs.Prelude.{◌≡◌, ◌≤◌, ◌↔◌, map, take, length, IsNone, IfSome};
ghost use Rattle.offer_book.specs.Portfolio.{IsFirstShort};
ghost use Rattle.cash_table.specs.First.{first_short_of};
ghost use Rattle.cash_table.specs.Reach.{AreAllShort, IsInReach, plan_of_most};

use crate::cash::first_short_of_units;
use escrow_units::{Day, MOST_LINES};
use offer_book::{Book, Line};

// The most lines of a book: opening cash, and those on offer.
const MOST_BOOK_LINES: usize = MOST_LINES + 1;

/// The first day on which even the most of every line doesn't meet the needs; None exactly where some permitted
/// portfolio meets them.
///
/// By the day that is named every permitted portfolio pays less than is needed by then. It takes no memory.
pub fn out_of_reach(book: &Book) -> Option<Day>
    ensures value { result ≡ first_short_of book.now (plan_of_most book.now) }
    ensures none { IsNone result ↔ IsInReach book.now }
    ensures first { IfSome result (λ day. IsFirstShort book.now (plan_of_most book.now) day) }
    ensures all_short { IfSome result (λ day. AreAllShort book.now day) }
{
    let mut units = [0; MOST_BOOK_LINES];
    let lines = book.lines();
    put_most(&mut units, lines);
    first_short_of_units(book, &units[..lines.len()])
}

// Puts the most units of each line.
fn put_most(units: &mut [u64], lines: &[Line])
    requires { length lines.now ≤ length units.old }
    ensures units { take (length lines.now) units.new ≡ map (λ line. line.most) lines.now }
    ensures length { length units.new ≡ length units.old }
{
    for (place, line) in lines.iter().enumerate() {
        units[place] = line.most;
    }
}
