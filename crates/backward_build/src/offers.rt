//! The own offer of a need date.
ghost use Rattle.std.specs.Prelude.{◌≡◌, ◌<◌, length, IfSome, true};
ghost use Rattle.escrow_units.specs.SlgsTerms.{IsSettlement};
ghost use Rattle.offer_book.specs.Book.{IsLine, IsSecurityLine};
ghost use Rattle.backward_build.specs.OwnOffer.{ends_on as ends_on_day, line_at, need_at, own_offer_of};

use escrow_units::Day;
use offer_book::{Book, Line, LineKind, PaymentDays};

// Whether the last payment of what a line offers falls on a day: that of a maturity on a closed day falls on the next open day.
// Opening cash never ends.
fn ends_on(line: &Line, days: &PaymentDays, day: Day) -> bool
    requires settlement { IsSettlement days.now.settle }
    requires line { IsLine days.now line.now }
    ensures { result ≡ ends_on_day days.now day line.now.kind }
{
    match line.kind {
        LineKind::Cash => false,
        LineKind::Security(slgs) => days.closed.open_day(slgs.maturity) == day,
        LineKind::Market(note) => days.closed.open_day(note.maturity) == day,
    }
}

/// The own offer of the need date at a place, counted from 0: the first line from line 1 whose last payment falls on it, on the
/// open day of its maturity; None exactly where no line's does. It takes no memory.
pub fn own_offer(book: &Book, place: u16) -> Option<u16>
    requires { place < length book.now.needs }
    ensures value { result ≡ own_offer_of book.now (need_at book.now.needs place).day }
    ensures due { IfSome result (λ number. ends_on_day book.now.days (need_at book.now.needs place).day (line_at book.now.lines number).kind ≡ true) }
    ensures within { IfSome result (λ number. number < length book.now.lines) }
    ensures security { IfSome result (λ number. IsSecurityLine book.now.days (line_at book.now.lines number)) }
{
    let day = book.need(place).day;
    for number in 0..book.line_count() {
        if ends_on(book.line(number), book.payment_days(), day) {
            return Some(number);
        }
    }
    None
}
