//! What a portfolio costs.

ghost use Rattle.std.specs.Prelude.{◌≡◌, ◌^◌, ◌<◌, ◌≤◌, length, ◌*◌, ℤ};
ghost use Rattle.std.specs.List.{All, sum_by, zip};
ghost use Rattle.offer_book.specs.declared.payment_days.PaymentDays.{PaymentDays};
ghost use Rattle.offer_book.specs.Book.{IsLine};
ghost use Rattle.offer_book.specs.Portfolio.{IsPermitted, IsPermittedUnits, line_cost, cost as cost_of, security_cost as security_cost_of};

use crate::plan::Plan;
use escrow_units::Cents;
use offer_book::{Book, Line};

/// What a permitted portfolio costs, opening cash included, in cents.
pub fn cost(book: &Book, plan: &Plan) -> Cents
    requires { IsPermitted book.now plan.now }
    ensures { result.0 ≡ cost_of book.now plan.now }
{
    Cents(lines_cost(book.lines(), plan.units()))
}

/// What the securities of a permitted portfolio cost, without opening cash, in cents: at most 1,620 billion dollars.
pub fn security_cost(book: &Book, plan: &Plan) -> Cents
    requires { IsPermitted book.now plan.now }
    ensures value { result.0 ≡ security_cost_of book.now plan.now }
    ensures bound { result.0 ≤ 162 * 10 ^ 12 }
{
    Cents(lines_cost(&book.lines()[1..], &plan.units()[1..]))
}

// What units of lines cost, one number of units a line.
fn lines_cost(lines: &[Line], plan: &[u64]) -> u64
    requires lines { (days : PaymentDays) × All (λ line. IsLine days line) lines.now }
    requires permitted { All (λ p. IsPermittedUnits p.0 p.1) (zip lines.now plan.now) }
    requires room { sum_by (λ p. line_cost p.0 p.1) (zip lines.now plan.now) < 2 ^ 64 }
    ensures { result ≡ sum_by (λ p. line_cost p.0 p.1) (zip lines.now plan.now) }
{
    let mut total = 0;
    for (line, units) in lines.iter().zip(plan) {
        total += line.cost(*units).0;
    }
    total
}
