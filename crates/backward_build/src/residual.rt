//! The fewest units of a line that cover what is left of a need.
ghost use Rattle.std.specs.Prelude.{◌≡◌, ◌^◌, ◌<◌, ◌≤◌, ℕ, true, false, IfSome};
ghost use Rattle.escrow_units.specs.Flows.{total};
ghost use Rattle.escrow_units.specs.SlgsTerms.{IsSettlement};
ghost use Rattle.offer_book.specs.Book.{IsSecurityLine};
ghost use Rattle.offer_book.specs.Portfolio.{IsPermittedUnits};
ghost use Rattle.backward_build.specs.Residual.{covers as covers_residual, fewest_of};
ghost use Rattle.backward_build.specs.Span.{paid_in as paid_in_span};

use crate::bisection::least_passing;
use crate::span::Span;
use escrow_units::{Cents, Flow};
use offer_book::{Line, PaymentDays};

/// What is left of a need: so many cents have yet to be paid in its span.
#[derive(Clone, Copy, Debug, PartialEq, Eq)]
pub(crate) struct Residual {
    /// The span of the need date.
    pub span: Span,
    /// What is left, in cents.
    pub cents: Cents,
}

// What is paid in a span, in cents.
fn paid_in(span: &Span, flows: &[Flow]) -> u64
    requires { total flows.now < 2 ^ 64 }
    ensures { result ≡ paid_in_span span.now flows.now }
{
    let mut paid = 0;
    for flow in flows {
        if span.holds(flow.day) {
            paid += flow.cents.0;
        }
    }
    paid
}

// Whether the payments of so many units of a line cover a residual.
fn covers(line: &Line, days: &PaymentDays, residual: &Residual, units: u64) -> bool
    requires settlement { IsSettlement days.now.settle }
    requires line { IsSecurityLine days.now line.now }
    requires units { units ≤ line.now.most }
    ensures { result ≡ covers_residual days.now residual.now line.now units }
{
    residual.cents.0 <= paid_in(&residual.span, line.payments(days, units).as_slice())
}

// The fewest units from the least purchase on that cover a residual, where the most do, by bisection: what is paid never falls
// as units rise.
fn fewest_by_halves(line: &Line, days: &PaymentDays, residual: &Residual) -> u64
    requires settlement { IsSettlement days.now.settle }
    requires line { IsSecurityLine days.now line.now }
    requires most { covers_residual days.now residual.now line.now line.now.most ≡ true }
    ensures least { line.now.least ≤ result }
    ensures most { result ≤ line.now.most }
    ensures enough { covers_residual days.now residual.now line.now result ≡ true }
    ensures fewest { (units : ℕ) → line.now.least ≤ units → units < result → covers_residual days.now residual.now line.now units ≡ false }
{
    least_passing(
        line.least,
        line.most,
        |units| covers(line, days, residual, units),
    )
}

/// The fewest permitted units of a line that cover a residual: 0 where nothing is left; None exactly where even the most
/// units of the line don't cover it. It takes no memory.
pub(crate) fn fewest(line: &Line, days: &PaymentDays, residual: &Residual) -> Option<u64>
    requires settlement { IsSettlement days.now.settle }
    requires line { IsSecurityLine days.now line.now }
    ensures value { result ≡ fewest_of days.now residual.now line.now }
    ensures permitted { IfSome result (λ units. IsPermittedUnits line.now units) }
    ensures enough { IfSome result (λ units. covers_residual days.now residual.now line.now units ≡ true) }
{
    if residual.cents.0 == 0 {
        Some(0)
    } else if covers(line, days, residual, line.most) {
        Some(fewest_by_halves(line, days, residual))
    } else {
        None
    }
}
