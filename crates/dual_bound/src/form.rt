//! Affine forms of a number of units.
ghost use Rattle.std.specs.Prelude.{◌≡◌, ◌*◌, ◌*ℤ◌, ◌^◌, ◌≤◌, pos, unsigned_abs};
ghost use Rattle.dual_bound.specs.LeafBound.{credited as credited_form, form_at, least_of_form, least_side as least_side_of};

use offer_book::{Line, PayCoefficients};
use proof_tree::Interval;

/// An affine form of a number of units: `slope * units - slack`.
#[derive(Clone, Copy, Debug, PartialEq, Eq)]
pub struct Form {
    /// What each unit adds.
    pub slope: i128,
    /// What is taken away, however many units there are.
    pub slack: u128,
}

// A weight times a coefficient: both fit 64 bits, so that it is one product of the machine.
fn weighted(weight: i128, coefficient: u128) -> i128
    requires weight { unsigned_abs weight ≤ 2 * 10 ^ 12 }
    requires coefficient { coefficient ≤ 10 ^ 18 }
    ensures value { result ≡ weight *ℤ pos coefficient }
    ensures small { unsigned_abs result ≤ 2 * 10 ^ 30 }
{
    i128::from(weight as i64) * i128::from(coefficient as i64)
}

// Of the two coefficients of an amount, the weight times the one with which it is least.
fn least_side(weight: i128, low: u128, high: u128) -> i128
    requires weight { unsigned_abs weight ≤ 2 * 10 ^ 12 }
    requires low { low ≤ 10 ^ 18 }
    requires high { high ≤ 10 ^ 18 }
    ensures value { result ≡ least_side_of weight low high }
    ensures small { unsigned_abs result ≤ 2 * 10 ^ 30 }
{
    if weight >= 0 {
        weighted(weight, low)
    } else {
        weighted(weight, high)
    }
}

impl Form {
    ghost use Rattle.std.specs.Prelude.{◌+◌, ◌+ℤ◌, ◌≢◌, ℕ, neg_ℤ};
    ghost use Rattle.offer_book.specs.Book.{BookContents};
    ghost use Rattle.dual_bound.specs.LeafBound.{form_of, least_within as least_within_of};
    ghost use Rattle.proof_tree.specs.declared.tree.Leaf.{Leaf};

    /// The least that a weight times an amount can be, where the amount lies from `low * units - slack` to
    /// `high * units + slack`. The weight is at most 2 * 10^12, and the coefficients are at most 10^18 and the slack at most
    /// 10^9.
    pub(crate) fn of_amount(weight: i128, low: u128, high: u128, slack: u128) -> Form
        requires weight { unsigned_abs weight ≤ 2 * 10 ^ 12 }
        requires low { low ≤ 10 ^ 18 }
        requires high { high ≤ 10 ^ 18 }
        requires slack { slack ≤ 10 ^ 9 }
        ensures value { result ≡ record { slope = least_side_of weight low high; slack = unsigned_abs weight * slack } }
        ensures slope { unsigned_abs result.slope ≤ 2 * 10 ^ 30 }
        ensures slack { result.slack ≤ 2 * 10 ^ 21 }
    {
        Form {
            slope: least_side(weight, low, high),
            slack: u128::from(weight.unsigned_abs() as u64) * u128::from(slack as u64),
        }
    }

    /// The least that a payment can add, where each cent of it is worth so much: what it is worth is taken away. The worth is at
    /// most 2 * 10^12, and the coefficients are at most 10^18 and the slack at most 10^9.
    pub(crate) fn of_payment(worth: i128, pay: &PayCoefficients) -> Form
        requires worth { unsigned_abs worth ≤ 2 * 10 ^ 12 }
        requires low { pay.now.low ≤ 10 ^ 18 }
        requires high { pay.now.high ≤ 10 ^ 18 }
        requires slack { pay.now.slack ≤ 10 ^ 9 }
        ensures value { result ≡ record { slope = least_side_of (neg_ℤ worth) pay.now.low pay.now.high; slack = unsigned_abs (neg_ℤ worth) * pay.now.slack } }
        ensures slope { unsigned_abs result.slope ≤ 2 * 10 ^ 30 }
        ensures slack { result.slack ≤ 2 * 10 ^ 21 }
    {
        Form::of_amount(-worth, pay.low, pay.high, pay.slack)
    }

    /// The sum of two forms, whose slopes are at most 10^33, and whose slacks are at most 10^25.
    pub(crate) fn plus(self, other: Form) -> Form
        requires slope { unsigned_abs self.slope ≤ 10 ^ 33 }
        requires slack { self.slack ≤ 10 ^ 25 }
        requires other_slope { unsigned_abs other.slope ≤ 10 ^ 33 }
        requires other_slack { other.slack ≤ 10 ^ 25 }
        ensures { result ≡ record { slope = self.slope +ℤ other.slope; slack = self.slack + other.slack } }
    {
        Form {
            slope: self.slope + other.slope,
            slack: self.slack + other.slack,
        }
    }

    /// The form, where each unit is credited a load: at most 64 * 10^29. The slope is at most 10^33.
    pub(crate) fn credited(self, unit_load: i128) -> Form
        requires slope { unsigned_abs self.slope ≤ 10 ^ 33 }
        requires load { unsigned_abs unit_load ≤ 64 * 10 ^ 29 }
        ensures { result ≡ credited_form self unit_load }
    {
        Form {
            slope: self.slope - unit_load,
            slack: self.slack,
        }
    }

    /// The form at a number of units. What the units add is at most 7 * 10^34, and the slack at most 10^24.
    pub fn at(&self, units: u64) -> i128
        requires slope { unsigned_abs self.now.slope * units ≤ 7 * 10 ^ 34 }
        requires slack { self.now.slack ≤ 10 ^ 24 }
        ensures { result ≡ form_at self.now units }
    {
        self.slope * i128::from(units) - self.slack as i128
    }

    /// The least that a line can add within an interval of more than one number, from the line's form: at its ends, and where
    /// it holds 0 at 0 and at the least purchase. It is two products.
    pub fn least_within(&self, line: &Line, interval: Interval) -> i128
        requires apart { interval.low ≢ interval.high }
        requires low { unsigned_abs self.now.slope * interval.low ≤ 7 * 10 ^ 34 }
        requires high { unsigned_abs self.now.slope * interval.high ≤ 7 * 10 ^ 34 }
        requires least { unsigned_abs self.now.slope * line.now.least ≤ 7 * 10 ^ 34 }
        requires slack { self.now.slack ≤ 10 ^ 24 }
        ensures value { result ≡ least_of_form self.now line.now interval }
        ensures of_line { (n : ℕ) (book : BookContents) (leaf : Leaf) → self.now ≡ form_of n book leaf line.now → result ≡ least_within_of n book leaf line.now interval }
    {
        let at_high = self.at(interval.high);
        if interval.low == 0 {
            0i128.min(self.at(line.least).min(at_high))
        } else {
            self.at(interval.low).min(at_high)
        }
    }
}
