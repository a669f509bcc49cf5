//! Amounts up to each need date.
//!
//! Amounts are kept in a list with a place for each need date.
ghost use Rattle.std.specs.Prelude.{◌≡◌, ℕ, ◌+◌, ◌^◌, ◌<◌, ◌≤◌, ◌↔◌, IsTrue, length, slice_index, take};
ghost use Rattle.std.specs.List.{sum};

/// Puts in the place of each of the first amounts, one for each need date, the sum of the amounts up to it. There is a place for
/// each date, and all amounts together are less than 2^64.
pub fn run_up(amounts: &mut [u64], dates: usize)
    requires places { dates ≤ length amounts.old }
    requires small { sum amounts.old < 2 ^ 64 }
    ensures { (k : ℕ) → k < dates → slice_index amounts.new k ≡ sum (take (k + 1) amounts.old) }
{
    let mut total = 0;
    for place in 0..dates {
        total += amounts[place];
        amounts[place] = total;
    }
}

/// Whether each of the first amounts, one for each need date, is at least what is due there. There is a place for each date in
/// both lists.
pub fn covers(paid: &[u64], due: &[u64], dates: usize) -> bool
    requires paid { dates ≤ length paid.now }
    requires due { dates ≤ length due.now }
    ensures { IsTrue result ↔ ((k : ℕ) → k < dates → slice_index due.now k ≤ slice_index paid.now k) }
{
    for place in 0..dates {
        if paid[place] < due[place] {
            return false;
        }
    }
    true
}
