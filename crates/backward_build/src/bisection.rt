//! Bisection over numbers of units.
ghost use Rattle.std.specs.Prelude.{◌≡◌, ◌⊎◌, ℕ, ◌-◌, ◌≤◌, true, false};

/// Of a range of numbers, by bisection: its last or one that passes a test, and its first or one next after a number that
/// fails it. So it is the least that passes, where the last one does and none that fails stands after one that passes.
///
/// The numbers are from `low` to `high`, and the test may be asked of each. It takes no memory.
pub fn least_passing<F: Fn(u64) -> bool>(low: u64, high: u64, passes: F) -> u64
    requires ordered { low ≤ high }
    requires asked { (units : ℕ) → low ≤ units → units ≤ high → F.pre passes units }
    ensures from { low ≤ result }
    ensures to { result ≤ high }
    ensures passes { (result ≡ high) ⊎ F.post passes result true }
    ensures least { (result ≡ low) ⊎ F.post passes (result - 1) false }
{
    let mut from = low;
    let mut to = high;
    while from < to {
        let middle = from + (to - from) / 2;
        if passes(middle) {
            to = middle;
        } else {
            from = middle + 1;
        }
    }
    to
}
