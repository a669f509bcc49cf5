//! The need dates whose prices differ at two leaves.
ghost use Rattle.std.specs.Prelude.{◌≡◌, ◌+◌, ◌<◌, ◌≤◌, ℕ, [], ◌∷◌, ◌++◌, IfOk, length, slice_index, true, vec_capacity};
ghost use Rattle.dual_bound.specs.Changes.{AreChangedDates, AreChangedOf};

use escrow_desk::NoMemory;
use std::alloc::Global;

/// Need dates, counted from 0, in room for all of them.
#[derive(Drop)]
pub(crate) struct ChangedDates {
    /// The need dates.
    pub dates: Vec<usize>,
}

// Whether eight prices from a need date on are the same. All are looked at, several at once.
#[inline(always)]
fn eight_agree(old: &[u64], new: &[u64], from: usize) -> bool
    requires old { from + 8 ≤ length old.now }
    requires new { from + 8 ≤ length new.now }
    ensures { result ≡ true → (date : ℕ) → from ≤ date → date < from + 8 → slice_index old.now date ≡ slice_index new.now date }
{
    let mut differences = 0;
    for ahead in 0..8 {
        differences |= old[from + ahead] ^ new[from + ahead];
    }
    differences == 0
}

impl ChangedDates {
    /// No need dates, in room for so many.
    ///
    /// # Errors
    ///
    /// Where memory ran out.
    pub(crate) fn make(alloc: Global, count: u16) -> Result<ChangedDates, NoMemory>
        ensures { IfOk result (λ changed. count ≤ vec_capacity changed.dates) }
    {
        Ok(ChangedDates {
            dates: Vec::with_capacity(alloc, usize::from(count))?,
        })
    }

    // Puts a need date behind the others.
    fn add(&mut self, date: usize)
        requires { length self.old.dates.items < vec_capacity self.old.dates }
        ensures dates { self.new.dates.items ≡ self.old.dates.items ++ date ∷ [] }
        ensures room { vec_capacity self.old.dates ≤ vec_capacity self.new.dates }
    {
        let _pushed = self.dates.push(date);
    }

    // Takes down the need dates from one on and before another whose prices differ, so long as all are at most an eighth: whether they
    // are.
    fn take_between(&mut self, old: &[u64], new: &[u64], from: usize, to: usize) -> bool
        requires same { length old.now ≡ length new.now }
        requires order { from ≤ to }
        requires last { to ≤ length old.now }
        requires room { length old.now ≤ vec_capacity self.old.dates }
        requires few { length self.old.dates.items ≤ from }
        requires changes { AreChangedOf from old.now new.now self.old.dates.items }
        ensures changes { result ≡ true → AreChangedOf to old.now new.now self.new.dates.items }
        ensures few { result ≡ true → length self.new.dates.items ≤ to }
        ensures room { vec_capacity self.old.dates ≤ vec_capacity self.new.dates }
    {
        for date in from..to {
            if old[date] != new[date] {
                if self.dates.len() == old.len() / 8 {
                    return false;
                }
                self.add(date);
            }
        }
        true
    }

    // The same of eight need dates, which are gone through only where they aren't all the same.
    fn take_eight(&mut self, old: &[u64], new: &[u64], from: usize) -> bool
        requires same { length old.now ≡ length new.now }
        requires last { from + 8 ≤ length old.now }
        requires room { length old.now ≤ vec_capacity self.old.dates }
        requires few { length self.old.dates.items ≤ from }
        requires changes { AreChangedOf from old.now new.now self.old.dates.items }
        ensures changes { result ≡ true → AreChangedOf (from + 8) old.now new.now self.new.dates.items }
        ensures few { result ≡ true → length self.new.dates.items ≤ from + 8 }
        ensures room { vec_capacity self.old.dates ≤ vec_capacity self.new.dates }
    {
        if eight_agree(old, new, from) {
            return true;
        }
        self.take_between(old, new, from, from + 8)
    }

    /// Takes down the need dates whose prices differ, in place of those that were, so long as they are at most an eighth: whether
    /// they are.
    pub(crate) fn take(&mut self, old: &[u64], new: &[u64]) -> bool
        requires same { length old.now ≡ length new.now }
        requires room { length old.now ≤ vec_capacity self.old.dates }
        ensures changes { result ≡ true → AreChangedDates old.now new.now self.new.dates.items }
        ensures room { vec_capacity self.old.dates ≤ vec_capacity self.new.dates }
    {
        self.dates.clear();
        let eights = old.len() / 8;
        for eight in 0..eights {
            if !self.take_eight(old, new, 8 * eight) {
                return false;
            }
        }
        self.take_between(old, new, 8 * eights, old.len())
    }
}
