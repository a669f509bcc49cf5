//! Loads: what the weights of sums credit a unit of each line.
ghost use Rattle.std.specs.Prelude.{◌≡◌, ◌-◌, ◌*◌, ◌^◌, ◌*ℤ◌, ◌+ℤ◌, ◌<◌, ◌≤◌, ℕ, IfOk, All, [], if◌then◌else◌, length, nat_lt, pos, slice_index_or, unsigned_abs, vec_capacity};
ghost use Rattle.std.specs.List.{AllZip};
ghost use Rattle.offer_book.specs.Book.{IsBook};
ghost use Rattle.offer_book.specs.Sums.{coarse_step as coarse_step_of};
ghost use Rattle.offer_book.specs.declared.coefficients.TheConstants.{COEFFICIENT_SCALE};
ghost use Rattle.offer_book.specs.declared.line.Line.{Line};
ghost use Rattle.node_ranges.specs.Ranges.{AreOf, IsOrdered, IsUpTo, most_sums};
ghost use Rattle.proof_tree.specs.Tree.{AreSumWeights, IsSumWeight};
ghost use Rattle.proof_tree.specs.declared.prices.TheConstants.{PRICE_SCALE};
ghost use Rattle.dual_bound.specs.LeafBound.{load as load_of, signed_weight as signed_weight_of, unit_load as unit_load_of, weighed_end as weighed_end_of, weighed_ends as weighed_ends_of};
ghost use Rattle.dual_bound.specs.Loads.{AreLoads, AreLoadsByDepth};

use escrow_desk::NoMemory;
use node_ranges::Ranges;
use offer_book::{Book, COEFFICIENT_SCALE, coarse_step, line_depths};
use proof_tree::{Interval, MOST_WEIGHTS, Side, SumWeight};
use std::alloc::Global;

// What a weight of a sum counts: more where the sum is at least its low end, and less where it is at most its high one.
fn signed_weight(own: SumWeight) -> i128
    requires { own.weight ≤ PRICE_SCALE }
    ensures value { result ≡ signed_weight_of own }
    ensures small { unsigned_abs result ≤ PRICE_SCALE }
{
    match own.side {
        Side::AtLeast => i128::from(own.weight),
        Side::AtMost => -i128::from(own.weight),
    }
}

/// The load of a depth: what the weights of the sums that count it come to, in units of 1 / `PRICE_SCALE`.
pub(crate) fn load(weights: &[SumWeight], dates: u16, depth: u16) -> i128
    requires { AreSumWeights dates weights.now }
    ensures value { result ≡ load_of weights.now depth }
    ensures small { unsigned_abs result ≤ 64 * 10 ^ 12 }
{
    let mut load = 0i128;
    for own in weights {
        if own.sum < depth {
            load += signed_weight(*own);
        }
    }
    load
}

/// A load of a unit, scaled: by the step of the coarse lines, in cents.
pub(crate) fn scaled_load(coarse: u64, load: i128) -> i128
    requires coarse { coarse ≤ 10 ^ 8 }
    requires load { unsigned_abs load ≤ 64 * 10 ^ 12 }
    ensures value { result ≡ pos (COEFFICIENT_SCALE * coarse) *ℤ load }
    ensures small { unsigned_abs result ≤ 64 * 10 ^ 29 }
{
    i128::from(COEFFICIENT_SCALE) * i128::from(coarse) * load
}

// An end of the interval of a sum, by a weight, scaled by the step of the coarse lines.
fn scaled_end(coarse: u64, weight: i128, end: u64) -> i128
    requires weight { unsigned_abs weight ≤ PRICE_SCALE }
    requires end { coarse * end ≤ 512 * 10 ^ 11 }
    ensures value { result ≡ pos (COEFFICIENT_SCALE * coarse) *ℤ (weight *ℤ pos end) }
    ensures small { unsigned_abs result ≤ 512 * 10 ^ 32 }
{
    i128::from(COEFFICIENT_SCALE) * i128::from(coarse) * (weight * i128::from(end))
}

// What a weight of a sum adds to a bound, scaled.
fn weighed_end(book: &Book, coarse: u64, sums: &[Interval], own: SumWeight) -> i128
    requires limits { IsBook book.now }
    requires coarse { coarse ≡ coarse_step_of book.now }
    requires sums { AllZip IsUpTo (most_sums book.now) sums.now }
    requires ordered { All IsOrdered sums.now }
    requires own { IsSumWeight (length book.now.needs) own }
    ensures value { result ≡ weighed_end_of book.now sums.now own }
    ensures small { unsigned_abs result ≤ 512 * 10 ^ 32 }
{
    let interval = sums[usize::from(own.sum)];
    let end = match own.side {
        Side::AtLeast => interval.low,
        Side::AtMost => interval.high,
    };
    scaled_end(coarse, signed_weight(own), end)
}

/// What the weights of sums add to a bound by the ends of their intervals, scaled.
pub(crate) fn weighed_ends(
    book: &Book,
    coarse: u64,
    sums: &[Interval],
    weights: &[SumWeight],
) -> i128
    requires limits { IsBook book.now }
    requires coarse { coarse ≡ coarse_step_of book.now }
    requires sums { AllZip IsUpTo (most_sums book.now) sums.now }
    requires ordered { All IsOrdered sums.now }
    requires weights { AreSumWeights (length book.now.needs) weights.now }
    ensures value { result ≡ weighed_ends_of book.now sums.now weights.now }
    ensures small { unsigned_abs result ≤ 64 * (512 * 10 ^ 32) }
{
    let mut ends = 0i128;
    for own in weights {
        ends += weighed_end(book, coarse, sums, *own);
    }
    ends
}

// What a unit is credited at each depth from 0, by weights of rising sums.
fn load_depths(coarse: u64, weights: &[SumWeight], by_depth: &mut [i128])
    requires coarse { coarse ≤ 10 ^ 8 }
    requires dates { 1 ≤ length by_depth.old }
    requires weights { AreSumWeights (length by_depth.old - 1) weights.now }
    ensures same { length by_depth.new ≡ length by_depth.old }
    ensures loads { AreLoadsByDepth coarse weights.now by_depth.new }
{
    let mut next = 0;
    let mut load = 0i128;
    for depth in 0..by_depth.len() {
        if next < weights.len() && usize::from(weights[next].sum) < depth {
            load += scaled_load(coarse, signed_weight(weights[next]));
            next += 1;
        }
        by_depth[depth] = load;
    }
}

// Puts weights in the place of others, in room for them all.
fn put_weights(kept: &mut Vec<SumWeight>, weights: &[SumWeight])
    requires room { length weights.now ≤ vec_capacity kept.old }
    ensures weights { kept.new.items ≡ weights.now }
    ensures room { vec_capacity kept.old ≤ vec_capacity kept.new }
{
    kept.clear();
    for own in weights {
        let _pushed = kept.push(*own);
    }
}

/// The weights of sums of a leaf, and what they credit a unit of each line.
#[derive(Drop)]
pub(crate) struct Loads {
    /// The step of the coarse lines, in cents.
    pub coarse: u64,
    /// How many sums count each line.
    pub depths: Vec<u16>,
    /// The weights.
    pub weights: Vec<SumWeight>,
    /// What a unit is credited, scaled, by its depth from 0.
    pub by_depth: Vec<i128>,
}

impl Loads {
    /// The loads of a book without weights, with room for as many as a leaf can have.
    ///
    /// # Errors
    ///
    /// Where memory ran out.
    pub(crate) fn make(alloc: Global, book: &Book) -> Result<Loads, NoMemory>
        ensures loads { IfOk result (AreLoads book.now) }
        ensures none { IfOk result (λ loads. loads.weights.items ≡ []) }
    {
        Ok(Loads {
            coarse: coarse_step(book),
            depths: line_depths(alloc, book)?,
            weights: Vec::with_capacity(alloc, MOST_WEIGHTS)?,
            by_depth: vec![in alloc; 0i128; usize::from(book.need_count()) + 1]?,
        })
    }

    /// Takes over the weights of another leaf. It takes no memory.
    pub(crate) fn take(&mut self, book: &Book, weights: &[SumWeight])
        requires limits { IsBook book.now }
        requires loads { AreLoads book.now self.old }
        requires weights { AreSumWeights (length book.now.needs) weights.now }
        ensures loads { AreLoads book.now self.new }
        ensures weights { self.new.weights.items ≡ weights.now }
    {
        if weights.is_empty() && self.weights.is_empty() {
            return;
        }
        put_weights(&mut self.weights, weights);
        load_depths(self.coarse, weights, self.by_depth.as_mut_slice());
    }

    /// What a unit of a line, counted from 0, is credited, scaled: at most 64 * 10^29.
    #[inline(always)]
    pub(crate) fn unit(&self, book: &Book, line: u16) -> i128
        requires limits { IsBook book.now }
        requires loads { AreLoads book.now self.now }
        requires line { line < length book.now.lines }
        ensures value { (d : Line) → result ≡ unit_load_of book.now self.now.weights.items (slice_index_or book.now.lines line d) }
        ensures small { unsigned_abs result ≤ 64 * 10 ^ 29 }
    {
        if self.weights.is_empty() {
            return 0;
        }
        self.by_depth[usize::from(self.depths[usize::from(line)])]
    }

    /// What the weights of sums add to a bound by the ends of their intervals, scaled.
    pub(crate) fn ends(&self, book: &Book, ranges: &Ranges) -> i128
        requires limits { IsBook book.now }
        requires loads { AreLoads book.now self.now }
        requires ranges { AreOf book.now ranges.now }
        ensures value { result ≡ weighed_ends_of book.now ranges.now.sums self.now.weights.items }
        ensures small { unsigned_abs result ≤ 64 * (512 * 10 ^ 32) }
    {
        weighed_ends(book, self.coarse, ranges.sums(), self.weights.as_slice())
    }
}
