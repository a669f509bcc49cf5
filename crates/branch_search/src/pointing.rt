//! Where the relaxation points: to a line whose amount there lies between two permitted numbers of units.
ghost use Rattle.std.specs.Prelude.{◌≡◌, ◌<◌, length};

use crate::parts::Search;
use escrow_units::Day;
use halving_tree::{Split, SplitRule};
use node_pool::NodeId;
use offer_book::{Line, LineKind};
use plan_finder::next_to;
use proof_tree::Part;

// A cent, in units of an amount.
const CENT: i128 = 1 << 10;

// How far an amount may be from a permitted number of units and count as that: a quarter of a cent, which the linear program neglects
// too.
const TOLERANCE: i128 = 1 << 8;

/// A line whose amount in the relaxation lies between two permitted numbers of units.
#[derive(Clone, Copy)]
struct Fraction {
    /// The split between the two.
    split: Split,
    /// Where the amount is below the least purchase, how far the nearer of the two is, in units of 2^-10 of a cent.
    under_least: Option<i128>,
    /// When the line pays last; opening cash comes before all others.
    matures: Option<Day>,
}

// When a line pays last.
fn maturity(line: &Line) -> Option<Day> {
    match &line.kind {
        LineKind::Cash => None,
        LineKind::Security(slgs) => Some(slgs.maturity),
        LineKind::Market(note) => Some(note.maturity),
    }
}

// A line, counted from 0, whose amount, in units of 2^-10 of a cent, is neither of the permitted numbers of units next to it.
fn fraction_of(number: u16, line: &Line, amount: i64) -> Option<Fraction> {
    let near = next_to(line, amount);
    let unit = CENT * i128::from(line.step);
    let bought = i128::from(amount);
    let over = bought.saturating_sub(unit.saturating_mul(i128::from(near.below)));
    let under = unit
        .saturating_mul(i128::from(near.above))
        .saturating_sub(bought);
    let miss = over.min(under);
    if miss <= TOLERANCE {
        return None;
    }
    let is_under_least = near.below == 0 && 1 < line.least;
    Some(Fraction {
        split: Split {
            line: number,
            at: near.below,
        },
        under_least: if is_under_least { Some(miss) } else { None },
        matures: maturity(line),
    })
}

// Whether a line comes before another: those below their least purchase come first, the one that misses most before others; else the
// one that pays last.
fn comes_before(own: &Fraction, other: &Fraction) -> bool {
    match (own.under_least, other.under_least) {
        (Some(own_miss), Some(other_miss)) => other_miss < own_miss,
        (Some(_), None) => true,
        (None, Some(_)) => false,
        (None, None) => other.matures <= own.matures,
    }
}

// The one of two that comes first, where there may be none before.
fn first_of(first: Option<Fraction>, own: Fraction) -> Option<Fraction> {
    match first {
        Some(other) if !comes_before(&own, &other) => Some(other),
        _ => Some(own),
    }
}

// The split of a line, where there is one.
fn split_of(first: Option<Fraction>) -> Option<Split> {
    match first {
        Some(own) => Some(own.split),
        None => None,
    }
}

impl<'a> Search<'a> {
    // A line whose amount lies between two permitted numbers of units, where the split between them is proper.
    fn fraction_at(&self, line: u16) -> Option<Fraction>
        requires { line < length self.now.case.book.lines }
    {
        if !self.tuner.is_basic(line) {
            return None;
        }
        let own = fraction_of(line, self.book.line(line), self.tuner.amount(line))?;
        if self.ranges.proper(Part::Line(line), own.split.at) {
            Some(own)
        } else {
            None
        }
    }

    // The split of the line that comes first, of those between two permitted numbers of units.
    fn first_split(&self) -> Option<Split> {
        let mut first = None;
        for line in 0..self.book.line_count() {
            if let Some(own) = self.fraction_at(line) {
                first = first_of(first, own);
            }
        }
        split_of(first)
    }

    // The split to which the relaxation over the ranges at hand points, which are those of a node.
    fn relaxed(&mut self, node: NodeId) -> Option<Split>
        ensures { self.new ≡ self.old }
    {
        let basis = self.bases.get(node.0 as usize)?;
        self.tuner.stand(&self.ranges, basis);
        self.first_split()
    }

    /// The split to which a rule points before the halving tree's, of the ranges at hand, which are those of a node; None where there
    /// is none.
    pub(crate) fn pointed(&mut self, rule: SplitRule, node: NodeId) -> Option<Split>
        ensures { self.new ≡ self.old }
    {
        match rule {
            SplitRule::Halving => None,
            SplitRule::Relaxation => self.relaxed(node),
        }
    }
}
