//! The given leaf.
ghost use Rattle.std.specs.Prelude.{All, [], length, ◌≡◌, ◌≤◌};
ghost use Rattle.std.specs.List.{AllZip};
ghost use Rattle.node_ranges.specs.Ranges.{HasRoomFor, IsOrdered, IsUpTo, most_sums};
ghost use Rattle.proof_tree.specs.Tree.{IsLeaf};
ghost use Rattle.dual_tune.specs.Room.{room-prop, sums-prop};

use escrow_units::YieldUnits;
use node_ranges::Ranges;
use offer_book::Book;
use proof_tree::Leaf;

/// The leaf of a node over the node's ranges, of a book, at the yield of its limit. Each interval is in order and one of its line or sum, and
/// the leaf has a price for each need date and no weights of sums.
#[derive(Drop)]
pub(crate) struct Given<'g> {
    /// The book.
    pub book: &'g Book,
    /// The yield at which the limit discounts.
    pub yield_units: YieldUnits,
    /// The ranges of the node.
    pub ranges: &'g Ranges,
    /// The leaf.
    pub leaf: &'g Leaf,
    ghost ordered: { All (λ interval. interval.low ≤ interval.high) ranges.now.lines },
    ghost room: { AllZip HasRoomFor book.now.lines ranges.now.lines } by { room-prop book.now.lines ranges.now.lines },
    ghost sums: { AllZip IsUpTo (most_sums book.now) ranges.now.sums } by { sums-prop (most_sums book.now) ranges.now.sums },
    ghost sums_ordered: { All IsOrdered ranges.now.sums },
    ghost well_formed: { IsLeaf (length book.now.needs) leaf.now },
    ghost unweighted: { leaf.now.weights ≡ [] },
}
