//! Where a tree stands as its nodes come.
ghost use Rattle.std.specs.Prelude.{◌≡◌, ◌+◌, ◌<◌, ◌≤◌, [], ◌∷◌, IfOk, IsTrue, false, true, vec_capacity, vec_len};
ghost use Rattle.offer_book.specs.Book.{IsBook};
ghost use Rattle.node_ranges.specs.Ranges.{is_proper, narrowed, root_of};
ghost use Rattle.escrow_check.specs.Walk.{IsWalk, after_subtree, waiting_of};

use bound_certificate::MOST_NODES;
use escrow_desk::NoMemory;
use node_ranges::Ranges;
use offer_book::Book;
use proof_tree::{Interval, Part};
use std::alloc::Global;

/// A split whose two sides aren't both done.
#[derive(Clone, Copy, Debug, PartialEq, Eq)]
pub(crate) struct OpenSplit {
    /// The line or the sum.
    pub part: Part,
    /// The most units of the left side.
    pub at: u64,
    /// The interval of this line or sum before the split.
    pub before: Interval,
    /// Whether the right side is under way.
    pub right: bool,
}

/// Where a tree stands: the ranges of the node that comes next, and the splits around it.
#[derive(Drop)]
pub(crate) struct Walk {
    /// The ranges of the node that comes next.
    pub ranges: Ranges,
    /// The splits around it, the root's first.
    pub splits: Vec<OpenSplit>,
    /// Whether the tree is done.
    pub over: bool,
}

impl Walk {
    /// At the root of a tree over a book, with room for as many splits as a certificate has nodes.
    pub fn make(alloc: Global, book: &Book) -> Result<Walk, NoMemory>
        requires { IsBook book.now }
        ensures walk { IfOk result (λ walk. IsWalk book.now walk) }
        ensures root { IfOk result (λ walk. waiting_of book.now walk ≡ root_of book.now ∷ []) }
        ensures none { IfOk result (λ walk. vec_len walk.splits ≡ 0) }
        ensures room { IfOk result (λ walk. MOST_NODES ≤ vec_capacity walk.splits) }
    {
        Ok(Walk {
            ranges: Ranges::root(alloc, book)?,
            splits: Vec::with_capacity(alloc, MOST_NODES as usize)?,
            over: false,
        })
    }

    /// Goes to the left side of a proper split.
    pub fn split(&mut self, book: &Book, part: Part, at: u64)
        requires walk { IsWalk book.now self.old }
        requires going { self.old.over ≡ false }
        requires proper { IsTrue (is_proper self.old.ranges part at) }
        requires room { vec_len self.old.splits < vec_capacity self.old.splits }
        ensures walk { IsWalk book.now self.new }
        ensures waiting { waiting_of book.now self.new ≡ narrowed book.now self.old.ranges part at false
            ∷ narrowed book.now self.old.ranges part at true ∷ after_subtree book.now self.old }
        ensures depth { vec_len self.new.splits ≡ vec_len self.old.splits + 1 }
        ensures room { vec_capacity self.old.splits ≤ vec_capacity self.new.splits }
    {
        let before = self.ranges.interval(part);
        let _ = self.splits.push(OpenSplit {
            part,
            at,
            before,
            right: false,
        });
        self.ranges.narrow(book, part, at, false);
    }

    /// A leaf or a point came: goes to the right side of the last split whose left side it ends, or past the tree's end.
    pub fn close(&mut self, book: &Book)
        requires walk { IsWalk book.now self.old }
        requires going { self.old.over ≡ false }
        ensures walk { IsWalk book.now self.new }
        ensures waiting { waiting_of book.now self.new ≡ after_subtree book.now self.old }
        ensures depth { vec_len self.new.splits ≤ vec_len self.old.splits }
        ensures room { vec_capacity self.old.splits ≤ vec_capacity self.new.splits }
    {
        while let Some(split) = self.splits.pop() {
            self.ranges.restore(split.part, split.before);
            if !split.right {
                self.ranges.narrow(book, split.part, split.at, true);
                let _ = self.splits.push(OpenSplit {
                    right: true,
                    ..split
                });
                return;
            }
        }
        self.over = true;
    }
}
