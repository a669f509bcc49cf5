//! What the tree of a search keeps and shows, as laws.
ghost use Rattle.search_tree.specs.Laws.{BoundsRise, CheaperIsKept, ClosedIsKept, ClosedTreesShow, FullTreesShow, NodesHaveWays, OpenGoesOn, PoppedIsKept, SplitIsKept, StuckIsKept, ZerosAreSome};

/// Of the leaves of nodes: no bound falls on a side of a split, and that of the leaf of prices of 0 is never below 0.
pub fn leaf_laws()
    ensures rise { BoundsRise }
    ensures zeros { ZerosAreSome }
{}

/// While a tree grows: what holds at each node's ranges holds there again once a node is taken, closed, split or put back, and once
/// the best plan is cheaper; and a node that isn't closed is one that the halving tree splits.
pub fn growth_laws()
    ensures ways { NodesHaveWays }
    ensures cheaper { CheaperIsKept }
    ensures popped { PoppedIsKept }
    ensures closed { ClosedIsKept }
    ensures split { SplitIsKept }
    ensures stuck { StuckIsKept }
    ensures goes_on { OpenGoesOn }
{}

/// What a tree shows in the end: one without a waiting node bears out every claim that its leaves and points do; one whose budget is
/// spent shows a bound, the greatest that it holds, that each of its splits was needed, and that the halving tree has more nodes.
pub fn tree_laws()
    ensures closed { ClosedTreesShow }
    ensures full { FullTreesShow }
{}
