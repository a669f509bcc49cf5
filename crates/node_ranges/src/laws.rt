//! What the ranges of a tree keep, as laws over their definitions.
ghost use Rattle.node_ranges.specs.Ranges.{RootHoldsAll, RootIsTight, SidesAreTight, SingleHoldOne, SplitsCover, TightHold};

/// What the ranges of a tree keep: the root's hold every permitted portfolio; a proper split's two sides share out the
/// portfolios that the ranges hold, and each side holds at least one; and ranges are single exactly where they hold one.
pub fn range_laws()
    ensures root { RootHoldsAll }
    ensures root_tight { RootIsTight }
    ensures covers { SplitsCover }
    ensures tight { SidesAreTight }
    ensures held { TightHold }
    ensures single { SingleHoldOne }
{}
