//! What bounds are, as laws over their definitions.
ghost use Rattle.dual_bound.specs.Duality.{BoundsAll, BoundsRivals};

/// Weak duality: what the bound of a leaf is for. No rival within the ranges costs less, weighted and scaled, than the bound
/// at one unit below the limit; and where the limit has no multiplier, no permitted portfolio within them that meets the needs
/// does, whatever its yield.
pub fn bound_laws()
    ensures rivals { BoundsRivals }
    ensures all { BoundsAll }
{}
