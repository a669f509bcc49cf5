//! What the halving tree is, as laws over its definition.
ghost use Rattle.halving_tree.specs.Halving.{PartsAreFew, PartsAreWithin};

/// How large the halving tree is: each upper part has at most the nodes of the whole, and fewer than twice the number of permitted
/// portfolios.
pub fn halving_laws()
    ensures within { PartsAreWithin }
    ensures few { PartsAreFew }
{}
