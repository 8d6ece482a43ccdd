// The laws of neighbours.
ghost use Rattle.core_model.specs.Neighbours.{NeighboursPayAlike, NeighboursShareWeights};

/// Cases that differ in amounts, limits, caps and fixed cash alone pay the same by unit of a line, and share their
/// weights.
pub fn neighbour_laws()
    ensures units { NeighboursPayAlike }
    ensures weights { NeighboursShareWeights }
{}
