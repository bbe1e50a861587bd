ghost use Rattle.annealer.specs.Laws.{AlwaysPicks};

/// While a label is free, a pure complex of dimension at least 0 always has a pick: a facet can be divided (Pachner).
pub fn always_picks()
    ensures { AlwaysPicks }
{}
