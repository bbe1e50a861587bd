ghost use Rattle.flip_rules.specs.Candidates.{OpenCandidates};
ghost use Rattle.flip_rules.specs.Counts.{OneCounterpart, StarByCounts};
ghost use Rattle.flip_rules.specs.Undone.{IsUndone};

/// Where all tests of a flip pass, so do those of its inverse after it, and that leads back (Pachner).
pub fn undone_by_inverse()
    ensures { IsUndone }
{}

/// In a pure complex, where a face has one link vertex more than a facet has labels beside it, its link is the boundary of a simplex
/// exactly where as many facets contain it.
pub fn star_by_counts()
    ensures { StarByCounts }
{}

/// What comes in for a face, where it has two labels or more, are the link vertices of the face.
pub fn one_counterpart()
    ensures { OneCounterpart }
{}

/// The allowed flips of a class that is not 0 are the candidates of which B is no face.
pub fn open_candidates()
    ensures { OpenCandidates }
{}
