ghost use Rattle.flip_table.specs.Following.{CandidatesFollow};

/// After an allowed flip the candidates of a class are those before it outside the join of A and B, and those of the facets that
/// share a label with A or B inside it (own).
pub fn candidates_follow()
    ensures { CandidatesFollow }
{}
