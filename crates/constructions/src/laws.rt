ghost use Rattle.constructions.specs.Laws.{RelabelsBack, JoinFaces, JoinNumbers};

/// Relabelling by a map and then by its pairs turned round is the identity.
pub fn relabels_back()
    ensures { RelabelsBack }
{}

/// The faces of a join are the unions of a face of each complex (textbook).
pub fn join_faces()
    ensures { JoinFaces }
{}

/// The numbers of facets of a join multiply, and where there are some the sizes add (textbook).
pub fn join_numbers()
    ensures { JoinNumbers }
{}
