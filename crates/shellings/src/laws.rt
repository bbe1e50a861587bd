ghost use Rattle.shellings.specs.Laws.{EachFaceInOneInterval, CountsAreHVector, GreedyIsStuck};

/// For a shelling each face lies between the restriction of exactly one facet and that facet (textbooks).
pub fn each_face_in_one_interval()
    ensures { EachFaceInOneInterval }
{}

/// The numbers of restrictions of a shelling are the h-vector (McMullen).
pub fn counts_are_h_vector()
    ensures { CountsAreHVector }
{}

/// No facet of a pure complex can stand next after the greedy order.
pub fn greedy_is_stuck()
    ensures { GreedyIsStuck }
{}
