ghost use Rattle.simplex.specs.Laws.{SetHasTheMembers, SetsAreTheirMembers, WithinIsByMembers, SimplicesAreDistinctLabels, FaultlessIsSimplex, SubsetsAt};

/// The set of a list is in increasing order, and has exactly the members of the list.
pub fn set_has_the_members()
    ensures { SetHasTheMembers }
{}

/// Sets with the same members are one.
pub fn sets_are_their_members()
    ensures { SetsAreTheirMembers }
{}

/// A set lies in another exactly where each of its members is one of the other's.
pub fn within_is_by_members()
    ensures { WithinIsByMembers }
{}

/// Numbers make a simplex exactly where they are at most 12 distinct labels.
pub fn simplices_are_distinct_labels()
    ensures { SimplicesAreDistinctLabels }
{}

/// The set of numbers that have no fault is a simplex.
pub fn faultless_is_simplex()
    ensures { FaultlessIsSimplex }
{}

/// The numbers below 2 to the number of labels stand for the subsets of a simplex, each for one.
pub fn subsets_at()
    ensures { SubsetsAt }
{}
