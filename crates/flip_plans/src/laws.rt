ghost use Rattle.flip_plans.specs.Laws.{AskersCome, AskersGo, AskersStay, OptionFaces, OptionsByFaces, OptionsCome, OptionsGo, OptionsPutLinksIn};
ghost use Rattle.flip_plans.specs.Plans.{AskersFollow};
ghost use Rattle.flip_plans.specs.Turns.{DegreesTurn, FacesInJoin, LinksTurn, OutsideStays, SizesStay};

/// The options of a class that is not 0 are the faces that ask for a set that is no face, and put that set in.
pub fn options_by_faces()
    ensures all { OptionsByFaces }
    ensures members { OptionFaces }
    ensures links { OptionsPutLinksIn }
{}

/// The link vertices of a set in the join of A and B after a flip (Pachner).
pub fn links_turn()
    ensures { LinksTurn }
{}

/// The number of facets with a set in the join after a flip.
pub fn degrees_turn()
    ensures { DegreesTurn }
{}

/// A set outside the join keeps its facets.
pub fn outside_stays()
    ensures { OutsideStays }
{}

/// Which sets in the join are faces before a flip and after it.
pub fn faces_in_join()
    ensures { FacesInJoin }
{}

/// A flip keeps the complex pure and its dimension.
pub fn sizes_stay()
    ensures { SizesStay }
{}

/// What the sets that A lies in ask for.
pub fn askers_go()
    ensures { AskersGo }
{}

/// What the sets that B lies in ask for.
pub fn askers_come()
    ensures { AskersCome }
{}

/// What the sets outside the join ask for.
pub fn askers_stay()
    ensures { AskersStay }
{}

/// Outside the join, the options that go ask for a set that comes.
pub fn options_go()
    ensures { OptionsGo }
{}

/// Outside the join, the options that come ask for a set that goes.
pub fn options_come()
    ensures { OptionsCome }
{}

/// Who asks after a flip, by those who asked before it and its plan.
pub fn askers_follow()
    ensures { AskersFollow }
{}
