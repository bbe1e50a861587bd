ghost use Rattle.verdicts.specs.Laws.{SphereYes, EquivalentYes, ManifoldYes, SphereVain, EquivalentVain, ManifoldVain};

/// A yes of `sphere` is a valid certificate of the complex.
pub fn sphere_yes()
    ensures { SphereYes }
{}

/// A yes of `equivalent` is a valid certificate from the one complex to the other.
pub fn equivalent_yes()
    ensures { EquivalentYes }
{}

/// A yes of `manifold` is a valid certificate of the complex.
pub fn manifold_yes()
    ensures { ManifoldYes }
{}

/// Where the tests of `sphere` pass and it is undecided, its walk made the whole budget and met no simplex boundary.
pub fn sphere_vain()
    ensures { SphereVain }
{}

/// Where the tests of `equivalent` pass and it is undecided, one walk at least made the whole budget and met no simplex boundary,
/// and so did each that met none.
pub fn equivalent_vain()
    ensures { EquivalentVain }
{}

/// Where the tests of `manifold` pass and it is undecided, the walk on the link of the vertex that it names made the whole budget
/// and met no simplex boundary.
pub fn manifold_vain()
    ensures { ManifoldVain }
{}
