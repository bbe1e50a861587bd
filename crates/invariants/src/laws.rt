ghost use Rattle.invariants.specs.Laws.{StepsKeepInvariants, BoundariesHaveSphereInvariants};
ghost use Rattle.invariants.specs.Laws.{DifferenceTellsApart, ReasonTellsNoSphere, ReasonIsNoDimension};

/// Where a complex is pure and a list of allowed flips and relabellings leads from it to another, that is pure and has
/// the same dimension, closedness, Euler characteristic and, from dimension 1 on, number of components.
pub fn steps_keep_invariants()
    ensures { StepsKeepInvariants }
{}

/// All boundaries of simplices of one dimension have the same invariants.
pub fn boundaries_have_sphere_invariants()
    ensures { BoundariesHaveSphereInvariants }
{}

/// Where two pure complexes differ in an invariant, no list of flips and relabellings leads from the one to the other.
pub fn difference_tells_apart()
    ensures { DifferenceTellsApart }
{}

/// Where a pure complex differs from the spheres in an invariant, no list of flips leads to the boundary of a simplex.
pub fn reason_tells_no_sphere()
    ensures { ReasonTellsNoSphere }
{}

/// From dimension 0 on, what tells a complex from the spheres is closedness, the Euler characteristic or the number of
/// components.
pub fn reason_is_no_dimension()
    ensures { ReasonIsNoDimension }
{}
