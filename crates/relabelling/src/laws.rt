ghost use Rattle.relabelling.specs.Laws.{BoundariesAreCarried, FirstMapIsLeast, MapMembers, OneByFacet};

/// The members of the list of bijections are all that carry the one complex to the other.
pub fn map_members()
    ensures { MapMembers }
{}

/// A bijection that carries a closed and strong complex to another is known by its images on one facet.
pub fn one_by_facet()
    ensures { OneByFacet }
{}

/// Of the bijections that carry a complex to another, the first is the one whose list of images is least, and there is none
/// exactly where no bijection does.
pub fn first_map_is_least()
    ensures { FirstMapIsLeast }
{}

/// Some bijection carries the boundary of a simplex to that of any other of the same dimension.
pub fn boundaries_are_carried()
    ensures { BoundariesAreCarried }
{}
