ghost use Rattle.face_lattice.specs.Laws.{FacesLieInFacets, NoFacetNoFace};

/// A face is what lies in a facet.
pub fn faces_lie_in_facets()
    ensures { FacesLieInFacets }
{}

/// Exactly what is no face lies in no facet.
pub fn no_facet_no_face()
    ensures { NoFacetNoFace }
{}
