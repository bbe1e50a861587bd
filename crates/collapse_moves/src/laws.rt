ghost use Rattle.collapse_moves.specs.Laws.{PartnerIsFacet, CollapseFaces, DropFaces, AddFaces};

/// The face in which alone a simplex lies properly is the only facet that contains it, and has one label more.
pub fn partner_is_facet()
    ensures { PartnerIsFacet }
{}

/// A collapse takes out just the face and the face in which alone it lies properly.
pub fn collapse_faces()
    ensures { CollapseFaces }
{}

/// Dropping a facet takes out that face alone.
pub fn drop_faces()
    ensures { DropFaces }
{}

/// Adding a simplex adds it and its subsets, and no other face.
pub fn add_faces()
    ensures { AddFaces }
{}
