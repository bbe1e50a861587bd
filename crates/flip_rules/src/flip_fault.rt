/// Why a flip (A, B) is not allowed on a complex, in the order of refusal (Pachner; Bjorner and Lutz).
#[derive(Clone, Copy, Debug, PartialEq, Eq)]
pub enum FlipFault {
    /// The complex is not pure.
    NotPure,
    /// A or B is empty, or the two do not have as many labels as a facet and one.
    Size,
    /// A and B have a label in common.
    Overlap,
    /// The facets that contain A are not exactly A with B minus one label of B, for each label.
    Star,
    /// B is a face.
    Present,
}
