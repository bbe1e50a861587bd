/// Why a simplex is no free face of a complex, in the order of refusal (textbook).
#[derive(Clone, Copy, Debug, PartialEq, Eq)]
pub enum FreeFault {
    /// It is no face.
    NotFace,
    /// It is empty, or it does not lie properly in exactly one face.
    NotFree,
}
