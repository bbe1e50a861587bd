use simplex::LEN_LIMIT;

/// The greatest number of faces of one size that the vectors are computed of. The limit is own.
pub const COUNT_LIMIT: u64 = 1 << 31;

/// The numbers of faces of a complex: `size` is its dimension and one, and `at[k]`, for k below the size, the number of its faces with k + 1 labels.
#[derive(Clone, Copy, Debug, PartialEq, Eq)]
pub struct Counts {
    pub size: usize,
    pub at: [u64; 12],
}

impl Counts {
    ghost use Rattle.std.specs.Prelude.{◌↔◌, IsTrue};
    ghost use Rattle.face_vectors.specs.Counts.{IsWithinLimits};

    /// Whether the size is at most 12 and each number of faces at most 2^31.
    pub fn is_within_limits(&self) -> bool
        ensures { IsTrue result ↔ IsWithinLimits self.now }
    {
        self.size <= LEN_LIMIT
            && self.at[..self.size]
                .iter()
                .all(|count| *count <= COUNT_LIMIT)
    }
}
