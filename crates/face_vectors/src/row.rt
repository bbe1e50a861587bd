ghost use Rattle.face_vectors.specs.Filled.{IsFilled};

/// A list of at most 13 integers: the first `len` of `at`. The places after them hold 0, so that equal rows are equal lists.
#[derive(Clone, Copy, Debug, PartialEq, Eq)]
pub struct Row {
    pub len: usize,
    pub at: [i64; 13],
    pub ghost filled: { IsFilled at len },
}

impl Row {
    ghost use Rattle.std.specs.Prelude.{◌≡◌, ◌<◌, ◌+◌, [], ◌∷◌, ◌++◌};
    ghost use Rattle.face_vectors.specs.Row.{entries};

    // The row with no integer.
    pub(crate) fn new() -> Row
        ensures value { entries result ≡ [] }
        ensures len { result.len ≡ 0 }
    {
        Row {
            len: 0,
            at: [0; 13],
        }
    }

    /// The integers, in order.
    pub fn as_slice(&self) -> &[i64]
        ensures { result.now ≡ entries self.now }
    {
        &self.at[..self.len]
    }

    // Adds an integer at the end.
    pub(crate) fn push(&mut self, entry: i64)
        requires { self.old.len < 13 }
        ensures value { entries self.new ≡ entries self.old ++ entry ∷ [] }
        ensures len { self.new.len ≡ self.old.len + 1 }
    {
        self.at[self.len] = entry;
        self.len += 1;
    }
}
