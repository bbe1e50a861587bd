ghost use Rattle.betti_tables.specs.Filled.{IsFilled};

/// Betti numbers modulo 2: b_0, b_1, .. are the first `len` of `at`, and `len` is the dimension and one. The places after them
/// hold 0, so that equal lists are equal values.
#[derive(Clone, Copy, Debug, PartialEq, Eq)]
pub struct Betti {
    pub len: usize,
    pub at: [u64; 12],
    pub ghost filled: { IsFilled at len },
}

impl Betti {
    ghost use Rattle.std.specs.Prelude.{◌≡◌, ◌<◌, ◌+◌, [], ◌∷◌, ◌++◌};
    ghost use Rattle.betti_tables.specs.Betti.{numbers};

    // The list with no number.
    pub(crate) fn new() -> Betti
        ensures value { numbers result ≡ [] }
        ensures len { result.len ≡ 0 }
    {
        Betti {
            len: 0,
            at: [0; 12],
        }
    }

    /// The numbers b_0, b_1, .. in order.
    pub fn as_slice(&self) -> &[u64]
        ensures { result.now ≡ numbers self.now }
    {
        &self.at[..self.len]
    }

    // Adds a number at the end.
    pub(crate) fn push(&mut self, number: u64)
        requires { self.old.len < 12 }
        ensures value { numbers self.new ≡ numbers self.old ++ number ∷ [] }
        ensures len { self.new.len ≡ self.old.len + 1 }
    {
        self.at[self.len] = number;
        self.len += 1;
    }
}
