use simplex::{Flip, Items};

/// A flip of which all that an allowed one needs holds, save that `b` may be a face.
#[derive(Clone, Copy, Debug)]
pub struct Candidate {
    pub flip: Flip,
    /// Whether `b` is a face: the flip is allowed exactly where it is none.
    pub is_blocked: bool,
}

/// Candidates, one after another.
pub type Candidates = Items<Candidate>;

impl Candidate {
    ghost use Rattle.std.specs.Prelude.{◌≡◌};
    ghost use Rattle.flip_rules.specs.Candidates.{open_flip};

    /// The flip, where it is allowed.
    pub fn open_flip(&self) -> Option<Flip>
        ensures { result ≡ open_flip self.now }
    {
        if self.is_blocked {
            None
        } else {
            Some(self.flip)
        }
    }
}
