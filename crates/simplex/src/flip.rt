ghost use Rattle.std.specs.Prelude.{◌≡◌, ◌<◌, length};

use crate::Simplex;

/// A bistellar flip: the facets that contain `a` go, and `b` comes (Pachner; Bjorner and Lutz).
#[derive(Clone, Copy, Debug, PartialEq, Eq)]
pub struct Flip {
    pub a: Simplex,
    pub b: Simplex,
}

impl Flip {
    ghost use Rattle.std.specs.Prelude.{IsTrue};
    ghost use Rattle.simplex.specs.Flip.{class, inverse};
    ghost use Rattle.simplex.specs.Simplex.{is_simplex};

    /// The number of labels of `b`, less one.
    pub fn class(&self) -> usize
        requires { 0 < length self.now.b }
        ensures value { result ≡ class self.now }
        ensures a { IsTrue (is_simplex self.now.a) }
        ensures b { IsTrue (is_simplex self.now.b) }
    {
        let _from = self.a.len();
        self.b.len() - 1
    }

    /// The flip that leads back.
    pub fn inverse(&self) -> Flip
        ensures value { result ≡ inverse self.now }
        ensures a { IsTrue (is_simplex self.now.a) }
        ensures b { IsTrue (is_simplex self.now.b) }
    {
        let _lens = (self.a.len(), self.b.len());
        Flip {
            a: self.b,
            b: self.a,
        }
    }
}
