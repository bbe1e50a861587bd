// The labels of a simplex that are not in another, as far as one pass has to know them.
ghost use Rattle.std.specs.Prelude.{◌≡◌, IsTrue};
ghost use Rattle.simplex.specs.Simplex.{is_simplex, minus};
ghost use Rattle.shellings.specs.Missing.{missing_of};

use simplex::Simplex;

/// Which labels are missing.
#[derive(Clone, Copy)]
pub enum Missing {
    /// There is none.
    Nothing,
    /// There is this one alone.
    One(u32),
    /// There are at least two.
    More,
}

/// Which labels of the first simplex are not in the second. It goes no further than the second of them.
pub fn find_missing(f: &Simplex, g: &Simplex) -> Missing
    ensures value { result ≡ missing_of (minus f.now g.now) }
    ensures simplex { IsTrue (is_simplex f.now) }
{
    let mut missing = Missing::Nothing;
    for label in f.labels() {
        if !g.has(*label) {
            missing = match missing {
                Missing::Nothing => Missing::One(*label),
                Missing::One(_) | Missing::More => return Missing::More,
            };
        }
    }
    missing
}
