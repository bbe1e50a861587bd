// The restriction of a facet after earlier ones.
ghost use Rattle.std.specs.Prelude.{◌≡◌, not, IsTrue, if◌then◌else◌, Some, None};
ghost use Rattle.std.specs.List.{filter};
ghost use Rattle.simplex.specs.Simplex.{is_within, without};
ghost use Rattle.shellings.specs.Candidates.{IsSetting};
ghost use Rattle.shellings.specs.Shellings.{is_good, restriction};

use crate::missing::{Missing, find_missing};
use facet_set::{Facets, is_face};
use simplex::Simplex;

/// The restriction of the simplex, where it can stand next after the earlier ones. None exactly where it cannot. It goes
/// over the earlier ones twice, and mostly looks at two or three labels of each.
pub fn good_restriction(c: &Facets, earlier: &[Simplex], f: &Simplex) -> Option<Simplex>
    requires { IsSetting c.now earlier.now }
    ensures { result ≡ (if is_good c.now earlier.now f.now then Some (restriction earlier.now f.now) else None) }
{
    if !c.is_facet(f) {
        return None;
    }
    let restriction = restriction(earlier, f);
    if is_face(earlier, &restriction) {
        return None;
    }
    Some(restriction)
}

// The labels without which the simplex lies in one of the earlier ones: all but those that are free.
fn restriction(earlier: &[Simplex], f: &Simplex) -> Simplex
    ensures { result ≡ restriction earlier.now f.now }
{
    let mut free = *f;
    for g in earlier {
        free = still_free(&free, f, g);
    }
    f.minus(&free)
}

/// Those of the free labels without which the facet does not lie in this other simplex either.
pub fn still_free(free: &Simplex, f: &Simplex, g: &Simplex) -> Simplex
    ensures { IsTrue (is_within free.now f.now) → result ≡ filter (λ a. not (is_within (without f.now a) g.now)) free.now }
{
    match find_missing(f, g) {
        Missing::Nothing => Simplex::EMPTY,
        Missing::One(label) => free.without(label),
        Missing::More => *free,
    }
}
