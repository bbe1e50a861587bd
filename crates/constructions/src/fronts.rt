// Simplices that grow at their end.
ghost use Rattle.std.specs.Prelude.{◌≡◌, ◌≤◌, ◌++◌, [], ◌∷◌, IsTrue};
ghost use Rattle.std.specs.List.{range_with_len};
ghost use Rattle.simplex.specs.Simplex.{is_simplex};

use facet_set::point;
use simplex::Simplex;

/// The simplex with one more label, above all others.
pub fn with_last(s: &Simplex, label: u32) -> Simplex
    requires { IsTrue (is_simplex (s.now ++ label ∷ [])) }
    ensures { result ≡ s.now ++ label ∷ [] }
{
    match s.union(&point(label)) {
        Some(union) => union,
        None => unreachable!(),
    }
}

/// The simplex with the labels from 1 on, so many in all.
pub fn first_labels(count: u32) -> Simplex
    requires { count ≤ 12 }
    ensures { result ≡ range_with_len 1 count }
{
    let mut front = Simplex::EMPTY;
    for i in 0..count {
        front = with_last(&front, i + 1);
    }
    front
}
