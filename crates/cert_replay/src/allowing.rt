// The parts of whether a flip is allowed (Pachner; Bjorner and Lutz), on a list of facets.
ghost use Rattle.std.specs.Prelude.{◌≡◌, ◌+◌, ◌&&◌, ◌==◌, IsTrue, length, nat_lt};
ghost use Rattle.simplex.specs.Simplex.{is_simplex};
ghost use Rattle.facet_set.specs.Complex.{is_face};
ghost use Rattle.facet_set.specs.Star.{lies_in_join, is_counted_star};

use simplex::{Flip, Simplex};

/// Whether A and B have labels, and together one more than so many.
pub fn has_flip_size(size: usize, flip: &Flip) -> bool
    ensures { result ≡ (nat_lt 0 (length flip.now.a) && nat_lt 0 (length flip.now.b)
        && (length flip.now.a + length flip.now.b == size + 1)) }
{
    let len = flip.a.len() + flip.b.len();
    !flip.a.is_empty() && !flip.b.is_empty() && len > 0 && len - 1 == size
}

// Whether each label is one of A or of B.
fn lies_in_join(facet: &Simplex, flip: &Flip) -> bool
    ensures { result ≡ lies_in_join flip.now.a flip.now.b facet.now }
{
    facet
        .labels()
        .iter()
        .all(|label| flip.a.has(*label) || flip.b.has(*label))
}

/// Whether the facets that contain A are as many as the labels of B, and each has labels of A and B alone.
pub fn is_counted_star(facets: &[Simplex], flip: &Flip) -> bool
    ensures { result ≡ is_counted_star facets.now flip.now.a flip.now.b }
{
    let mut degree = 0;
    for facet in facets {
        if flip.a.within(facet) {
            if !lies_in_join(facet, flip) {
                return false;
            }
            degree += 1;
        }
    }
    degree == flip.b.len()
}

/// Whether the simplex lies in one of the facets.
pub fn lies_in_one(facets: &[Simplex], s: &Simplex) -> bool
    ensures { result ≡ is_face facets.now s.now }
{
    facets.iter().any(|facet| s.within(facet))
}
