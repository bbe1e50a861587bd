ghost use Rattle.std.specs.Prelude.{◌≡◌, ◌≤◌, ◌+◌, ◌&&◌, ◌==◌, IsTrue, length, nat_lt};
ghost use Rattle.std.specs.List.{list_all};
ghost use Rattle.simplex.specs.Simplex.{is_simplex, is_disjoint, len_limit};
ghost use Rattle.facet_set.specs.Complex.{is_complex, facets_with};
ghost use Rattle.facet_set.specs.Numbers.{is_pure, size};
ghost use Rattle.facet_set.specs.Flips.{ball, same_facets};
ghost use Rattle.facet_set.specs.Star.{lies_in_join, is_counted_star};

use simplex::{Flip, Simplex};

// The number of labels of each facet.
fn size(facets: &[Simplex]) -> usize
    requires { IsTrue (is_pure facets.now) }
    ensures value { result ≡ size facets.now }
    ensures short { result ≤ len_limit }
{
    match facets.first() {
        None => 0,
        Some(first) => first.len(),
    }
}

// Whether A and B have labels, and together as many as a facet and one.
pub fn has_flip_size(facets: &[Simplex], flip: &Flip) -> bool
    requires { IsTrue (is_pure facets.now) }
    ensures { result ≡ (nat_lt 0 (length flip.now.a) && nat_lt 0 (length flip.now.b)
        && (length flip.now.a + length flip.now.b == size facets.now + 1)) }
{
    !flip.a.is_empty() && !flip.b.is_empty() && flip.a.len() + flip.b.len() == size(facets) + 1
}

/// Whether each label is one of A or of B.
pub fn lies_in_join(s: &Simplex, flip: &Flip) -> bool
    ensures { result ≡ lies_in_join flip.now.a flip.now.b s.now }
{
    s.labels()
        .iter()
        .all(|label| flip.a.has(*label) || flip.b.has(*label))
}

// Whether the facets that contain A are as many as the labels of B, and each has labels of A and B alone.
fn is_counted_star(facets: &[Simplex], flip: &Flip) -> bool
    ensures { result ≡ is_counted_star facets.now flip.now.a flip.now.b }
{
    let mut degree = 0;
    for facet in facets {
        if flip.a.within(facet) {
            if !lies_in_join(facet, flip) {
                return false;
            }
            degree += 1;
        }
    }
    degree == flip.b.len()
}

// Whether the facets that contain A are exactly A with B minus one label, for each label of B.
pub fn is_star(facets: &[Simplex], flip: &Flip) -> bool
    requires simplices { IsTrue (list_all is_simplex facets.now) }
    requires complex { IsTrue (is_complex facets.now) }
    requires pure { IsTrue (is_pure facets.now) }
    requires sizes { length flip.now.a + length flip.now.b ≡ size facets.now + 1 }
    requires apart { IsTrue (is_disjoint flip.now.a flip.now.b) }
    ensures { result ≡ same_facets (facets_with facets.now flip.now.a) (ball flip.now.a flip.now.b) }
{
    let _back = flip.inverse();
    is_counted_star(facets, flip)
}
