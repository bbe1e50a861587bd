// The facets that contain a simplex, as far as one pass has to know them.
ghost use Rattle.std.specs.Prelude.{◌≡◌, ◌∷◌, [], ◌++◌, ℕ, List};
ghost use Rattle.facet_set.specs.Complex.{facets_with};
ghost use Rattle.collapse_moves.specs.Holders.{holder_of};

use simplex::Simplex;

/// Which facets contain a simplex.
#[derive(Clone, Copy)]
pub enum Holder {
    /// There is none.
    Missing,
    /// There is this one alone.
    One(Simplex),
    /// There are at least two.
    Many,
}

/// Which of the facets contain the simplex. It takes no memory.
pub fn find_holder(facets: &[Simplex], s: &Simplex) -> Holder
    ensures { result ≡ holder_of (facets_with facets.now s.now) }
{
    let mut holder = Holder::Missing;
    for facet in facets {
        if s.within(facet) {
            holder = with(holder, *facet);
        }
    }
    holder
}

// What is known once there is one facet more.
fn with(holder: Holder, facet: Simplex) -> Holder
    ensures { (l : List (List ℕ)) → holder ≡ holder_of l → result ≡ holder_of (l ++ facet ∷ []) }
{
    match holder {
        Holder::Missing => Holder::One(facet),
        Holder::One(_) | Holder::Many => Holder::Many,
    }
}
