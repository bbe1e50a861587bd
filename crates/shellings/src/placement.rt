// The facets that are placed, and the search among facets by their labels.
ghost use Rattle.std.specs.Prelude.{◌≡◌, ◌<◌, ◌≤◌, ◌*◌, ◌==◌, ◌&&◌, ◌||◌, ◌++◌, ◌∷◌, ℕ, List, [], nat_lt, length, slice_index_or, IfOk, OnOk, IsTrue};
ghost use Rattle.simplex.specs.Simplex.{is_within};
ghost use Rattle.facet_set.specs.Complex.{is_face};
ghost use Rattle.shellings.specs.Places.{is_one};
ghost use Rattle.shellings.specs.Placement.{IsFitting, IsPlacement, IsSearched};

use crate::place_set::PlaceSet;
use crate::stars::Stars;
use facet_set::Facets;
use simplex::{Memory, Simplex, Simplices};
use std::alloc::Global;

/// The facets that are placed so far, as a list and by their places among all facets.
#[derive(Drop)]
pub struct Placement {
    pub order: Simplices,
    stars: Stars,
    all: PlaceSet,
    placed: PlaceSet,
    /// What the last search found.
    pub found: PlaceSet,
}

impl Placement {
    /// No facet of the complex placed yet.
    pub fn of(alloc: Global, c: &Facets) -> Result<Placement, Memory>
        ensures placement { IfOk result (λ p. IsPlacement c.now p) }
        ensures order { IfOk result (λ p. p.order ≡ []) }
    {
        let count = c.as_slice().len();
        let len = count.div_ceil(64);
        Ok(Placement {
            order: Simplices::new(alloc),
            stars: Stars::of(alloc, c, len)?,
            all: first_places(alloc, count, len)?,
            placed: PlaceSet::new(alloc, len)?,
            found: PlaceSet::new(alloc, len)?,
        })
    }

    /// Whether the simplex lies in a facet that is placed.
    pub fn is_covered(&mut self, s: &Simplex) -> bool
        requires fitting { IsFitting self.old }
        requires vertices { IsTrue (is_within s.now self.old.stars.labels) }
        ensures value { (c : List (List ℕ)) → IsPlacement c self.old → result ≡ is_face self.old.order s.now }
        ensures searched { IsSearched self.old self.new }
    {
        self.found.copy_from(&self.placed);
        self.stars.keep_cofaces(s, &mut self.found);
        self.found.next(0).is_some()
    }

    /// Finds the facets that have all labels of the simplex.
    pub fn find_cofaces(&mut self, s: &Simplex)
        requires fitting { IsFitting self.old }
        requires vertices { IsTrue (is_within s.now self.old.stars.labels) }
        ensures value { (c : List (List ℕ)) → IsPlacement c self.old
            → (k : ℕ) → is_one self.new.found.words.items k ≡ (nat_lt k (length c) && is_within s.now (slice_index_or c k [])) }
        ensures searched { IsSearched self.old self.new }
    {
        self.found.copy_from(&self.all);
        self.stars.keep_cofaces(s, &mut self.found);
    }

    /// Places the facet that has this place among all.
    pub fn push(&mut self, place: usize, f: Simplex) -> Result<(), Memory>
        requires { place < 64 * length self.old.placed.words.items }
        ensures order { OnOk result (self.new.order ≡ self.old.order ++ f ∷ []) }
        ensures placed { OnOk result ((c : List (List ℕ)) → IsPlacement c self.old → f ≡ slice_index_or c place [] → IsPlacement c self.new) }
    {
        self.order.push(f)?;
        self.placed.put(place);
        Ok(())
    }
}

// The places below the count.
fn first_places(alloc: Global, count: usize, len: usize) -> Result<PlaceSet, Memory>
    requires { count ≤ 64 * len }
    ensures value { IfOk result (λ s. (k : ℕ) → is_one s.words.items k ≡ nat_lt k count) }
    ensures len { IfOk result (λ s. length s.words.items ≡ len) }
{
    let mut places = PlaceSet::new(alloc, len)?;
    for place in 0..count {
        places.put(place);
    }
    Ok(places)
}
