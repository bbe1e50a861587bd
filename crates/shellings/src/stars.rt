// For each vertex the facets that have it.
ghost use Rattle.std.specs.Prelude.{◌≡◌, ◌<◌, ◌≤◌, ◌*◌, ◌/◌, ◌==◌, ◌&&◌, ◌||◌, ℕ, List, [], length, slice_index_or, IfOk, IsTrue, true};
ghost use Rattle.std.specs.Ordering.{nat_cmp};
ghost use Rattle.simplex.specs.InOrder.{is_increasing};
ghost use Rattle.simplex.specs.Simplex.{has, is_within};
ghost use Rattle.facet_set.specs.Complex.{verts};
ghost use Rattle.shellings.specs.declared.place_set.PlaceSet.{PlaceSet};
ghost use Rattle.shellings.specs.Places.{is_one};
ghost use Rattle.shellings.specs.Stars.{AreEmpty, AreShaped, AreStars, IsPut};

use crate::place_set::PlaceSet;
use facet_set::Facets;
use simplex::{Labels, Memory, Simplex};
use std::alloc::Global;

/// For each vertex the places of the facets that have it.
#[derive(Drop)]
pub struct Stars {
    labels: Labels,
    sets: Vec<PlaceSet>,
}

impl Stars {
    /// The stars in a complex, as sets of so many words.
    pub fn of(alloc: Global, c: &Facets, len: usize) -> Result<Stars, Memory>
        requires { length c.now ≤ 64 * len }
        ensures labels { IfOk result (λ s. s.labels ≡ verts c.now) }
        ensures shape { IfOk result (λ s. AreShaped s.labels s.sets.items len) }
        ensures stars { IfOk result (λ s. AreStars c.now s.labels s.sets.items) }
    {
        let labels = c.vertices()?;
        let mut sets = empty_sets(alloc, labels.len(), len)?;
        for (i, f) in c.as_slice().iter().enumerate() {
            put_facet(&mut sets, labels.as_slice(), i, f);
        }
        Ok(Stars { labels, sets })
    }

    /// Keeps of the places those whose facets have all labels of the simplex.
    pub fn keep_cofaces(&self, s: &Simplex, places: &mut PlaceSet)
        requires shape { AreShaped self.now.labels self.now.sets.items (length places.old.words.items) }
        requires vertices { IsTrue (is_within s.now self.now.labels) }
        ensures value { (c : List (List ℕ)) → AreStars c self.now.labels self.now.sets.items
            → (k : ℕ) → is_one places.new.words.items k ≡ (is_one places.old.words.items k && is_within s.now (slice_index_or c k [])) }
        ensures len { length places.new.words.items ≡ length places.old.words.items }
    {
        for label in s.labels() {
            places.keep(&self.sets[row_of(self.labels.as_slice(), *label)]);
        }
    }
}

// So many empty sets of so many words.
fn empty_sets(alloc: Global, count: usize, len: usize) -> Result<Vec<PlaceSet>, Memory>
    ensures { IfOk result (λ v. AreEmpty v.items count len) }
{
    let mut sets = Vec::new(alloc);
    for _ in 0..count {
        sets.push(PlaceSet::new(alloc, len)?)?;
    }
    Ok(sets)
}

// Puts the place of a facet in the set of each of its labels.
fn put_facet(sets: &mut [PlaceSet], labels: &[u32], place: usize, f: &Simplex)
    requires rising { is_increasing nat_cmp labels.now ≡ true }
    requires count { length sets.old ≡ length labels.now }
    requires vertices { IsTrue (is_within f.now labels.now) }
    requires room { (r : ℕ) (s : PlaceSet) → r < length labels.now → place / 64 < length (slice_index_or sets.old r s).words.items }
    ensures { IsPut labels.now place f.now sets.old sets.new }
{
    for label in f.labels() {
        sets[row_of(labels, *label)].put(place);
    }
}

// The place of the label, which is one of them.
fn row_of(labels: &[u32], label: u32) -> usize
    requires rising { is_increasing nat_cmp labels.now ≡ true }
    requires member { IsTrue (has labels.now label) }
    ensures within { result < length labels.now }
    ensures value { slice_index_or labels.now result 0 ≡ label }
{
    match labels.binary_search(&label) {
        Ok(row) => row,
        Err(_) => unreachable!(),
    }
}
