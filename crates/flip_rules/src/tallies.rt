// A tally for each face with as many labels as one of the two sets of a flip.
ghost use Rattle.std.specs.Prelude.{◌≡◌, ◌==◌, ℕ, List, Some, IfOk, IsTrue, OnOk, length, if◌then◌else◌};
ghost use Rattle.std.specs.List.{filter};
ghost use Rattle.facet_set.specs.Complex.{simplices};
ghost use Rattle.indexmap.specs.IndexMap.{get, keys, IsUnique};
ghost use Rattle.flip_rules.specs.Tallies.{same, AreTalliesOf, is_sized, put_facet, after_facet, candidate_at};

use crate::Candidate;
use crate::tally::Tally;
use indexmap::IndexMap;
use simplex::{Flip, Memory, Simplex};
use std::alloc::{AllocError, Global};

/// The tallies, by their faces.
pub type Tallies = IndexMap<Simplex, Tally>;

/// The numbers of labels of the set that goes out and of the one that comes in.
#[derive(Clone, Copy)]
pub struct Sizes {
    pub gone: usize,
    pub come: usize,
}

/// The tallies of the faces of the two sizes.
pub fn tallies_of(alloc: Global, facets: &[Simplex], sizes: Sizes) -> Result<Tallies, Memory>
    ensures { IfOk result (AreTalliesOf facets.now sizes) }
{
    let mut tallies = IndexMap::new(alloc);
    for facet in facets {
        add_facet(&mut tallies, facet, sizes)?;
    }
    Ok(tallies)
}

// One facet more, in one pass over its faces.
fn add_facet(tallies: &mut Tallies, facet: &Simplex, sizes: Sizes) -> Result<(), Memory>
    ensures { OnOk result ((s : List ℕ) → IsTrue (is_sized sizes s) → get same tallies.new s ≡ after_facet facet.now s (get same tallies.old s)) }
{
    for mask in 0..1u32 << facet.len() {
        add_sized(tallies, facet.subset(mask), facet, sizes)?;
    }
    Ok(())
}

// One facet more at one of its faces, where that has one of the sizes.
fn add_sized(tallies: &mut Tallies, s: Simplex, facet: &Simplex, sizes: Sizes) -> Result<(), Memory>
    ensures { OnOk result ((t : List ℕ) → IsTrue (is_sized sizes t) → get same tallies.new t ≡ (if same s t then Some (put_facet facet.now s (get same tallies.old s)) else get same tallies.old t)) }
{
    if is_sized(sizes, &s) {
        add_at(tallies, s, facet)?;
    }
    Ok(())
}

fn is_sized(sizes: Sizes, s: &Simplex) -> bool
    ensures { result ≡ is_sized sizes s.now }
{
    s.len() == sizes.gone || s.len() == sizes.come
}

// One facet more at one of its faces.
fn add_at(tallies: &mut Tallies, s: Simplex, facet: &Simplex) -> Result<(), Memory>
    ensures { OnOk result ((t : List ℕ) → get same tallies.new t ≡ (if same s t then Some (put_facet facet.now s (get same tallies.old s)) else get same tallies.old t)) }
{
    if let Some(tally) = tallies.get_mut(&s) {
        *tally = tally.with_facet(&s, facet);
        return Ok(());
    }
    tallies.insert(s, Tally::blank().with_facet(&s, facet))?;
    Ok(())
}

/// The faces with a tally that have so many labels, in increasing order.
pub fn faces_of_size(tallies: &Tallies, size: usize) -> Result<Vec<Simplex>, AllocError>
    ensures { IfOk result (λ v. v.items ≡ simplices (filter (λ s. length s == size) (keys tallies.now))) }
{
    let mut faces = of_size(tallies, size)?;
    faces.sort_unstable();
    Ok(faces)
}

fn of_size(tallies: &Tallies, size: usize) -> Result<Vec<Simplex>, AllocError>
    ensures faces { IfOk result (λ v. v.items ≡ filter (λ s. length s == size) (keys tallies.now)) }
    ensures unique { IsUnique same tallies.now }
{
    tallies
        .keys()
        .copied()
        .filter(|s| s.len() == size)
        .collect(*tallies.allocator())
}

/// The flip at a face that puts in its link vertices, where these and the facets with the face are so many, and whether something
/// is kept at the link vertices.
pub fn candidate_at(tallies: &Tallies, a: &Simplex, count: usize) -> Option<Candidate>
    ensures { result ≡ candidate_at (get same tallies.now) count a.now }
{
    let b = tallies.get(a)?.link(count)?;
    Some(Candidate {
        flip: Flip { a: *a, b },
        is_blocked: tallies.contains_key(&b),
    })
}
