// All allowed flips of a class.
ghost use Rattle.std.specs.Prelude.{◌≡◌, ◌<◌, IsTrue, IfOk, map};
ghost use Rattle.std.specs.List.{filter_map};
ghost use Rattle.facet_set.specs.Flips.{options};
ghost use Rattle.facet_set.specs.Numbers.{is_pure, size};
ghost use Rattle.indexmap.specs.IndexMap.{get};
ghost use Rattle.flip_rules.specs.Candidates.{candidates, open_flip};
ghost use Rattle.flip_rules.specs.Tallies.{same, candidate_at, flip_of};

use crate::tallies::{Sizes, Tallies, candidate_at, faces_of_size, tallies_of};
use crate::{Candidate, Candidates};
use facet_set::{Facets, point};
use simplex::{Flip, Flips, Memory, Simplex};
use std::alloc::{AllocError, Global};

/// All allowed flips of the class, which is the number of labels of B less one, in the order of A (Pachner; Bjorner and Lutz). Of
/// class 0 are those that put in the least label that is no vertex. The time is in proportion to the number of facets, times 2 to
/// the number of labels of one.
pub fn options(alloc: Global, c: &Facets, class: usize) -> Result<Flips, Memory>
    ensures { IfOk result (λ l. l ≡ options c.now class) }
{
    if class == 0 {
        subdivisions(alloc, c)
    } else {
        exchanges(alloc, c, class)
    }
}

// The options of class 0.
fn subdivisions(alloc: Global, c: &Facets) -> Result<Flips, Memory>
    ensures { IfOk result (λ l. l ≡ options c.now 0) }
{
    if !c.is_pure() || c.size() == 0 {
        return Ok(Flips::new(alloc));
    }
    match c.fresh()? {
        Some(label) => {
            let flips = with_point(alloc, c.as_slice(), &point(label))?;
            Ok(Flips::from_vec(flips))
        }
        None => Ok(Flips::new(alloc)),
    }
}

// The flips that put the point into each of the facets.
fn with_point(alloc: Global, facets: &[Simplex], b: &Simplex) -> Result<Vec<Flip>, AllocError>
    ensures { IfOk result (λ v. v.items ≡ map (λ a. flip_of a b.now) facets.now) }
{
    facets.iter().map(|a| flip_of(a, b)).collect(alloc)
}

fn flip_of(a: &Simplex, b: &Simplex) -> Flip
    ensures { result ≡ flip_of a.now b.now }
{
    Flip { a: *a, b: *b }
}

// The options of a class that is not 0.
fn exchanges(alloc: Global, c: &Facets, class: usize) -> Result<Flips, Memory>
    requires above { 0 < class }
    ensures { IfOk result (λ l. l ≡ options c.now class) }
{
    let found = candidates(alloc, c, class)?;
    let flips = open_flips(alloc, found.as_slice())?;
    Ok(Flips::from_vec(flips))
}

fn open_flips(alloc: Global, found: &[Candidate]) -> Result<Vec<Flip>, AllocError>
    ensures { IfOk result (λ v. v.items ≡ filter_map open_flip found.now) }
{
    found
        .iter()
        .filter_map(|candidate| candidate.open_flip())
        .collect(alloc)
}

/// All candidates of the class, in the order of A: the flips of which all that an allowed one needs holds, save that B may be a
/// face. Of class 0 there are none. The time is as of `options`.
pub fn candidates(alloc: Global, c: &Facets, class: usize) -> Result<Candidates, Memory>
    ensures { IfOk result (λ l. l ≡ candidates c.now class) }
{
    if !c.is_pure() || c.size() <= class {
        return Ok(Candidates::new(alloc));
    }
    counted(alloc, c, class)
}

fn counted(alloc: Global, c: &Facets, class: usize) -> Result<Candidates, Memory>
    requires pure { IsTrue (is_pure c.now) }
    requires below { class < size c.now }
    ensures { IfOk result (λ l. l ≡ candidates c.now class) }
{
    let sizes = Sizes {
        gone: c.size() - class,
        come: class + 1,
    };
    let tallies = tallies_of(alloc, c.as_slice(), sizes)?;
    let faces = faces_of_size(&tallies, sizes.gone)?;
    let found = candidates_at(alloc, &tallies, &faces, sizes.come)?;
    Ok(Candidates::from_vec(found))
}

// The candidates at the faces where there is one.
fn candidates_at(
    alloc: Global,
    tallies: &Tallies,
    faces: &[Simplex],
    count: usize,
) -> Result<Vec<Candidate>, AllocError>
    ensures { IfOk result (λ v. v.items ≡ filter_map (candidate_at (get same tallies.now) count) faces.now) }
{
    faces
        .iter()
        .filter_map(|a| candidate_at(tallies, a, count))
        .collect(alloc)
}
