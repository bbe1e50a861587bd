// What a session keeps of its complex.
ghost use Rattle.std.specs.Prelude.{◌≡◌, ◌<◌, length, slice_get, IsTrue, IfOk};
ghost use Rattle.std.specs.List.{filter_map};
ghost use Rattle.facet_set.specs.Flips.{fresh};
ghost use Rattle.facet_set.specs.Numbers.{size, is_pure};
ghost use Rattle.flip_rules.specs.Candidates.{open_flip};
ghost use Rattle.flip_table.specs.Kept.{candidate_lists, new_point};

use facet_set::{Facets, point};
use flip_rules::{Candidate, Candidates, candidates};
use simplex::{Flip, Memory, Simplex};
use std::alloc::Global;

/// The candidates of the classes from 1 to the dimension.
#[tactic(auto, using(crate::proofs::KeptOptions::lists_more))]
pub fn candidate_lists(alloc: Global, c: &Facets) -> Result<Vec<Candidates>, Memory>
    ensures { IfOk result (λ v. v.items ≡ candidate_lists c.now) }
{
    let dim = c.size().saturating_sub(1);
    let mut lists = Vec::new(alloc);
    for k in 0..dim {
        lists.push(candidates(alloc, c, k + 1)?)?;
    }
    Ok(lists)
}

/// The set that the flips of class 0 put in, if there are such flips.
pub fn new_point(c: &Facets) -> Result<Option<Simplex>, Memory>
    ensures { IfOk result (λ p. p ≡ new_point c.now) }
{
    // Their labels are labels.
    let _facets = c.as_slice();
    if !c.is_pure() || c.size() == 0 {
        return Ok(None);
    }
    match c.fresh()? {
        Some(label) => Ok(Some(point(label))),
        None => Ok(None),
    }
}

/// The same after a flip, by what it was before. The vertices change only where A or B has a single label.
pub fn next_point(
    flip: &Flip,
    point: Option<Simplex>,
    next: &Facets,
) -> Result<Option<Simplex>, Memory>
    requires { 1 < length flip.now.a → 1 < length flip.now.b → point ≡ new_point next.now }
    ensures { IfOk result (λ p. p ≡ new_point next.now) }
{
    if flip.a.len() > 1 && flip.b.len() > 1 {
        return Ok(point);
    }
    new_point(next)
}

/// The number of candidates that are allowed.
pub fn open_count(list: &[Candidate]) -> usize
    ensures { result ≡ length (filter_map open_flip list.now) }
{
    list.iter()
        .filter_map(|candidate| candidate.open_flip())
        .count()
}

/// The allowed candidate at the place, from 0. None exactly where there are not so many.
pub fn open_at(list: &[Candidate], k: usize) -> Option<Flip>
    ensures { result ≡ slice_get (filter_map open_flip list.now) k }
{
    list.iter()
        .filter_map(|candidate| candidate.open_flip())
        .nth(k)
}
