// How often each ridge stands in the list of the ridges of all facets.
ghost use Rattle.std.specs.Prelude.{◌≡◌, ◌-◌, ◌^◌, ◌==◌, min, ℕ, List, IfOk, OnOk};
ghost use Rattle.std.specs.List.{list_all, filter};
ghost use Rattle.local_parts.specs.Pieces.{all_ridges, copies, count_at, raised};

use crate::pieces::add_lacking;
use simplex::{Memory, Simplex};
use std::alloc::{AllocError, Global};
use std::collections::HashMap;

/// The facets less one label each, so that a ridge stands there once for each facet that it lies in.
pub fn all_ridges(alloc: Global, facets: &[Simplex]) -> Result<Vec<Simplex>, Memory>
    ensures { IfOk result (λ v. v.items ≡ all_ridges facets.now) }
{
    let mut list = Vec::new(alloc);
    for facet in facets {
        add_lacking(&mut list, facet, facet.labels())?;
    }
    Ok(list)
}

/// How often each simplex stands in the list, or the last u32 where that is less.
pub fn count_copies(alloc: Global, list: &[Simplex]) -> Result<HashMap<Simplex, u32>, Memory>
    ensures { IfOk result (λ counts. (t : List ℕ) → count_at counts t ≡ min (copies t list.now) (2 ^ 32 - 1)) }
{
    let mut counts = HashMap::new(alloc);
    for s in list {
        count_one(&mut counts, *s)?;
    }
    Ok(counts)
}

fn count_one(counts: &mut HashMap<Simplex, u32>, s: Simplex) -> Result<(), Memory>
    ensures { OnOk result ((t : List ℕ) → count_at counts.new t ≡ raised t s (count_at counts.old t)) }
{
    let more = count_of(counts, &s).saturating_add(1);
    counts.insert(s, more)?;
    Ok(())
}

fn count_of(counts: &HashMap<Simplex, u32>, s: &Simplex) -> u32
    ensures { result ≡ count_at counts.now s.now }
{
    counts.get(s).copied().unwrap_or(0)
}

/// The simplices of the list that are counted once.
pub fn counted_once(
    alloc: Global,
    list: &[Simplex],
    counts: &HashMap<Simplex, u32>,
) -> Result<Vec<Simplex>, AllocError>
    ensures { IfOk result (λ v. v.items ≡ filter (λ r. count_at counts.now r == 1) list.now) }
{
    list.iter()
        .copied()
        .filter(|s| count_of(counts, s) == 1)
        .collect(alloc)
}

/// Whether each simplex of the list is counted twice.
pub fn are_twice(list: &[Simplex], counts: &HashMap<Simplex, u32>) -> bool
    ensures { result ≡ list_all (λ r. count_at counts.now r == 2) list.now }
{
    list.iter().all(|s| count_of(counts, s) == 2)
}
