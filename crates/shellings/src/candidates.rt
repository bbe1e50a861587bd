// The facets that may stand next in the greedy order.
ghost use Rattle.std.specs.Prelude.{◌≡◌, ◌<◌, ◌^◌, ◌++◌, ◌∷◌, ℕ, true, [], length, option_map, slice_index_or, IfOk, IfSome, IsTrue, OnOk};
ghost use Rattle.facet_set.specs.Complex.{stands_in};
ghost use Rattle.shellings.specs.Candidates.{AreFoundNarrowed, AreKept, AreNarrowed, IsNarrowed, IsSetting};
ghost use Rattle.shellings.specs.Greedy.{next_good};
ghost use Rattle.shellings.specs.Placement.{IsPlacement, IsSearched};
ghost use Rattle.shellings.specs.Places.{is_one};

use crate::place_set::PlaceSet;
use crate::placement::Placement;
use crate::restrictions::still_free;
use simplex::{Memory, Simplex};
use std::alloc::Global;

/// What is known of a facet.
#[derive(Clone, Copy)]
pub struct Candidate {
    /// The labels without which it lies in none of the earlier facets.
    pub free: Simplex,
    /// Whether the next place may be good for it. Where it is not, it becomes so only once there are fewer free labels.
    pub waiting: bool,
}

/// All facets, while none is placed.
pub fn all_waiting(alloc: Global, facets: &[Simplex]) -> Result<Vec<Candidate>, Memory>
    ensures { IfOk result (λ v. AreKept facets.now [] v.items) }
{
    let mut candidates = Vec::new(alloc);
    for f in facets {
        candidates.push(Candidate {
            free: *f,
            waiting: true,
        })?;
    }
    Ok(candidates)
}

/// The place of the least facet for which the next place is good.
pub fn next_good(
    facets: &[Simplex],
    placement: &mut Placement,
    candidates: &mut [Candidate],
) -> Option<usize>
    requires setting { IsSetting facets.now placement.old.order }
    requires placement { IsPlacement facets.now placement.old }
    requires kept { AreKept facets.now placement.old.order candidates.old }
    ensures value { option_map (λ k. slice_index_or facets.now k []) result ≡ next_good facets.now placement.old.order }
    ensures place { IfSome result (λ k. k < length facets.now) }
    ensures searched { IsSearched placement.old placement.new }
    ensures kept { AreKept facets.now placement.old.order candidates.new }
{
    for i in 0..facets.len() {
        if candidates[i].waiting {
            if !placement.is_covered(&facets[i].minus(&candidates[i].free)) {
                return Some(i);
            }
            candidates[i].waiting = false;
        }
    }
    None
}

/// Places the facet that has this place among all, and narrows the free labels of those near it.
pub fn place(
    facets: &[Simplex],
    placement: &mut Placement,
    candidates: &mut [Candidate],
    k: usize,
) -> Result<(), Memory>
    requires place { k < length facets.now }
    requires setting { IsSetting facets.now placement.old.order }
    requires placement { IsPlacement facets.now placement.old }
    requires whole { length candidates.old ≡ length facets.now }
    ensures order { OnOk result (placement.new.order ≡ placement.old.order ++ slice_index_or facets.now k [] ∷ []) }
    ensures placement { OnOk result (IsPlacement facets.now placement.new) }
    ensures narrowed { OnOk result (AreNarrowed facets.now (slice_index_or facets.now k []) candidates.old candidates.new) }
{
    let g = facets[k];
    placement.push(k, g)?;
    narrow_near(facets, placement, candidates, &g);
    Ok(())
}

// Narrows the free labels of the facets that have a ridge of this one. Those of all others stay.
fn narrow_near(
    facets: &[Simplex],
    placement: &mut Placement,
    candidates: &mut [Candidate],
    g: &Simplex,
)
    requires setting { IsSetting facets.now placement.old.order }
    requires placement { IsPlacement facets.now placement.old }
    requires facet { IsTrue (stands_in facets.now g.now) }
    requires whole { length candidates.old ≡ length facets.now }
    ensures searched { IsSearched placement.old placement.new }
    ensures narrowed { AreNarrowed facets.now g.now candidates.old candidates.new }
{
    for label in g.labels() {
        placement.find_cofaces(&g.without(*label));
        narrow_found(facets, &placement.found, candidates, g);
    }
}

// Narrows the free labels of the facets that are found.
fn narrow_found(facets: &[Simplex], found: &PlaceSet, candidates: &mut [Candidate], g: &Simplex)
    requires few { length found.now.words.items < 2 ^ 57 }
    requires whole { length candidates.old ≡ length facets.now }
    requires inside { (k : ℕ) → is_one found.now.words.items k ≡ true → k < length facets.now }
    ensures { AreFoundNarrowed facets.now g.now found.now.words.items candidates.old candidates.new }
{
    let mut from = 0;
    while let Some(i) = found.next(from) {
        narrow(&mut candidates[i], &facets[i], g);
        from = i + 1;
    }
}

// The free labels after one facet more. Where there are fewer than before, the next place may be good again.
fn narrow(candidate: &mut Candidate, f: &Simplex, g: &Simplex)
    ensures { IsNarrowed f.now g.now candidate.old candidate.new }
{
    let free = still_free(&candidate.free, f, g);
    if free.len() < candidate.free.len() {
        candidate.free = free;
        candidate.waiting = true;
    }
}
