// Vertices that are near one another.
ghost use Rattle.std.specs.Prelude.{◌≡◌, ◌||◌, ℕ, nat_eq, IfOk, OnOk};
ghost use Rattle.std.specs.List.{list_any};
ghost use Rattle.std.specs.HashSet.{contains};
ghost use Rattle.simplex.specs.Simplex.{has};
ghost use Rattle.facet_set.specs.Connection.{is_edge};
ghost use Rattle.constructions.specs.Nearness.{is_near};
ghost use Rattle.constructions.specs.Twins.{has_beside};

use simplex::{Memory, Simplex};
use std::alloc::Global;
use std::collections::HashSet;

/// Whether the labels are the two ends of an edge or have a common neighbour.
pub fn is_near(alloc: Global, facets: &[Simplex], a: u32, b: u32) -> Result<bool, Memory>
    ensures { IfOk result (λ near. near ≡ is_near facets.now a b) }
{
    let around = around(alloc, facets, a)?;
    Ok(meets(facets, b, &around))
}

// The label and its neighbours, where it is a vertex.
fn around(alloc: Global, facets: &[Simplex], a: u32) -> Result<HashSet<u32>, Memory>
    ensures { IfOk result (λ set. (v : ℕ) → contains nat_eq set v ≡ is_edge facets.now a v) }
{
    let mut set = HashSet::new(alloc);
    for facet in facets {
        if facet.has(a) {
            add_labels(&mut set, facet.labels())?;
        }
    }
    Ok(set)
}

fn add_labels(set: &mut HashSet<u32>, labels: &[u32]) -> Result<(), Memory>
    ensures { OnOk result ((v : ℕ) → contains nat_eq set.new v ≡ (contains nat_eq set.old v || has labels.now v)) }
{
    for label in labels {
        set.insert(*label)?;
    }
    Ok(())
}

// Whether a facet with the label has one of the set.
fn meets(facets: &[Simplex], b: u32, set: &HashSet<u32>) -> bool
    ensures { result ≡ list_any (has_beside (contains nat_eq set.now) b) facets.now }
{
    facets
        .iter()
        .any(|facet| facet.has(b) && has_one(facet, set))
}

fn has_one(s: &Simplex, set: &HashSet<u32>) -> bool
    ensures { result ≡ list_any (contains nat_eq set.now) s.now }
{
    s.labels().iter().any(|label| set.contains(label))
}
