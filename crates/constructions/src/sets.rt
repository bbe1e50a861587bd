// Sets of labels, simplices and pairs out of slices.
ghost use Rattle.std.specs.Prelude.{◌≡◌, None, not, IfOk, IsTrue};
ghost use Rattle.std.specs.List.{filter, zip};
ghost use Rattle.simplex.specs.Simplex.{is_same, is_simplex};
ghost use Rattle.simplex.specs.SimplexFault.{set, simplex_fault};
ghost use Rattle.constructions.specs.Gluing.{all_but};

use simplex::{Memory, Simplex};
use std::alloc::{AllocError, Global};

/// The labels, each once, in increasing order.
pub fn set_of(alloc: Global, labels: &[u32]) -> Result<Vec<u32>, Memory>
    ensures { IfOk result (λ v. v.items ≡ set labels.now) }
{
    let mut members = Vec::from_slice(alloc, labels)?;
    members.sort_unstable();
    members.dedup();
    Ok(members)
}

/// The simplex of labels that make one.
pub fn simplex_of(labels: &[u32]) -> Simplex
    requires { simplex_fault labels.now ≡ None }
    ensures value { result ≡ set labels.now }
    ensures simplex { IsTrue (is_simplex result) }
{
    match Simplex::of(labels) {
        Ok(s) => s,
        Err(_) => unreachable!(),
    }
}

/// The pairs of members at the same places.
pub fn zipped(alloc: Global, firsts: &[u32], seconds: &[u32]) -> Result<Vec<(u32, u32)>, AllocError>
    ensures { IfOk result (λ v. v.items ≡ zip firsts.now seconds.now) }
{
    firsts
        .iter()
        .copied()
        .zip(seconds.iter().copied())
        .collect(alloc)
}

/// The facets but one.
pub fn all_but(alloc: Global, facets: &[Simplex], s: &Simplex) -> Result<Vec<Simplex>, AllocError>
    ensures { IfOk result (λ v. v.items ≡ all_but s.now facets.now) }
{
    facets
        .iter()
        .copied()
        .filter(|facet| differs(facet, s))
        .collect(alloc)
}

fn differs(s: &Simplex, t: &Simplex) -> bool
    ensures { result ≡ not (is_same s.now t.now) }
{
    s != t
}
