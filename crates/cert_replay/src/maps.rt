// Whether a list of pairs is a map that takes the vertices apart.
ghost use Rattle.std.specs.Prelude.{◌≡◌, map, nat_eq, IfOk};
ghost use Rattle.std.specs.Cmp.Lexicographic.{pointwise};
ghost use Rattle.simplex.specs.SimplexFault.{set};
ghost use Rattle.facet_set.specs.Maps.{is_map, is_distinct};

use facet_set::Facets;
use simplex::Memory;
use std::alloc::{AllocError, Global};

/// Whether the first members are the vertices in increasing order, and the second ones differ.
pub fn is_map(alloc: Global, pairs: &[(u32, u32)], c: &Facets) -> Result<bool, Memory>
    ensures { IfOk result (λ b. b ≡ is_map pairs.now c.now) }
{
    let old = firsts(alloc, pairs)?;
    let new = seconds(alloc, pairs)?;
    let vertices = c.vertices()?;
    let whole = are_equal(&old, vertices.as_slice());
    let apart = is_distinct(alloc, &new)?;
    Ok(whole && apart)
}

fn firsts(alloc: Global, pairs: &[(u32, u32)]) -> Result<Vec<u32>, AllocError>
    ensures { IfOk result (λ v. v.items ≡ map (λ p. p.0) pairs.now) }
{
    pairs.iter().map(|pair| pair.0).collect(alloc)
}

fn seconds(alloc: Global, pairs: &[(u32, u32)]) -> Result<Vec<u32>, AllocError>
    ensures { IfOk result (λ v. v.items ≡ map (λ p. p.1) pairs.now) }
{
    pairs.iter().map(|pair| pair.1).collect(alloc)
}

fn is_distinct(alloc: Global, labels: &[u32]) -> Result<bool, Memory>
    ensures { IfOk result (λ b. b ≡ is_distinct labels.now) }
{
    let set = set_of(alloc, labels)?;
    Ok(set.as_slice().len() == labels.len())
}

// The labels, each once, in increasing order.
fn set_of(alloc: Global, labels: &[u32]) -> Result<Vec<u32>, Memory>
    ensures { IfOk result (λ v. v.items ≡ set labels.now) }
{
    let mut members = Vec::from_slice(alloc, labels)?;
    members.sort_unstable();
    members.dedup();
    Ok(members)
}

/// Whether the lists are one.
pub fn are_equal(xs: &[u32], ys: &[u32]) -> bool
    ensures { result ≡ pointwise nat_eq xs.now ys.now }
{
    xs == ys
}
