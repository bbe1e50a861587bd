// Relabelling and renumbering.
ghost use Rattle.std.specs.Prelude.{◌≡◌, ◌≤◌, ◌+◌, ◌⊎◌, None, Some, map, length, IfOk, IfErr, OnOk};
ghost use Rattle.std.specs.List.{list_all};
ghost use Rattle.simplex.specs.FirstFailing.{first_failing};
ghost use Rattle.simplex.specs.Simplex.{is_label, is_same, label_limit};
ghost use Rattle.simplex.specs.SimplexFault.{set};
ghost use Rattle.facet_set.specs.Complex.{verts};
ghost use Rattle.facet_set.specs.Maps.{image, is_distinct};
ghost use Rattle.constructions.specs.Relabelling.{is_renaming, relabel_tests, renumbering};
ghost use Rattle.constructions.specs.declared.make_fault.MakeFault.TheVariants as fault;

use crate::MakeFault;
use crate::sets::set_of;
use facet_set::{Facets, image};
use simplex::{LABEL_LIMIT, Memory, Pairs};
use std::alloc::Global;

/// The complex with each vertex a replaced by b, for the pairs (a, b) in any order. `NotMap` where these give not each
/// vertex one label or give two vertices the same, `LabelRange` where a new label is out of 1..1,000,000.
pub fn relabel(alloc: Global, x: &Facets, pairs: &Pairs) -> Result<Facets, MakeFault>
    ensures value { IfOk result (λ d. d ≡ image pairs.now x.now) }
    ensures passed { OnOk result (first_failing (relabel_tests x.now pairs.now) ≡ None) }
    ensures faults { IfErr result (λ e. (e ≡ fault.Memory) ⊎ (first_failing (relabel_tests x.now pairs.now) ≡ Some e)) }
{
    if let Some(fault) = relabel_fault(alloc, x, pairs.as_slice())? {
        return Err(fault);
    }
    Ok(image(alloc, x.as_slice(), pairs.as_slice())?)
}

fn relabel_fault(
    alloc: Global,
    x: &Facets,
    pairs: &[(u32, u32)],
) -> Result<Option<MakeFault>, Memory>
    ensures { IfOk result (λ o. o ≡ first_failing (relabel_tests x.now pairs.now)) }
{
    if !is_renaming(alloc, pairs, x)? {
        return Ok(Some(MakeFault::NotMap));
    }
    if !leads_to_labels(pairs) {
        return Ok(Some(MakeFault::LabelRange));
    }
    Ok(None)
}

fn leads_to_labels(pairs: &[(u32, u32)]) -> bool
    ensures { result ≡ list_all (λ p. is_label p.1) pairs.now }
{
    pairs
        .iter()
        .all(|pair| 1 <= pair.1 && pair.1 <= LABEL_LIMIT)
}

fn is_renaming(alloc: Global, pairs: &[(u32, u32)], x: &Facets) -> Result<bool, Memory>
    ensures { IfOk result (λ b. b ≡ is_renaming pairs.now x.now) }
{
    let old = firsts(alloc, pairs)?;
    let new = seconds(alloc, pairs)?;
    let once = is_distinct(alloc, &old)?;
    let whole = is_vertices(alloc, &old, x)?;
    let apart = is_distinct(alloc, &new)?;
    Ok(once && whole && apart)
}

fn is_distinct(alloc: Global, labels: &[u32]) -> Result<bool, Memory>
    ensures { IfOk result (λ b. b ≡ is_distinct labels.now) }
{
    let set = set_of(alloc, labels)?;
    Ok(set.as_slice().len() == labels.len())
}

// Whether the set of the labels is that of the vertices.
fn is_vertices(alloc: Global, labels: &[u32], x: &Facets) -> Result<bool, Memory>
    ensures { IfOk result (λ b. b ≡ is_same (set labels.now) (verts x.now)) }
{
    let set = set_of(alloc, labels)?;
    let vertices = x.vertices()?;
    Ok(is_same(&set, vertices.as_slice()))
}

fn is_same(s: &[u32], t: &[u32]) -> bool
    ensures { result ≡ is_same s.now t.now }
{
    s == t
}

fn firsts(alloc: Global, pairs: &[(u32, u32)]) -> Result<Vec<u32>, Memory>
    ensures { IfOk result (λ v. v.items ≡ map (λ p. p.0) pairs.now) }
{
    Ok(pairs.iter().map(|pair| pair.0).collect(alloc)?)
}

fn seconds(alloc: Global, pairs: &[(u32, u32)]) -> Result<Vec<u32>, Memory>
    ensures { IfOk result (λ v. v.items ≡ map (λ p. p.1) pairs.now) }
{
    Ok(pairs.iter().map(|pair| pair.1).collect(alloc)?)
}

/// The labels in order, each with one of the labels that follow the greatest.
pub fn renumbering(alloc: Global, greatest: u32, labels: &[u32]) -> Result<Vec<(u32, u32)>, Memory>
    requires { greatest + length labels.now ≤ label_limit }
    ensures value { IfOk result (λ v. v.items ≡ renumbering greatest labels.now) }
{
    let mut pairs = Vec::new(alloc);
    for (i, label) in labels.iter().enumerate() {
        pairs.push((*label, greatest + 1 + i as u32))?;
    }
    Ok(pairs)
}
