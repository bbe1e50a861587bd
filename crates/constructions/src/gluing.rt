// Sums and handles.
ghost use Rattle.std.specs.Prelude.{◌≡◌, ◌≤◌, ◌+◌, ◌++◌, ◌⊎◌, None, Some, map, length, IfOk, IfErr, OnOk, IsTrue};
ghost use Rattle.std.specs.List.{list_all, zip};
ghost use Rattle.simplex.specs.FirstFailing.{first_failing};
ghost use Rattle.simplex.specs.Simplex.{is_disjoint, is_label, minus, label_limit};
ghost use Rattle.simplex.specs.SimplexFault.{set, simplex_fault};
ghost use Rattle.facet_set.specs.Complex.{verts};
ghost use Rattle.facet_set.specs.Numbers.{greatest};
ghost use Rattle.facet_set.specs.Maps.{relabelled};
ghost use Rattle.constructions.specs.Relabelling.{renumbering};
ghost use Rattle.constructions.specs.Gluing.{all_but, sum_of, handle, glued, sum_tests, handle_tests, near_tests};
ghost use Rattle.constructions.specs.declared.make_fault.MakeFault.TheVariants as fault;

use crate::MakeFault;
use crate::nearness::is_near;
use crate::relabelling::renumbering;
use crate::sets::{all_but, simplex_of, zipped};
use facet_set::{Facets, image, images};
use simplex::{LABEL_LIMIT, Memory, Simplex};
use std::alloc::Global;

/// The facets of x but f and those of y but g, where each label of g becomes that of f at its place as written and the other
/// vertices of y, in increasing order, take the labels that follow the greatest of x (connected sum; the labels are own).
/// `NotPure`, `DimDiffers`, `NotFacet`, or `LabelRange` where a label would be above 1,000,000.
pub fn sum(alloc: Global, x: &Facets, f: &[u32], y: &Facets, g: &[u32]) -> Result<Facets, MakeFault>
    requires f { simplex_fault f.now ≡ None }
    requires g { simplex_fault g.now ≡ None }
    ensures value { IfOk result (λ d. d ≡ sum_of x.now f.now y.now g.now) }
    ensures passed { OnOk result (first_failing (sum_tests x.now f.now y.now g.now) ≡ None) }
    ensures faults { IfErr result (λ e. (e ≡ fault.Memory) ⊎ (first_failing (sum_tests x.now f.now y.now g.now) ≡ Some e)) }
{
    let others = others(alloc, y, g)?;
    if let Some(fault) = sum_fault(x, f, y, g, &others) {
        return Err(fault);
    }
    Ok(summed(alloc, x, f, y, g, &others)?)
}

// The vertices of y that are not in g.
fn others(alloc: Global, y: &Facets, g: &[u32]) -> Result<Vec<u32>, Memory>
    ensures { IfOk result (λ v. v.items ≡ minus (verts y.now) g.now) }
{
    let vertices = y.vertices()?;
    Ok(
        vertices
            .as_slice()
            .iter()
            .copied()
            .filter(|vertex| !g.contains(vertex))
            .collect(alloc)?,
    )
}

fn sum_fault(x: &Facets, f: &[u32], y: &Facets, g: &[u32], others: &[u32]) -> Option<MakeFault>
    requires f { simplex_fault f.now ≡ None }
    requires g { simplex_fault g.now ≡ None }
    requires others { others.now ≡ minus (verts y.now) g.now }
    ensures { result ≡ first_failing (sum_tests x.now f.now y.now g.now) }
{
    if !x.is_pure() || !y.is_pure() {
        return Some(MakeFault::NotPure);
    }
    if x.size() != y.size() {
        return Some(MakeFault::DimDiffers);
    }
    if !x.is_facet(&simplex_of(f)) || !y.is_facet(&simplex_of(g)) {
        return Some(MakeFault::NotFacet);
    }
    if x.max_label() as u64 + others.len() as u64 > LABEL_LIMIT as u64 {
        return Some(MakeFault::LabelRange);
    }
    None
}

fn summed(
    alloc: Global,
    x: &Facets,
    f: &[u32],
    y: &Facets,
    g: &[u32],
    others: &[u32],
) -> Result<Facets, Memory>
    requires f { simplex_fault f.now ≡ None }
    requires g { simplex_fault g.now ≡ None }
    requires others { others.now ≡ minus (verts y.now) g.now }
    requires passed { first_failing (sum_tests x.now f.now y.now g.now) ≡ None }
    ensures { IfOk result (λ d. d ≡ sum_of x.now f.now y.now g.now) }
{
    let pairs = glued(alloc, x, f, g, others)?;
    let list = facets_of_both(alloc, x.as_slice(), f, y.as_slice(), g, &pairs)?;
    Facets::generated(alloc, &list)
}

// What the labels of g and the other vertices become.
fn glued(
    alloc: Global,
    x: &Facets,
    f: &[u32],
    g: &[u32],
    others: &[u32],
) -> Result<Vec<(u32, u32)>, Memory>
    requires { greatest x.now + length others.now ≤ label_limit }
    ensures { IfOk result (λ v. v.items ≡ zip g.now f.now ++ renumbering (greatest x.now) others.now) }
{
    let mut pairs = zipped(alloc, g, f)?;
    let new = renumbering(alloc, x.max_label(), others)?;
    pairs.extend_from_slice(&new)?;
    Ok(pairs)
}

// The first facets but f, and the second ones but g with their new labels.
fn facets_of_both(
    alloc: Global,
    first: &[Simplex],
    f: &[u32],
    second: &[Simplex],
    g: &[u32],
    pairs: &[(u32, u32)],
) -> Result<Vec<Simplex>, Memory>
    requires f { simplex_fault f.now ≡ None }
    requires g { simplex_fault g.now ≡ None }
    requires labels { IsTrue (list_all (λ p. is_label p.1) pairs.now) }
    ensures { IfOk result (λ v. v.items ≡ all_but (set f.now) first.now ++ map (relabelled pairs.now) (all_but (set g.now) second.now)) }
{
    let mut list = all_but(alloc, first, &simplex_of(f))?;
    let rest = all_but(alloc, second, &simplex_of(g))?;
    let new = images(alloc, &rest, pairs)?;
    list.extend_from_slice(&new)?;
    Ok(list)
}

/// The facets but f and g, where each label of g becomes that of f at its place as written. `NotPure`, `NotFacet`,
/// `Overlap` where the two have a label in common, or `Near` with the first label of f, as written, that is joined to its
/// partner by an edge or has a common neighbour with it (own).
pub fn handle(alloc: Global, x: &Facets, f: &[u32], g: &[u32]) -> Result<Facets, MakeFault>
    requires f { simplex_fault f.now ≡ None }
    requires g { simplex_fault g.now ≡ None }
    ensures value { IfOk result (λ d. d ≡ handle x.now f.now g.now) }
    ensures passed { OnOk result (first_failing (handle_tests x.now f.now g.now) ≡ None) }
    ensures faults { IfErr result (λ e. (e ≡ fault.Memory) ⊎ (first_failing (handle_tests x.now f.now g.now) ≡ Some e)) }
{
    if let Some(fault) = handle_fault(alloc, x, f, g)? {
        return Err(fault);
    }
    Ok(handled(alloc, x, f, g)?)
}

fn handle_fault(
    alloc: Global,
    x: &Facets,
    f: &[u32],
    g: &[u32],
) -> Result<Option<MakeFault>, Memory>
    requires f { simplex_fault f.now ≡ None }
    requires g { simplex_fault g.now ≡ None }
    ensures { IfOk result (λ o. o ≡ first_failing (handle_tests x.now f.now g.now)) }
{
    if !x.is_pure() {
        return Ok(Some(MakeFault::NotPure));
    }
    if !x.is_facet(&simplex_of(f)) || !x.is_facet(&simplex_of(g)) {
        return Ok(Some(MakeFault::NotFacet));
    }
    if !is_disjoint(f, g) {
        return Ok(Some(MakeFault::Overlap));
    }
    near_fault(alloc, x.as_slice(), &zipped(alloc, f, g)?)
}

fn is_disjoint(f: &[u32], g: &[u32]) -> bool
    ensures { result ≡ is_disjoint f.now g.now }
{
    f.iter().all(|label| !g.contains(label))
}

fn near_fault(
    alloc: Global,
    facets: &[Simplex],
    pairs: &[(u32, u32)],
) -> Result<Option<MakeFault>, Memory>
    ensures { IfOk result (λ o. o ≡ first_failing (near_tests facets.now pairs.now)) }
{
    for pair in pairs {
        if is_near(alloc, facets, pair.0, pair.1)? {
            return Ok(Some(MakeFault::Near { vertex: pair.0 }));
        }
    }
    Ok(None)
}

fn handled(alloc: Global, x: &Facets, f: &[u32], g: &[u32]) -> Result<Facets, Memory>
    requires f { simplex_fault f.now ≡ None }
    requires g { simplex_fault g.now ≡ None }
    ensures { IfOk result (λ d. d ≡ handle x.now f.now g.now) }
{
    let first = all_but(alloc, x.as_slice(), &simplex_of(g))?;
    let rest = all_but(alloc, &first, &simplex_of(f))?;
    image(alloc, &rest, &zipped(alloc, g, f)?)
}
