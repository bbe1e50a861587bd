// Joins, cones and suspensions.
ghost use Rattle.std.specs.Prelude.{◌≡◌, ◌≤◌, ◌+◌, ◌-◌, ◌*◌, ◌^◌, ◌++◌, ◌⊎◌, ℕ, List, min, None, Some, map, length, IfOk, IfErr, OnOk};
ghost use Rattle.std.specs.List.{flat_map};
ghost use Rattle.simplex.specs.FirstFailing.{first_failing};
ghost use Rattle.simplex.specs.Members.{In};
ghost use Rattle.simplex.specs.Simplex.{union};
ghost use Rattle.facet_set.specs.Numbers.{weight};
ghost use Rattle.constructions.specs.Joins.{join, cone, suspension, point, two_points, fit_tests, join_tests};
ghost use Rattle.constructions.specs.declared.make_fault.MakeFault.TheVariants as fault;

use crate::MakeFault;
use crate::relabelling::renumbering;
use facet_set::{Facets, image, point};
use simplex::{LABEL_LIMIT, LEN_LIMIT, Memory, Simplex};
use std::alloc::Global;

/// The unions of a facet of x and a facet of y, the vertices of y in increasing order with the labels that follow the
/// greatest of x (textbook; the labels are own). `DimLimit` where a facet would have more than 12 labels, `LabelRange` where
/// a label would be above 1,000,000, `Size` where the weight would be above the room.
pub fn join(alloc: Global, x: &Facets, y: &Facets, room: u64) -> Result<Facets, MakeFault>
    ensures value { IfOk result (λ d. d ≡ join x.now y.now) }
    ensures passed { OnOk result (first_failing (join_tests x.now y.now room) ≡ None) }
    ensures faults { IfErr result (λ e. (e ≡ fault.Memory) ⊎ (first_failing (join_tests x.now y.now room) ≡ Some e)) }
{
    if let Some(fault) = join_fault(x, y, room)? {
        return Err(fault);
    }
    Ok(joined(alloc, x, y)?)
}

/// The join with one point (textbook). `DimLimit` and `LabelRange` as in the join.
pub fn cone(alloc: Global, x: &Facets) -> Result<Facets, MakeFault>
    ensures value { IfOk result (λ d. d ≡ cone x.now) }
    ensures passed { OnOk result (first_failing (fit_tests x.now point) ≡ None) }
    ensures faults { IfErr result (λ e. (e ≡ fault.Memory) ⊎ (first_failing (fit_tests x.now point) ≡ Some e)) }
{
    let apex = apex(alloc)?;
    if let Some(fault) = fit_fault(x, &apex)? {
        return Err(fault);
    }
    Ok(joined(alloc, x, &apex)?)
}

/// The join with two points (textbook). `DimLimit` and `LabelRange` as in the join.
pub fn suspension(alloc: Global, x: &Facets) -> Result<Facets, MakeFault>
    ensures value { IfOk result (λ d. d ≡ suspension x.now) }
    ensures passed { OnOk result (first_failing (fit_tests x.now two_points) ≡ None) }
    ensures faults { IfErr result (λ e. (e ≡ fault.Memory) ⊎ (first_failing (fit_tests x.now two_points) ≡ Some e)) }
{
    let apices = apices(alloc)?;
    if let Some(fault) = fit_fault(x, &apices)? {
        return Err(fault);
    }
    Ok(joined(alloc, x, &apices)?)
}

fn apex(alloc: Global) -> Result<Facets, Memory>
    ensures { IfOk result (λ d. d ≡ point) }
{
    Facets::generated(alloc, &[point(1)])
}

fn apices(alloc: Global) -> Result<Facets, Memory>
    ensures { IfOk result (λ d. d ≡ two_points) }
{
    Facets::generated(alloc, &[point(1), point(2)])
}

fn fit_fault(x: &Facets, y: &Facets) -> Result<Option<MakeFault>, Memory>
    ensures { IfOk result (λ o. o ≡ first_failing (fit_tests x.now y.now)) }
{
    let new = y.vertices()?.len();
    if x.size() + y.size() > LEN_LIMIT {
        return Ok(Some(MakeFault::DimLimit));
    }
    if x.max_label() as u64 + new as u64 > LABEL_LIMIT as u64 {
        return Ok(Some(MakeFault::LabelRange));
    }
    Ok(None)
}

fn join_fault(x: &Facets, y: &Facets, room: u64) -> Result<Option<MakeFault>, Memory>
    ensures { IfOk result (λ o. o ≡ first_failing (join_tests x.now y.now room)) }
{
    if let Some(fault) = fit_fault(x, y)? {
        return Ok(Some(fault));
    }
    if join_weight(x, y) > room as u128 {
        return Ok(Some(MakeFault::Size));
    }
    Ok(None)
}

// The product of the numbers of facets times 2 to the sum of the numbers of labels, or the last u128 where that is less.
fn join_weight(x: &Facets, y: &Facets) -> u128
    ensures { result ≡ min (weight (join x.now y.now)) (2 ^ 128 - 1) }
{
    let count = x.as_slice().len() as u128 * y.as_slice().len() as u128;
    count.saturating_mul(1 << (x.size() + y.size()))
}

fn joined(alloc: Global, x: &Facets, y: &Facets) -> Result<Facets, Memory>
    requires { first_failing (fit_tests x.now y.now) ≡ None }
    ensures { IfOk result (λ d. d ≡ join x.now y.now) }
{
    let vertices = y.vertices()?;
    let pairs = renumbering(alloc, x.max_label(), vertices.as_slice())?;
    let moved = image(alloc, y.as_slice(), &pairs)?;
    let list = unions(alloc, x.as_slice(), moved.as_slice())?;
    Facets::generated(alloc, &list)
}

fn unions(alloc: Global, xs: &[Simplex], ys: &[Simplex]) -> Result<Vec<Simplex>, Memory>
    requires { (s t : List ℕ) → In s xs.now → In t ys.now → length (union s t) ≤ 12 }
    ensures { IfOk result (λ v. v.items ≡ flat_map (λ s. map (union s) ys.now) xs.now) }
{
    let mut list = Vec::new(alloc);
    for s in xs {
        add_unions(&mut list, s, ys)?;
    }
    Ok(list)
}

fn add_unions(list: &mut Vec<Simplex>, s: &Simplex, ys: &[Simplex]) -> Result<(), Memory>
    requires { (t : List ℕ) → In t ys.now → length (union s.now t) ≤ 12 }
    ensures { OnOk result (list.new.items ≡ list.old.items ++ map (union s.now) ys.now) }
{
    for t in ys {
        list.push(union(s, t))?;
    }
    Ok(())
}

fn union(s: &Simplex, t: &Simplex) -> Simplex
    requires { length (union s.now t.now) ≤ 12 }
    ensures { result ≡ union s.now t.now }
{
    match s.union(t) {
        Some(union) => union,
        None => unreachable!(),
    }
}
