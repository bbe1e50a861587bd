// Boundaries of simplices and of cross-polytopes.
ghost use Rattle.std.specs.Prelude.{◌≡◌, ◌≤◌, ◌<◌, ◌+◌, ◌*◌, ◌++◌, [], ◌∷◌, ◌⊎◌, None, Some, ℕ, List, map, IfOk, IfErr, OnOk, IsTrue};
ghost use Rattle.std.specs.List.{range_with_len, flat_map};
ghost use Rattle.simplex.specs.FirstFailing.{first_failing};
ghost use Rattle.simplex.specs.Members.{In};
ghost use Rattle.simplex.specs.Simplex.{is_simplex, without};
ghost use Rattle.constructions.specs.Spheres.{bdsimplex, bdcross, sphere_tests};
ghost use Rattle.constructions.specs.declared.make_fault.MakeFault.TheVariants as fault;

use crate::MakeFault;
use crate::sets::simplex_of;
use facet_set::{Facets, point};
use simplex::{LEN_LIMIT, Memory, Simplex};
use std::alloc::{AllocError, Global};

/// The boundary of the d-simplex on the labels 1 to d + 1. `Range` where d is 0, `DimLimit` where it is above 12.
pub fn bdsimplex(alloc: Global, d: u64) -> Result<Facets, MakeFault>
    ensures value { IfOk result (λ c. c ≡ bdsimplex d) }
    ensures passed { OnOk result (first_failing (sphere_tests d) ≡ None) }
    ensures faults { IfErr result (λ e. (e ≡ fault.Memory) ⊎ (first_failing (sphere_tests d) ≡ Some e)) }
{
    if let Some(fault) = sphere_fault(d) {
        return Err(fault);
    }
    Ok(simplex_boundary(alloc, d as u32)?)
}

/// The boundary of the cross-polytope of dimension d: the sets with one label of each of the pairs {1, 2}, {3, 4}, up to
/// {2d - 1, 2d}. `Range` where d is 0, `DimLimit` where it is above 12.
pub fn bdcross(alloc: Global, d: u64) -> Result<Facets, MakeFault>
    ensures value { IfOk result (λ c. c ≡ bdcross d) }
    ensures passed { OnOk result (first_failing (sphere_tests d) ≡ None) }
    ensures faults { IfErr result (λ e. (e ≡ fault.Memory) ⊎ (first_failing (sphere_tests d) ≡ Some e)) }
{
    if let Some(fault) = sphere_fault(d) {
        return Err(fault);
    }
    Ok(cross_boundary(alloc, d as u32)?)
}

fn sphere_fault(d: u64) -> Option<MakeFault>
    ensures { result ≡ first_failing (sphere_tests d) }
{
    if d == 0 {
        return Some(MakeFault::Range);
    }
    if d > LEN_LIMIT as u64 {
        return Some(MakeFault::DimLimit);
    }
    None
}

fn simplex_boundary(alloc: Global, d: u32) -> Result<Facets, Memory>
    requires { d ≤ 12 }
    ensures { IfOk result (λ c. c ≡ bdsimplex d) }
{
    let all = labels_to(alloc, d + 1)?;
    let list = all_without(alloc, &all)?;
    Facets::generated(alloc, &list)
}

// The simplices of the labels but one, for each of them.
fn all_without(alloc: Global, labels: &[u32]) -> Result<Vec<Simplex>, Memory>
    requires { (a : ℕ) → In a labels.now → IsTrue (is_simplex (without labels.now a)) }
    ensures { IfOk result (λ v. v.items ≡ map (without labels.now) labels.now) }
{
    let mut list = Vec::new(alloc);
    for label in labels {
        list.push(without(alloc, labels, *label)?)?;
    }
    Ok(list)
}

// The labels from 1 to the last.
fn labels_to(alloc: Global, last: u32) -> Result<Vec<u32>, Memory>
    requires { last ≤ 13 }
    ensures { IfOk result (λ v. v.items ≡ range_with_len 1 last) }
{
    let mut labels = Vec::new(alloc);
    for i in 0..last {
        labels.push(i + 1)?;
    }
    Ok(labels)
}

// The simplex of the labels but one.
fn without(alloc: Global, labels: &[u32], label: u32) -> Result<Simplex, Memory>
    requires { IsTrue (is_simplex (without labels.now label)) }
    ensures { IfOk result (λ s. s ≡ without labels.now label) }
{
    let rest = others(alloc, labels, label)?;
    Ok(simplex_of(&rest))
}

fn others(alloc: Global, labels: &[u32], label: u32) -> Result<Vec<u32>, AllocError>
    ensures { IfOk result (λ v. v.items ≡ without labels.now label) }
{
    labels
        .iter()
        .copied()
        .filter(|other| label != *other)
        .collect(alloc)
}

fn cross_boundary(alloc: Global, d: u32) -> Result<Facets, Memory>
    requires { d ≤ 12 }
    ensures { IfOk result (λ c. c ≡ bdcross d) }
{
    let mut list = Vec::new(alloc);
    list.push(Simplex::EMPTY)?;
    for i in 0..d {
        list = with_either(alloc, &list, 2 * i + 1)?;
    }
    Facets::generated(alloc, &list)
}

// Each simplex with the label added and with the next one added.
fn with_either(alloc: Global, simplices: &[Simplex], label: u32) -> Result<Vec<Simplex>, Memory>
    requires { (s : List ℕ) → In s simplices.now → IsTrue (is_simplex (s ++ label ∷ [])) × IsTrue (is_simplex (s ++ (label + 1) ∷ [])) }
    ensures { IfOk result (λ v. v.items ≡ flat_map (λ s. (s ++ label ∷ []) ∷ (s ++ (label + 1) ∷ []) ∷ []) simplices.now) }
{
    let mut list = Vec::new(alloc);
    for s in simplices {
        list.push(followed(s, label))?;
        list.push(followed(s, label + 1))?;
    }
    Ok(list)
}

fn followed(s: &Simplex, label: u32) -> Simplex
    requires { IsTrue (is_simplex (s.now ++ label ∷ [])) }
    ensures { result ≡ s.now ++ label ∷ [] }
{
    match s.union(&point(label)) {
        Some(union) => union,
        None => unreachable!(),
    }
}
