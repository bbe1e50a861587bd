ghost use Rattle.std.specs.Prelude.{◌≡◌, ◌≤◌, ◌↔◌, ◌⊎◌, false, true, Err, All, IfOk, IfErr, if◌then◌else◌, nat_le};
ghost use Rattle.facet_set.specs.Connection.{components, is_closed};
ghost use Rattle.facet_set.specs.Numbers.{f_vector, is_pure, size};
ghost use Rattle.invariants.specs.Invariants.{invariants_of, sphere_invariants};
ghost use Rattle.invariants.specs.declared.invariant_fault.InvariantFault.TheVariants as fault;

use crate::InvariantFault;
use crate::face_counts::face_counts;
use face_vectors::{COUNT_LIMIT, euler};
use facet_set::Facets;
use local_parts::{components, is_closed};
use simplex::Memory;
use std::alloc::Global;

/// What each bistellar flip and each relabelling of a pure complex keeps.
#[derive(Clone, Copy, Debug, PartialEq, Eq)]
pub struct Invariants {
    /// The dimension.
    pub dim: i32,
    /// Whether each ridge lies in exactly two facets.
    pub closed: bool,
    /// The Euler characteristic.
    pub euler: i64,
    /// The number of components where the dimension is at least 1, and 0 elsewhere.
    pub components: u64,
}

/// The invariants of a pure complex. `is_within_limits` is a test for the condition.
pub fn invariants_of(alloc: Global, c: &Facets) -> Result<Invariants, InvariantFault>
    requires { All (λ n. n ≤ COUNT_LIMIT) (f_vector c.now) }
    ensures value { IfOk result (λ x. x ≡ invariants_of c.now) }
    ensures not_pure { (result ≡ Err fault.NotPure) ↔ (is_pure c.now ≡ false) }
    ensures faults { IfErr result (λ e. (e ≡ fault.NotPure) ⊎ (e ≡ fault.Memory)) }
{
    if !c.is_pure() {
        return Err(InvariantFault::NotPure);
    }
    Ok(of_pure(alloc, c)?)
}

fn of_pure(alloc: Global, c: &Facets) -> Result<Invariants, Memory>
    requires few { All (λ n. n ≤ COUNT_LIMIT) (f_vector c.now) }
    requires pure { is_pure c.now ≡ true }
    ensures { IfOk result (λ x. x ≡ invariants_of c.now) }
{
    let counts = face_counts(alloc, c)?;
    Ok(Invariants {
        dim: c.size() as i32 - 1,
        closed: closedness(alloc, c)?,
        euler: euler(&counts),
        components: component_count(alloc, c)?,
    })
}

fn closedness(alloc: Global, c: &Facets) -> Result<bool, Memory>
    requires { is_pure c.now ≡ true }
    ensures { IfOk result (λ b. b ≡ is_closed c.now) }
{
    match is_closed(alloc, c) {
        Ok(closed) => Ok(closed),
        Err(_) => Err(Memory),
    }
}

// The number of components, or 0 below dimension 1.
fn component_count(alloc: Global, c: &Facets) -> Result<u64, Memory>
    ensures { IfOk result (λ n. n ≡ (if nat_le 2 (size c.now) then components c.now else 0)) }
{
    if c.size() < 2 {
        return Ok(0);
    }
    Ok(components(alloc, c)? as u64)
}

/// The invariants of the boundary of each simplex of one dimension more than this.
#[tactic(auto, using(face_vectors::proofs::SignLaws::signed_by_parity))]
pub fn sphere_invariants(d: u32) -> Invariants
    requires { d ≤ 11 }
    ensures { result ≡ sphere_invariants d }
{
    Invariants {
        dim: d as i32,
        closed: true,
        euler: if d % 2 == 0 { 2 } else { 0 },
        components: if d == 0 { 0 } else { 1 },
    }
}
