// Stacked spheres.
ghost use Rattle.std.specs.Prelude.{◌≡◌, ◌≤◌, ◌<◌, ◌+◌, ◌*◌, ◌%◌, ◌⊎◌, ℕ, List, [], ◌∷◌, ◌++◌, Some, None, map, length, slice_index_or, nat_lt, IfOk, OnOk, IfErr, true};
ghost use Rattle.std.specs.List.{list_all, remove};
ghost use Rattle.simplex.specs.FirstFailing.{first_failing};
ghost use Rattle.simplex.specs.InOrder.{in_order, is_increasing, put};
ghost use Rattle.simplex.specs.Simplex.{simplex_cmp, without, label_limit};
ghost use Rattle.constructions.specs.Spheres.{bdsimplex};
ghost use Rattle.constructions.specs.Stacked.{stacked, stacked_tests, StackedGoes};
ghost use Rattle.constructions.specs.declared.make_fault.MakeFault.TheVariants as fault;

use crate::MakeFault;
use crate::fronts::{first_labels, with_last};
use facet_set::Facets;
use ranked_set::RankedSet;
use seeded_words::Words;
use simplex::{LABEL_LIMIT, LEN_LIMIT, Memory, Simplex, Steps};
use std::alloc::Global;
use std::marker::Brand;
use std::sync::ledger::{Blank, Ledger};

/// The stacked sphere of dimension d that n flips of class 0 make of the boundary of a simplex, one for each word of the seed (own). The
/// result weighs at most `room`.
pub fn stacked(alloc: Global, d: u64, n: u64, seed: u64, room: u64) -> Result<Facets, MakeFault>
    ensures value { IfOk result (λ c. c ≡ stacked d n seed) }
    ensures passed { OnOk result (first_failing (stacked_tests d n seed room) ≡ None) }
    ensures faults { IfErr result (λ e. (e ≡ fault.Memory) ⊎ (first_failing (stacked_tests d n seed room) ≡ Some e)) }
{
    if let Some(fault) = stacked_fault(d, n, room) {
        return Err(fault);
    }
    Ok(build(alloc, d as u32, n as u32, seed)?)
}

// The first test that fails.
fn stacked_fault(d: u64, n: u64, room: u64) -> Option<MakeFault>
    ensures exact { (seed : ℕ) → result ≡ first_failing (stacked_tests d n seed room) }
    ensures dim { result ≡ None → (1 ≤ d) × (d ≤ 11) }
    ensures labels { result ≡ None → d + 2 + n ≤ label_limit }
{
    if d == 0 {
        return Some(MakeFault::Range);
    }
    if d >= LEN_LIMIT as u64 {
        return Some(MakeFault::DimLimit);
    }
    if n > LABEL_LIMIT as u64 - 2 - d {
        return Some(MakeFault::LabelRange);
    }
    if (d + 2 + d * n) << (d + 1) > room {
        return Some(MakeFault::Size);
    }
    None
}

fn build(alloc: Global, d: u32, n: u32, seed: u64) -> Result<Facets, Memory>
    requires dim { (1 ≤ d) × (d ≤ 11) }
    requires labels { d + 2 + n ≤ label_limit }
    ensures { IfOk result (λ c. c ≡ stacked d n seed) }
{
    build_by::<Brand>(alloc, d, n, seed, Blank::new(1))
}

// The same with a counter of its own, which nobody reads.
fn build_by<L: Ledger>(
    alloc: Global,
    d: u32,
    n: u32,
    seed: u64,
    blank: Blank,
) -> Result<Facets, Memory>
    requires name { blank.name ≡ L.name }
    requires parts { blank.parts ≡ L.parts }
    requires some { 0 < L.parts }
    requires dim { (1 ≤ d) × (d ≤ 11) }
    requires labels { d + 2 + n ≤ label_limit }
    ensures { IfOk result (λ c. c ≡ stacked d n seed) }
{
    let mut steps = Steps::<L>::open(blank);
    let mut facets = start(alloc, d, &mut steps)?;
    let mut words = Words::new(seed);
    for k in 0..n {
        let count = (d + 2 + d * k) as usize;
        stack(&mut facets, count, words.next(), d + 3 + k, &mut steps)?;
    }
    Facets::generated(alloc, &facets.to_vec()?)
}

// The boundary of the simplex with the labels 1..d+2.
fn start<L: Ledger>(alloc: Global, d: u32, steps: &mut Steps<L>) -> Result<RankedSet, Memory>
    requires { (1 ≤ d) × (d ≤ 11) }
    ensures value { IfOk result (λ r. r.members ≡ bdsimplex (d + 1)) }
    ensures rising { IfOk result (λ r. is_increasing simplex_cmp r.members ≡ true) }
{
    let base = first_labels(d + 1);
    let mut facets = RankedSet::new(alloc);
    put_in(&mut facets, &base, steps)?;
    put_cones(&mut facets, &base, d + 2, steps)?;
    Ok(facets)
}

// Replaces the facet with the number of the word by its cones.
fn stack<L: Ledger>(
    facets: &mut RankedSet,
    count: usize,
    word: u32,
    label: u32,
    steps: &mut Steps<L>,
) -> Result<(), Memory>
    requires rising { is_increasing simplex_cmp facets.old.members ≡ true }
    requires count { count ≡ length facets.old.members }
    requires some { 0 < count }
    requires labels { list_all (λ s. list_all (λ x. nat_lt x label) s) facets.old.members ≡ true }
    requires limit { label ≤ label_limit }
    ensures value { OnOk result (let c = facets.old.members in let a = slice_index_or c (word % count) [] in
        facets.new.members ≡ in_order simplex_cmp (map (λ x. without a x ++ label ∷ []) a ++ remove c (word % count))) }
    ensures rising { OnOk result (is_increasing simplex_cmp facets.new.members ≡ true) }
{
    let facet = match facets.at(word as usize % count) {
        Some(facet) => facet,
        None => unreachable!(),
    };
    facets.remove(&facet, steps);
    put_cones(facets, &facet, label, steps)
}

// Puts in the simplex with one of its labels replaced by the new one, for each of its labels.
fn put_cones<L: Ledger>(
    facets: &mut RankedSet,
    base: &Simplex,
    label: u32,
    steps: &mut Steps<L>,
) -> Result<(), Memory>
    requires rising { is_increasing simplex_cmp facets.old.members ≡ true }
    requires labels { list_all (λ x. nat_lt x label) base.now ≡ true }
    requires limit { label ≤ label_limit }
    ensures value { OnOk result (facets.new.members ≡ in_order simplex_cmp (map (λ x. without base.now x ++ label ∷ []) base.now ++ facets.old.members)) }
    ensures rising { OnOk result (is_increasing simplex_cmp facets.new.members ≡ true) }
{
    for old in base.labels() {
        put_in(facets, &with_last(&base.without(*old), label), steps)?;
    }
    Ok(())
}

// Puts the simplex in, where it is no member yet.
fn put_in<L: Ledger>(
    facets: &mut RankedSet,
    s: &Simplex,
    steps: &mut Steps<L>,
) -> Result<(), Memory>
    ensures value { OnOk result (facets.new.members ≡ put simplex_cmp s.now facets.old.members) }
    ensures rising { OnOk result (is_increasing simplex_cmp facets.new.members ≡ true) }
{
    if !facets.has(s) {
        facets.reserve(1)?;
        facets.insert(s, steps);
    }
    Ok(())
}

/// Each flip that makes a stacked sphere is allowed where it stands, and of class 0.
pub fn stacked_goes()
    ensures { StackedGoes }
{}
