// The classes of facets.
ghost use Rattle.std.specs.Prelude.{◌≡◌, ◌++◌, ◌↔◌, ◌⊎◌, ℕ, List, Some, Err, false, nat_eq, map, IfOk, IfErr, OnOk, IsTrue};
ghost use Rattle.std.specs.HashMap.{get};
ghost use Rattle.std.specs.Cmp.Lexicographic.{pointwise};
ghost use Rattle.simplex.specs.Simplex.{without};
ghost use Rattle.facet_set.specs.Numbers.{is_pure};
ghost use Rattle.facet_set.specs.Connection.{is_strong};
ghost use Rattle.local_parts.specs.Pairs.{ridge_places, IsTied};
ghost use Rattle.local_parts.specs.declared.part_fault.PartFault.TheVariants as fault;

use crate::PartFault;
use crate::forest::class_count;
use facet_set::Facets;
use simplex::{Memory, Simplex};
use std::alloc::Global;
use std::collections::HashMap;

/// Whether every two facets are joined by a chain of facets in which neighbours share a ridge.
pub fn is_strong(alloc: Global, c: &Facets) -> Result<bool, PartFault>
    ensures value { IfOk result (λ b. b ≡ is_strong c.now) }
    ensures not_pure { (result ≡ Err fault.NotPure) ↔ (is_pure c.now ≡ false) }
    ensures faults { IfErr result (λ e. (e ≡ fault.NotPure) ⊎ (e ≡ fault.Memory)) }
{
    if !c.is_pure() {
        return Err(PartFault::NotPure);
    }
    Ok(strong_of(alloc, c)?)
}

fn strong_of(alloc: Global, c: &Facets) -> Result<bool, Memory>
    requires { IsTrue (is_pure c.now) }
    ensures { IfOk result (λ b. b ≡ is_strong c.now) }
{
    let facets = c.as_slice();
    let places = ridge_places(alloc, facets)?;
    let pairs = facet_pairs(alloc, &places)?;
    let count = class_count(alloc, facets.len(), &pairs)?;
    Ok(count <= 1)
}

/// The ridges of each facet, with the place of the facet.
pub fn ridge_places(alloc: Global, facets: &[Simplex]) -> Result<Vec<(Simplex, usize)>, Memory>
    ensures { IfOk result (λ v. v.items ≡ ridge_places 0 facets.now) }
{
    let mut places = Vec::new(alloc);
    for i in 0..facets.len() {
        add_places(&mut places, &facets[i], i)?;
    }
    Ok(places)
}

fn add_places(places: &mut Vec<(Simplex, usize)>, facet: &Simplex, i: usize) -> Result<(), Memory>
    ensures { OnOk result (places.new.items ≡ places.old.items ++ map (λ a. (without facet.now a, i)) facet.now) }
{
    for label in facet.labels() {
        places.push((facet.without(*label), i))?;
    }
    Ok(())
}

/// Each facet with the first one that has the same ridge, for each of its ridges.
pub fn facet_pairs(
    alloc: Global,
    places: &[(Simplex, usize)],
) -> Result<Vec<(usize, usize)>, Memory>
    ensures { IfOk result (λ v. IsTied places.now v.items) }
{
    let mut firsts = HashMap::new(alloc);
    let mut pairs = Vec::new(alloc);
    for place in places {
        let first = first_at(&mut firsts, place.0, place.1)?;
        pairs.push((place.1, first))?;
    }
    Ok(pairs)
}

// The facet that the ridge was first found in, which is this one where it was not yet.
fn first_at(firsts: &mut HashMap<Simplex, usize>, ridge: Simplex, i: usize) -> Result<usize, Memory>
    ensures found { IfOk result (λ j. get (pointwise nat_eq) firsts.new ridge ≡ Some j) }
    ensures kept { OnOk result ((t : List ℕ) (j : ℕ) → get (pointwise nat_eq) firsts.old t ≡ Some j
        → get (pointwise nat_eq) firsts.new t ≡ Some j) }
    ensures added { OnOk result ((t : List ℕ) (j : ℕ) → get (pointwise nat_eq) firsts.new t ≡ Some j
        → (get (pointwise nat_eq) firsts.old t ≡ Some j) ⊎ ((t ≡ ridge) × (j ≡ i))) }
{
    if let Some(first) = firsts.get(&ridge) {
        return Ok(*first);
    }
    firsts.insert(ridge, i)?;
    Ok(i)
}
