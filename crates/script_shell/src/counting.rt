ghost use Rattle.std.specs.Prelude.{◌≡◌, ◌≤◌, ◌<◌, ◌+◌, ◌⊎◌, None, Some, map, pos, length, IfOk, OnOk, IfErr};
ghost use Rattle.std.specs.List.{range_with_len};
ghost use Rattle.betti_tables.specs.Betti.{numbers as betti_numbers};
ghost use Rattle.betti_tables.specs.Limits.{limit_fault};
ghost use Rattle.betti_tables.specs.Ranks.{betti_vector};
ghost use Rattle.betti_tables.specs.declared.betti_fault.BettiFault.TheVariants as fault;
ghost use Rattle.facet_set.specs.Flips.{options};
ghost use Rattle.facet_set.specs.Numbers.{degree, f_vector, faces_of_size, size, weight, weight_limit};
ghost use Rattle.face_vectors.specs.Counts.{numbers, IsWithinLimits};

use betti_tables::{Betti, BettiFault, RankTable};
use face_lattice::Lattice;
use face_vectors::Counts;
use facet_set::Facets;
use flip_rules::options;
use simplex::{LEN_LIMIT, Memory, Numbers, Simplex, Simplices, Steps};
use std::alloc::Global;
use std::marker::Brand;
use std::sync::ledger::{Blank, Ledger};

/// The numbers of faces of the complex, from its dimension's 0 on.
pub fn counts(alloc: Global, complex: &Facets) -> Result<Counts, Memory>
    requires { weight complex.now ≤ weight_limit }
    ensures numbers { IfOk result (λ counts. numbers counts ≡ f_vector complex.now) }
    ensures limits { IfOk result IsWithinLimits }
{
    let lattice = Lattice::of(alloc, complex)?;
    Ok(counts_by(&lattice, complex))
}

// The same by the lattice of the complex.
fn counts_by(lattice: &Lattice, complex: &Facets) -> Counts
    requires same { lattice.now.facets ≡ complex.now }
    requires weight { weight complex.now ≤ weight_limit }
    ensures numbers { numbers result ≡ f_vector complex.now }
    ensures limits { IsWithinLimits result }
{
    let size = complex.size();
    let mut at = [0; 12];
    for k in 0..size {
        at[k] = lattice.face_count(k + 1) as u64;
    }
    Counts { size, at }
}

/// The Betti numbers over the field of two elements, with a table and a counter of steps of their own. `RankLimit` where
/// there are too many faces of one dimension.
pub fn betti(alloc: Global, complex: &Facets) -> Result<Betti, BettiFault>
    ensures value { IfOk result (λ b. map pos (betti_numbers b) ≡ betti_vector complex.now) }
    ensures limit { OnOk result (limit_fault complex.now ≡ None) }
    ensures faults { IfErr result (λ e. (e ≡ fault.Memory) ⊎ (limit_fault complex.now ≡ Some e)) }
{
    let lattice = Lattice::of(alloc, complex)?;
    betti_by::<Brand>(alloc, &lattice, Blank::new(1))
}

// The same by the lattice of the complex.
fn betti_by<L: Ledger>(alloc: Global, lattice: &Lattice, blank: Blank) -> Result<Betti, BettiFault>
    requires name { blank.name ≡ L.name }
    requires parts { blank.parts ≡ L.parts }
    requires some { 0 < L.parts }
    ensures value { IfOk result (λ b. map pos (betti_numbers b) ≡ betti_vector lattice.now.facets) }
    ensures limit { OnOk result (limit_fault lattice.now.facets ≡ None) }
    ensures faults { IfErr result (λ e. (e ≡ fault.Memory) ⊎ (limit_fault lattice.now.facets ≡ Some e)) }
{
    let mut steps = Steps::<L>::open(blank);
    RankTable::new().betti(alloc, lattice, &mut steps)
}

/// The faces of dimension k, in order. There are none above the dimension of the complex.
pub fn faces(alloc: Global, complex: &Facets, k: u64) -> Result<Simplices, Memory>
    ensures { IfOk result (λ faces. faces ≡ faces_of_size complex.now (k + 1)) }
{
    let lattice = Lattice::of(alloc, complex)?;
    lattice.faces_of_size(size_of(complex, k))
}

// How many labels the faces of dimension k have, or a number that no face has where there are none.
fn size_of(complex: &Facets, k: u64) -> usize
    ensures { faces_of_size complex.now result ≡ faces_of_size complex.now (k + 1) }
{
    prove!(complex.as_slice().len() <= usize::MAX);
    k.min(LEN_LIMIT as u64) as usize + 1
}

/// How many facets contain the simplex.
pub fn degree(complex: &Facets, s: &Simplex) -> usize
    ensures { result ≡ degree complex.now s.now }
{
    complex
        .as_slice()
        .iter()
        .filter(|facet| s.within(facet))
        .count()
}

/// How many flips of each class the complex allows, for the classes from 0 to its dimension.
#[tactic(auto, using(crate::proofs::Options::more_counts))]
pub fn option_counts(alloc: Global, complex: &Facets) -> Result<Numbers, Memory>
    ensures { IfOk result (λ counts. counts ≡ map (λ i. length (options complex.now i)) (range_with_len 0 (size complex.now))) }
{
    let mut counts = Numbers::new(alloc);
    for class in 0..complex.size() {
        let flips = options(alloc, complex, class)?;
        counts.push(flips.len() as u64)?;
    }
    Ok(counts)
}
