ghost use Rattle.std.specs.Prelude.{◌≡◌, List, [], ◌∷◌, ◌++◌, None, map, IfOk, OnOk, IfErr};
ghost use Rattle.std.specs.List.{flat_map};
ghost use Rattle.simplex.specs.FirstFailing.{first_failing};
ghost use Rattle.simplex.specs.SimplexFault.{set, simplex_fault};
ghost use Rattle.facet_set.specs.Complex.{generated};
ghost use Rattle.script_shell.specs.Commands.{Test, list_tests};
ghost use Rattle.script_shell.specs.Stops.{StopsAt};
ghost use Rattle.script_shell.specs.Saturated.{saturated};

use crate::stop::Stop;
use facet_set::Facets;
use simplex::{Labels, Lists, Memory, Numbers, Simplex, Simplices};
use std::alloc::Global;

/// The complex that the lists generate, or the first condition that a list fails.
pub fn generated(alloc: Global, lists: &Lists) -> Result<Facets, Stop>
    ensures passed { OnOk result (first_failing (flat_map list_tests lists.now) ≡ None) }
    ensures complex { IfOk result (λ facets. facets ≡ generated (map set lists.now)) }
    ensures refused { IfErr result (λ stop. StopsAt stop (first_failing (flat_map list_tests lists.now))) }
{
    let simplices = simplices_of(alloc, lists.as_slice())?;
    Ok(Facets::generated(alloc, simplices.as_slice())?)
}

// The simplices of the lists of numbers, or the first condition that a list fails.
fn simplices_of(alloc: Global, lists: &[Numbers]) -> Result<Simplices, Stop>
    ensures sets { IfOk result (λ simplices. simplices ≡ map set lists.now) }
    ensures clean { OnOk result (first_failing (flat_map list_tests lists.now) ≡ None) }
    ensures refused { IfErr result (λ stop. StopsAt stop (first_failing (flat_map list_tests lists.now))) }
{
    let mut simplices = Simplices::new(alloc);
    let mut labels = Vec::new(alloc);
    for list in lists {
        simplices.push(simplex_by(&mut labels, list.as_slice())?)?;
    }
    Ok(simplices)
}

// The simplex of the numbers, or the first condition that they fail.
fn simplex_of(alloc: Global, numbers: &[u64]) -> Result<Simplex, Stop>
    ensures set { IfOk result (λ simplex. simplex ≡ set numbers.now) }
    ensures clean { OnOk result (first_failing (list_tests numbers.now) ≡ None) }
    ensures refused { IfErr result (λ stop. StopsAt stop (first_failing (list_tests numbers.now))) }
{
    simplex_by(&mut Vec::new(alloc), numbers)
}

/// The simplex of a list, or the first condition that the list fails, whatever the tests behind those of the list.
pub fn simplex_first(alloc: Global, list: &Numbers) -> Result<Simplex, Stop>
    ensures set { IfOk result (λ simplex. simplex ≡ set list.now) }
    ensures clean { OnOk result ((own : List Test) → first_failing (flat_map list_tests (list.now ∷ []) ++ own) ≡ first_failing own) }
    ensures refused { IfErr result (λ stop. (own : List Test) → StopsAt stop (first_failing (flat_map list_tests (list.now ∷ []) ++ own))) }
{
    simplex_of(alloc, list.as_slice())
}

/// The simplices of two lists, or the first condition that one of them fails, whatever the tests behind those of the lists.
pub fn simplices_first(alloc: Global, a: &Numbers, b: &Numbers) -> Result<(Simplex, Simplex), Stop>
    ensures sets { IfOk result (λ pair. (pair.0 ≡ set a.now) × (pair.1 ≡ set b.now)) }
    ensures clean { OnOk result ((own : List Test) → first_failing (flat_map list_tests (a.now ∷ b.now ∷ []) ++ own) ≡ first_failing own) }
    ensures refused { IfErr result (λ stop. (own : List Test) → StopsAt stop (first_failing (flat_map list_tests (a.now ∷ b.now ∷ []) ++ own))) }
{
    let first = simplex_of(alloc, a.as_slice())?;
    let second = simplex_of(alloc, b.as_slice())?;
    Ok((first, second))
}

/// The labels of two lists in the order written, or the first condition that one of them fails, whatever the tests behind those of the lists.
pub fn labels_first(alloc: Global, a: &Numbers, b: &Numbers) -> Result<(Labels, Labels), Stop>
    ensures lists { IfOk result (λ pair. (pair.0 ≡ a.now) × (pair.1 ≡ b.now)) }
    ensures simplices { OnOk result ((simplex_fault a.now ≡ None) × (simplex_fault b.now ≡ None)) }
    ensures clean { OnOk result ((own : List Test) → first_failing (flat_map list_tests (a.now ∷ b.now ∷ []) ++ own) ≡ first_failing own) }
    ensures refused { IfErr result (λ stop. (own : List Test) → StopsAt stop (first_failing (flat_map list_tests (a.now ∷ b.now ∷ []) ++ own))) }
{
    let first = labels_of(alloc, a.as_slice())?;
    let second = labels_of(alloc, b.as_slice())?;
    Ok((first, second))
}

// The labels of a list in the order written, or the first condition that the list fails.
fn labels_of(alloc: Global, numbers: &[u64]) -> Result<Labels, Stop>
    ensures list { IfOk result (λ labels. labels ≡ numbers.now) }
    ensures simplex { OnOk result (simplex_fault numbers.now ≡ None) }
    ensures clean { OnOk result (first_failing (list_tests numbers.now) ≡ None) }
    ensures refused { IfErr result (λ stop. StopsAt stop (first_failing (list_tests numbers.now))) }
{
    let mut labels = Vec::new(alloc);
    put_labels(&mut labels, numbers)?;
    Simplex::of(labels.as_slice())?;
    Ok(Labels::from_vec(labels))
}

// The simplex of the numbers, by a list of labels whose room is used again.
fn simplex_by(labels: &mut Vec<u32>, numbers: &[u64]) -> Result<Simplex, Stop>
    ensures set { IfOk result (λ simplex. simplex ≡ set numbers.now) }
    ensures clean { OnOk result (first_failing (list_tests numbers.now) ≡ None) }
    ensures refused { IfErr result (λ stop. StopsAt stop (first_failing (list_tests numbers.now))) }
{
    put_labels(labels, numbers)?;
    Ok(Simplex::of(labels.as_slice())?)
}

// The numbers as labels, in place of those that the list holds.
fn put_labels(labels: &mut Vec<u32>, numbers: &[u64]) -> Result<(), Memory>
    ensures { OnOk result (labels.new.items ≡ map saturated numbers.now) }
{
    labels.clear();
    for n in numbers {
        labels.push(saturated(*n))?;
    }
    Ok(())
}

/// The number as a u32. One that is too great becomes the greatest, which is no label either.
pub fn saturated(n: u64) -> u32
    ensures { result ≡ saturated n }
{
    n.min(u32::MAX as u64) as u32
}
