// What lies across the ridges of a complex.
ghost use Rattle.std.specs.Prelude.{◌≡◌, ℕ, List, Some, nat_eq, IfOk, OnOk, if◌then◌else◌};
ghost use Rattle.std.specs.HashMap.{get};
ghost use Rattle.std.specs.Cmp.Lexicographic.{pointwise};
ghost use Rattle.relabelling.specs.Ridges.{TellsEnds, with_end, other_end};

use simplex::{Memory, Simplex};
use std::alloc::Global;
use std::collections::HashMap;

/// For each ridge, that is, each simplex less one label, two of the labels that it is a simplex of the list with. The two are one
/// only where there is no second.
pub fn ends(alloc: Global, simplices: &[Simplex]) -> Result<HashMap<Simplex, (u32, u32)>, Memory>
    ensures { IfOk result (λ t. TellsEnds t simplices.now) }
{
    let mut ends = HashMap::new(alloc);
    for s in simplices {
        for label in s.labels() {
            add_end(&mut ends, s.without(*label), *label)?;
        }
    }
    Ok(ends)
}

fn add_end(
    ends: &mut HashMap<Simplex, (u32, u32)>,
    ridge: Simplex,
    label: u32,
) -> Result<(), Memory>
    ensures { OnOk result ((r : List ℕ) → get (pointwise nat_eq) ends.new r ≡ (if pointwise nat_eq ridge r then Some (with_end (get (pointwise nat_eq) ends.old ridge) label) else get (pointwise nat_eq) ends.old r)) }
{
    let pair = with_end(ends.get(&ridge).copied(), label);
    ends.insert(ridge, pair)?;
    Ok(())
}

fn with_end(pair: Option<(u32, u32)>, label: u32) -> (u32, u32)
    ensures { result ≡ with_end pair label }
{
    match pair {
        Some((first, second)) if first == label => (first, second),
        Some((first, _)) => (first, label),
        None => (label, label),
    }
}

/// Of the two labels that lie across from the ridge, the one that is not this.
pub fn other_end(ends: &HashMap<Simplex, (u32, u32)>, ridge: &Simplex, label: u32) -> Option<u32>
    ensures { result ≡ other_end (get (pointwise nat_eq) ends.now ridge.now) label }
{
    let (first, second) = ends.get(ridge).copied()?;
    Some(if first == label { second } else { first })
}
