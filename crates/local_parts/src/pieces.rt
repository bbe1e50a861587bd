// The simplices that come of the facets, one facet after another.
ghost use Rattle.std.specs.Prelude.{◌≡◌, ◌++◌, map, IfOk, OnOk};
ghost use Rattle.std.specs.List.{flat_map};
ghost use Rattle.simplex.specs.Simplex.{without};
ghost use Rattle.facet_set.specs.Complex.{facets_with};
ghost use Rattle.facet_set.specs.Parts.{link_pieces};
ghost use Rattle.local_parts.specs.Pieces.{pieces};

use simplex::{Memory, Simplex};
use std::alloc::{AllocError, Global};

/// The facets that contain the simplex.
pub fn facets_with(
    alloc: Global,
    facets: &[Simplex],
    a: &Simplex,
) -> Result<Vec<Simplex>, AllocError>
    ensures { IfOk result (λ v. v.items ≡ facets_with facets.now a.now) }
{
    facets
        .iter()
        .copied()
        .filter(|facet| a.within(facet))
        .collect(alloc)
}

/// The facets that contain the simplex, less its labels.
pub fn link_pieces(
    alloc: Global,
    facets: &[Simplex],
    a: &Simplex,
) -> Result<Vec<Simplex>, AllocError>
    ensures { IfOk result (λ v. v.items ≡ link_pieces facets.now a.now) }
{
    facets
        .iter()
        .filter(|facet| a.within(facet))
        .map(|facet| facet.minus(a))
        .collect(alloc)
}

/// The facets that do not contain the simplex, and the others less one of its labels each.
pub fn deletion_pieces(
    alloc: Global,
    facets: &[Simplex],
    a: &Simplex,
) -> Result<Vec<Simplex>, Memory>
    ensures { IfOk result (λ v. v.items ≡ flat_map (pieces a.now) facets.now) }
{
    let mut list = Vec::new(alloc);
    for facet in facets {
        add_pieces(&mut list, facet, a)?;
    }
    Ok(list)
}

fn add_pieces(list: &mut Vec<Simplex>, facet: &Simplex, a: &Simplex) -> Result<(), Memory>
    ensures { OnOk result (list.new.items ≡ list.old.items ++ pieces a.now facet.now) }
{
    if a.within(facet) {
        return add_lacking(list, facet, a.labels());
    }
    list.push(*facet)?;
    Ok(())
}

/// Adds the simplex less one of the labels, for each of them.
pub fn add_lacking(list: &mut Vec<Simplex>, s: &Simplex, labels: &[u32]) -> Result<(), Memory>
    ensures { OnOk result (list.new.items ≡ list.old.items ++ map (without s.now) labels.now) }
{
    for label in labels {
        list.push(s.without(*label))?;
    }
    Ok(())
}
