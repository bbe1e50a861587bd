// All faces of a complex, in increasing order.
ghost use Rattle.std.specs.Prelude.{◌≡◌, ◌++◌, IfOk, OnOk};
ghost use Rattle.std.specs.List.{flat_map};
ghost use Rattle.facet_set.specs.Complex.{faces};
ghost use Rattle.facet_set.specs.Facets.{IsFacets};
ghost use Rattle.morse_lists.specs.Cells.{numbered};

use facet_set::Facets;
use simplex::{Memory, Simplex};
use std::alloc::Global;

/// All faces, the empty one too.
pub fn all_faces(alloc: Global, c: &Facets) -> Result<Vec<Simplex>, Memory>
    ensures value { IfOk result (λ v. v.items ≡ faces c.now) }
    ensures facets { IsFacets c.now }
{
    let mut list = subsets_of_all(alloc, c.as_slice())?;
    list.sort_unstable();
    list.dedup();
    Ok(list)
}

// The subsets of each facet.
fn subsets_of_all(alloc: Global, facets: &[Simplex]) -> Result<Vec<Simplex>, Memory>
    ensures { IfOk result (λ v. v.items ≡ flat_map numbered facets.now) }
{
    let mut list = Vec::new(alloc);
    for facet in facets {
        add_subsets(&mut list, facet)?;
    }
    Ok(list)
}

fn add_subsets(list: &mut Vec<Simplex>, facet: &Simplex) -> Result<(), Memory>
    ensures { OnOk result (list.new.items ≡ list.old.items ++ numbered facet.now) }
{
    for mask in 0..1u32 << facet.len() {
        list.push(facet.subset(mask))?;
    }
    Ok(())
}
