ghost use Rattle.std.specs.Prelude.{◌≡◌, ◌++◌, IfOk, OnOk};
ghost use Rattle.std.specs.List.{flat_map};
ghost use Rattle.facet_set.specs.Parts.{skeleton};
ghost use Rattle.local_parts.specs.Pieces.{subset_of_size, largest_subsets};

use facet_set::Facets;
use simplex::{LEN_LIMIT, Memory, Simplex};
use std::alloc::Global;

/// The complex of the faces of dimension at most k.
pub fn skeleton(alloc: Global, c: &Facets, k: u64) -> Result<Facets, Memory>
    ensures { IfOk result (λ d. d ≡ skeleton c.now k) }
{
    let size = k.min(LEN_LIMIT as u64 - 1) as usize + 1;
    let pieces = skeleton_pieces(alloc, c.as_slice(), size)?;
    Facets::generated(alloc, &pieces)
}

// The subsets of the facets with so many labels, and the facets with fewer.
fn skeleton_pieces(alloc: Global, facets: &[Simplex], size: usize) -> Result<Vec<Simplex>, Memory>
    ensures { IfOk result (λ v. v.items ≡ flat_map (largest_subsets size) facets.now) }
{
    let mut list = Vec::new(alloc);
    for facet in facets {
        add_largest(&mut list, facet, size)?;
    }
    Ok(list)
}

fn add_largest(list: &mut Vec<Simplex>, s: &Simplex, size: usize) -> Result<(), Memory>
    ensures { OnOk result (list.new.items ≡ list.old.items ++ largest_subsets size s.now) }
{
    if s.len() <= size {
        list.push(*s)?;
        return Ok(());
    }
    for mask in 0..1u32 << s.len() {
        add_subset(list, s, mask, size)?;
    }
    Ok(())
}

// Adds the subset with this number, where it has so many labels.
fn add_subset(list: &mut Vec<Simplex>, s: &Simplex, mask: u32, size: usize) -> Result<(), Memory>
    ensures { OnOk result (list.new.items ≡ list.old.items ++ subset_of_size size s.now mask) }
{
    let subset = s.subset(mask);
    if subset.len() == size {
        list.push(subset)?;
    }
    Ok(())
}
