// The labels of lists of simplices.
ghost use Rattle.std.specs.Prelude.{◌≡◌, IfOk};
ghost use Rattle.std.specs.List.{flat_map};
ghost use Rattle.facet_set.specs.Complex.{verts};

use simplex::{Memory, Simplex};
use std::alloc::Global;

/// The labels, each once, in increasing order.
pub fn labels_of(alloc: Global, list: &[Simplex]) -> Result<Vec<u32>, Memory>
    ensures { IfOk result (λ v. v.items ≡ verts list.now) }
{
    let mut labels = all_labels(alloc, list)?;
    labels.sort_unstable();
    labels.dedup();
    Ok(labels)
}

fn all_labels(alloc: Global, list: &[Simplex]) -> Result<Vec<u32>, Memory>
    ensures { IfOk result (λ v. v.items ≡ flat_map (λ s. s) list.now) }
{
    let mut labels = Vec::new(alloc);
    for s in list {
        labels.extend_from_slice(s.labels())?;
    }
    Ok(labels)
}
