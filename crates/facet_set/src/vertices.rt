// The labels of lists of simplices.
ghost use Rattle.std.specs.Prelude.{◌≡◌, ◌≤◌, not, max, length, IfOk, IsTrue};
ghost use Rattle.std.specs.List.{list_any, list_all, filter, flat_map, fold};
ghost use Rattle.simplex.specs.Simplex.{has, is_label, is_simplex};
ghost use Rattle.facet_set.specs.Complex.{verts};
ghost use Rattle.facet_set.specs.Numbers.{greatest};
ghost use Rattle.facet_set.specs.Flips.{least_missing};

use simplex::{Labels, Memory, Simplex};
use std::alloc::Global;

/// The labels in increasing order.
pub fn vertices(alloc: Global, simplices: &[Simplex]) -> Result<Labels, Memory>
    requires { IsTrue (list_all is_simplex simplices.now) }
    ensures value { IfOk result (λ l. l ≡ verts simplices.now) }
    ensures labels { IfOk result (λ l. IsTrue (list_all is_label l)) }
{
    let mut labels = all_labels(alloc, simplices)?;
    labels.sort_unstable();
    labels.dedup();
    Ok(Labels::from_vec(labels))
}

fn all_labels(alloc: Global, simplices: &[Simplex]) -> Result<Vec<u32>, Memory>
    ensures { IfOk result (λ v. v.items ≡ flat_map (λ s. s) simplices.now) }
{
    let mut labels = Vec::new(alloc);
    for s in simplices {
        labels.extend_from_slice(s.labels())?;
    }
    Ok(labels)
}

/// The number of labels.
pub fn vertex_count(simplices: &[Simplex]) -> usize
    requires { length simplices.now ≤ 13 }
    ensures { result ≡ length (verts simplices.now) }
{
    let mut count = 0;
    for (i, s) in simplices.iter().enumerate() {
        count += new_count(&simplices[..i], s);
    }
    count
}

// The number of labels that stand in no earlier simplex.
fn new_count(earlier: &[Simplex], s: &Simplex) -> usize
    ensures value { result ≡ length (filter (λ a. not (list_any (λ t. has t a) earlier.now)) s.now) }
    ensures bound { result ≤ 12 }
    ensures simplex { IsTrue (is_simplex s.now) }
{
    let mut count = 0;
    for label in s.labels() {
        count += !is_among(earlier, *label) as usize;
    }
    count
}

fn is_among(simplices: &[Simplex], label: u32) -> bool
    ensures { result ≡ list_any (λ s. has s label) simplices.now }
{
    simplices.iter().any(|s| s.has(label))
}

/// The greatest label, or 0 where there is none.
pub fn greatest_label(simplices: &[Simplex]) -> u32
    ensures { result ≡ greatest simplices.now }
{
    let mut greatest = 0;
    for s in simplices {
        greatest = last_label(s).max(greatest);
    }
    greatest
}

fn last_label(s: &Simplex) -> u32
    ensures { result ≡ fold max 0 s.now }
{
    s.labels()
        .iter()
        .copied()
        .fold(0, |last, label| last.max(label))
}

/// The least label from 1 on that is not in the increasing list, or one more than the greatest label there is.
pub fn least_missing(labels: &[u32]) -> u32
    requires { IsTrue (list_all is_label labels.now) }
    ensures { result ≡ least_missing 1 labels.now }
{
    let mut missing = 1;
    for label in labels {
        if missing != *label {
            return missing;
        }
        missing += 1;
    }
    missing
}
