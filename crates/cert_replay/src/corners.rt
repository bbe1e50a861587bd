// The corners of a complex, which are the pairs of a label and a facet that has it: the facets at a label stand together.
ghost use Rattle.std.specs.Prelude.{◌≡◌, ◌<◌, IfOk, OnOk, IfSome, IsTrue, length, map, nat_lt};
ghost use Rattle.std.specs.List.{filter};
ghost use Rattle.simplex.specs.Members.{In};
ghost use Rattle.simplex.specs.Simplex.{has, is_label};
ghost use Rattle.cert_replay.specs.Corners.{facets_of, corners_at, AreCorners, HasAll, HasNone, HasMore, HasLess};

use simplex::{Memory, Simplex};
use std::alloc::Global;
use std::collections::BTreeSet;
use std::collections::btree_set::Range;

/// The facets at the label.
pub fn facets_at(
    alloc: Global,
    corners: &BTreeSet<(u32, Simplex)>,
    label: u32,
) -> Result<Vec<Simplex>, Memory>
    requires label { IsTrue (is_label label) }
    requires corners { AreCorners (facets_of corners.now.keys) corners.now.keys }
    ensures { IfOk result (λ v. v.items ≡ filter (λ s. has s label) (facets_of corners.now.keys)) }
{
    let here = corners.range((label, Simplex::EMPTY)..(label + 1, Simplex::EMPTY));
    facets_in(alloc, here)
}

fn facets_in(alloc: Global, corners: Range<'_, (u32, Simplex)>) -> Result<Vec<Simplex>, Memory>
    ensures { IfOk result (λ v. v.items ≡ map (λ p. p.1) corners.entry) }
{
    let mut facets = Vec::new(alloc);
    for corner in corners {
        facets.push(corner.1)?;
    }
    Ok(facets)
}

/// A label of the simplex at which there are few facets: fewer than 8, or than twice as many as at each other.
pub fn rare_label(corners: &BTreeSet<(u32, Simplex)>, s: &Simplex) -> u32
    requires { 0 < length s.now }
    ensures member { In result s.now }
    ensures label { IsTrue (is_label result) }
{
    for power in 3..32u32 {
        if let Some(label) = label_with_fewer(corners, s, 1 << power) {
            return label;
        }
    }
    s.labels()[0]
}

// A label at which there are fewer facets.
fn label_with_fewer(corners: &BTreeSet<(u32, Simplex)>, s: &Simplex, bound: usize) -> Option<u32>
    ensures member { IfSome result (λ v. In v s.now) }
    ensures label { IfSome result (λ v. IsTrue (is_label v)) }
{
    for label in s.labels() {
        if has_fewer(corners, *label, bound) {
            return Some(*label);
        }
    }
    None
}

// Whether there are fewer facets at the label. It counts no further than to the bound.
fn has_fewer(corners: &BTreeSet<(u32, Simplex)>, label: u32, bound: usize) -> bool
    requires { IsTrue (is_label label) }
    ensures { result ≡ nat_lt (length (corners_at label corners.now.keys)) bound }
{
    let count = corners
        .range((label, Simplex::EMPTY)..(label + 1, Simplex::EMPTY))
        .take(bound)
        .count();
    count < bound
}

/// The facets of all corners.
pub fn all_facets(alloc: Global, corners: &BTreeSet<(u32, Simplex)>) -> Result<Vec<Simplex>, Memory>
    ensures { IfOk result (λ v. v.items ≡ map (λ p. p.1) corners.now.keys) }
{
    facets_in(alloc, corners.range(..))
}

/// Adds the corners of the facets.
pub fn add_all(corners: &mut BTreeSet<(u32, Simplex)>, facets: &[Simplex]) -> Result<(), Memory>
    ensures { OnOk result (HasAll facets.now corners.old.keys corners.new.keys) }
{
    for facet in facets {
        add(corners, facet)?;
    }
    Ok(())
}

fn add(corners: &mut BTreeSet<(u32, Simplex)>, facet: &Simplex) -> Result<(), Memory>
    ensures { OnOk result (HasMore facet.now corners.old.keys corners.new.keys) }
{
    for label in facet.labels() {
        corners.insert((*label, *facet))?;
    }
    Ok(())
}

/// Takes out the corners of the facets.
pub fn remove_all(corners: &mut BTreeSet<(u32, Simplex)>, facets: &[Simplex])
    ensures { HasNone facets.now corners.old.keys corners.new.keys }
{
    for facet in facets {
        remove(corners, facet);
    }
}

fn remove(corners: &mut BTreeSet<(u32, Simplex)>, facet: &Simplex)
    ensures { HasLess facet.now corners.old.keys corners.new.keys }
{
    for label in facet.labels() {
        corners.remove(&(*label, *facet));
    }
}
