// Simplices with other labels.
ghost use Rattle.std.specs.Prelude.{◌≡◌, ◌<◌, [], ◌∷◌, ℕ, map, length, IfOk, IsTrue};
ghost use Rattle.std.specs.List.{list_all};
ghost use Rattle.simplex.specs.Simplex.{is_label, union};
ghost use Rattle.simplex.specs.SimplexFault.{set};
ghost use Rattle.facet_set.specs.Maps.{image, image_of, relabelled, becomes};

use crate::Facets;
use simplex::{Memory, Simplex};
use std::alloc::Global;
use std::collections::HashMap;

/// The complex of these facets with each label replaced.
pub fn image(alloc: Global, facets: &[Simplex], pairs: &[(u32, u32)]) -> Result<Facets, Memory>
    requires { IsTrue (list_all (λ p. is_label p.1) pairs.now) }
    ensures { IfOk result (λ d. d ≡ image pairs.now facets.now) }
{
    let list = images(alloc, facets, pairs)?;
    Facets::generated(alloc, &list)
}

/// The simplices with each label replaced, in their order.
pub fn images(
    alloc: Global,
    simplices: &[Simplex],
    pairs: &[(u32, u32)],
) -> Result<Vec<Simplex>, Memory>
    requires { IsTrue (list_all (λ p. is_label p.1) pairs.now) }
    ensures { IfOk result (λ v. v.items ≡ map (relabelled pairs.now) simplices.now) }
{
    let images = image_table(alloc, pairs)?;
    let mut list = Vec::new(alloc);
    for s in simplices {
        list.push(with_images(s, &images))?;
    }
    Ok(list)
}

/// What each label becomes, by the first pair that it leads.
pub fn image_table(alloc: Global, pairs: &[(u32, u32)]) -> Result<HashMap<u32, u32>, Memory>
    ensures { IfOk result (λ t. (a : ℕ) → becomes t a ≡ image_of pairs.now a) }
{
    let mut images = HashMap::new(alloc);
    let mut rest = pairs.len();
    while rest > 0 {
        rest -= 1;
        images.insert(pairs[rest].0, pairs[rest].1)?;
    }
    Ok(images)
}

/// What the label becomes by the table: itself where it does not stand there.
pub fn image_of(images: &HashMap<u32, u32>, label: u32) -> u32
    ensures { result ≡ becomes images.now label }
{
    images.get(&label).copied().unwrap_or(label)
}

/// The simplex of what the labels become by the table.
pub fn with_images(s: &Simplex, images: &HashMap<u32, u32>) -> Simplex
    requires { (a : ℕ) → IsTrue (is_label a) → IsTrue (is_label (becomes images.now a)) }
    ensures { result ≡ set (map (becomes images.now) s.now) }
{
    let mut all = Simplex::EMPTY;
    for label in s.labels() {
        all = with_label(&all, image_of(images, *label));
    }
    all
}

/// The simplex with this label too.
pub fn with_label(s: &Simplex, label: u32) -> Simplex
    requires short { length s.now < 12 }
    requires label { IsTrue (is_label label) }
    ensures { result ≡ union s.now (label ∷ []) }
{
    match s.union(&point(label)) {
        Some(union) => union,
        None => unreachable!(),
    }
}

/// The simplex with one label.
pub fn point(label: u32) -> Simplex
    requires { IsTrue (is_label label) }
    ensures { result ≡ label ∷ [] }
{
    match Simplex::of(&[label]) {
        Ok(s) => s,
        Err(_) => unreachable!(),
    }
}
