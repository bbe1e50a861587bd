ghost use Rattle.std.specs.Prelude.{◌≡◌, ◌+◌, ◌≤◌, [], ◌∷◌, IsTrue, IfOk, OnOk, length, map, not};
ghost use Rattle.std.specs.List.{filter};
ghost use Rattle.simplex.specs.Simplex.{is_within, union, without, len_limit};
ghost use Rattle.facet_set.specs.Flips.{allowed, flip as flipped};
ghost use Rattle.flip_rules.specs.Members.{HasBoth};

use facet_set::Facets;
use simplex::{Flip, Memory, Simplex};
use std::alloc::Global;

// The facets that do not contain the simplex.
fn without_star(alloc: Global, facets: &[Simplex], a: &Simplex) -> Result<Vec<Simplex>, Memory>
    ensures { IfOk result (λ rest. rest.items ≡ filter (λ s. not (is_within a.now s)) facets.now) }
{
    let rest = facets
        .iter()
        .copied()
        .filter(|facet| !a.within(facet))
        .collect(alloc)?;
    Ok(rest)
}

// The labels of either, where these are at most 12.
fn union(s: &Simplex, t: &Simplex) -> Simplex
    requires { length s.now + length t.now ≤ len_limit }
    ensures { result ≡ union s.now t.now }
{
    match s.union(t) {
        Some(union) => union,
        None => unreachable!(),
    }
}

// Puts B with A minus one label in its place, for each label of A.
fn put_ball(list: &mut Vec<Simplex>, flip: &Flip) -> Result<(), Memory>
    requires { length flip.now.a + length flip.now.b ≤ len_limit + 1 }
    ensures { OnOk result (HasBoth list.new.items list.old.items (map (λ x. union flip.now.b (without flip.now.a x)) flip.now.a)) }
{
    for label in flip.a.labels() {
        put(list, union(&flip.b, &flip.a.without(*label)))?;
    }
    Ok(())
}

// Puts the simplex behind those below it, so that a list in order stays so.
fn put(list: &mut Vec<Simplex>, s: Simplex) -> Result<(), Memory>
    ensures { OnOk result (HasBoth list.new.items list.old.items (s ∷ [])) }
{
    let place = list.partition_point(|t| *t < s);
    list.insert(place, s)?;
    Ok(())
}

/// The complex after the flip: the facets that contain A go, and B with A minus one label comes, for each
/// label of A (Pachner). The inverse is allowed there and leads back.
pub fn apply(alloc: Global, c: &Facets, flip: &Flip) -> Result<Facets, Memory>
    requires { IsTrue (allowed c.now flip.now.a flip.now.b) }
    ensures value { IfOk result (λ d. d ≡ flipped c.now flip.now.a flip.now.b) }
    ensures back { IfOk result (λ d. IsTrue (allowed d flip.now.b flip.now.a)
        × (flipped d flip.now.b flip.now.a ≡ c.now)) }
{
    let _back = flip.inverse();
    let mut list = without_star(alloc, c.as_slice(), &flip.a)?;
    put_ball(&mut list, flip)?;
    Facets::generated(alloc, list.as_slice())
}
