// What a face asks for, by its numbers.
ghost use Rattle.std.specs.Prelude.{◌≡◌, ◌+◌, ◌-◌, ◌≤◌, ◌<◌, ◌==◌, ◌&&◌, ◌||◌, not, IsTrue, [], ◌∷◌, length, nat_lt};
ghost use Rattle.std.specs.List.{filter, list_all};
ghost use Rattle.simplex.specs.Simplex.{has, is_simplex, is_within, minus, union};
ghost use Rattle.facet_set.specs.Star.{lies_in_join};
ghost use Rattle.flip_plans.specs.Steps.{AreLabels, fitting, wanted_by};
ghost use Rattle.flip_plans.specs.Turns.{turned};

use packed_keys::Key;
use simplex::{Flip, LEN_LIMIT, Simplex};

// Whether as many link vertices, and as many facets, make a face with so many labels ask.
fn asks(size: usize, len: usize, links: usize, degree: usize) -> bool
    requires { size ≤ 12 }
    ensures { result ≡ ((nat_lt 0 len && nat_lt len size) && (len + links == size + 1) && (len + degree == size + 1)) }
{
    if len == 0 || len >= size {
        return false;
    }
    let rest = size + 1 - len;
    links == rest && degree == rest
}

/// What the face asks for, by its facets and its link vertices.
pub fn wanted_before(size: usize, s: &Simplex, degree: usize, up: &[u32]) -> Option<Simplex>
    requires small { size ≤ 12 }
    requires labels { AreLabels up.now }
    ensures { result ≡ wanted_by size s.now up.now degree }
{
    if asks(size, s.len(), up.len(), degree) {
        Some(set_of(up))
    } else {
        None
    }
}

// Labels in increasing order as a simplex.
fn set_of(labels: &[u32]) -> Simplex
    requires { IsTrue (is_simplex labels.now) }
    ensures { result ≡ labels.now }
{
    match Simplex::of(labels) {
        Ok(s) => s,
        Err(_) => unreachable!(),
    }
}

/// What a set of the join of A and B asks for after the flip, by its facets and its link vertices before it.
pub fn wanted_after(
    flip: &Flip,
    labels: &[u32],
    s: &Simplex,
    degree: usize,
    up: &[u32],
) -> Option<Simplex>
    requires whole { labels.now ≡ union flip.now.a flip.now.b }
    requires some { 0 < length labels.now }
    requires few { length labels.now ≤ 13 }
    requires join { AreLabels labels.now }
    requires labels { AreLabels up.now }
    ensures { result ≡ wanted_by (length labels.now - 1) s.now (turned flip.now s.now up.now)
        (degree + length (minus flip.now.a s.now) - length (minus flip.now.b s.now)) }
{
    let size = labels.len() - 1;
    let rest = labels.len().saturating_sub(s.len());
    let comes = flip.a.minus(s).len();
    let goes = flip.b.minus(s).len();
    if degree.saturating_add(comes) != rest + goes {
        return None;
    }
    let links = turned(flip, labels, s, up)?;
    if asks(size, s.len(), links.len(), rest) {
        Some(links)
    } else {
        None
    }
}

// The link vertices of the set after the flip, where a simplex has room for them.
fn turned(flip: &Flip, labels: &[u32], s: &Simplex, up: &[u32]) -> Option<Simplex>
    requires whole { labels.now ≡ union flip.now.a flip.now.b }
    requires join { AreLabels labels.now }
    requires labels { AreLabels up.now }
    ensures { result ≡ fitting (turned flip.now s.now up.now) }
{
    let kept = outside(flip, up)?;
    let beside = inside(flip, labels, s)?;
    kept.union(&beside)
}

// The labels that are none of A or B, where a simplex has room for them.
fn outside(flip: &Flip, labels: &[u32]) -> Option<Simplex>
    requires { AreLabels labels.now }
    ensures { result ≡ fitting (filter (λ x. not (has flip.now.a x || has flip.now.b x)) labels.now) }
{
    let mut key = Key::EMPTY;
    for label in labels {
        if !is_of_join(flip, *label) {
            if key.len() == LEN_LIMIT {
                return None;
            }
            key = key.push(*label);
        }
    }
    Some(key.simplex())
}

// The labels beside the set that do not make A whole, where a simplex has room for them.
fn inside(flip: &Flip, labels: &[u32], s: &Simplex) -> Option<Simplex>
    requires { AreLabels labels.now }
    ensures { result ≡ fitting (filter (λ x. not (has s.now x) && not (is_within flip.now.a (union s.now (x ∷ [])))) labels.now) }
{
    let mut key = Key::EMPTY;
    for label in labels {
        if !s.has(*label) && !completes(&flip.a, s, *label) {
            if key.len() == LEN_LIMIT {
                return None;
            }
            key = key.push(*label);
        }
    }
    Some(key.simplex())
}

// Whether all labels of A are the one or in the set.
fn completes(a: &Simplex, s: &Simplex, label: u32) -> bool
    ensures { result ≡ is_within a.now (union s.now (label ∷ [])) }
{
    are_among(a, s, label)
}

fn are_among(a: &Simplex, s: &Simplex, label: u32) -> bool
    ensures { result ≡ list_all (λ x. has s.now x || (x == label)) a.now }
{
    a.labels().iter().all(|x| s.has(*x) || *x == label)
}

// Whether the label is one of A or of B.
fn is_of_join(flip: &Flip, label: u32) -> bool
    ensures { result ≡ (has flip.now.a label || has flip.now.b label) }
{
    flip.a.has(label) || flip.b.has(label)
}
