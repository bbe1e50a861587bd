// The facets that a flip brings.
ghost use Rattle.std.specs.Prelude.{◌≡◌, ◌+◌, ◌≤◌, ◌++◌, OnOk, length, map};
ghost use Rattle.simplex.specs.Simplex.{union, without, len_limit};

use simplex::{Flip, Memory, Simplex};

// The labels of either, where these are at most 12.
fn union(s: &Simplex, t: &Simplex) -> Simplex
    requires { length s.now + length t.now ≤ len_limit }
    ensures { result ≡ union s.now t.now }
{
    match s.union(t) {
        Some(union) => union,
        None => unreachable!(),
    }
}

/// Adds B with A minus one label, for each label of A.
pub fn push_ball(list: &mut Vec<Simplex>, flip: &Flip) -> Result<(), Memory>
    requires { length flip.now.a + length flip.now.b ≤ len_limit + 1 }
    ensures { OnOk result (list.new.items
        ≡ list.old.items ++ map (λ x. union flip.now.b (without flip.now.a x)) flip.now.a) }
{
    for label in flip.a.labels() {
        list.push(union(&flip.b, &flip.a.without(*label)))?;
    }
    Ok(())
}
