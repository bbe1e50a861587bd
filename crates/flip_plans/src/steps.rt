// What is added to a plan at one set of the join of A and B.
ghost use Rattle.std.specs.Prelude.{◌≡◌, ◌++◌, ◌≤◌, Some, IsTrue, OnOk, length, not, ◌||◌};
ghost use Rattle.simplex.specs.Simplex.{is_within};
ghost use Rattle.facet_set.specs.Numbers.{size};
ghost use Rattle.facet_set.specs.Star.{lies_in_join};
ghost use Rattle.face_lattice.specs.Lattice.{askers_in, id_in, AreIdsNeeded};
ghost use Rattle.flip_plans.specs.Plans.{AreAskers};
ghost use Rattle.flip_plans.specs.Steps.{far_change, given_up, is_face_beside, is_open, is_that, near_change, HasMore, IsFarChange};

use crate::plan::{Asking, SetChange};
use face_lattice::Lattice;
use flip_rules::lies_in_join;
use simplex::{Flip, Memory, Simplex};

/// Adds what the face asked for and does not ask for any more.
pub fn give_up(
    list: &mut Vec<Asking>,
    asker: u32,
    before: &Option<Simplex>,
    after: &Option<Simplex>,
) -> Result<(), Memory>
    ensures { OnOk result (list.new.items ≡ list.old.items ++ given_up asker before.now after.now) }
{
    if let Some(set) = before {
        if !is_that(after, set) {
            list.push(Asking { asker, set: *set })?;
        }
    }
    Ok(())
}

fn is_that(wanted: &Option<Simplex>, set: &Simplex) -> bool
    ensures { result ≡ is_that wanted.now set.now }
{
    match wanted {
        Some(wanted) => wanted == set,
        None => false,
    }
}

/// Whether the set that is asked for is no face: before the flip, where `other` is B, and after it, where that is A.
pub fn is_open(l: &Lattice, flip: &Flip, other: &Simplex, wanted: &Option<Simplex>) -> bool
    ensures { result ≡ is_open wanted.now (is_face_beside l.now.facets flip.now other.now) }
{
    match wanted {
        Some(set) => !is_face_beside(l, flip, other, set),
        None => false,
    }
}

fn is_face_beside(l: &Lattice, flip: &Flip, other: &Simplex, set: &Simplex) -> bool
    ensures { result ≡ is_face_beside l.now.facets flip.now other.now set.now }
{
    if lies_in_join(set, flip) {
        !other.within(set)
    } else {
        l.is_face(set)
    }
}

/// Adds the option that the face gets or loses.
pub fn add_near(
    changes: &mut Vec<SetChange>,
    facet_len: usize,
    s: &Simplex,
    had: bool,
    has: bool,
) -> Result<(), Memory>
    ensures { OnOk result (changes.new.items ≡ changes.old.items ++ near_change facet_len s.now had has) }
{
    if had != has {
        changes.push(SetChange {
            class: facet_len.saturating_sub(s.len()),
            face: *s,
            comes: has,
        })?;
    }
    Ok(())
}

/// Adds the options of the faces outside the join that ask for the set, where that comes or goes.
pub fn add_far(
    changes: &mut Vec<SetChange>,
    l: &Lattice,
    flip: &Flip,
    facet_len: usize,
    id: u32,
    s: &Simplex,
) -> Result<(), Memory>
    requires askers { AreAskers l.now.facets (id_in l.now) (askers_in l.now) }
    requires needed { AreIdsNeeded l.now }
    requires size { facet_len ≡ size l.now.facets }
    requires id { id_in l.now s.now ≡ Some id }
    ensures { OnOk result (HasMore (IsFarChange l.now.facets flip.now s.now) changes.old.items changes.new.items) }
{
    if !touches(flip, s) {
        return Ok(());
    }
    let comes = flip.a.within(s);
    for asker in l.askers_of(id) {
        let face = l.simplex_of(*asker);
        add_one(changes, facet_len, flip, &face, comes)?;
    }
    Ok(())
}

// Whether the set comes or goes.
fn touches(flip: &Flip, s: &Simplex) -> bool
    ensures { result ≡ (is_within flip.now.a s.now || is_within flip.now.b s.now) }
{
    flip.a.within(s) || flip.b.within(s)
}

// Adds the option of a face that asks for a set which comes or goes, where the face is outside the join.
fn add_one(
    changes: &mut Vec<SetChange>,
    facet_len: usize,
    flip: &Flip,
    face: &Simplex,
    comes: bool,
) -> Result<(), Memory>
    ensures { OnOk result (changes.new.items ≡ changes.old.items ++ far_change facet_len flip.now face.now comes) }
{
    if !lies_in_join(face, flip) {
        changes.push(SetChange {
            class: facet_len.saturating_sub(face.len()),
            face: *face,
            comes,
        })?;
    }
    Ok(())
}
