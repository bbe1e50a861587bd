// Room for simplices that are to come: cells for their faces, with places for their link vertices.
ghost use Rattle.std.specs.Prelude.{◌≡◌, ◌≤◌, false, true, ℕ, List, OnOk, IsTrue, IsSomeAnd, vec_capacity};
ghost use Rattle.simplex.specs.Members.{In};
ghost use Rattle.simplex.specs.Simplex.{is_simplex, is_within};
ghost use Rattle.facet_set.specs.Complex.{is_face};
ghost use Rattle.face_lattice.specs.Lattice.{IsRoomOf};
ghost use Rattle.face_lattice.specs.Slots.{AreCellsOf, cell_at, HasNoMoreIdle, Lasting};
ghost use Rattle.face_lattice.specs.States.{is_idle, HasRoom};

use crate::passes::{drop_idle, make_ready, note};
use crate::slab::Slab;
use simplex::{Memory, Simplex};

/// Makes room for these simplices, whose labels these are. The vector serves for ids.
pub fn ready_each(
    slab: &mut Slab,
    list: &[Simplex],
    labels: &[u32],
    ids: &mut Vec<u32>,
) -> Result<(), Memory>
    requires { (s : List ℕ) → In s list.now → IsTrue (is_within s labels.now) }
    ensures lasts { Lasting slab.old slab.new }
    ensures cells { (c : List (List ℕ)) → AreCellsOf c (cell_at slab.old) → AreCellsOf c (cell_at slab.new) }
    ensures room { OnOk result (IsRoomOf list.now (cell_at slab.new)) }
    ensures idle { (t : List ℕ) → is_face list.now t ≡ false → is_idle (cell_at slab.new t) ≡ is_idle (cell_at slab.old t) }
    ensures capacity { vec_capacity ids.old ≤ vec_capacity ids.new }
{
    for s in list {
        ready_one(slab, s, labels, ids)?;
    }
    Ok(())
}

// Makes room at each face of a simplex for these labels.
fn ready_one(slab: &mut Slab, s: &Simplex, labels: &[u32], ids: &mut Vec<u32>) -> Result<(), Memory>
    ensures lasts { Lasting slab.old slab.new }
    ensures cells { (c : List (List ℕ)) → AreCellsOf c (cell_at slab.old) → AreCellsOf c (cell_at slab.new) }
    ensures ready { OnOk result ((t : List ℕ) → IsTrue (is_simplex t) → IsTrue (is_within t s.now) → IsSomeAnd (cell_at slab.new t) (HasRoom labels.now t)) }
    ensures idle { (t : List ℕ) → is_within t s.now ≡ false → is_idle (cell_at slab.new t) ≡ is_idle (cell_at slab.old t) }
    ensures stays { (t f : List ℕ) → IsSomeAnd (cell_at slab.old t) (HasRoom f t) → IsSomeAnd (cell_at slab.new t) (HasRoom f t) }
    ensures capacity { vec_capacity ids.old ≤ vec_capacity ids.new }
{
    note(slab, s, ids)?;
    make_ready(slab, s, 1 << s.len(), ids, labels)
}

/// Takes the faces of these simplices out that lie in no facet. It takes no memory.
pub fn drop_each(slab: &mut Slab, list: &[Simplex])
    ensures lasts { Lasting slab.old slab.new }
    ensures fewer { HasNoMoreIdle slab.old slab.new }
    ensures gone { (t : List ℕ) → IsTrue (is_simplex t) → is_face list.now t ≡ true → is_idle (cell_at slab.new t) ≡ false }
    ensures cells { (c : List (List ℕ)) → AreCellsOf c (cell_at slab.old) → AreCellsOf c (cell_at slab.new) }
{
    for s in list {
        drop_idle(slab, s);
    }
}
