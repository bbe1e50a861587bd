// Slots that no face uses.
ghost use Rattle.std.specs.Prelude.{◌≡◌, ℕ, ◌+◌, ◌<◌, ◌≤◌, Bool, true, false, IfOk, IfSome, IfNone, OnOk, slice_index_or, slice_set, vec_len, vec_capacity};
ghost use Rattle.face_lattice.specs.Slots.{no_slot, IsFirst, KeepsUsed};

use crate::slot::Slot;
use packed_keys::Key;
use simplex::Memory;

/// An id that no face uses becomes that of this face. There is room in `free` for each id.
pub fn take(slots: &mut Vec<Slot>, free: &mut Vec<u32>, face: Key) -> Result<u32, Memory>
    requires { vec_len slots.old ≤ vec_capacity free.old }
    ensures slot { IfOk result (IsFirst face slots.old.items slots.new.items) }
    ensures kept { KeepsUsed slots.old.items slots.new.items }
    ensures room { vec_len slots.new ≤ vec_capacity free.new }
    ensures fewer { vec_len free.new + vec_len slots.old ≤ vec_len free.old + vec_len slots.new }
    ensures one_fewer { OnOk result (vec_len free.new + vec_len slots.old + 1 ≤ vec_len free.old + vec_len slots.new) }
{
    match reused(slots, free, face) {
        Some(id) => Ok(id),
        None => added(slots, free, face),
    }
}

// The id that was given back last, where there is one.
fn reused(slots: &mut Vec<Slot>, free: &mut Vec<u32>, face: Key) -> Option<u32>
    requires { vec_len slots.old ≤ vec_capacity free.old }
    ensures slot { IfSome result (IsFirst face slots.old.items slots.new.items) }
    ensures kept { KeepsUsed slots.old.items slots.new.items }
    ensures none { IfNone result (slots.new.items ≡ slots.old.items) }
    ensures len { vec_len slots.new ≡ vec_len slots.old }
    ensures room { vec_len slots.new ≤ vec_capacity free.new }
    ensures fewer { vec_len free.new ≤ vec_len free.old }
    ensures one_fewer { IfSome result (λ _. vec_len free.new + 1 ≡ vec_len free.old) }
{
    let id = free.pop()?;
    let i = id as usize;
    if i < slots.len() && !slots[i].used {
        slots[i].start(face);
        return Some(id);
    }
    None
}

// An id that there was not, with room for its way back.
fn added(slots: &mut Vec<Slot>, free: &mut Vec<u32>, face: Key) -> Result<u32, Memory>
    requires { vec_len slots.old ≤ vec_capacity free.old }
    ensures slot { IfOk result (IsFirst face slots.old.items slots.new.items) }
    ensures kept { KeepsUsed slots.old.items slots.new.items }
    ensures room { vec_len slots.new ≤ vec_capacity free.new }
    ensures len { vec_len slots.old ≤ vec_len slots.new }
    ensures one_more { OnOk result (vec_len slots.new ≡ vec_len slots.old + 1) }
    ensures same { vec_len free.new ≡ vec_len free.old }
{
    let len = slots.len();
    if len > u32::MAX as usize {
        return Err(Memory);
    }
    free.reserve(len + 1)?;
    slots.push(Slot::first(*slots.allocator(), face))?;
    Ok(len as u32)
}
