ghost use Rattle.std.specs.Prelude.{◌≡◌, ◌≤◌, ◌<◌, ◌-◌, ◌^◌, OnOk};
ghost use Rattle.face_lattice.specs.States.{shown, more, less, HasRoom};
ghost use Rattle.face_lattice.specs.Slots.{started, first_slot, ended, with_cell};

use crate::cell::Cell;
use packed_keys::Key;
use simplex::{Memory, Simplex};
use std::alloc::Global;

/// What an id has: a cell, and while it is in use the face whose cell it is.
#[derive(Drop)]
pub struct Slot {
    pub face: Key,
    pub used: bool,
    pub cell: Cell,
}

impl Slot {
    /// A slot of this face, with a blank cell.
    pub fn first(alloc: Global, face: Key) -> Slot
        ensures { result ≡ first_slot face }
    {
        Slot {
            face,
            used: true,
            cell: Cell::blank(alloc),
        }
    }

    /// Makes it the slot of this face, with a blank cell.
    pub fn start(&mut self, face: Key)
        ensures { self.new ≡ started face self.old }
    {
        self.face = face;
        self.used = true;
        self.cell.renew();
    }

    /// Gives the slot back.
    pub fn end(&mut self)
        ensures { self.new ≡ ended self.old }
    {
        self.used = false;
    }

    /// Makes room for these labels among the link vertices of the face. An `Err` changes nothing.
    pub fn make_ready(&mut self, labels: &[u32]) -> Result<(), Memory>
        ensures slot { self.new ≡ with_cell self.new.cell self.old }
        ensures same { shown self.new.cell ≡ shown self.old.cell }
        ensures ok { OnOk result (HasRoom labels.now self.old.face self.new.cell) }
        ensures capacity { self.old.cell.capacity ≤ self.new.cell.capacity }
        ensures asked { self.new.cell.askers ≡ self.old.cell.askers }
    {
        self.cell.make_ready(&self.face, labels)
    }

    /// One facet more at the face, for whose link vertices there is room.
    pub fn add_facet(&mut self, facet: &Simplex)
        requires few { self.old.cell.degree < 2 ^ 64 - 1 }
        requires room { HasRoom facet.now self.old.face self.old.cell }
        ensures { self.new ≡ with_cell (more facet.now self.old.face self.old.cell) self.old }
    {
        self.cell.add_facet(&self.face, facet);
    }

    /// One facet less at the face, and these link vertices.
    pub fn remove_facet(&mut self, lost: &Simplex)
        requires { 0 < self.old.cell.degree }
        ensures { self.new ≡ with_cell (less lost.now self.old.cell) self.old }
    {
        self.cell.remove_facet(lost);
    }
}
