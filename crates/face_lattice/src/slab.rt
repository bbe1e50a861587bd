use crate::cell::Cell;
use crate::slot::Slot;
use crate::vacant;
use indexmap::IndexMap;
use packed_keys::Key;
use simplex::{LEN_LIMIT, Memory, Simplex};
use std::alloc::{AllocError, Global};
use std::marker::Model;

/// Faces with ids that do not move, and a cell for each. Contracts see the ids and the slots.
#[derive(Drop)]
pub struct Slab {
    ids: IndexMap<Key, u32>,
    slots: Vec<Slot>,
    free: Vec<u32>,
}

impl Model for Slab {
    ghost use Rattle.std.specs.Prelude.{vec_len, vec_capacity};
    ghost use Rattle.face_lattice.specs.Slots.{SlabState, IsSlab};

    ghost Value = { SlabState };

    ghost view = { λ l. record { ids = l.ids.entries; slots = l.slots.items } };

    ghost invariant = { λ l. IsSlab l.ids.entries l.slots.items (vec_len l.free) (vec_capacity l.free) };
}

impl Slab {
    ghost use Rattle.std.specs.Prelude.{◌≡◌, ◌==◌, ◌-◌, ◌^◌, ◌&&◌, ℕ, List, ◌<◌, Option, None, Some, IfOk, IfSome, IsSomeAnd, OnOk, IsSome, OnErr, false, true, if◌then◌else◌, [], ◌∷◌, ◌++◌, length};
    ghost use Rattle.std.specs.Prelude.{IsTrue, ◌≤◌};
    ghost use Rattle.std.specs.Option.{option_copied};
    ghost use Rattle.simplex.specs.Simplex.{is_simplex};
    ghost use Rattle.face_lattice.specs.Cells.{same};
    ghost use Rattle.std.specs.Map.{keys_of};
    ghost use Rattle.face_lattice.specs.Slots.{id_of, face_of, cell_at, kept, or_blank, unless_idle, asked_at, is_some_id, AreCellsOf, AreLed, IsUsed, HasNoMoreIdle, Keeps, KeepsIds, Lasting, Stays};
    ghost use Rattle.std.specs.List.{filter, IsDistinct};
    ghost use Rattle.face_lattice.specs.States.{HasRoom, put_more, put_less, has_degree, is_busy, is_in_use, is_idle, with_asker, without_asker};

    /// No face.
    pub fn new(alloc: Global) -> Slab
        ensures { (s : List ℕ) → id_of result s ≡ None }
    {
        Slab {
            ids: IndexMap::new(alloc),
            slots: Vec::new(alloc),
            free: Vec::new(alloc),
        }
    }

    /// How many faces have an id.
    pub fn len(&self) -> usize
        ensures value { result ≡ length self.now.ids }
        ensures few { length self.now.ids < 2 ^ 63 }
        ensures led { AreLed self.now.ids self.now.slots }
    {
        self.ids.len()
    }

    /// The id of a face that has one.
    pub fn id(&self, s: &Key) -> Option<u32>
        ensures value { result ≡ id_of self.now s.now }
        ensures led { AreLed self.now.ids self.now.slots }
    {
        self.ids.get(s).copied()
    }

    /// The cell of an id.
    pub fn cell(&self, id: u32) -> &Cell
        requires { id_of self.now (face_of self.now id) ≡ Some id }
        ensures { cell_at self.now (face_of self.now id) ≡ Some result.now }
    {
        &self.slots[id as usize].cell
    }

    /// The face of an id.
    pub fn face(&self, id: u32) -> &Key
        requires { id_of self.now (face_of self.now id) ≡ Some id }
        ensures { result.now ≡ face_of self.now id }
    {
        &self.slots[id as usize].face
    }

    /// Whether an id is that of no face of a facet.
    pub fn is_blank(&self, id: u32) -> bool
        requires { id_of self.now (face_of self.now id) ≡ Some id }
        ensures { result ≡ has_degree 0 (cell_at self.now (face_of self.now id)) }
    {
        self.cell(id).degree() == 0
    }

    /// The faces with so many labels, in any order.
    pub fn faces_of_size(&self, size: usize) -> Result<Vec<Key>, AllocError>
        ensures faces { IfOk result (λ v. v.items ≡ filter (λ s. length s == size && is_in_use (cell_at self.now s)) (keys_of self.now.ids)) }
        ensures unique { IsDistinct same (keys_of self.now.ids) }
    {
        self.ids
            .keys()
            .copied()
            .filter(|s| s.len() == size && self.is_in_use(s))
            .collect(*self.ids.allocator())
    }

    // Whether it lies in a facet.
    fn is_in_use(&self, s: &Key) -> bool
        ensures { result ≡ is_in_use (cell_at self.now s.now) }
    {
        match self.get(s) {
            Some(cell) => cell.degree() > 0,
            None => false,
        }
    }

    /// The cell of a simplex that has one.
    pub fn cell_of(&self, s: &Simplex) -> Option<&Cell>
        ensures cell { option_copied result ≡ cell_at self.now s.now }
        ensures simplex { IsTrue (is_simplex s.now) }
    {
        self.get(&Key::of(s))
    }

    /// The same by its key.
    pub fn get(&self, s: &Key) -> Option<&Cell>
        ensures cell { option_copied result ≡ cell_at self.now s.now }
        ensures simplex { IsTrue (is_simplex s.now) }
    {
        prove!(s.len() <= LEN_LIMIT);
        match self.ids.get(s) {
            Some(id) => Some(&self.slots[*id as usize].cell),
            None => None,
        }
    }

    /// The id of a face, which is a new one with a blank cell where the face has none yet. An `Err` changes nothing that is kept.
    pub fn make(&mut self, s: &Key) -> Result<u32, Memory>
        ensures id { IfOk result (λ id. (t : List ℕ) → id_of self.new t ≡ (if same s.now t then Some id else id_of self.old t)) }
        ensures cells { OnOk result ((t : List ℕ) → kept self.new t ≡ (if same s.now t then Some (or_blank (kept self.old s.now)) else kept self.old t)) }
        ensures stays { Stays self.old self.new }
        ensures lasts { Lasting self.old self.new }
        ensures led { AreLed self.new.ids self.new.slots }
        ensures err { OnErr result ((t : List ℕ) → (id_of self.new t ≡ id_of self.old t) × (cell_at self.new t ≡ cell_at self.old t)) }
    {
        if let Some(id) = self.id(s) {
            return Ok(id);
        }
        self.add(*s)
    }

    // The same of a face that has no id.
    fn add(&mut self, s: Key) -> Result<u32, Memory>
        requires { id_of self.old s ≡ None }
        ensures id { IfOk result (λ id. (t : List ℕ) → id_of self.new t ≡ (if same s t then Some id else id_of self.old t)) }
        ensures cells { OnOk result ((t : List ℕ) → kept self.new t ≡ (if same s t then Some (or_blank None) else kept self.old t)) }
        ensures stays { Stays self.old self.new }
        ensures asked { OnOk result (asked_at self.new s ≡ []) }
        ensures led { AreLed self.new.ids self.new.slots }
        ensures err { OnErr result ((t : List ℕ) → (id_of self.new t ≡ id_of self.old t) × (cell_at self.new t ≡ cell_at self.old t)) }
    {
        self.ids.reserve(1)?;
        let id = vacant::take(&mut self.slots, &mut self.free, s)?;
        self.ids.insert(s, id).unwrap();
        Ok(id)
    }

    /// Makes room at a face for these labels among its link vertices. An `Err` changes nothing that is kept.
    pub fn make_ready(&mut self, id: u32, labels: &[u32]) -> Result<(), Memory>
        requires { id_of self.old (face_of self.old id) ≡ Some id }
        ensures ids { KeepsIds self.old self.new }
        ensures kept { (t : List ℕ) → kept self.new t ≡ kept self.old t }
        ensures asked { (t : List ℕ) → asked_at self.new t ≡ asked_at self.old t }
        ensures ok { OnOk result (IfSome (cell_at self.new (face_of self.old id)) (HasRoom labels.now (face_of self.old id))) }
        ensures stays { (t f s : List ℕ) → IfSome (cell_at self.old t) (HasRoom f s) → IfSome (cell_at self.new t) (HasRoom f s) }
    {
        self.slots[id as usize].make_ready(labels)
    }

    /// One facet more at a face, for whose link vertices there is room. No other face changes.
    pub fn add_facet(&mut self, id: u32, facet: &Simplex)
        requires id { id_of self.old (face_of self.old id) ≡ Some id }
        requires few { IfSome (cell_at self.old (face_of self.old id)) (λ c. c.degree < 2 ^ 64 - 1) }
        requires room { IfSome (cell_at self.old (face_of self.old id)) (HasRoom facet.now (face_of self.old id)) }
        ensures ids { KeepsIds self.old self.new }
        ensures cells { (t : List ℕ) → cell_at self.new t ≡ (if same (face_of self.old id) t then Some (put_more facet.now (face_of self.old id) (cell_at self.old (face_of self.old id))) else cell_at self.old t) }
    {
        self.slots[id as usize].add_facet(facet);
    }

    /// One facet less at a face, and these link vertices. No other face changes.
    pub fn remove_facet(&mut self, id: u32, lost: &Simplex)
        requires id { id_of self.old (face_of self.old id) ≡ Some id }
        requires present { IsSomeAnd (cell_at self.old (face_of self.old id)) (λ c. 0 < c.degree) }
        ensures ids { KeepsIds self.old self.new }
        ensures cells { (t : List ℕ) → cell_at self.new t ≡ (if same (face_of self.old id) t then Some (put_less lost.now (cell_at self.old (face_of self.old id))) else cell_at self.old t) }
    {
        self.slots[id as usize].remove_facet(lost);
    }

    /// What an id in use has.
    pub fn slot(&self, id: u32) -> &Slot
        requires { IsUsed self.now id }
        ensures face { (s : List ℕ) → id_of self.now s ≡ Some id → result.now.face ≡ s }
        ensures cell { (s : List ℕ) → id_of self.now s ≡ Some id → cell_at self.now s ≡ Some result.now.cell }
    {
        &self.slots[id as usize]
    }

    /// One asker more of the simplex with this id. An `Err` changes nothing that is kept.
    pub fn ask_at(&mut self, id: u32, asker: u32) -> Result<(), Memory>
        requires { IsUsed self.old id }
        ensures ids { KeepsIds self.old self.new }
        ensures ok { OnOk result ((t : List ℕ) → cell_at self.new t ≡ (if is_some_id id (id_of self.old t) then with_asker asker (cell_at self.old t) else cell_at self.old t)) }
        ensures err { OnErr result ((t : List ℕ) → cell_at self.new t ≡ cell_at self.old t) }
    {
        self.slots[id as usize].cell.ask(asker)
    }

    /// One asker more of a simplex, which has an id then. An `Err` changes nothing that is kept.
    pub fn ask(&mut self, s: &Key, asker: u32) -> Result<(), Memory>
        ensures stays { (t : List ℕ) → IsSome (id_of self.old t) → id_of self.new t ≡ id_of self.old t }
        ensures asked { OnOk result ((t : List ℕ) → asked_at self.new t ≡ (if same s.now t then asked_at self.old t ++ asker ∷ [] else asked_at self.old t)) }
        ensures keeps { OnOk result (Keeps self.old self.new) }
        ensures err { OnErr result ((t : List ℕ) → cell_at self.new t ≡ cell_at self.old t) }
    {
        if let Some(id) = self.id(s) {
            return self.ask_at(id, asker);
        }
        let id = self.add(*s)?;
        match self.ask_at(id, asker) {
            Ok(()) => Ok(()),
            Err(fault) => {
                self.put_back(id);
                Err(fault)
            }
        }
    }

    /// This asker of the simplex with this id asks no more. The simplex is taken out where nobody needs its cell then.
    pub fn unask_at(&mut self, id: u32, asker: u32)
        requires { IsUsed self.old id }
        ensures ids { (t : List ℕ) → is_busy (cell_at self.new t) ≡ true → id_of self.new t ≡ id_of self.old t }
        ensures cells { (t : List ℕ) → cell_at self.new t ≡ (if is_some_id id (id_of self.old t) then unless_idle (without_asker asker (cell_at self.old t)) else cell_at self.old t) }
    {
        self.slots[id as usize].cell.unask(asker);
        self.put_back_idle(id);
    }

    /// The same of a simplex, which may have no id.
    pub fn unask(&mut self, s: &Key, asker: u32)
        ensures ids { (t : List ℕ) → is_busy (cell_at self.new t) ≡ true → id_of self.new t ≡ id_of self.old t }
        ensures cells { (t : List ℕ) → cell_at self.new t ≡ (if same s.now t then unless_idle (without_asker asker (cell_at self.old t)) else cell_at self.old t) }
    {
        if let Some(id) = self.id(s) {
            self.unask_at(id, asker);
        }
    }

    /// Takes a face out, whose id is then free for another.
    pub fn put_back(&mut self, id: u32)
        requires { id_of self.old (face_of self.old id) ≡ Some id }
        ensures ids { (t : List ℕ) → id_of self.new t ≡ (if same (face_of self.old id) t then None else id_of self.old t) }
        ensures led { AreLed self.new.ids self.new.slots }
        ensures cells { (t : List ℕ) → cell_at self.new t ≡ (if same (face_of self.old id) t then None else cell_at self.old t) }
    {
        let i = id as usize;
        let face = self.slots[i].face;
        self.ids.swap_remove(&face);
        self.slots[i].end();
        self.free.push(id).unwrap();
    }

    /// Takes a face out whose cell nobody needs, and no other.
    pub fn put_back_idle(&mut self, id: u32)
        requires { id_of self.old (face_of self.old id) ≡ Some id }
        ensures ids { (t : List ℕ) → id_of self.new t ≡ (if same (face_of self.old id) t && is_idle (cell_at self.old (face_of self.old id)) then None else id_of self.old t) }
        ensures led { AreLed self.new.ids self.new.slots }
        ensures cells { (t : List ℕ) → cell_at self.new t ≡ (if same (face_of self.old id) t then unless_idle (cell_at self.old (face_of self.old id)) else cell_at self.old t) }
    {
        if self.slots[id as usize].cell.is_idle() {
            self.put_back(id);
        }
    }

    /// Takes a simplex out whose cell nobody needs. It takes no memory.
    pub fn drop_idle(&mut self, s: &Key)
        ensures lasts { Lasting self.old self.new }
        ensures fewer { HasNoMoreIdle self.old self.new }
        ensures gone { is_idle (cell_at self.new s.now) ≡ false }
        ensures cells { (c : List (List ℕ)) → AreCellsOf c (cell_at self.old) → AreCellsOf c (cell_at self.new) }
    {
        if let Some(id) = self.id(s) {
            self.put_back_idle(id);
        }
    }
}
