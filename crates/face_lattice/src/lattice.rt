ghost use Rattle.std.specs.Prelude.{◌≡◌, ◌<◌, ◌↔◌, [], IfOk, IfSome, IfNone, IsSome, IsTrue, length, slice_get, slice_index_or};
ghost use Rattle.std.specs.List.{list_all};
ghost use Rattle.simplex.specs.Simplex.{is_simplex};
ghost use Rattle.facet_set.specs.Complex.{is_complex, verts};
ghost use Rattle.face_lattice.specs.Lattice.{all_but};

use crate::cell::Cell;
use crate::labels::labels_of;
use crate::passes::{find, gather, insert_facet, lower, put_back, raise, remove_facet};
use crate::room::{drop_each, ready_each};
use crate::slab::Slab;
use facet_set::Facets;
use packed_keys::Key;
use simplex::{LEN_LIMIT, Memory, Simplex, Simplices, Steps};
use std::alloc::Global;
use std::marker::{Brand, Model};
use std::sync::ledger::{Blank, Ledger};

/// The faces of a complex, each with the number of facets that contain it and its link vertices, kept while facets come and go one
/// at a time. Contracts see the list of the facets, the simplices for which there is room, and the number of changes.
#[derive(Drop)]
pub struct Lattice {
    slab: Slab,
    counts: [usize; 13],
    members: Vec<Simplex>,
    changes: u64,
    places: Vec<u32>,
}

impl Model for Lattice {
    ghost use Rattle.std.specs.Prelude.{vec_capacity};
    ghost use Rattle.face_lattice.specs.Lattice.{LatticeState, facets_in, IsLattice};
    ghost use Rattle.face_lattice.specs.Slots.{askers_of};

    ghost Value = { LatticeState };

    ghost view = { λ l. record { facets = facets_in l.slab; room = l.members.items; changes = l.changes; ids = l.slab.ids; askers = askers_of l.slab } };

    ghost invariant = { λ l. IsLattice l.slab l.counts l.members.items (vec_capacity l.places) };
}

impl Lattice {
    ghost use Rattle.std.specs.Prelude.{◌≡◌, ◌+◌, ◌^◌, ◌↔◌, ◌<◌, ◌≤◌, ◌&&◌, not, false, true, [], ◌∷◌, ◌++◌, ℕ, List, Some, IfOk, IsOk, OnErr, OnOk, IsSome, IsTrue, length, slice_get, if◌then◌else◌};
    ghost use Rattle.std.specs.List.{list_all, list_any};
    ghost use Rattle.std.specs.Option.{option_copied};
    ghost use Rattle.simplex.specs.InOrder.{put};
    ghost use Rattle.simplex.specs.Simplex.{is_simplex, is_within, simplex_cmp, without};
    ghost use Rattle.facet_set.specs.Complex.{is_face, stands_in, verts};
    ghost use Rattle.facet_set.specs.Flips.{link_vertices};
    ghost use Rattle.facet_set.specs.Numbers.{degree, face_count, faces_of_size, size};
    ghost use Rattle.face_lattice.specs.Lattice.{all_but, askers_in, has_id, id_in, id_of_part, is_held, is_outer, risen, AreIdsNeeded, AreIdsOf, AreIdsWithin, Lacks, Holds, IsId};
    ghost use Rattle.face_lattice.specs.Cells.{same};

    /// The lattice of a complex, with no room and no change.
    pub fn of(alloc: Global, c: &Facets) -> Result<Lattice, Memory>
        ensures facets { IfOk result (λ l. l.facets ≡ c.now) }
        ensures room { IfOk result (λ l. l.room ≡ []) }
        ensures changes { IfOk result (λ l. l.changes ≡ 0) }
    {
        of_facets::<Brand>(alloc, c.as_slice(), Blank::new(1))
    }

    /// Makes room for these simplices, in place of those for which there was room. At an `Err` there is none.
    pub fn reserve(&mut self, list: &[Simplex]) -> Result<(), Memory>
        ensures ok { OnOk result (self.new.room ≡ list.now) }
        ensures err { OnErr result (self.new.room ≡ []) }
        ensures facets { self.new.facets ≡ self.old.facets }
        ensures changes { self.new.changes ≡ self.old.changes }
        ensures holds { Holds self.old self.new }
    {
        self.clear_room();
        let alloc = *self.places.allocator();
        let labels = labels_of(alloc, list)?;
        let members = Vec::from_slice(alloc, list)?;
        self.make_room(members, &labels)
    }

    /// One facet more, which is no face and contains no facet. It cannot fail where there is room for it, and no room is left but
    /// for the other simplices for which there was room then. It makes 2^l steps at a facet of l labels.
    pub fn insert_facet<L: Ledger>(
        &mut self,
        f: &Simplex,
        steps: &mut Steps<L>,
    ) -> Result<(), Memory>
        requires new { is_face self.old.facets f.now ≡ false }
        requires above { list_any (λ s. is_within s f.now) self.old.facets ≡ false }
        ensures facets { OnOk result (self.new.facets ≡ put simplex_cmp f.now self.old.facets) }
        ensures err { OnErr result (self.new.facets ≡ self.old.facets) }
        ensures member { IsTrue (stands_in self.old.room f.now) → IsOk result }
        ensures room { self.new.room ≡ (if stands_in self.old.room f.now then all_but f.now self.old.room else []) }
        ensures changes { OnOk result (self.new.changes ≡ risen self.old.changes) }
        ensures unchanged { OnErr result (self.new.changes ≡ self.old.changes) }
        ensures holds { Holds self.old self.new }
        ensures steps { OnOk result (steps.new ≡ steps.old + 2 ^ length f.now) }
        ensures few { OnErr result (steps.new ≡ steps.old) }
    {
        self.expect(f)?;
        self.put_in(f, steps);
        Ok(())
    }

    /// One facet less. The faces that lie in no other facet vanish, and no room is left. It takes no memory, and makes 2^l steps at
    /// a facet of l labels.
    pub fn remove_facet<L: Ledger>(&mut self, f: &Simplex, steps: &mut Steps<L>)
        requires { IsTrue (stands_in self.old.facets f.now) }
        ensures facets { self.new.facets ≡ all_but f.now self.old.facets }
        ensures room { self.new.room ≡ [] }
        ensures changes { self.new.changes ≡ risen self.old.changes }
        ensures holds { Holds self.old self.new }
        ensures steps { steps.new ≡ steps.old + 2 ^ length f.now }
    {
        self.clear_room();
        self.take_out(f, steps);
    }

    /// One asker more of a simplex, by its id. The simplex has an id then. At an `Err` nothing changes.
    pub fn ask(&mut self, b: &Simplex, asker: u32) -> Result<(), Memory>
        ensures asked { OnOk result ((s : List ℕ) → askers_in self.new s ≡ (if same b.now s then askers_in self.old s ++ asker ∷ [] else askers_in self.old s)) }
        ensures err { OnErr result ((s : List ℕ) → askers_in self.new s ≡ askers_in self.old s) }
        ensures ids { (s : List ℕ) → IsSome (id_in self.old s) → id_in self.new s ≡ id_in self.old s }
        ensures facets { self.new.facets ≡ self.old.facets }
        ensures room { self.new.room ≡ self.old.room }
        ensures changes { self.new.changes ≡ self.old.changes }
    {
        self.slab.ask(&Key::of(b), asker)
    }

    /// The same of the simplex with this id.
    pub fn ask_at(&mut self, id: u32, asker: u32) -> Result<(), Memory>
        requires { IsId self.old id }
        ensures asked { OnOk result ((s : List ℕ) → askers_in self.new s ≡ (if has_id self.old s id then askers_in self.old s ++ asker ∷ [] else askers_in self.old s)) }
        ensures err { OnErr result ((s : List ℕ) → askers_in self.new s ≡ askers_in self.old s) }
        ensures ids { self.new.ids ≡ self.old.ids }
        ensures facets { self.new.facets ≡ self.old.facets }
        ensures room { self.new.room ≡ self.old.room }
        ensures changes { self.new.changes ≡ self.old.changes }
    {
        self.slab.ask_at(id, asker)
    }

    /// This asker of a simplex asks no more. No room is left. It takes no memory.
    pub fn unask(&mut self, b: &Simplex, asker: u32)
        ensures asked { (s : List ℕ) → askers_in self.new s ≡ (if same b.now s then without (askers_in self.old s) asker else askers_in self.old s) }
        ensures ids { (s : List ℕ) → is_held self.new s ≡ true → id_in self.new s ≡ id_in self.old s }
        ensures facets { self.new.facets ≡ self.old.facets }
        ensures room { self.new.room ≡ [] }
        ensures changes { self.new.changes ≡ self.old.changes }
    {
        self.clear_room();
        self.dismiss(&Key::of(b), asker);
    }

    /// The same of the simplex with this id.
    pub fn unask_at(&mut self, id: u32, asker: u32)
        requires { IsId self.old id }
        ensures asked { (s : List ℕ) → askers_in self.new s ≡ (if has_id self.old s id then without (askers_in self.old s) asker else askers_in self.old s) }
        ensures ids { (s : List ℕ) → is_held self.new s ≡ true → id_in self.new s ≡ id_in self.old s }
        ensures facets { self.new.facets ≡ self.old.facets }
        ensures room { self.new.room ≡ [] }
        ensures changes { self.new.changes ≡ self.old.changes }
    {
        if self.members.is_empty() {
            self.dismiss_at(id, asker);
            return;
        }
        let face = self.simplex_of(id);
        self.unask(&face, asker);
    }

    /// The id of a simplex that has one.
    pub fn id(&self, s: &Simplex) -> Option<u32>
        ensures value { result ≡ id_in self.now s.now }
        ensures needed { AreIdsNeeded self.now }
    {
        self.slab.id(&Key::of(s))
    }

    /// The ids of the parts of an outer set of up to 13 labels, in the order of their numbers: bit k of a number stands for the
    /// label at the place k.
    pub fn ids_of(&self, outer: &[u32], ids: &mut Vec<Option<u32>>) -> Result<(), Memory>
        requires { IsTrue (is_outer outer.now) }
        ensures ids { OnOk result (AreIdsOf self.now outer.now ids.new.items) }
        ensures needed { AreIdsNeeded self.now }
    {
        let _ = &self.slab;
        ids.clear();
        for mask in 0..1u32 << outer.len() {
            ids.push(self.id_of_part(outer, mask))?;
        }
        Ok(())
    }

    /// The simplex with this id.
    pub fn simplex_of(&self, id: u32) -> Simplex
        requires { IsId self.now id }
        ensures value { (s : List ℕ) → id_in self.now s ≡ Some id → result ≡ s }
        ensures simplex { IsTrue (is_simplex result) }
    {
        self.slab.slot(id).face.simplex()
    }

    /// How many facets contain the simplex with this id.
    pub fn degree_of(&self, id: u32) -> usize
        requires { IsId self.now id }
        ensures { (s : List ℕ) → id_in self.now s ≡ Some id → result ≡ degree self.now.facets s }
    {
        let slot = self.slab.slot(id);
        prove!(slot.face.len() <= LEN_LIMIT);
        slot.cell.degree()
    }

    /// The labels that the facets with the simplex with this id have beside its own, in increasing order.
    pub fn up_of(&self, id: u32) -> &[u32]
        requires { IsId self.now id }
        ensures { (s : List ℕ) → id_in self.now s ≡ Some id → result.now ≡ link_vertices self.now.facets s }
    {
        let slot = self.slab.slot(id);
        prove!(slot.face.len() <= LEN_LIMIT);
        slot.cell.up()
    }

    /// The ids that ask for the simplex with this id.
    pub fn askers_of(&self, id: u32) -> &[u32]
        requires { IsId self.now id }
        ensures { (s : List ℕ) → id_in self.now s ≡ Some id → result.now ≡ askers_in self.now s }
    {
        self.slab.slot(id).cell.askers()
    }

    /// The same as `insert_facet` for a simplex for which there is room, and that lacks the label at a place of the outer set whose ids
    /// these are. It looks nothing up.
    pub fn insert_noted<L: Ledger>(
        &mut self,
        f: &Simplex,
        outer: &[u32],
        place: usize,
        ids: &[Option<u32>],
        steps: &mut Steps<L>,
    )
        requires new { is_face self.old.facets f.now ≡ false }
        requires above { list_any (λ s. is_within s f.now) self.old.facets ≡ false }
        requires room { IsTrue (stands_in self.old.room f.now) }
        requires outer { IsTrue (is_outer outer.now) }
        requires part { Lacks outer.now place f.now }
        requires noted { AreIdsWithin self.old outer.now ids.now f.now }
        ensures facets { self.new.facets ≡ put simplex_cmp f.now self.old.facets }
        ensures room { self.new.room ≡ all_but f.now self.old.room }
        ensures changes { self.new.changes ≡ risen self.old.changes }
        ensures holds { Holds self.old self.new }
        ensures ids { self.new.ids ≡ self.old.ids }
        ensures steps { steps.new ≡ steps.old + 2 ^ length f.now }
    {
        let gap = 1 << f.len();
        gather(&self.slab, f, 1 << place, ids, &mut self.places);
        raise(&mut self.counts, &self.slab, f, gap, &self.places);
        insert_facet(&mut self.slab, f, gap, &self.places, steps);
        forget(&mut self.members, f);
        self.changes = self.changes.saturating_add(1);
    }

    /// The same as `remove_facet` for a facet that lacks the label at a place of the outer set whose ids these are. It looks nothing
    /// up where there is no room.
    pub fn remove_noted<L: Ledger>(
        &mut self,
        f: &Simplex,
        outer: &[u32],
        place: usize,
        ids: &[Option<u32>],
        steps: &mut Steps<L>,
    )
        requires facet { IsTrue (stands_in self.old.facets f.now) }
        requires room { self.old.room ≡ [] }
        requires outer { IsTrue (is_outer outer.now) }
        requires part { Lacks outer.now place f.now }
        requires noted { AreIdsWithin self.old outer.now ids.now f.now }
        ensures facets { self.new.facets ≡ all_but f.now self.old.facets }
        ensures room { self.new.room ≡ [] }
        ensures changes { self.new.changes ≡ risen self.old.changes }
        ensures holds { Holds self.old self.new }
        ensures steps { steps.new ≡ steps.old + 2 ^ length f.now }
    {
        let gap = 1 << f.len();
        gather(&self.slab, f, 1 << place, ids, &mut self.places);
        remove_facet(&mut self.slab, f, gap, &self.places, steps);
        lower(&mut self.counts, &self.slab, f, gap, &self.places);
        put_back(&mut self.slab, f, &self.places);
        self.changes = self.changes.saturating_add(1);
    }

    /// How many facets came or went since the lattice was made, or the last u64 where that is less.
    pub fn changes(&self) -> u64
        ensures { result ≡ self.now.changes }
    {
        self.changes
    }

    /// The number of labels of the largest facet: the dimension and one, or 0 where there is no facet.
    pub fn size(&self) -> usize
        ensures value { result ≡ size self.now.facets }
        ensures bound { result ≤ 12 }
        ensures simplices { IsTrue (list_all is_simplex self.now.facets) }
    {
        let mut size = 0;
        for n in 0..LEN_LIMIT + 1 {
            if self.counts[n] > 0 {
                size = n;
            }
        }
        size
    }

    /// Whether the simplex is a face, that is, lies in a facet.
    pub fn is_face(&self, s: &Simplex) -> bool
        ensures { result ≡ is_face self.now.facets s.now }
    {
        self.degree(s) > 0
    }

    /// Whether the simplex is a facet.
    pub fn is_facet(&self, s: &Simplex) -> bool
        ensures value { result ≡ stands_in self.now.facets s.now }
        ensures simplices { IsTrue (list_all is_simplex self.now.facets) }
    {
        match self.slab.cell_of(s) {
            Some(cell) => cell.is_of_facet(),
            None => false,
        }
    }

    /// Whether the simplex can be a facet beside these: it is no face, and no facet lies in it.
    pub fn accepts(&self, s: &Simplex) -> bool
        ensures { result ≡ (not (is_face self.now.facets s.now) && not (list_any (λ t. is_within t s.now) self.now.facets)) }
    {
        !self.is_face(s) && !self.has_facet_in(s)
    }

    /// How many facets contain the simplex.
    pub fn degree(&self, s: &Simplex) -> usize
        ensures value { result ≡ degree self.now.facets s.now }
        ensures none { (result ≡ 0) ↔ (is_face self.now.facets s.now ≡ false) }
    {
        match self.slab.cell_of(s) {
            Some(cell) => cell.degree(),
            None => 0,
        }
    }

    /// How many labels the facets that contain the simplex have beside its own.
    pub fn up_count(&self, s: &Simplex) -> usize
        ensures value { result ≡ length (link_vertices self.now.facets s.now) }
        ensures none { is_face self.now.facets s.now ≡ false → result ≡ 0 }
    {
        match self.slab.cell_of(s) {
            Some(cell) => cell.up().len(),
            None => 0,
        }
    }

    /// One of these labels, by its place in increasing order, from 0. None exactly where there is none.
    pub fn up_at(&self, s: &Simplex, k: usize) -> Option<u32>
        ensures value { result ≡ slice_get (link_vertices self.now.facets s.now) k }
        ensures variant { IsSome result ↔ (k < length (link_vertices self.now.facets s.now)) }
    {
        match self.slab.cell_of(s) {
            Some(cell) => label_at(cell, k),
            None => None,
        }
    }

    /// How many faces have so many labels.
    pub fn face_count(&self, size: usize) -> usize
        ensures { result ≡ face_count self.now.facets size }
    {
        self.counts.get(size).copied().unwrap_or(0)
    }

    /// The faces with so many labels, in increasing order.
    pub fn faces_of_size(&self, size: usize) -> Result<Simplices, Memory>
        ensures { IfOk result (λ l. l ≡ faces_of_size self.now.facets size) }
    {
        let mut faces = self.slab.faces_of_size(size)?;
        faces.sort_unstable();
        Ok(Simplices::from_vec(unpacked(*faces.allocator(), &faces)?))
    }

    // Whether a facet lies in the simplex.
    fn has_facet_in(&self, s: &Simplex) -> bool
        ensures { result ≡ list_any (λ t. is_within t s.now) self.now.facets }
    {
        for mask in 0..1u32 << s.len() {
            if self.is_facet(&s.subset(mask)) {
                return true;
            }
        }
        false
    }

    // The lattice of no facet.
    fn void(alloc: Global) -> Result<Lattice, Memory>
        ensures facets { IfOk result (λ l. l.facets ≡ []) }
        ensures room { IfOk result (λ l. l.room ≡ []) }
    {
        let places = Vec::with_capacity(alloc, 1 << LEN_LIMIT)?;
        Ok(Lattice {
            slab: Slab::new(alloc),
            counts: [0; 13],
            members: Vec::new(alloc),
            changes: 0,
            places,
        })
    }

    // Counts changes from here on.
    fn count_anew(&mut self)
        ensures facets { self.new.facets ≡ self.old.facets }
        ensures room { self.new.room ≡ self.old.room }
        ensures changes { self.new.changes ≡ 0 }
        ensures holds { Holds self.old self.new }
    {
        self.changes = 0;
    }

    // Whether there is room for it.
    fn has_room(&self, f: &Simplex) -> bool
        ensures { result ≡ stands_in self.now.room f.now }
    {
        self.members.contains(f)
    }

    // Makes room for it alone, unless there is room.
    fn expect(&mut self, f: &Simplex) -> Result<(), Memory>
        ensures ok { OnOk result (self.new.room ≡ (if stands_in self.old.room f.now then self.old.room else f.now ∷ [])) }
        ensures member { IsTrue (stands_in self.old.room f.now) → IsOk result }
        ensures err { OnErr result (self.new.room ≡ []) }
        ensures facets { self.new.facets ≡ self.old.facets }
        ensures changes { self.new.changes ≡ self.old.changes }
        ensures holds { Holds self.old self.new }
    {
        if self.has_room(f) {
            return Ok(());
        }
        self.reserve(&[*f])
    }

    // The id of the part of an outer set with this number.
    fn id_of_part(&self, outer: &[u32], number: u32) -> Option<u32>
        requires outer { IsTrue (is_outer outer.now) }
        requires number { number < 2 ^ length outer.now }
        ensures { result ≡ id_of_part self.now outer.now number }
    {
        if outer.len() > LEN_LIMIT && number + 1 == 1 << outer.len() {
            return None;
        }
        self.slab.id(&Key::among(outer, number))
    }

    // Gives the cells back that were kept for simplices to come.
    fn clear_room(&mut self)
        ensures facets { self.new.facets ≡ self.old.facets }
        ensures room { self.new.room ≡ [] }
        ensures changes { self.new.changes ≡ self.old.changes }
        ensures holds { Holds self.old self.new }
    {
        drop_each(&mut self.slab, &self.members);
        self.members.clear();
    }

    // This asker of a simplex asks no more, where there is no room.
    fn dismiss(&mut self, b: &Key, asker: u32)
        requires { self.old.room ≡ [] }
        ensures asked { (s : List ℕ) → askers_in self.new s ≡ (if same b.now s then without (askers_in self.old s) asker else askers_in self.old s) }
        ensures ids { (s : List ℕ) → is_held self.new s ≡ true → id_in self.new s ≡ id_in self.old s }
        ensures facets { self.new.facets ≡ self.old.facets }
        ensures room { self.new.room ≡ self.old.room }
        ensures changes { self.new.changes ≡ self.old.changes }
    {
        self.slab.unask(b, asker);
    }

    // The same of the simplex with this id.
    fn dismiss_at(&mut self, id: u32, asker: u32)
        requires id { IsId self.old id }
        requires room { self.old.room ≡ [] }
        ensures asked { (s : List ℕ) → askers_in self.new s ≡ (if has_id self.old s id then without (askers_in self.old s) asker else askers_in self.old s) }
        ensures ids { (s : List ℕ) → is_held self.new s ≡ true → id_in self.new s ≡ id_in self.old s }
        ensures facets { self.new.facets ≡ self.old.facets }
        ensures room { self.new.room ≡ self.old.room }
        ensures changes { self.new.changes ≡ self.old.changes }
    {
        self.slab.unask_at(id, asker);
    }

    // Makes room for these simplices, whose labels these are.
    fn make_room(&mut self, members: Vec<Simplex>, labels: &[u32]) -> Result<(), Memory>
        requires room { self.old.room ≡ [] }
        requires labels { labels.now ≡ verts members.items }
        ensures ok { OnOk result (self.new.room ≡ members.items) }
        ensures err { OnErr result (self.new.room ≡ []) }
        ensures facets { self.new.facets ≡ self.old.facets }
        ensures changes { self.new.changes ≡ self.old.changes }
        ensures holds { Holds self.old self.new }
    {
        match ready_each(&mut self.slab, &members, labels, &mut self.places) {
            Ok(()) => {
                self.members = members;
                Ok(())
            }
            Err(fault) => {
                drop_each(&mut self.slab, &members);
                Err(fault)
            }
        }
    }

    // One facet more, for which there is room.
    fn put_in<L: Ledger>(&mut self, f: &Simplex, steps: &mut Steps<L>)
        requires new { is_face self.old.facets f.now ≡ false }
        requires above { list_any (λ s. is_within s f.now) self.old.facets ≡ false }
        requires room { IsTrue (stands_in self.old.room f.now) }
        ensures facets { self.new.facets ≡ put simplex_cmp f.now self.old.facets }
        ensures room { self.new.room ≡ all_but f.now self.old.room }
        ensures changes { self.new.changes ≡ risen self.old.changes }
        ensures holds { Holds self.old self.new }
        ensures steps { steps.new ≡ steps.old + 2 ^ length f.now }
    {
        let gap = 1 << f.len();
        find(&self.slab, f, &mut self.places);
        raise(&mut self.counts, &self.slab, f, gap, &self.places);
        insert_facet(&mut self.slab, f, gap, &self.places, steps);
        forget(&mut self.members, f);
        self.changes = self.changes.saturating_add(1);
    }

    // One facet less, where there is no room.
    fn take_out<L: Ledger>(&mut self, f: &Simplex, steps: &mut Steps<L>)
        requires facet { IsTrue (stands_in self.old.facets f.now) }
        requires room { self.old.room ≡ [] }
        ensures facets { self.new.facets ≡ all_but f.now self.old.facets }
        ensures room { self.new.room ≡ [] }
        ensures changes { self.new.changes ≡ risen self.old.changes }
        ensures holds { Holds self.old self.new }
        ensures steps { steps.new ≡ steps.old + 2 ^ length f.now }
    {
        let gap = 1 << f.len();
        find(&self.slab, f, &mut self.places);
        remove_facet(&mut self.slab, f, gap, &self.places, steps);
        lower(&mut self.counts, &self.slab, f, gap, &self.places);
        put_back(&mut self.slab, f, &self.places);
        self.changes = self.changes.saturating_add(1);
    }
}

// The lattice of the facets of a complex, with a counter of steps of its own.
fn of_facets<L: Ledger>(alloc: Global, facets: &[Simplex], blank: Blank) -> Result<Lattice, Memory>
    requires complex { IsTrue (is_complex facets.now) }
    requires simplices { IsTrue (list_all is_simplex facets.now) }
    requires name { blank.name ≡ L.name }
    requires parts { blank.parts ≡ L.parts }
    requires some { 0 < L.parts }
    ensures facets { IfOk result (λ l. l.facets ≡ facets.now) }
    ensures room { IfOk result (λ l. l.room ≡ []) }
    ensures changes { IfOk result (λ l. l.changes ≡ 0) }
{
    let mut steps = Steps::<L>::open(blank);
    let mut lattice = Lattice::void(alloc)?;
    for f in facets {
        lattice.insert_facet(f, &mut steps)?;
    }
    lattice.count_anew();
    Ok(lattice)
}

// The simplices unpacked.
fn unpacked(alloc: Global, keys: &[Key]) -> Result<Vec<Simplex>, Memory>
    ensures { IfOk result (λ v. v.items ≡ keys.now) }
{
    let mut list = Vec::with_capacity(alloc, keys.len())?;
    for key in keys {
        list.push(key.simplex())?;
    }
    Ok(list)
}

// Takes the simplex out of the list.
fn forget(list: &mut Vec<Simplex>, f: &Simplex)
    ensures { list.new.items ≡ all_but f.now list.old.items }
{
    while let Some(k) = place_in(list, f) {
        list.remove(k);
    }
}

// The first place of the simplex in the list.
fn place_in(list: &[Simplex], f: &Simplex) -> Option<usize>
    ensures within { IfSome result (λ k. k < length list.now) }
    ensures here { IfSome result (λ k. slice_index_or list.now k f.now ≡ f.now) }
    ensures none { IfNone result (all_but f.now list.now ≡ list.now) }
{
    for (k, s) in list.iter().enumerate() {
        if s == f {
            return Some(k);
        }
    }
    None
}

// A link vertex by its place.
fn label_at(cell: &Cell, k: usize) -> Option<u32>
    ensures value { result ≡ slice_get cell.now.up k }
    ensures variant { IsSome result ↔ (k < length cell.now.up) }
{
    cell.up().get(k).copied()
}
