ghost use Rattle.std.specs.Prelude.{◌≡◌, ◌≤◌, ◌+◌, ◌<◌, ◌-◌, ◌^◌, length, insert, remove, ◌++◌, ◌∷◌, [], IfErr, IfNone, IfOk, IfSome, OnErr, OnOk, IsTrue, Some, false, if◌then◌else◌, slice_index_or};
ghost use Rattle.std.specs.Ordering.{nat_cmp};
ghost use Rattle.simplex.specs.InOrder.{is_increasing, put};
ghost use Rattle.simplex.specs.Simplex.{has, minus, union, without};
ghost use Rattle.smallvec.specs.SmallVec.{HasRoomFor};
ghost use Rattle.face_lattice.specs.Lattice.{is_facet_cell};
ghost use Rattle.face_lattice.specs.States.{first_cell, emptied, renewed, is_idle, shown, more, less, with_askers, HasRoom};

use packed_keys::Key;
use simplex::{Memory, Simplex};
use smallvec::SmallVec;
use std::alloc::Global;
use std::marker::Model;

// The labels that the facets with a face have beside those of the face, in increasing order.
type LinkVertices = SmallVec<u32, 4>;

// The ids that ask for a face, which may be none of a facet.
type Askers = SmallVec<u32, 1>;

/// What is kept at a face: the number of facets that contain it, its link vertices, and the room for them.
#[derive(Drop)]
pub struct Cell {
    degree: usize,
    up: LinkVertices,
    askers: Askers,
}

impl Model for Cell {
    ghost use Rattle.std.specs.Prelude.{IsTrue};
    ghost use Rattle.std.specs.Ordering.{nat_cmp};
    ghost use Rattle.simplex.specs.InOrder.{is_increasing};
    ghost use Rattle.face_lattice.specs.States.{CellState};

    ghost Value = { CellState };

    ghost view = { λ c. record { degree = c.degree; up = c.up.items; capacity = c.up.capacity; askers = c.askers.items } };

    ghost invariant = { λ c. IsTrue (is_increasing nat_cmp c.up.items) };
}

impl Cell {
    /// The cell of no face, which takes no memory.
    pub fn blank(alloc: Global) -> Cell
        ensures { result ≡ first_cell }
    {
        Cell {
            degree: 0,
            up: SmallVec::new(alloc),
            askers: SmallVec::new(alloc),
        }
    }

    /// Makes it the cell of no face, with the room that it has.
    pub fn clear(&mut self)
        ensures { self.new ≡ emptied self.old }
    {
        self.degree = 0;
        self.up.clear();
    }

    /// Makes it the cell of no face for which none asks, with the room that it has.
    pub fn renew(&mut self)
        ensures { self.new ≡ renewed self.old }
    {
        self.clear();
        self.askers.clear();
    }

    /// Whether nobody needs it: the face lies in no facet, and none asks for it.
    pub fn is_idle(&self) -> bool
        ensures { result ≡ is_idle (Some self.now) }
    {
        self.degree == 0 && self.askers.is_empty()
    }

    /// One asker more, by its id. An `Err` changes nothing.
    pub fn ask(&mut self, asker: u32) -> Result<(), Memory>
        ensures ok { OnOk result (self.new ≡ with_askers (self.old.askers ++ asker ∷ []) self.old) }
        ensures err { OnErr result (self.new ≡ self.old) }
    {
        self.askers.push(asker)?;
        Ok(())
    }

    /// This asker asks no more.
    pub fn unask(&mut self, asker: u32)
        ensures { self.new ≡ with_askers (without self.old.askers asker) self.old }
    {
        dismiss(&mut self.askers, asker);
    }

    /// The ids that ask for the face.
    pub fn askers(&self) -> &[u32]
        ensures { result.now ≡ self.now.askers }
    {
        self.askers.as_slice()
    }

    /// How many facets contain the face.
    pub fn degree(&self) -> usize
        ensures { result ≡ self.now.degree }
    {
        self.degree
    }

    /// The link vertices of the face, in increasing order.
    pub fn up(&self) -> &[u32]
        ensures { result.now ≡ self.now.up }
    {
        self.up.as_slice()
    }

    /// Whether the face is a facet: it lies in one, and no label makes a larger face with it.
    pub fn is_of_facet(&self) -> bool
        ensures { result ≡ is_facet_cell (Some self.now) }
    {
        self.degree > 0 && self.up.is_empty()
    }

    /// Makes room for these labels among the link vertices of the face s. An `Err` changes nothing.
    pub fn make_ready(&mut self, s: &Key, labels: &[u32]) -> Result<(), Memory>
        ensures same { shown self.new ≡ shown self.old }
        ensures ok { OnOk result (HasRoom labels.now s.now self.new) }
        ensures capacity { self.old.capacity ≤ self.new.capacity }
        ensures asked { self.new.askers ≡ self.old.askers }
    {
        let n = count_new(self.up.as_slice(), s, labels);
        self.up.reserve(n)?;
        Ok(())
    }

    /// One facet more at the face s, for whose link vertices there is room.
    pub fn add_facet(&mut self, s: &Key, facet: &Simplex)
        requires few { self.old.degree < 2 ^ 64 - 1 }
        requires room { HasRoom facet.now s.now self.old }
        ensures { self.new ≡ more facet.now s.now self.old }
    {
        add_labels(&mut self.up, s, facet);
        self.degree += 1;
    }

    /// One facet less at the face, and these link vertices. It is blank where that was the last facet.
    pub fn remove_facet(&mut self, lost: &Simplex)
        requires { 0 < self.old.degree }
        ensures { self.new ≡ less lost.now self.old }
    {
        if self.degree == 1 {
            self.clear();
            return;
        }
        take_out(&mut self.up, lost);
        self.degree -= 1;
    }
}

// Takes an asker out.
fn dismiss(askers: &mut Askers, asker: u32)
    ensures { askers.new.items ≡ without askers.old.items asker }
{
    while let Some(k) = place_of_asker(askers.as_slice(), asker) {
        askers.remove(k);
    }
}

// The first place of an asker in the list.
fn place_of_asker(askers: &[u32], asker: u32) -> Option<usize>
    ensures within { IfSome result (λ k. k < length askers.now) }
    ensures here { IfSome result (λ k. slice_index_or askers.now k asker ≡ asker) }
    ensures none { IfNone result (without askers.now asker ≡ askers.now) }
{
    for (k, a) in askers.iter().enumerate() {
        if *a == asker {
            return Some(k);
        }
    }
    None
}

// Takes the labels out.
fn take_out(up: &mut LinkVertices, lost: &Simplex)
    requires { IsTrue (is_increasing nat_cmp up.old.items) }
    ensures labels { up.new.items ≡ minus up.old.items lost.now }
    ensures rising { IsTrue (is_increasing nat_cmp up.new.items) }
    ensures capacity { up.new.capacity ≡ up.old.capacity }
{
    for label in lost.labels() {
        take_label(up, *label);
    }
}

// Takes a label out.
fn take_label(up: &mut LinkVertices, label: u32)
    requires { IsTrue (is_increasing nat_cmp up.old.items) }
    ensures labels { up.new.items ≡ without up.old.items label }
    ensures rising { IsTrue (is_increasing nat_cmp up.new.items) }
    ensures capacity { up.new.capacity ≡ up.old.capacity }
{
    if let Ok(k) = place_of(up.as_slice(), label) {
        up.remove(k);
    }
}

// How many of the labels are neither in s nor there.
fn count_new(up: &[u32], s: &Key, labels: &[u32]) -> usize
    requires { IsTrue (is_increasing nat_cmp up.now) }
    ensures { length (union up.now (minus labels.now s.now)) ≤ length up.now + result }
{
    let mut n = 0;
    for label in labels {
        if is_new(up, s, *label) {
            n += 1;
        }
    }
    n
}

// Whether the label is neither in s nor there.
fn is_new(up: &[u32], s: &Key, label: u32) -> bool
    requires { IsTrue (is_increasing nat_cmp up.now) }
    ensures { result ≡ false → (if has s.now label then up.now else put nat_cmp label up.now) ≡ up.now }
{
    if s.has(label) {
        return false;
    }
    match place_of(up, label) {
        Ok(_) => false,
        Err(_) => true,
    }
}

// Adds the labels of the facet that are not those of s.
fn add_labels(up: &mut LinkVertices, s: &Key, facet: &Simplex)
    requires rising { IsTrue (is_increasing nat_cmp up.old.items) }
    requires room { length (union up.old.items (minus facet.now s.now)) ≤ up.old.capacity }
    ensures labels { up.new.items ≡ union up.old.items (minus facet.now s.now) }
    ensures rising { IsTrue (is_increasing nat_cmp up.new.items) }
    ensures capacity { up.new.capacity ≡ up.old.capacity }
{
    for label in facet.labels() {
        add_beside(up, s, *label);
    }
}

// Adds a label, unless it is one of s.
fn add_beside(up: &mut LinkVertices, s: &Key, label: u32)
    requires rising { IsTrue (is_increasing nat_cmp up.old.items) }
    requires room { length (if has s.now label then up.old.items else put nat_cmp label up.old.items) ≤ up.old.capacity }
    ensures labels { up.new.items ≡ (if has s.now label then up.old.items else put nat_cmp label up.old.items) }
    ensures rising { IsTrue (is_increasing nat_cmp up.new.items) }
    ensures capacity { up.new.capacity ≡ up.old.capacity }
{
    if s.has(label) {
        return;
    }
    if let Err(k) = place_of(up.as_slice(), label) {
        up.insert(k, label).unwrap();
    }
}

// The place of a label, or where it goes.
fn place_of(up: &[u32], label: u32) -> Result<usize, usize>
    requires { IsTrue (is_increasing nat_cmp up.now) }
    ensures within { IfErr result (λ k. k ≤ length up.now) }
    ensures here { IfErr result (λ k. insert up.now k label ≡ put nat_cmp label up.now) }
    ensures longer { IfErr result (λ _. length (put nat_cmp label up.now) ≡ length up.now + 1) }
    ensures below { IfOk result (λ k. k < length up.now) }
    ensures taken { IfOk result (λ k. remove up.now k ≡ without up.now label) }
    ensures absent { IfErr result (λ _. without up.now label ≡ up.now) }
    ensures fewer { IsTrue (is_increasing nat_cmp (without up.now label)) }
    ensures found { IfOk result (λ _. put nat_cmp label up.now ≡ up.now) }
    ensures rising { IsTrue (is_increasing nat_cmp (put nat_cmp label up.now)) }
{
    up.binary_search(&label)
}
