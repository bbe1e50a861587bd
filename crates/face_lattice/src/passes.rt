// Passes over the faces of a facet, by ids that were looked up once.
ghost use Rattle.std.specs.Prelude.{◌≡◌, ◌<◌, ◌≤◌, ◌+◌, ◌^◌, ◌&&◌, not, false, ℕ, List, OnOk, IsSome, IfSome, IsTrue, length, slice_index_or, vec_capacity};
ghost use Rattle.simplex.specs.Simplex.{has, is_simplex, is_within, subset_at};
ghost use Rattle.std.specs.Ordering.{nat_cmp};
ghost use Rattle.simplex.specs.InOrder.{put};
ghost use Rattle.face_lattice.specs.States.{has_degree, is_idle, HasRoom};
ghost use Rattle.face_lattice.specs.Counts.{blank_count};
ghost use Rattle.face_lattice.specs.Slots.{id_of, cell_at, kept, after_more, after_less, after_put_back, beside, AreCellsOf, AreFound, ArePresent, AreNoted, AreNumbered, IsNoted, spread, AreFew, IsReady, KeepsIds, Stays, asked_at, HasNoMoreIdle, Lasting};

use crate::slab::Slab;
use packed_keys::Key;
use simplex::{Memory, Simplex, Steps};
use std::sync::ledger::Ledger;

/// Looks each subset of the outer set up, in the order of their numbers, with a blank cell where there is none.
pub fn note(slab: &mut Slab, outer: &Simplex, ids: &mut Vec<u32>) -> Result<(), Memory>
    ensures noted { OnOk result (AreNumbered slab.new outer.now ids.new.items) }
    ensures cells { (c : List (List ℕ)) → AreCellsOf c (cell_at slab.old) → AreCellsOf c (cell_at slab.new) }
    ensures lasts { Lasting slab.old slab.new }
    ensures stays { Stays slab.old slab.new }
    ensures idle { (t : List ℕ) → is_within t outer.now ≡ false → is_idle (cell_at slab.new t) ≡ is_idle (cell_at slab.old t) }
    ensures capacity { vec_capacity ids.old ≤ vec_capacity ids.new }
{
    ids.clear();
    for mask in 0..1u32 << outer.len() {
        let id = slab.make(&Key::subset(outer, mask))?;
        ids.push(id)?;
    }
    Ok(())
}

/// The same where each subset has an id. It takes no memory.
pub fn find(slab: &Slab, outer: &Simplex, ids: &mut Vec<u32>)
    requires there { (k : ℕ) → k < 2 ^ length outer.now → IsSome (id_of slab.now (subset_at outer.now k)) }
    requires fits { 2 ^ 12 ≤ vec_capacity ids.old }
    ensures noted { AreNumbered slab.now outer.now ids.new.items }
    ensures capacity { vec_capacity ids.old ≤ vec_capacity ids.new }
    ensures few { length slab.now.ids < 2 ^ 63 }
{
    prove!(slab.len() <= usize::MAX);
    ids.clear();
    for mask in 0..1u32 << outer.len() {
        let id = slab.id(&Key::subset(outer, mask)).unwrap();
        ids.push(id).unwrap();
    }
}

/// The same for a facet whose ids stand among those of an outer set with one label more. It looks nothing up.
pub fn gather(slab: &Slab, facet: &Simplex, gap: u32, found: &[Option<u32>], ids: &mut Vec<u32>)
    requires some { 0 < gap }
    requires found { AreFound slab.now facet.now gap found.now }
    requires there { (k : ℕ) → k < 2 ^ length facet.now → IsSome (id_of slab.now (subset_at facet.now k)) }
    requires fits { 2 ^ 12 ≤ vec_capacity ids.old }
    ensures noted { AreNumbered slab.now facet.now ids.new.items }
    ensures capacity { vec_capacity ids.old ≤ vec_capacity ids.new }
    ensures few { length slab.now.ids < 2 ^ 63 }
{
    prove!(slab.len() <= usize::MAX);
    ids.clear();
    for mask in 0..1u32 << facet.len() {
        let id = found[(mask + (mask - mask % gap)) as usize].unwrap();
        ids.push(id).unwrap();
    }
}

/// Makes room at each face of the facet for these labels among its link vertices. What is kept stays.
pub fn make_ready(
    slab: &mut Slab,
    facet: &Simplex,
    gap: u32,
    ids: &[u32],
    labels: &[u32],
) -> Result<(), Memory>
    requires { AreNoted slab.old facet.now gap ids.now }
    ensures ids { KeepsIds slab.old slab.new }
    ensures kept { (t : List ℕ) → kept slab.new t ≡ kept slab.old t }
    ensures asked { (t : List ℕ) → asked_at slab.new t ≡ asked_at slab.old t }
    ensures ready { OnOk result (IsReady slab.new facet.now labels.now) }
    ensures stays { (t f s : List ℕ) → IfSome (cell_at slab.old t) (HasRoom f s) → IfSome (cell_at slab.new t) (HasRoom f s) }
{
    for mask in 0..1u32 << facet.len() {
        slab.make_ready(id_at(ids, gap, mask), labels)?;
    }
    Ok(())
}

/// Raises the numbers of faces by size by those of the facet that lie in no facet yet.
pub fn raise(counts: &mut [usize], slab: &Slab, facet: &Simplex, gap: u32, ids: &[u32])
    requires noted { AreNoted slab.now facet.now gap ids.now }
    requires sizes { length counts.old ≡ 13 }
    requires few { (n : ℕ) → slice_index_or counts.old n 0 < 2 ^ 63 }
    ensures { (n : ℕ) → slice_index_or counts.new n 0 ≡ slice_index_or counts.old n 0 + blank_count facet.now (cell_at slab.now) n (2 ^ length facet.now) }
{
    for mask in 0..1u32 << facet.len() {
        let id = id_at(ids, gap, mask);
        if slab.is_blank(id) {
            counts[slab.face(id).len()] += 1;
        }
    }
}

/// Lowers the numbers of faces by size by those of the facet that lie in no facet any more.
pub fn lower(counts: &mut [usize], slab: &Slab, facet: &Simplex, gap: u32, ids: &[u32])
    requires noted { AreNoted slab.now facet.now gap ids.now }
    requires sizes { length counts.old ≡ 13 }
    requires all { (n : ℕ) → blank_count facet.now (cell_at slab.now) n (2 ^ length facet.now) ≤ slice_index_or counts.old n 0 }
    ensures { (n : ℕ) → slice_index_or counts.new n 0 + blank_count facet.now (cell_at slab.now) n (2 ^ length facet.now) ≡ slice_index_or counts.old n 0 }
{
    for mask in 0..1u32 << facet.len() {
        let id = id_at(ids, gap, mask);
        if slab.is_blank(id) {
            counts[slab.face(id).len()] -= 1;
        }
    }
}

/// One facet more, in one pass over its faces that takes no memory and looks nothing up.
pub fn insert_facet<L: Ledger>(
    slab: &mut Slab,
    facet: &Simplex,
    gap: u32,
    ids: &[u32],
    steps: &mut Steps<L>,
)
    requires noted { AreNoted slab.old facet.now gap ids.now }
    requires few { AreFew slab.old }
    requires ready { IsReady slab.old facet.now facet.now }
    ensures cells { (t : List ℕ) → cell_at slab.new t ≡ after_more facet.now t (cell_at slab.old t) }
    ensures ids { KeepsIds slab.old slab.new }
    ensures steps { steps.new ≡ steps.old + 2 ^ length facet.now }
{
    for mask in 0..1u32 << facet.len() {
        steps.tick();
        slab.add_facet(id_at(ids, gap, mask), facet);
    }
}

/// One facet less, in one pass over its faces, the larger ones first, that takes no memory and looks nothing up.
pub fn remove_facet<L: Ledger>(
    slab: &mut Slab,
    facet: &Simplex,
    gap: u32,
    ids: &[u32],
    steps: &mut Steps<L>,
)
    requires noted { AreNoted slab.old facet.now gap ids.now }
    requires present { ArePresent slab.old facet.now }
    ensures cells { (t : List ℕ) → cell_at slab.new t ≡ after_less facet.now (cell_at slab.old) t }
    ensures ids { KeepsIds slab.old slab.new }
    ensures steps { steps.new ≡ steps.old + 2 ^ length facet.now }
{
    let mut mask = 1u32 << facet.len();
    while mask > 0 {
        mask -= 1;
        steps.tick();
        let lost = lost_labels(slab, facet, gap, ids, mask);
        slab.remove_facet(id_at(ids, gap, mask), &lost);
    }
}

/// Takes the subsets of the outer set out whose cells nobody needs, so that their ids are free for others. It takes no memory.
pub fn put_back(slab: &mut Slab, outer: &Simplex, ids: &[u32])
    requires { AreNumbered slab.old outer.now ids.now }
    ensures lasts { Lasting slab.old slab.new }
    ensures cells { (t : List ℕ) → cell_at slab.new t ≡ after_put_back outer.now t (cell_at slab.old t) }
{
    for mask in 0..1u32 << outer.len() {
        slab.put_back_idle(ids[mask as usize]);
    }
}

/// The same by look-ups, for each subset that has an id.
pub fn drop_idle(slab: &mut Slab, outer: &Simplex)
    ensures lasts { Lasting slab.old slab.new }
    ensures fewer { HasNoMoreIdle slab.old slab.new }
    ensures gone { (t : List ℕ) → IsTrue (is_simplex t) → IsTrue (is_within t outer.now) → is_idle (cell_at slab.new t) ≡ false }
    ensures cells { (c : List (List ℕ)) → AreCellsOf c (cell_at slab.old) → AreCellsOf c (cell_at slab.new) }
{
    for mask in 0..1u32 << outer.len() {
        slab.drop_idle(&Key::subset(outer, mask));
    }
}

// The labels that make with a face of the facet one that lies in no facet any more.
fn lost_labels(slab: &Slab, facet: &Simplex, gap: u32, ids: &[u32], mask: u32) -> Simplex
    requires noted { AreNoted slab.now facet.now gap ids.now }
    requires mask { mask < 2 ^ length facet.now }
    ensures { result ≡ beside 0 facet.now (cell_at slab.now) (subset_at facet.now mask) }
{
    let s = facet.subset(mask);
    let mut lost = 0;
    let mut bit = 1;
    for label in facet.labels() {
        if is_lost(slab, &s, *label, gap, ids, mask + bit) {
            lost += bit;
        }
        bit *= 2;
    }
    facet.subset(lost)
}

// Whether the label makes with s a face that lies in no facet any more. Its number is read only where the label is not in s.
fn is_lost(slab: &Slab, s: &Simplex, label: u32, gap: u32, ids: &[u32], number: u32) -> bool
    requires some { 0 < gap }
    requires small { number < 2 ^ 13 }
    requires below { has s.now label ≡ false → spread gap number < length ids.now }
    requires noted { has s.now label ≡ false → IsNoted slab.now (put nat_cmp label s.now) (slice_index_or ids.now (spread gap number) 0) }
    ensures { result ≡ (not (has s.now label) && has_degree 0 (cell_at slab.now (put nat_cmp label s.now))) }
{
    !s.has(label) && slab.cell(id_at(ids, gap, number)).degree() == 0
}

// The id of the face of a facet with this number.
fn id_at(ids: &[u32], gap: u32, number: u32) -> u32
    requires some { 0 < gap }
    requires small { number < 2 ^ 13 }
    requires below { spread gap number < length ids.now }
    ensures { result ≡ slice_index_or ids.now (spread gap number) 0 }
{
    ids[(number + (number - number % gap)) as usize]
}
