// Sorted sets of simplices.
ghost use Rattle.std.specs.Prelude.{◌≡◌, ◌<◌, ◌≤◌, ◌+◌, ◌==◌, [], length, slice_get, OnOk, IfOk, IfSome, IsTrue, true, false};
ghost use Rattle.simplex.specs.InOrder.{is_increasing, is_member, put};
ghost use Rattle.simplex.specs.Simplex.{is_simplex, simplex_cmp};
ghost use Rattle.ranked_set.specs.Blocks.{but};
ghost use Rattle.ranked_set.specs.Ranked.{risen};

use crate::blocks::{Block, excess, fill_pool, find_in, make_room, place_in, put_in, take_from};
use packed_keys::Key;
use simplex::{Memory, Simplex, Steps};
use std::alloc::Global;
use std::marker::{Brand, Model};
use std::sync::ledger::{Blank, Ledger};

// The most blocks of a set and its pool (own).
const COUNT_LIMIT: usize = 1 << 56;

/// A strictly increasing list of simplices with places, kept in blocks of up to 127. Contracts see its members, its spare, the number of
/// insertions that surely take no memory, and the count of its changes, which stands still at 18,446,744,073,709,551,615.
#[derive(Drop)]
pub struct RankedSet {
    blocks: Vec<Block>,
    pool: Vec<Block>,
    len: usize,
    changes: u64,
}

impl Model for RankedSet {
    ghost use Rattle.std.specs.Prelude.{vec_len, vec_capacity};
    ghost use Rattle.ranked_set.specs.Ranked.{Ranked, IsKept};
    ghost use Rattle.ranked_set.specs.Blocks.{joined, spare_in};

    ghost Value = { Ranked };

    ghost view = { λ r. record { members = joined r.blocks.items; spare = spare_in r.blocks.items (vec_len r.pool); changes = r.changes } };

    ghost invariant = { λ r. IsKept r.blocks.items (vec_len r.blocks) (vec_capacity r.blocks) (vec_len r.pool) r.len };
}

impl RankedSet {
    /// The empty set, which takes no memory.
    pub fn new(alloc: Global) -> RankedSet
        ensures { result ≡ record { members = []; spare = 0; changes = 0 } }
    {
        RankedSet {
            blocks: Vec::new(alloc),
            pool: Vec::new(alloc),
            len: 0,
            changes: 0,
        }
    }

    /// The set of the simplices of an increasing list, put in one after another.
    pub fn of(alloc: Global, list: &[Simplex]) -> Result<RankedSet, Memory>
        requires { is_increasing simplex_cmp list.now ≡ true }
        ensures members { IfOk result (λ r. r.members ≡ list.now) }
        ensures changes { IfOk result (λ r. r.changes ≡ risen 0 (length list.now)) }
    {
        filled::<Brand>(alloc, list, Blank::new(1))
    }

    /// Makes room for so many insertions. An `Err` changes nothing, and makes no room smaller.
    pub fn reserve(&mut self, more: usize) -> Result<(), Memory>
        ensures ok { OnOk result (more ≤ self.new.spare) }
        ensures spare { self.old.spare ≤ self.new.spare }
        ensures members { self.new.members ≡ self.old.members }
        ensures changes { self.new.changes ≡ self.old.changes }
    {
        if self.pool.len() >= more {
            return Ok(());
        }
        let count = more.min(more / 64 + excess(&self.blocks) / 64 + 2);
        if count >= COUNT_LIMIT - self.blocks.len() {
            return Err(Memory);
        }
        make_room(&mut self.blocks, count)?;
        fill_pool(*self.blocks.allocator(), &mut self.pool, count)
    }

    /// Puts the simplex in its place. One step.
    pub fn insert<L: Ledger>(&mut self, s: &Simplex, steps: &mut Steps<L>)
        requires room { 0 < self.old.spare }
        requires new { is_member simplex_cmp s.now self.old.members ≡ false }
        ensures members { self.new.members ≡ put simplex_cmp s.now self.old.members }
        ensures spare { self.old.spare ≤ self.new.spare + 1 }
        ensures changes { self.new.changes ≡ risen self.old.changes 1 }
        ensures steps { steps.new ≡ steps.old + 1 }
    {
        steps.tick();
        put_in(&mut self.blocks, &mut self.pool, Key::of(s));
        self.len += 1;
        self.changes = self.changes.saturating_add(1);
    }

    /// Takes the member out. One step.
    pub fn remove<L: Ledger>(&mut self, s: &Simplex, steps: &mut Steps<L>)
        requires { is_member simplex_cmp s.now self.old.members ≡ true }
        ensures members { self.new.members ≡ but s.now self.old.members }
        ensures spare { self.old.spare ≤ self.new.spare }
        ensures changes { self.new.changes ≡ risen self.old.changes 1 }
        ensures steps { steps.new ≡ steps.old + 1 }
    {
        steps.tick();
        take_from(&mut self.blocks, &Key::of(s));
        self.len -= 1;
        self.changes = self.changes.saturating_add(1);
    }

    /// The number of members.
    #[inline]
    pub fn len(&self) -> usize
        ensures value { result ≡ length self.now.members }
        ensures increasing { is_increasing simplex_cmp self.now.members ≡ true }
    {
        self.len
    }

    #[inline]
    pub fn is_empty(&self) -> bool
        ensures { result ≡ (length self.now.members == 0) }
    {
        self.len == 0
    }

    /// The member at the place, from 0. None exactly where there is none.
    pub fn at(&self, k: usize) -> Option<Simplex>
        ensures value { result ≡ slice_get self.now.members k }
        ensures simplex { IfSome result (λ s. IsTrue (is_simplex s)) }
    {
        if k >= self.len {
            return None;
        }
        let at = place_in(&self.blocks, k);
        Some(self.blocks[at.block].at(at.inner).simplex())
    }

    /// Whether the simplex is a member.
    pub fn has(&self, s: &Simplex) -> bool
        ensures value { result ≡ is_member simplex_cmp s.now self.now.members }
        ensures increasing { is_increasing simplex_cmp self.now.members ≡ true }
    {
        find_in(&self.blocks, &Key::of(s)).is_some()
    }

    /// How often members were put in and taken out.
    #[inline]
    pub fn changes(&self) -> u64
        ensures { result ≡ self.now.changes }
    {
        self.changes
    }

    /// The members in one list, in order.
    pub fn to_vec(&self) -> Result<Vec<Simplex>, Memory>
        ensures { IfOk result (λ v. v.items ≡ self.now.members) }
    {
        let mut list = Vec::new(*self.blocks.allocator());
        for block in &self.blocks {
            block.write_to(&mut list)?;
        }
        Ok(list)
    }
}

// The set of the list, with a counter of its own, which nobody reads.
fn filled<L: Ledger>(alloc: Global, list: &[Simplex], blank: Blank) -> Result<RankedSet, Memory>
    requires name { blank.name ≡ L.name }
    requires parts { blank.parts ≡ L.parts }
    requires some { 0 < L.parts }
    requires increasing { is_increasing simplex_cmp list.now ≡ true }
    ensures members { IfOk result (λ r. r.members ≡ list.now) }
    ensures changes { IfOk result (λ r. r.changes ≡ risen 0 (length list.now)) }
{
    let mut steps = Steps::<L>::open(blank);
    let mut set = RankedSet::new(alloc);
    set.reserve(list.len())?;
    for s in list {
        set.insert(s, &mut steps);
    }
    Ok(set)
}
