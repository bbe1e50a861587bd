// A strictly increasing list of simplices in blocks, so that putting one in and taking one out move few others.
ghost use Rattle.std.specs.Prelude.{◌≡◌, ◌<◌, ◌≤◌, ◌+◌, ◌-◌, ◌^◌, ℕ, List, [], ◌++◌, length, take, drop, insert, slice_set, slice_index_or, IfOk, IfErr, IfSome, OnOk, OnErr, None, true, false, vec_len, vec_capacity};
ghost use Rattle.std.specs.List.{list_all, remove};
ghost use Rattle.simplex.specs.InOrder.{is_increasing, is_member, put};
ghost use Rattle.simplex.specs.Simplex.{simplex_cmp};
ghost use Rattle.ranked_set.specs.Blocks.{joined, are_below, are_short, excess, spare_in, IsRanked, IsStarted, IsTidied, but};

use packed_keys::Key;
use simplex::{Memory, Simplex};
use std::alloc::Global;
use std::marker::Model;

/// A block of this length is cut in two halves.
pub const BLOCK_LIMIT: usize = 128;

/// At most 128 simplices, for which there is room.
#[derive(Drop)]
pub struct Block {
    items: Vec<Key>,
}

impl Model for Block {
    ghost use Rattle.std.specs.Prelude.{List, ℕ, ◌≤◌, vec_len, vec_capacity};

    ghost Value = { List (List ℕ) };

    ghost view = { λ b. b.items.items };

    ghost invariant = { λ b. (128 ≤ vec_capacity b.items) × (vec_len b.items ≤ 128) };
}

impl Block {
    /// The empty block.
    pub fn new(alloc: Global) -> Result<Block, Memory>
        ensures { IfOk result (λ b. b ≡ []) }
    {
        Ok(Block {
            items: Vec::with_capacity(alloc, BLOCK_LIMIT)?,
        })
    }

    #[inline]
    pub fn len(&self) -> usize
        ensures { result ≡ length self.now }
    {
        self.items.len()
    }

    /// The member at the place.
    #[inline]
    pub fn at(&self, place: usize) -> Key
        requires { place < length self.now }
        ensures { result ≡ slice_index_or self.now place [] }
    {
        self.items[place]
    }

    /// Whether all members are below the simplex.
    #[inline]
    pub fn is_below(&self, s: &Key) -> bool
        requires rising { is_increasing simplex_cmp self.now ≡ true }
        ensures { result ≡ are_below s.now self.now }
    {
        match self.items.last() {
            Some(last) => last < s,
            None => true,
        }
    }

    /// The place of the simplex. None exactly where it is no member.
    pub fn find(&self, s: &Key) -> Option<usize>
        requires rising { is_increasing simplex_cmp self.now ≡ true }
        ensures within { IfSome result (λ k. k < length self.now) }
        ensures there { IfSome result (λ k. slice_index_or self.now k [] ≡ s.now) }
        ensures none { result ≡ None → is_member simplex_cmp s.now self.now ≡ false }
    {
        place_of(&self.items, s).ok()
    }

    /// Puts the simplex in its place.
    pub fn put(&mut self, s: Key)
        requires room { length self.old < 128 }
        requires rising { is_increasing simplex_cmp self.old ≡ true }
        ensures { self.new ≡ put simplex_cmp s self.old }
    {
        if let Err(place) = place_of(&self.items, &s) {
            self.items.insert(place, s).unwrap();
        }
    }

    /// Takes out the member at the place.
    pub fn take_out(&mut self, place: usize)
        requires { place < length self.old }
        ensures { self.new ≡ remove self.old place }
    {
        self.items.remove(place);
    }

    /// Moves all from the 64th on into the other block, in place of what that has.
    pub fn halve(&mut self, upper: &mut Block)
        requires many { 64 ≤ length self.old }
        ensures lower { self.new ≡ take 64 self.old }
        ensures upper { upper.new ≡ drop 64 self.old }
    {
        upper.items.clear();
        move_above(&self.items, &mut upper.items);
        self.items.truncate(64);
    }

    /// Adds the members at the end of the list.
    pub fn write_to(&self, list: &mut Vec<Simplex>) -> Result<(), Memory>
        ensures { IfOk result (λ _. list.new.items ≡ list.old.items ++ self.now) }
    {
        for key in &self.items {
            list.push(key.simplex())?;
        }
        Ok(())
    }
}

// Appends what stands from the 64th place on to an empty list that has room for it.
fn move_above(items: &Vec<Key>, upper: &mut Vec<Key>)
    requires few { vec_len items.now ≤ 128 }
    requires many { 64 ≤ vec_len items.now }
    requires room { 128 ≤ vec_capacity upper.old }
    requires empty { upper.old.items ≡ [] }
    ensures items { upper.new.items ≡ drop 64 items.now.items }
    ensures room { 128 ≤ vec_capacity upper.new }
    ensures few { vec_len upper.new ≤ 128 }
{
    upper.extend_from_slice(&items[64..]).unwrap();
}

// The place of a simplex, or where it goes.
fn place_of(items: &[Key], s: &Key) -> Result<usize, usize>
    requires { is_increasing simplex_cmp items.now ≡ true }
    ensures bound { IfErr result (λ k. k ≤ length items.now) }
    ensures here { IfErr result (λ k. insert items.now k s.now ≡ put simplex_cmp s.now items.now) }
    ensures absent { IfErr result (λ k. is_member simplex_cmp s.now items.now ≡ false) }
    ensures within { IfOk result (λ k. k < length items.now) }
    ensures there { IfOk result (λ k. slice_index_or items.now k [] ≡ s.now) }
    ensures found { IfOk result (λ k. items.now ≡ put simplex_cmp s.now items.now) }
{
    items.binary_search(s)
}

/// A place in the list: that of its block, and that in the block.
#[derive(Clone, Copy)]
pub struct Place {
    pub block: usize,
    pub inner: usize,
}

/// Where the place of the list is in the blocks.
pub fn place_in(blocks: &[Block], place: usize) -> Place
    requires { place < length (joined blocks.now) }
    ensures block { result.block < length blocks.now }
    ensures inner { result.inner < length (slice_index_or blocks.now result.block []) }
    ensures sum { place ≡ length (joined (take result.block blocks.now)) + result.inner }
{
    let mut inner = place;
    for block in 0..blocks.len() {
        let len = blocks[block].len();
        if inner < len {
            return Place { block, inner };
        }
        inner -= len;
    }
    unreachable!()
}

// The block that the simplex belongs in: the one before it ends below the simplex, and it does not, unless it is the last.
fn block_for(blocks: &[Block], s: &Key) -> usize
    requires ranked { IsRanked blocks.now }
    requires some { 0 < length blocks.now }
    ensures within { result < length blocks.now }
    ensures before { (j : ℕ) → j + 1 ≡ result → are_below s.now (slice_index_or blocks.now j []) ≡ true }
    ensures here { result + 1 < length blocks.now → are_below s.now (slice_index_or blocks.now result []) ≡ false }
{
    let mut low = 0;
    let mut high = blocks.len() - 1;
    while low < high {
        let middle = low + (high - low) / 2;
        if blocks[middle].is_below(s) {
            low = middle + 1;
        } else {
            high = middle;
        }
    }
    low
}

/// Where the simplex is. None exactly where it is no member.
pub fn find_in(blocks: &[Block], s: &Key) -> Option<Place>
    requires ranked { IsRanked blocks.now }
    ensures block { IfSome result (λ p. p.block < length blocks.now) }
    ensures inner { IfSome result (λ p. p.inner < length (slice_index_or blocks.now p.block [])) }
    ensures there { IfSome result (λ p. slice_index_or (slice_index_or blocks.now p.block []) p.inner [] ≡ s.now) }
    ensures none { result ≡ None → is_member simplex_cmp s.now (joined blocks.now) ≡ false }
{
    if blocks.is_empty() {
        return None;
    }
    let block = block_for(blocks, s);
    let inner = blocks[block].find(s)?;
    Some(Place { block, inner })
}

/// Puts the simplex in its place, in a block of the pool too where its own gets long.
pub fn put_in(blocks: &mut Vec<Block>, pool: &mut Vec<Block>, s: Key)
    requires ranked { IsRanked blocks.old.items }
    requires short { are_short blocks.old.items ≡ true }
    requires some { 0 < vec_len blocks.old }
    requires pool { 0 < vec_len pool.old }
    requires room { vec_len blocks.old + vec_len pool.old ≤ vec_capacity blocks.old }
    requires new { is_member simplex_cmp s (joined blocks.old.items) ≡ false }
    ensures members { joined blocks.new.items ≡ put simplex_cmp s (joined blocks.old.items) }
    ensures ranked { IsRanked blocks.new.items }
    ensures short { are_short blocks.new.items ≡ true }
    ensures spare { spare_in blocks.old.items (vec_len pool.old) ≤ spare_in blocks.new.items (vec_len pool.new) + 1 }
    ensures sum { vec_len blocks.new + vec_len pool.new ≡ vec_len blocks.old + vec_len pool.old }
    ensures some { 0 < vec_len blocks.new }
    ensures capacity { vec_capacity blocks.old ≤ vec_capacity blocks.new }
{
    let k = block_for(blocks, &s);
    blocks[k].put(s);
    if blocks[k].len() == BLOCK_LIMIT {
        cut(blocks, pool, k);
    }
}

// Cuts the block in two halves, the upper one in a block of the pool.
fn cut(blocks: &mut Vec<Block>, pool: &mut Vec<Block>, k: usize)
    requires within { k < vec_len blocks.old }
    requires many { 64 ≤ length (slice_index_or blocks.old.items k []) }
    requires pool { 0 < vec_len pool.old }
    requires room { vec_len blocks.old < vec_capacity blocks.old }
    ensures items { let b = slice_index_or blocks.old.items k [] in
        blocks.new.items ≡ insert (slice_set blocks.old.items k (take 64 b)) (k + 1) (drop 64 b) }
    ensures len { vec_len blocks.new ≡ vec_len blocks.old + 1 }
    ensures pool { vec_len pool.new + 1 ≡ vec_len pool.old }
    ensures capacity { vec_capacity blocks.old ≤ vec_capacity blocks.new }
{
    let mut upper = match pool.pop() {
        Some(block) => block,
        None => unreachable!(),
    };
    blocks[k].halve(&mut upper);
    blocks.insert(k + 1, upper).unwrap();
}

/// Takes the member out, and its block too where that is left empty and is not the only one.
pub fn take_from(blocks: &mut Vec<Block>, s: &Key)
    requires ranked { IsRanked blocks.old.items }
    requires short { are_short blocks.old.items ≡ true }
    requires member { is_member simplex_cmp s.now (joined blocks.old.items) ≡ true }
    ensures members { joined blocks.new.items ≡ but s.now (joined blocks.old.items) }
    ensures ranked { IsRanked blocks.new.items }
    ensures short { are_short blocks.new.items ≡ true }
    ensures excess { excess blocks.new.items ≤ excess blocks.old.items }
    ensures len { vec_len blocks.new ≤ vec_len blocks.old }
    ensures some { 0 < vec_len blocks.new }
    ensures capacity { vec_capacity blocks.new ≡ vec_capacity blocks.old }
{
    let at = match find_in(blocks, s) {
        Some(at) => at,
        None => unreachable!(),
    };
    blocks[at.block].take_out(at.inner);
    tidy(blocks, at.block);
}

// Takes the block out where it is empty and not the only one.
fn tidy(blocks: &mut Vec<Block>, k: usize)
    requires within { k < vec_len blocks.old }
    ensures tidied { IsTidied blocks.old.items k blocks.new.items }
    ensures len { vec_len blocks.new ≤ vec_len blocks.old }
    ensures some { 0 < vec_len blocks.new }
    ensures capacity { vec_capacity blocks.new ≡ vec_capacity blocks.old }
{
    if blocks.len() > 1 && blocks[k].len() == 0 {
        blocks.remove(k);
    }
}

/// By how much the blocks are longer than 64, in all.
pub fn excess(blocks: &[Block]) -> usize
    requires short { are_short blocks.now ≡ true }
    requires few { length blocks.now ≤ 2 ^ 56 }
    ensures { result ≡ excess blocks.now }
{
    let mut sum = 0;
    for block in blocks {
        sum += block.len().saturating_sub(64);
    }
    sum
}

/// Blocks into the pool, so that it has so many. An `Err` leaves those that there is memory for.
pub fn fill_pool(alloc: Global, pool: &mut Vec<Block>, count: usize) -> Result<(), Memory>
    ensures ok { IfOk result (λ _. count ≤ vec_len pool.new) }
    ensures grown { vec_len pool.old ≤ vec_len pool.new }
    ensures most { vec_len pool.new ≤ vec_len pool.old + (count - vec_len pool.old) }
{
    while pool.len() < count {
        pool.push(Block::new(alloc)?)?;
    }
    Ok(())
}

/// Room for so many blocks beside those that there are, and a first block where there is none. An `Err` leaves the blocks as they are.
pub fn make_room(blocks: &mut Vec<Block>, count: usize) -> Result<(), Memory>
    requires few { count < 2 ^ 56 }
    ensures room { OnOk result (vec_len blocks.new + count ≤ vec_capacity blocks.new) }
    ensures started { OnOk result (IsStarted blocks.old.items blocks.new.items) }
    ensures err { OnErr result (blocks.new.items ≡ blocks.old.items) }
    ensures capacity { vec_capacity blocks.old ≤ vec_capacity blocks.new }
{
    blocks.reserve(count + 1)?;
    if blocks.is_empty() {
        let block = Block::new(*blocks.allocator())?;
        blocks.push(block)?;
    }
    Ok(())
}
