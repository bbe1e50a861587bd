// Sets of places, as bits.
ghost use Rattle.std.specs.Prelude.{◌≡◌, ◌<◌, ◌≤◌, ◌/◌, ◌^◌, ◌==◌, ◌&&◌, ◌||◌, ℕ, true, false, length, None, IfOk, IfSome};
ghost use Rattle.shellings.specs.Places.{is_one};

use simplex::Memory;
use std::alloc::Global;

const WORD_BITS: usize = 64;

/// A set of places, 64 a word.
#[derive(Drop)]
pub struct PlaceSet {
    words: Vec<u64>,
}

impl PlaceSet {
    /// The set with no place, with room for those below 64 times the number of words.
    pub fn new(alloc: Global, len: usize) -> Result<PlaceSet, Memory>
        ensures empty { IfOk result (λ s. (k : ℕ) → is_one s.words.items k ≡ false) }
        ensures len { IfOk result (λ s. length s.words.items ≡ len) }
    {
        Ok(PlaceSet {
            words: vec![in alloc; 0; len]?,
        })
    }

    /// Puts the place in.
    pub fn put(&mut self, place: usize)
        requires { place / 64 < length self.old.words.items }
        ensures value { (k : ℕ) → is_one self.new.words.items k ≡ ((k == place) || is_one self.old.words.items k) }
        ensures len { length self.new.words.items ≡ length self.old.words.items }
    {
        self.words[place / WORD_BITS] |= 1 << (place % WORD_BITS);
    }

    /// Takes over the places of the other set.
    pub fn copy_from(&mut self, other: &PlaceSet)
        requires { length self.old.words.items ≡ length other.now.words.items }
        ensures { self.new.words.items ≡ other.now.words.items }
    {
        self.words.copy_from_slice(&other.words);
    }

    /// Keeps the places that the other set has too.
    pub fn keep(&mut self, other: &PlaceSet)
        requires { length self.old.words.items ≡ length other.now.words.items }
        ensures value { (k : ℕ) → is_one self.new.words.items k ≡ (is_one self.old.words.items k && is_one other.now.words.items k) }
        ensures len { length self.new.words.items ≡ length self.old.words.items }
    {
        keep_words(&mut self.words, &other.words);
    }

    /// The least place from this one on. None exactly where there is none.
    pub fn next(&self, from: usize) -> Option<usize>
        requires { length self.now.words.items < 2 ^ 57 }
        ensures found { IfSome result (λ r. (from ≤ r) × (is_one self.now.words.items r ≡ true)) }
        ensures least { IfSome result (λ r. (k : ℕ) → from ≤ k → k < r → is_one self.now.words.items k ≡ false) }
        ensures none { result ≡ None → (k : ℕ) → from ≤ k → is_one self.now.words.items k ≡ false }
    {
        let mut place = from;
        while place / WORD_BITS < self.words.len() {
            let word = self.words[place / WORD_BITS] >> (place % WORD_BITS);
            if word != 0 {
                return Some(place + word.trailing_zeros() as usize);
            }
            place += WORD_BITS - place % WORD_BITS;
        }
        None
    }
}

// What is in both, word by word.
fn keep_words(words: &mut [u64], kept: &[u64])
    requires { length words.old ≡ length kept.now }
    ensures value { (k : ℕ) → is_one words.new k ≡ (is_one words.old k && is_one kept.now k) }
    ensures len { length words.new ≡ length words.old }
{
    for k in 0..words.len() {
        words[k] &= kept[k];
    }
}
