// Simplices in four words. The order of the words is that of the simplices.
ghost use Rattle.std.specs.Prelude.{◌≡◌, ◌<◌, ◌+◌, ◌-◌, ◌*◌, ◌/◌, ◌%◌, ◌^◌, ◌++◌, Some, IsTrue, nat_eq, length, slice_get, refl, if◌then◌else◌};
ghost use Rattle.std.proofs.Common.{ap};
ghost use Rattle.std.specs.Cmp.{partial_equiv_from_equiv, unsigned_Decides};
ghost use Rattle.std.specs.Cmp.Lexicographic.{pointwise, pointwise_decides, slice_cmp, nat_list_eq_equiv, nat_list_cmp_total, texts_po, texts_ties};
ghost use Rattle.std.specs.Hash as fed;
ghost use Rattle.std.specs.Ordering.{nat_cmp};
ghost use Rattle.packed_keys.specs.Words.{word};

use simplex::Simplex;
use std::cmp::Ordering;
use std::hash::{Hash, Hasher};
use std::marker::Model;

/// A simplex in 32 bytes, small and quick to compare as the key of a table: three labels of 20 bits in each of four words, the least label on
/// top, and the number of labels in the four lowest bits (own). Contracts see the list of its labels.
#[derive(Clone, Copy, Debug)]
pub struct Key {
    a: u64,
    b: u64,
    c: u64,
    d: u64,
}

impl Model for Key {
    ghost use Rattle.std.specs.Prelude.{List, ℕ, length, ◌+◌};
    ghost use Rattle.std.proofs.Common.{sym};
    ghost use Rattle.packed_keys.specs.Words.{word, unpacked, AreWordsOf};

    ghost Value = { List ℕ };

    ghost view = { λ k. unpacked k.a k.b k.c k.d };

    ghost invariant = { λ k. AreWordsOf (unpacked k.a k.b k.c k.d) k.a k.b k.c k.d };

    ghost inverse = { λ s. record { a = word s 0; b = word s 1; c = word s 2; d = word s 3 + length s } };

    ghost inverse_ok = { λ k h i. record { a = sym h.first i; b = sym h.second i; c = sym h.third i; d = sym h.last i } };
}

impl Key {
    ghost use Rattle.std.specs.Prelude.{◌≡◌, ◌≤◌, ◌==◌, [], ◌∷◌, ◌++◌, length, slice_get, IsTrue};
    ghost use Rattle.simplex.specs.Simplex.{has, is_simplex, subset_at};

    /// The simplex with no label.
    pub const EMPTY: Key = Key {
        a: 0,
        b: 0,
        c: 0,
        d: 0,
    };

    /// The simplex packed.
    pub fn of(s: &Simplex) -> Key
        ensures value { result ≡ s.now }
        ensures simplex { IsTrue (is_simplex result) }
    {
        let mut key = Key::EMPTY;
        for label in s.labels() {
            key = key.push(*label);
        }
        key
    }

    /// The labels at the places whose bits are set, from the lowest bit on, packed.
    pub fn subset(s: &Simplex, mask: u32) -> Key
        ensures value { result ≡ subset_at s.now mask }
        ensures simplex { IsTrue (is_simplex result) }
    {
        Key::among(s.labels(), mask)
    }

    /// The same for a list that may have more labels than a simplex. Those that are chosen make a simplex.
    pub fn among(labels: &[u32], mask: u32) -> Key
        requires { IsTrue (is_simplex (subset_at labels.now mask)) }
        ensures { result ≡ subset_at labels.now mask }
    {
        let mut key = Key::EMPTY;
        let mut bits = mask;
        for label in labels {
            if bits % 2 == 1 {
                key = key.push(*label);
            }
            bits /= 2;
        }
        key
    }

    /// The simplex with one more label, above all others.
    #[inline]
    pub fn push(&self, label: u32) -> Key
        requires { IsTrue (is_simplex (self.now ++ label ∷ [])) }
        ensures { result ≡ self.now ++ label ∷ [] }
    {
        let n = self.d % 16;
        let bits = in_place(label, n % 3);
        Key {
            a: put_in(self.a, bits, n / 3 == 0),
            b: put_in(self.b, bits, n / 3 == 1),
            c: put_in(self.c, bits, n / 3 == 2),
            d: put_in(self.d, bits, n / 3 == 3) + 1,
        }
    }

    /// The number of labels.
    #[inline]
    pub fn len(&self) -> usize
        ensures value { result ≡ length self.now }
        ensures simplex { IsTrue (is_simplex self.now) }
    {
        (self.d % 16) as usize
    }

    #[inline]
    pub fn is_empty(&self) -> bool
        ensures { result ≡ (length self.now == 0) }
    {
        self.d % 16 == 0
    }

    /// The label at the place, from 0. None exactly where there is none.
    #[inline]
    pub fn at(&self, k: usize) -> Option<u32>
        ensures value { result ≡ slice_get self.now k }
        ensures simplex { IsTrue (is_simplex self.now) }
    {
        if k < self.len() {
            Some(self.label(k))
        } else {
            None
        }
    }

    /// Whether the label is in the simplex.
    #[inline]
    pub fn has(&self, label: u32) -> bool
        ensures { result ≡ has self.now label }
    {
        for k in 0..self.len() {
            if self.label(k) == label {
                return true;
            }
        }
        false
    }

    /// The simplex unpacked.
    pub fn simplex(&self) -> Simplex
        ensures value { result ≡ self.now }
        ensures simplex { IsTrue (is_simplex result) }
    {
        let mut labels = [0; 12];
        for k in 0..self.len() {
            labels[k] = self.label(k);
        }
        match Simplex::of(&labels[..self.len()]) {
            Ok(s) => s,
            Err(_) => unreachable!(),
        }
    }

    // The label at the place.
    #[inline]
    fn label(&self, k: usize) -> u32
        requires { k < length self.now }
        ensures { slice_get self.now k ≡ Some result }
    {
        let word = match k / 3 {
            0 => self.a,
            1 => self.b,
            2 => self.c,
            _ => self.d,
        };
        label_in(word, k % 3)
    }
}

// The bits of the label at the place in its word.
#[inline]
fn in_place(label: u32, place: u64) -> u64
    requires label { label < 2 ^ 20 }
    requires place { place < 3 }
    ensures { result ≡ label * 2 ^ (44 - 20 * place) }
{
    (label as u64) << (44 - 20 * place)
}

// The word with the bits put in, where they go into it.
#[inline]
fn put_in(word: u64, bits: u64, here: bool) -> u64
    requires { IsTrue here → word + bits < 2 ^ 64 }
    ensures { result ≡ (if here then word + bits else word) }
{
    if here { word + bits } else { word }
}

// The label at the place in the word.
#[inline]
fn label_in(word: u64, place: usize) -> u32
    requires { place < 3 }
    ensures { result ≡ word / 2 ^ (44 - 20 * place) % 2 ^ 20 }
{
    ((word >> (44 - 20 * place)) % (1 << 20)) as u32
}

impl PartialEq for Key {
    ghost eq = { pointwise nat_eq };

    ghost laws = { partial_equiv_from_equiv nat_list_eq_equiv };

    #[inline]
    fn eq(&self, other: &Key) -> bool {
        self.a == other.a && self.b == other.b && self.c == other.c && self.d == other.d
    }
}

impl Eq for Key {
    ghost laws = { nat_list_eq_equiv };
}

impl PartialOrd for Key {
    ghost partial_cmp = { λ x y. Some (slice_cmp nat_cmp x y) };

    ghost laws = { texts_po };

    #[inline]
    fn partial_cmp(&self, other: &Key) -> Option<Ordering> {
        Some(self.cmp(other))
    }
}

impl Ord for Key {
    ghost cmp = { slice_cmp nat_cmp };

    ghost total = { nat_list_cmp_total };

    ghost matches_partial_cmp = { λ x y. refl };

    ghost matches_eq = { texts_ties };

    #[inline]
    fn cmp(&self, other: &Key) -> Ordering {
        if self.a != other.a {
            return self.a.cmp(&other.a);
        }
        if self.b != other.b {
            return self.b.cmp(&other.b);
        }
        if self.c != other.c {
            return self.c.cmp(&other.c);
        }
        self.d.cmp(&other.d)
    }
}

impl Hash for Key {
    ghost hash_input = { λ s. fed.u64 (word s 0) ++ fed.u64 (word s 1) ++ fed.u64 (word s 2) ++ fed.u64 (word s 3 + length s) };

    ghost respects_eq = { λ s t h. ap
        (λ l. fed.u64 (word l 0) ++ fed.u64 (word l 1) ++ fed.u64 (word l 2) ++ fed.u64 (word l 3 + length l))
        ((pointwise_decides unsigned_Decides s t).0 h) };

    #[inline]
    fn hash<H: Hasher>(&self, state: &mut H) {
        self.a.hash(state);
        self.b.hash(state);
        self.c.hash(state);
        self.d.hash(state);
    }
}
