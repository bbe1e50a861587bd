ghost use Rattle.std.specs.Prelude.{◌≡◌, ◌↔◌, ◌<◌, ◌≤◌, ◌/◌, ◌*◌, [], length, IfOk, IfSome, IsNone, IsTrue};
ghost use Rattle.std.specs.Ordering.{nat_cmp};
ghost use Rattle.simplex.specs.InOrder.{is_member, put};
ghost use Rattle.gf2_rank.specs.Added.{IsAdded};
ghost use Rattle.gf2_rank.specs.Elimination.{cleared};
ghost use Rattle.gf2_rank.specs.Ones.{ones};
ghost use Rattle.gf2_rank.specs.Span.{difference};

use simplex::Memory;
use std::alloc::Global;

const WORD_BITS: usize = 64;

/// A column, 64 rows a word.
#[derive(Debug, Drop)]
pub(crate) struct Column {
    words: Vec<u64>,
}

impl Column {
    /// The column with no 1 in so many words.
    pub(crate) fn new(alloc: Global, len: usize) -> Result<Column, Memory>
        ensures empty { IfOk result (λ c. ones c.words.items ≡ []) }
        ensures len { IfOk result (λ c. length c.words.items ≡ len) }
    {
        Ok(Column {
            words: vec![in alloc; 0; len]?,
        })
    }

    /// Whether the row is 1.
    pub(crate) fn has(&self, row: usize) -> bool
        requires { row / 64 < length self.now.words.items }
        ensures { result ≡ is_member nat_cmp row (ones self.now.words.items) }
    {
        (self.words[row / WORD_BITS] >> (row % WORD_BITS)) & 1 == 1
    }

    /// Makes the row 1.
    pub(crate) fn set(&mut self, row: usize)
        requires { row / 64 < length self.old.words.items }
        ensures value { ones self.new.words.items ≡ put nat_cmp row (ones self.old.words.items) }
        ensures len { length self.new.words.items ≡ length self.old.words.items }
    {
        self.words[row / WORD_BITS] |= 1 << (row % WORD_BITS);
    }

    /// Adds the other column, word by word.
    pub(crate) fn add(&mut self, other: &Column)
        requires { length self.old.words.items ≡ length other.now.words.items }
        ensures value { ones self.new.words.items ≡ difference nat_cmp (ones self.old.words.items) (ones other.now.words.items) }
        ensures len { length self.new.words.items ≡ length self.old.words.items }
    {
        add_words(&mut self.words, &other.words);
    }

    /// A row that is 1, if there is one.
    pub(crate) fn pivot_row(&self) -> Option<usize>
        requires { length self.now.words.items ≤ 256 }
        ensures member { IfSome result (λ row. IsTrue (is_member nat_cmp row (ones self.now.words.items))) }
        ensures inside { IfSome result (λ row. row / 64 < length self.now.words.items) }
        ensures none { IsNone result ↔ (ones self.now.words.items ≡ []) }
    {
        for k in 0..self.words.len() {
            let word = self.words[k];
            if word != 0 {
                return Some(WORD_BITS * k + word.trailing_zeros() as usize);
            }
        }
        None
    }

    /// Clears the row by the pivot, which has it.
    pub(crate) fn clear(&mut self, row: usize, pivot: &Column)
        requires inside { row / 64 < length self.old.words.items }
        requires same { length self.old.words.items ≡ length pivot.now.words.items }
        ensures value { ones self.new.words.items ≡ cleared nat_cmp row (ones pivot.now.words.items) (ones self.old.words.items) }
        ensures len { length self.new.words.items ≡ length self.old.words.items }
    {
        if self.has(row) {
            self.add(pivot);
        }
    }
}

// The sums, word by word.
fn add_words(words: &mut [u64], added: &[u64])
    requires { length words.old ≡ length added.now }
    ensures { IsAdded words.old added.now words.new (length added.now) }
{
    for k in 0..words.len() {
        words[k] ^= added[k];
    }
}
