ghost use Rattle.std.specs.Prelude.{◌≡◌, ◌+◌, ◌<◌, ◌≤◌, ◌/◌, length, map, All, IfOk};
ghost use Rattle.std.specs.Ordering.{nat_cmp};
ghost use Rattle.gf2_rank.specs.Elimination.{cleared};
ghost use Rattle.gf2_rank.specs.Matrix.{Matrix, cols, column, entry, side_limit, with_one, zero_matrix};
ghost use Rattle.gf2_rank.specs.Columns.{sets};
ghost use Rattle.gf2_rank.specs.Ones.{ones};
ghost use Rattle.gf2_rank.specs.Span.{rank};

use crate::column::Column;
use simplex::{Memory, Steps};
use std::alloc::Global;
use std::marker::Model;
use std::sync::ledger::Ledger;

/// The greatest number of rows, and of columns. The limit is own.
pub const SIDE_LIMIT: usize = 16_384;

/// A matrix over the field of two elements, column by column. Only `new` takes memory.
#[derive(Debug, Drop)]
pub struct BitMatrix {
    rows: usize,
    columns: Vec<Column>,
}

impl Model for BitMatrix {
    ghost use Rattle.gf2_rank.specs.Matrix.{Matrix};
    ghost use Rattle.gf2_rank.specs.Columns.{sets, AreColumns};

    ghost Value = { Matrix };

    ghost view = { λ m. record { rows = m.rows; columns = sets m.columns.items } };

    ghost invariant = { λ m. AreColumns m.rows m.columns.items };
}

impl BitMatrix {
    /// The matrix with all entries 0.
    pub fn new(alloc: Global, rows: usize, cols: usize) -> Result<BitMatrix, Memory>
        requires rows { rows ≤ side_limit }
        requires cols { cols ≤ side_limit }
        ensures { IfOk result (λ m. m ≡ zero_matrix rows cols) }
    {
        let len = words_of(rows);
        let mut columns = Vec::with_capacity(alloc, cols)?;
        for _ in 0..cols {
            columns.push(Column::new(alloc, len)?)?;
        }
        Ok(BitMatrix { rows, columns })
    }

    /// Makes the entry 1.
    pub fn set(&mut self, row: usize, col: usize)
        requires row { row < self.old.rows }
        requires col { col < cols self.old }
        ensures { self.new ≡ with_one self.old row col }
    {
        self.columns[col].set(row);
    }

    /// Whether the entry is 1.
    pub fn get(&self, row: usize, col: usize) -> bool
        requires row { row < self.now.rows }
        requires col { col < cols self.now }
        ensures { result ≡ entry self.now row col }
    {
        self.columns[col].has(row)
    }

    /// The rank, by elimination (textbook), which is one step.
    pub fn rank<L: Ledger>(self, steps: &mut Steps<L>) -> usize
        ensures value { result ≡ rank nat_cmp self.columns }
        ensures steps { steps.new ≡ steps.old + 1 }
    {
        steps.tick();
        rank_of(self.columns, words_of(self.rows))
    }
}

// The number of words that so many rows take.
fn words_of(rows: usize) -> usize
    requires { rows ≤ side_limit }
    ensures { result ≡ (rows + 63) / 64 }
{
    rows.div_ceil(64)
}

// The rank of columns of so many words. The last column that is not empty has a row that no other needs.
fn rank_of(columns: Vec<Column>, len: usize) -> usize
    requires len { All (λ c. length c.words.items ≡ len) columns.items }
    requires short { len ≤ 256 }
    ensures { result ≡ rank nat_cmp (sets columns.items) }
{
    let mut columns = columns;
    let mut rank = 0;
    while let Some(last) = columns.pop() {
        if let Some(row) = last.pivot_row() {
            clear_all(&mut columns, row, &last);
            rank += 1;
        }
    }
    rank
}

// Clears the row in each of the columns.
fn clear_all(columns: &mut [Column], row: usize, pivot: &Column)
    requires inside { row / 64 < length pivot.now.words.items }
    requires same { All (λ c. length c.words.items ≡ length pivot.now.words.items) columns.old }
    ensures value { sets columns.new ≡ map (cleared nat_cmp row (ones pivot.now.words.items)) (sets columns.old) }
    ensures len { All (λ c. length c.words.items ≡ length pivot.now.words.items) columns.new }
{
    for column in columns.iter_mut() {
        column.clear(row, pivot);
    }
}
