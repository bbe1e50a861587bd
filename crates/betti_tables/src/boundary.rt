// The matrix of the boundaries of the faces of one dimension, and its rank.
ghost use Rattle.std.specs.Prelude.{◌≡◌, ◌+◌, ◌<◌, ◌≤◌, ℕ, List, [], length, map, slice_index_or, IfOk, OnErr, OnOk};
ghost use Rattle.std.specs.Bool.{IsTrue};
ghost use Rattle.std.specs.List.{list_all, AllZip};
ghost use Rattle.simplex.specs.InOrder.{is_increasing};
ghost use Rattle.simplex.specs.Members.{In};
ghost use Rattle.simplex.specs.Simplex.{is_simplex, simplex_cmp};
ghost use Rattle.facet_set.specs.Numbers.{face_count};
ghost use Rattle.gf2_rank.specs.Laws.{IsNamed};
ghost use Rattle.gf2_rank.specs.Matrix.{side_limit, cols, column as rows_of};
ghost use Rattle.betti_tables.specs.Boundary.{HasRows, IsWritten};
ghost use Rattle.betti_tables.specs.Ranks.{column, rank_at};

use face_lattice::Lattice;
use gf2_rank::BitMatrix;
use simplex::{Memory, Simplex, Steps};
use std::alloc::Global;
use std::sync::ledger::Ledger;

/// rank(k) of the faces of a complex, which is one step.
pub fn boundary_rank<L: Ledger>(
    alloc: Global,
    l: &Lattice,
    k: usize,
    steps: &mut Steps<L>,
) -> Result<usize, Memory>
    requires simplices { IsTrue (list_all is_simplex l.now.facets) }
    requires low { 1 ≤ k }
    requires high { k ≤ 12 }
    requires rows { face_count l.now.facets k ≤ side_limit }
    requires columns { face_count l.now.facets (k + 1) ≤ side_limit }
    ensures value { IfOk result (λ r. r ≡ rank_at l.now.facets k) }
    ensures steps { OnOk result (steps.new ≡ steps.old + 1) }
    ensures none { OnErr result (steps.new ≡ steps.old) }
{
    let rows = l.faces_of_size(k)?;
    let columns = l.faces_of_size(k + 1)?;
    let matrix = boundaries(alloc, rows.as_slice(), columns.as_slice())?;
    Ok(matrix.rank(steps))
}

// The matrix of the boundaries of simplices, a column for each, over rows in increasing order.
fn boundaries(alloc: Global, rows: &[Simplex], simplices: &[Simplex]) -> Result<BitMatrix, Memory>
    requires rows { length rows.now ≤ side_limit }
    requires columns { length simplices.now ≤ side_limit }
    requires found { (s : List ℕ) → In s simplices.now → HasRows rows.now s }
    ensures { IfOk result (λ m. AllZip (IsNamed rows.now) m.columns (map column simplices.now)) }
{
    let mut matrix = BitMatrix::new(alloc, rows.len(), simplices.len())?;
    for (col, s) in simplices.iter().enumerate() {
        write_column(&mut matrix, col, rows, s);
    }
    Ok(matrix)
}

// Writes the boundary of a simplex into an empty column.
fn write_column(matrix: &mut BitMatrix, col: usize, rows: &[Simplex], s: &Simplex)
    requires rows { matrix.old.rows ≡ length rows.now }
    requires col { col < cols matrix.old }
    requires empty { rows_of matrix.old col ≡ [] }
    requires found { HasRows rows.now s.now }
    ensures { IsWritten rows.now (column s.now) col matrix.old matrix.new }
{
    for label in s.labels() {
        let row = place_of(rows, &s.without(*label));
        matrix.set(row, col);
    }
}

// The place of a row.
fn place_of(rows: &[Simplex], s: &Simplex) -> usize
    requires rising { IsTrue (is_increasing simplex_cmp rows.now) }
    requires found { In s.now rows.now }
    ensures inside { result < length rows.now }
    ensures here { slice_index_or rows.now result s.now ≡ s.now }
{
    match rows.binary_search(s) {
        Ok(row) => row,
        Err(_) => unreachable!(),
    }
}
