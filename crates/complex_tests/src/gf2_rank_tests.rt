ghost use Rattle.std.specs.Prelude.{◌≡◌, ◌≤◌, ◌<◌, length, IfOk};

use gf2_rank::BitMatrix;
use simplex::{Memory, Steps};
use std::alloc::Global;
use std::marker::Brand;
use std::sync::ledger::{Blank, Ledger};
use std::test::Fail;

// The real projective plane of 6 vertices, which has f-vector (6, 15, 10) and Betti numbers (1, 1, 1) modulo 2.
// Its edges are all pairs of vertices, and its triangles 123, 124, 135, 146, 156, 236, 245, 256, 345, 346.
// Here are the ends of the edges, and the edges of the triangles.
const EDGES: [(usize, usize); 30] = [
    (0, 0),
    (1, 0),
    (0, 1),
    (2, 1),
    (0, 2),
    (3, 2),
    (0, 3),
    (4, 3),
    (0, 4),
    (5, 4),
    (1, 5),
    (2, 5),
    (1, 6),
    (3, 6),
    (1, 7),
    (4, 7),
    (1, 8),
    (5, 8),
    (2, 9),
    (3, 9),
    (2, 10),
    (4, 10),
    (2, 11),
    (5, 11),
    (3, 12),
    (4, 12),
    (3, 13),
    (5, 13),
    (4, 14),
    (5, 14),
];

const TRIANGLES: [(usize, usize); 30] = [
    (0, 0),
    (1, 0),
    (5, 0),
    (0, 1),
    (2, 1),
    (6, 1),
    (1, 2),
    (3, 2),
    (10, 2),
    (2, 3),
    (4, 3),
    (13, 3),
    (3, 4),
    (4, 4),
    (14, 4),
    (5, 5),
    (8, 5),
    (11, 5),
    (6, 6),
    (7, 6),
    (12, 6),
    (7, 7),
    (8, 7),
    (14, 7),
    (9, 8),
    (10, 8),
    (12, 8),
    (9, 9),
    (11, 9),
    (13, 9),
];

// Ones on both sides of the end of a word, of which one is set twice.
const SET: &[(usize, usize)] = &[(63, 0), (64, 1), (64, 1)];

// Ones in the last of as many rows as there may be.
const LAST: &[(usize, usize)] = &[(16_383, 0), (0, 1), (16_383, 1)];

fn matrix(
    alloc: Global,
    rows: usize,
    cols: usize,
    ones: &[(usize, usize)],
) -> Result<BitMatrix, Memory>
    requires rows { rows ≤ 16384 }
    requires cols { cols ≤ 16384 }
    ensures rows { IfOk result (λ m. m.rows ≡ rows) }
    ensures cols { IfOk result (λ m. length m.columns ≡ cols) }
{
    let mut matrix = BitMatrix::new(alloc, rows, cols)?;
    for (row, col) in ones {
        if *row < rows && *col < cols {
            matrix.set(*row, *col);
        }
    }
    Ok(matrix)
}

fn counted<L: Ledger>(matrix: BitMatrix, blank: Blank) -> usize
    requires name { blank.name ≡ L.name }
    requires parts { blank.parts ≡ L.parts }
    requires some { 0 < L.parts }
{
    let mut steps = Steps::<L>::open(blank);
    matrix.rank(&mut steps)
}

fn rank(matrix: BitMatrix) -> usize {
    counted::<Brand>(matrix, Blank::new(1))
}

// The rank, where the sides are within the limit.
fn rank_of(
    alloc: Global,
    rows: usize,
    cols: usize,
    ones: &[(usize, usize)],
) -> Result<usize, Memory> {
    if rows <= 16_384 && cols <= 16_384 {
        Ok(rank(matrix(alloc, rows, cols, ones)?))
    } else {
        Err(Memory)
    }
}

#[test]
fn ranks(rt: HostRuntime) -> Result<(), Fail> {
    // The numbers of rows and columns, the places of the ones, and the rank.
    let cases: [(usize, usize, &[(usize, usize)], usize); 9] = [
        (6, 15, &EDGES, 5),
        (15, 10, &TRIANGLES, 9),
        (0, 0, &[], 0),
        (5, 0, &[], 0),
        (0, 5, &[], 0),
        (5, 5, &[], 0),
        (2, 7, &[(0, 1), (0, 3), (1, 3), (1, 5), (0, 5)], 2),
        (70, 3, SET, 2),
        (16_384, 2, LAST, 2),
    ];
    for (rows, cols, ones, want) in cases {
        assert_eq!(rt; rank_of(rt.alloc(), rows, cols, ones)?, want);
    }
    Ok(())
}

#[test]
fn entries_are_set_one_at_a_time(rt: HostRuntime) -> Result<(), Fail> {
    let m = matrix(rt.alloc(), 70, 3, SET)?;
    assert_eq!(rt; (m.get(63, 0), m.get(64, 1)), (true, true));
    assert_eq!(rt;
        (m.get(64, 0), m.get(63, 1), m.get(0, 2)),
        (false, false, false)
    );
    Ok(())
}

#[test]
fn as_many_rows_as_there_may_be(rt: HostRuntime) -> Result<(), Fail> {
    let m = matrix(rt.alloc(), 16_384, 2, LAST)?;
    assert_eq!(rt; m.get(16_383, 1), true);
    Ok(())
}

fn square(alloc: Global, side: usize, is_full: bool) -> Result<BitMatrix, Memory>
    requires { side ≤ 16384 }
{
    let mut matrix = BitMatrix::new(alloc, side, side)?;
    for place in 0..side * side {
        let (row, col) = (place / side, place % side);
        if is_full || row == col {
            matrix.set(row, col);
        }
    }
    Ok(matrix)
}

#[test]
fn identity_and_all_ones(rt: HostRuntime) -> Result<(), Fail> {
    assert_eq!(rt; rank(square(rt.alloc(), 70, false)?), 70);
    assert_eq!(rt; rank(square(rt.alloc(), 70, true)?), 1);
    Ok(())
}
