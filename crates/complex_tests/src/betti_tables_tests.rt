ghost use Rattle.std.specs.Prelude.{◌≡◌, ◌<◌};
ghost use Rattle.betti_tables.specs.Table.{AreRanksOf};

use crate::samples::{TETRAHEDRON, TORUS, complex};
use betti_tables::{Betti, BettiFault, RankTable};
use face_lattice::Lattice;
use facet_set::Facets;
use simplex::{Simplex, Steps};
use std::alloc::Global;
use std::marker::Brand;
use std::sync::ledger::{Blank, Ledger};
use std::test::Fail;

// The real projective plane of six vertices.
const PROJECTIVE_PLANE: &[&[u32]] = &[
    &[1, 2, 3],
    &[1, 2, 4],
    &[1, 3, 5],
    &[1, 4, 6],
    &[1, 5, 6],
    &[2, 3, 6],
    &[2, 4, 5],
    &[2, 5, 6],
    &[3, 4, 5],
    &[3, 4, 6],
];

fn lattice(alloc: Global, lists: &[&[u32]]) -> Result<Lattice, Fail> {
    Ok(Lattice::of(alloc, &complex(alloc, lists)?)?)
}

fn points(alloc: Global, count: u32) -> Result<Lattice, Fail> {
    let mut facets = Vec::new(alloc);
    for label in 0..count {
        facets.push(Simplex::of(&[label.saturating_add(1)])?)?;
    }
    let facets = Facets::generated(alloc, &facets)?;
    Ok(Lattice::of(alloc, &facets)?)
}

fn counted<L: Ledger>(
    table: &mut RankTable,
    alloc: Global,
    l: &Lattice,
    blank: Blank,
) -> Result<Betti, BettiFault>
    requires ranks { AreRanksOf l.now.facets table.old }
    requires name { blank.name ≡ L.name }
    requires parts { blank.parts ≡ L.parts }
    requires some { 0 < L.parts }
    ensures { AreRanksOf l.now.facets table.new }
{
    let mut steps = Steps::<L>::open(blank);
    table.betti(alloc, l, &mut steps)
}

fn betti(table: &mut RankTable, alloc: Global, l: &Lattice) -> Result<Betti, BettiFault>
    requires { AreRanksOf l.now.facets table.old }
    ensures { AreRanksOf l.now.facets table.new }
{
    counted::<Brand>(table, alloc, l, Blank::new(1))
}

fn fresh(alloc: Global, l: Lattice) -> Result<Betti, BettiFault> {
    betti(&mut RankTable::new(), alloc, &l)
}

#[test]
fn surfaces_and_complexes_with_no_vertex(rt: HostRuntime) -> Result<(), Fail> {
    let cases: [(&[&[u32]], &[u64]); 5] = [
        (PROJECTIVE_PLANE, &[1, 1, 1]),
        (TORUS, &[1, 2, 1]),
        (TETRAHEDRON, &[1, 0, 1]),
        (&[], &[]),
        (&[&[]], &[]),
    ];
    for (lists, want) in cases {
        let numbers = fresh(rt.alloc(), lattice(rt.alloc(), lists)?)?;
        assert_eq!(rt; numbers.as_slice(), want);
    }
    Ok(())
}

// Whether the ranks of the dimensions 0, 1, 2 and 3 are kept.
type Kept = (bool, bool, bool, bool);

fn kept(table: &RankTable) -> Kept {
    (
        table.is_kept(0),
        table.is_kept(1),
        table.is_kept(2),
        table.is_kept(3),
    )
}

// The ranks that are kept before the first answer and after it, and whether the second answer is the same.
fn answered_twice(alloc: Global, l: Lattice) -> Result<(Kept, Kept, bool), Fail> {
    let mut table = RankTable::new();
    let before = kept(&table);
    let first = betti(&mut table, alloc, &l)?;
    let after = kept(&table);
    let again = betti(&mut table, alloc, &l)?;
    Ok((before, after, first == again))
}

#[test]
fn ranks_of_the_torus_are_kept(rt: HostRuntime) -> Result<(), Fail> {
    let (before, after, is_same) = answered_twice(rt.alloc(), lattice(rt.alloc(), TORUS)?)?;
    assert_eq!(rt; before, (false, false, false, false));
    assert_eq!(rt; after, (false, true, true, false));
    assert!(rt; is_same);
    Ok(())
}

#[test]
fn too_many_vertices_are_refused(rt: HostRuntime) -> Result<(), Fail> {
    let most = fresh(rt.alloc(), points(rt.alloc(), 16_384)?)?;
    assert_eq!(rt; most.as_slice(), [16_384].as_slice());
    let more = fresh(rt.alloc(), points(rt.alloc(), 16_385)?);
    assert_eq!(rt; more, Err(BettiFault::RankLimit { k: 0 }));
    Ok(())
}
