ghost use Rattle.std.specs.Prelude.{◌≡◌, ◌<◌};

use crate::samples::{OCTAHEDRON, TORUS, complex};
use face_lattice::Lattice;
use facet_set::Facets;
use simplex::{Memory, Simplex, Steps};
use std::alloc::Global;
use std::marker::Brand;
use std::sync::ledger::{Blank, Ledger};
use std::test::Fail;

fn lattice(alloc: Global, lists: &[&[u32]]) -> Result<Lattice, Fail> {
    Ok(Lattice::of(alloc, &complex(alloc, lists)?)?)
}

fn link(alloc: Global, lattice: &Lattice, face: &[u32]) -> Result<Vec<u32>, Fail> {
    let face = Simplex::of(face)?;
    let mut link = Vec::new(alloc);
    for k in 0..lattice.up_count(&face) {
        if let Some(label) = lattice.up_at(&face, k) {
            link.push(label)?;
        }
    }
    Ok(link)
}

#[test]
fn degrees_in_the_octahedron(rt: HostRuntime) -> Result<(), Fail> {
    let octahedron = lattice(rt.alloc(), OCTAHEDRON)?;
    for (face, degree) in [
        ([].as_slice(), 8),
        ([1].as_slice(), 4),
        ([1, 3].as_slice(), 2),
        ([2, 4, 6].as_slice(), 1),
        ([1, 2].as_slice(), 0),
    ] {
        let face = Simplex::of(face)?;
        assert_eq!(rt; octahedron.degree(&face), degree);
        assert_eq!(rt; octahedron.is_face(&face), degree > 0);
    }
    let link = link(rt.alloc(), &octahedron, &[1])?;
    assert_eq!(rt; link.as_slice(), [3, 4, 5, 6].as_slice());
    Ok(())
}

#[test]
fn faces_of_the_torus(rt: HostRuntime) -> Result<(), Fail> {
    let torus = lattice(rt.alloc(), TORUS)?;
    for (size, count) in [1, 7, 21, 14, 0].into_iter().enumerate() {
        assert_eq!(rt; torus.face_count(size), count);
        assert_eq!(rt; torus.faces_of_size(size)?.len(), count);
    }
    let edges = torus.faces_of_size(2)?;
    for (place, edge) in [(0, [1, 2].as_slice()), (20, [6, 7].as_slice())] {
        assert_eq!(rt; edges.at(place).copied(), Some(Simplex::of(edge)?));
    }
    Ok(())
}

// The number of facets, of vertices, and of faces without a label.
fn numbers_at_the_empty_simplex(
    alloc: Global,
    facets: &[Simplex],
) -> Result<(usize, usize, usize), Fail> {
    let facets = Facets::generated(alloc, facets)?;
    let lattice = Lattice::of(alloc, &facets)?;
    let s = Simplex::EMPTY;
    Ok((
        lattice.degree(&s),
        lattice.up_count(&s),
        lattice.face_count(0),
    ))
}

#[test]
fn faces_of_the_void_complex_and_of_the_empty_simplex(rt: HostRuntime) -> Result<(), Fail> {
    let void = numbers_at_the_empty_simplex(rt.alloc(), &[])?;
    assert_eq!(rt; void, (0, 0, 0));
    let empty = numbers_at_the_empty_simplex(rt.alloc(), &[Simplex::EMPTY])?;
    assert_eq!(rt; empty, (1, 0, 1));
    Ok(())
}

// Complexes with facets of several sizes, down to that of the empty simplex alone.
const MIXED: &[&[u32]] = &[&[1, 2, 3], &[3, 4], &[4, 5], &[3, 5], &[6], &[2, 7, 8, 9]];

const EMPTY: &[&[u32]] = &[&[]];

const WIDE: &[&[u32]] = &[
    &[1, 2, 3, 4, 5, 6, 7, 8, 9, 10, 11, 12],
    &[1, 2, 3, 4, 5, 6, 7, 8, 9, 10, 11, 13],
    &[20, 21],
];

// A facet that comes, or one that goes where it is there.
fn turn<L: Ledger>(
    lattice: &mut Lattice,
    f: &Simplex,
    steps: &mut Steps<L>,
) -> Result<bool, Memory> {
    if lattice.is_facet(f) {
        lattice.remove_facet(f, steps);
        return Ok(true);
    }
    if lattice.accepts(f) {
        lattice.insert_facet(f, steps)?;
        return Ok(true);
    }
    Ok(false)
}

// The facets of the list turn one after another: each `step`-th place, around the list. Whether each could.
fn turn_all<L: Ledger>(
    lattice: &mut Lattice,
    list: &[&[u32]],
    step: usize,
    blank: Blank,
) -> Result<bool, Fail>
    requires name { blank.name ≡ L.name }
    requires parts { blank.parts ≡ L.parts }
    requires some { 0 < L.parts }
{
    let mut steps = Steps::<L>::open(blank);
    let mut all = true;
    for k in 0..list.len() {
        if let Some(labels) = list.get(k.wrapping_mul(step) % list.len().max(1)) {
            all = turn(lattice, &Simplex::of(labels)?, &mut steps)? && all;
        }
    }
    Ok(all)
}

fn turned(lattice: &mut Lattice, list: &[&[u32]], step: usize) -> Result<bool, Fail> {
    turn_all::<Brand>(lattice, list, step, Blank::new(1))
}

// Whether the two have the same link vertices at a face, and as many facets.
fn same_cell(a: &Lattice, b: &Lattice, s: &Simplex) -> bool {
    a.degree(s) == b.degree(s)
        && a.up_count(s) == b.up_count(s)
        && (0..a.up_count(s)).all(|k| a.up_at(s, k) == b.up_at(s, k))
}

// Whether the two have the same faces with so many labels, and at each the same cell.
fn same_at(a: &Lattice, b: &Lattice, size: usize) -> Result<bool, Memory> {
    let faces = a.faces_of_size(size)?;
    Ok(
        a.face_count(size) == b.face_count(size)
            && faces.as_slice() == b.faces_of_size(size)?.as_slice()
            && faces.as_slice().iter().all(|s| same_cell(a, b, s)),
    )
}

fn same(a: &Lattice, b: &Lattice) -> Result<bool, Memory> {
    for size in 0..13 {
        if !same_at(a, b, size)? {
            return Ok(false);
        }
    }
    Ok(a.size() == b.size())
}

// Whether the cells are those of the lattice made at once: when the facets of the list have come in an order of the steps, when
// the first of them have gone, and when all have.
fn comes_and_goes(alloc: Global, list: &[&[u32]], step: usize) -> Result<bool, Fail> {
    let mut kept = lattice(alloc, &[])?;
    let half = list.len() / 2;
    let came = turned(&mut kept, list, step)? && same(&kept, &lattice(alloc, list)?)?;
    let went = turned(&mut kept, &list[..half], 1)?
        && same(&kept, &lattice(alloc, &list[half..])?)?;
    let none = turned(&mut kept, &list[half..], 1)? && same(&kept, &lattice(alloc, &[])?)?;
    Ok(came && went && none && kept.changes() == 2 * list.len() as u64)
}

#[test]
fn facets_that_come_and_go(rt: HostRuntime) -> Result<(), Fail> {
    for (list, step) in [
        (TORUS, 1),
        (TORUS, 3),
        (TORUS, 13),
        (MIXED, 1),
        (MIXED, 5),
        (EMPTY, 1),
        (WIDE, 1),
        (WIDE, 2),
    ] {
        assert!(rt; comes_and_goes(rt.alloc(), list, step)?);
    }
    Ok(())
}

// Whether room for the facets is seen at no face, and they come into it.
fn into_room<L: Ledger>(alloc: Global, lists: &[&[u32]], blank: Blank) -> Result<bool, Fail>
    requires name { blank.name ≡ L.name }
    requires parts { blank.parts ≡ L.parts }
    requires some { 0 < L.parts }
{
    let mut steps = Steps::<L>::open(blank);
    let mut kept = lattice(alloc, &[])?;
    let facets = complex(alloc, lists)?;
    kept.reserve(facets.as_slice())?;
    let edges = kept.faces_of_size(2)?.len();
    let blank = edges == 0 && kept.face_count(1) == 0 && kept.degree(&Simplex::EMPTY) == 0;
    for f in facets.as_slice() {
        turn(&mut kept, f, &mut steps)?;
    }
    Ok(blank && same(&kept, &lattice(alloc, lists)?)?)
}

fn room_kept(alloc: Global, lists: &[&[u32]]) -> Result<bool, Fail> {
    into_room::<Brand>(alloc, lists, Blank::new(1))
}

#[test]
fn room_is_no_face(rt: HostRuntime) -> Result<(), Fail> {
    assert!(rt; room_kept(rt.alloc(), OCTAHEDRON)?);
    Ok(())
}

#[test]
fn what_is_asked_for_has_an_id(rt: HostRuntime) -> Result<(), Fail> {
    let mut torus = lattice(rt.alloc(), TORUS)?;
    let face = Simplex::of(&[1, 2])?;
    let none = Simplex::of(&[8, 9])?;
    let id = torus.id(&face);
    assert!(rt; id.is_some() && torus.id(&none).is_none());
    torus.ask(&none, 5)?;
    torus.ask(&none, 6)?;
    let asked = torus.id(&none);
    assert!(rt; asked.is_some() && asked != id && !torus.is_face(&none));
    torus.unask(&none, 5);
    assert_eq!(rt; torus.id(&none), asked);
    torus.unask(&none, 6);
    assert_eq!(rt; torus.id(&none), None);
    assert_eq!(rt; torus.id(&face), id);
    Ok(())
}
