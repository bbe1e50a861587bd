use crate::samples::{complex, has_facets};
use collapse_moves::{FreeFault, add_facet, check_free, collapse, drop_facet};
use facet_set::Facets;
use simplex::{Memory, Simplex};
use std::alloc::Global;
use std::test::Fail;

const PATH: &[&[u32]] = &[&[1, 3], &[2, 3]];

// A triangle and an edge with a common vertex.
const FLAG: &[&[u32]] = &[&[1, 2, 3], &[3, 4]];

// The complex after the collapse, where the simplex is free.
fn collapsed(alloc: Global, c: &Facets, labels: &[u32]) -> Result<Facets, Fail> {
    let s = Simplex::of(labels)?;
    check_free(c, &s)?;
    Ok(collapse(alloc, c, &s)?)
}

// The complex without the simplex, where that is a facet.
fn dropped(alloc: Global, c: &Facets, f: &Simplex) -> Result<Facets, Memory> {
    if !c.is_facet(f) {
        return Err(Memory);
    }
    drop_facet(alloc, c, f)
}

// The complex with the simplex, where that is no face.
fn added(alloc: Global, c: &Facets, f: &Simplex) -> Result<Facets, Memory> {
    if c.has_face(f) {
        return Err(Memory);
    }
    add_facet(alloc, c, f)
}

// Facets, a simplex, and the facets that are there once it has gone or come.
type Case = (
    &'static [&'static [u32]],
    &'static [u32],
    &'static [&'static [u32]],
);

#[test]
fn a_triangle_collapses_to_an_edge(rt: HostRuntime) -> Result<(), Fail> {
    let cases: [Case; 2] = [(&[&[1, 2, 3]], &[1, 2], PATH), (PATH, &[1], &[&[2, 3]])];
    for (lists, face, want) in cases {
        let c = complex(rt.alloc(), lists)?;
        assert!(rt; has_facets(collapsed(rt.alloc(), &c, face)?, want));
    }
    Ok(())
}

#[test]
fn a_free_face_lies_in_one_face(rt: HostRuntime) -> Result<(), Fail> {
    let cases: [(&[&[u32]], &[u32], &[u32]); 2] = [
        (&[&[1, 2, 3]], &[2, 3], &[1, 2, 3]),
        (FLAG, &[4], &[3, 4]),
    ];
    for (lists, face, partner) in cases {
        let c = complex(rt.alloc(), lists)?;
        let found = check_free(&c, &Simplex::of(face)?);
        assert_eq!(rt; found, Ok(Simplex::of(partner)?));
    }
    Ok(())
}

#[test]
fn what_is_no_free_face(rt: HostRuntime) -> Result<(), Fail> {
    let cases: [(&[&[u32]], &[u32], FreeFault); 5] = [
        (FLAG, &[1, 4], FreeFault::NotFace),
        (FLAG, &[1], FreeFault::NotFree),
        (FLAG, &[3], FreeFault::NotFree),
        (&[&[2, 3]], &[2, 3], FreeFault::NotFree),
        (&[&[1]], &[], FreeFault::NotFree),
    ];
    for (lists, face, fault) in cases {
        let c = complex(rt.alloc(), lists)?;
        assert_eq!(rt; check_free(&c, &Simplex::of(face)?), Err(fault));
    }
    Ok(())
}

#[test]
fn facets_go(rt: HostRuntime) -> Result<(), Fail> {
    let cases: [Case; 2] = [(&[&[2, 3]], &[2, 3], &[&[2], &[3]]), (&[&[]], &[], &[])];
    for (lists, f, want) in cases {
        let c = complex(rt.alloc(), lists)?;
        assert!(rt; has_facets(dropped(rt.alloc(), &c, &Simplex::of(f)?)?, want));
    }
    Ok(())
}

#[test]
fn facets_come(rt: HostRuntime) -> Result<(), Fail> {
    let cases: [Case; 2] = [
        (&[&[2], &[3]], &[3, 4], &[&[2], &[3, 4]]),
        (&[], &[], &[&[]]),
    ];
    for (lists, f, want) in cases {
        let c = complex(rt.alloc(), lists)?;
        assert!(rt; has_facets(added(rt.alloc(), &c, &Simplex::of(f)?)?, want));
    }
    Ok(())
}

#[test]
fn a_facet_comes_with_its_faces(rt: HostRuntime) -> Result<(), Fail> {
    let points = complex(rt.alloc(), &[&[2], &[3]])?;
    let more = added(rt.alloc(), &points, &Simplex::of(&[3, 4])?)?;
    assert!(rt; more.has_face(&Simplex::of(&[4])?));
    Ok(())
}
