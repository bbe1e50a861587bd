use crate::samples::{TORUS, complex, has_facets};
use facet_set::Facets;
use local_parts::{
    PartFault, boundary, components, deletion, is_closed, is_strong, link, skeleton, star,
};
use simplex::Simplex;
use std::alloc::Global;
use std::test::Fail;

// Two spheres with a common vertex.
const WEDGE: &[&[u32]] = &[
    &[1, 2, 3],
    &[1, 2, 4],
    &[1, 3, 4],
    &[2, 3, 4],
    &[1, 5, 6],
    &[1, 5, 7],
    &[1, 6, 7],
    &[5, 6, 7],
];

// Two triangles with a common edge, and their other edges.
const TRIANGLES: &[&[u32]] = &[&[1, 2, 3], &[2, 3, 4]];

const RIM: &[&[u32]] = &[&[1, 2], &[1, 3], &[2, 4], &[3, 4]];

type Lists = &'static [&'static [u32]];

// The facets, or why there are none.
type Want = Result<Lists, PartFault>;

fn is_part(part: Result<Facets, PartFault>, want: Want) -> bool {
    match part {
        Ok(c) => match want {
            Ok(lists) => has_facets(c, lists),
            Err(_) => false,
        },
        Err(fault) => want.err() == Some(fault),
    }
}

// Whether the complex is closed, whether it is strong, and the number of its components.
fn traits(alloc: Global, lists: &[&[u32]]) -> Result<(bool, bool, usize), Fail> {
    let c = complex(alloc, lists)?;
    Ok((
        is_closed(alloc, &c)?,
        is_strong(alloc, &c)?,
        components(alloc, &c)?,
    ))
}

#[test]
fn closed_and_strong_complexes_and_components(rt: HostRuntime) -> Result<(), Fail> {
    let cases: [(Lists, (bool, bool, usize)); 6] = [
        (TORUS, (true, true, 1)),
        (WEDGE, (true, false, 1)),
        (TRIANGLES, (false, true, 1)),
        (&[&[]], (true, true, 0)),
        (&[&[1], &[2]], (true, true, 2)),
        (&[&[1], &[2], &[3]], (false, true, 3)),
    ];
    for (lists, want) in cases {
        assert_eq!(rt; traits(rt.alloc(), lists)?, want);
    }
    Ok(())
}

#[test]
fn the_void_complex_is_not_asked_whether_it_is_strong(rt: HostRuntime) -> Result<(), Fail> {
    let void = complex(rt.alloc(), &[])?;
    assert_eq!(rt; is_strong(rt.alloc(), &void), Err(PartFault::NotPure));
    Ok(())
}

#[test]
fn boundaries(rt: HostRuntime) -> Result<(), Fail> {
    let cases: [(Lists, Want); 5] = [
        (TORUS, Ok(&[])),
        (TRIANGLES, Ok(RIM)),
        (&[&[1]], Ok(&[&[]])),
        (&[&[1], &[2], &[3]], Ok(&[])),
        (&[], Err(PartFault::NotPure)),
    ];
    for (lists, want) in cases {
        let c = complex(rt.alloc(), lists)?;
        assert!(rt; is_part(boundary(rt.alloc(), &c), want));
    }
    Ok(())
}

#[test]
fn links(rt: HostRuntime) -> Result<(), Fail> {
    let cases: [(Lists, &[u32], Want); 3] = [
        (
            TORUS,
            &[1],
            Ok(&[&[2, 4], &[2, 6], &[3, 4], &[3, 7], &[5, 6], &[5, 7]]),
        ),
        (&[&[]], &[], Ok(&[&[]])),
        (&[], &[], Err(PartFault::NotFace)),
    ];
    for (lists, face, want) in cases {
        let c = complex(rt.alloc(), lists)?;
        assert!(rt; is_part(link(rt.alloc(), &c, &Simplex::of(face)?), want));
    }
    Ok(())
}

#[test]
fn stars_and_deletions(rt: HostRuntime) -> Result<(), Fail> {
    let cases: [(Lists, &[u32], Lists, Lists); 3] = [
        (TRIANGLES, &[1], &[&[1, 2, 3]], &[&[2, 3, 4]]),
        (TRIANGLES, &[2, 3], TRIANGLES, RIM),
        (&[&[]], &[], &[&[]], &[]),
    ];
    for (lists, face, near, far) in cases {
        let c = complex(rt.alloc(), lists)?;
        let face = Simplex::of(face)?;
        assert!(rt; is_part(star(rt.alloc(), &c, &face), Ok(near)));
        assert!(rt; is_part(deletion(rt.alloc(), &c, &face), Ok(far)));
    }
    Ok(())
}

#[test]
fn edges_of_two_triangles_and_of_the_void_complex(rt: HostRuntime) -> Result<(), Fail> {
    let cases: [(Lists, Lists); 2] = [
        (TRIANGLES, &[&[1, 2], &[1, 3], &[2, 3], &[2, 4], &[3, 4]]),
        (&[], &[]),
    ];
    for (lists, want) in cases {
        let c = complex(rt.alloc(), lists)?;
        assert!(rt; has_facets(skeleton(rt.alloc(), &c, 1)?, want));
    }
    Ok(())
}
