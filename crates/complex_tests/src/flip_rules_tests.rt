use crate::samples::{OCTAHEDRON, TETRAHEDRON, TORUS, complex, has_facets};
use facet_set::Facets;
use flip_rules::{FlipFault, apply, candidates, check, options};
use simplex::{Flip, Flips, Simplex};
use std::alloc::Global;
use std::test::Fail;

// A facet of most labels.
const LARGE: &[u32] = &[1, 2, 3, 4, 5, 6, 7, 8, 9, 10, 11, 12];

fn flip(a: &[u32], b: &[u32]) -> Result<Flip, Fail> {
    let a = Simplex::of(a)?;
    let b = Simplex::of(b)?;
    Ok(Flip { a, b })
}

// The complex after the flip, where it is allowed.
fn flipped(alloc: Global, c: Facets, flip: &Flip) -> Result<Facets, Fail> {
    check(&c, flip)?;
    Ok(apply(alloc, &c, flip)?)
}

fn flipped_octahedron(alloc: Global) -> Result<Facets, Fail> {
    flipped(alloc, complex(alloc, OCTAHEDRON)?, &flip(&[1, 3], &[5, 6])?)
}

// Facets, a flip's A and B, and what the check says.
type Case = (
    &'static [&'static [u32]],
    &'static [u32],
    &'static [u32],
    Result<(), FlipFault>,
);

#[test]
fn first_failing_part(rt: HostRuntime) -> Result<(), Fail> {
    let cases: [Case; 11] = [
        (TETRAHEDRON, &[1, 2], &[3, 4], Err(FlipFault::Present)),
        (TETRAHEDRON, &[1, 2], &[3, 5], Err(FlipFault::Star)),
        (TETRAHEDRON, &[1, 2], &[3], Err(FlipFault::Size)),
        (TETRAHEDRON, &[1, 2], &[2, 3], Err(FlipFault::Overlap)),
        (TETRAHEDRON, &[], &[1, 2, 3, 4], Err(FlipFault::Size)),
        (&[], &[3], &[4], Err(FlipFault::NotPure)),
        (&[&[1, 2], &[3]], &[3], &[4], Err(FlipFault::NotPure)),
        (&[&[]], &[3], &[4], Err(FlipFault::Size)),
        // The link of 1 has a vertex too many, and then not.
        (
            &[&[1, 2, 3], &[1, 3, 4], &[1, 4, 5]],
            &[1],
            &[2, 3, 4],
            Err(FlipFault::Star),
        ),
        (
            &[&[1, 2, 3], &[1, 3, 4], &[1, 2, 4]],
            &[1],
            &[2, 3, 4],
            Ok(()),
        ),
        (OCTAHEDRON, &[2, 4], &[5, 6], Ok(())),
    ];
    for (facets, a, b, want) in cases {
        let c = complex(rt.alloc(), facets)?;
        assert_eq!(rt; check(&c, &flip(a, b)?), want);
    }
    Ok(())
}

#[test]
fn flip_of_an_octahedron_makes_a_far_edge_present(rt: HostRuntime) -> Result<(), Fail> {
    let after = flipped_octahedron(rt.alloc())?;
    let far = flip(&[2, 4], &[5, 6])?;
    assert_eq!(rt; check(&after, &far), Err(FlipFault::Present));
    Ok(())
}

#[test]
fn no_edge_of_a_tetrahedron_is_open(rt: HostRuntime) -> Result<(), Fail> {
    let sphere = complex(rt.alloc(), TETRAHEDRON)?;
    let edges = candidates(rt.alloc(), &sphere, 1)?;
    let open = edges.as_slice().iter().filter(|n| !n.is_blocked).count();
    assert_eq!(rt; (edges.len(), open), (6, 0));
    Ok(())
}

#[test]
fn triangle_is_subdivided(rt: HostRuntime) -> Result<(), Fail> {
    let sphere = complex(rt.alloc(), TETRAHEDRON)?;
    let after = flipped(rt.alloc(), sphere, &flip(&[1, 2, 3], &[9])?)?;
    let want: [&[u32]; 6] = [
        &[1, 2, 4],
        &[1, 2, 9],
        &[1, 3, 4],
        &[1, 3, 9],
        &[2, 3, 4],
        &[2, 3, 9],
    ];
    assert!(rt; has_facets(after, &want));
    Ok(())
}

// The number of facets after the flip, and whether its inverse restores the complex.
fn there_and_back(
    alloc: Global,
    lists: &[&[u32]],
    a: &[u32],
    b: &[u32],
) -> Result<(usize, bool), Fail> {
    let there = flip(a, b)?;
    let after = flipped(alloc, complex(alloc, lists)?, &there)?;
    let count = after.as_slice().len();
    let back = flipped(alloc, after, &there.inverse())?;
    Ok((count, has_facets(back, lists)))
}

#[test]
fn inverse_restores(rt: HostRuntime) -> Result<(), Fail> {
    let cases: [(&[&[u32]], &[u32], &[u32], usize); 3] = [
        (TETRAHEDRON, &[1, 2, 3], &[9], 6),
        (OCTAHEDRON, &[1, 3], &[5, 6], 8),
        (&[LARGE], LARGE, &[13], 12),
    ];
    for (lists, a, b, count) in cases {
        assert_eq!(rt; there_and_back(rt.alloc(), lists, a, b)?, (count, true));
    }
    Ok(())
}

fn count(alloc: Global, c: &Facets, class: usize) -> Result<usize, Fail> {
    Ok(options(alloc, c, class)?.len())
}

// The numbers of options of the classes 0, 1 and 2.
fn counts(alloc: Global, c: &Facets) -> Result<(usize, usize, usize), Fail> {
    Ok((
        count(alloc, c, 0)?,
        count(alloc, c, 1)?,
        count(alloc, c, 2)?,
    ))
}

#[test]
fn numbers_of_options(rt: HostRuntime) -> Result<(), Fail> {
    let cases: [(&[&[u32]], (usize, usize, usize)); 5] = [
        (TORUS, (14, 0, 0)),
        (OCTAHEDRON, (8, 12, 0)),
        (TETRAHEDRON, (4, 0, 0)),
        (&[&[1, 2, 3], &[2, 3, 4], &[5]], (0, 0, 0)),
        (&[&[]], (0, 0, 0)),
    ];
    for (facets, want) in cases {
        let c = complex(rt.alloc(), facets)?;
        assert_eq!(rt; counts(rt.alloc(), &c)?, want);
    }
    Ok(())
}

// Whether these are the flips of the pairs of A and B, in this order.
fn are_flips(flips: Flips, want: &[(&[u32], &[u32])]) -> bool {
    flips.len() == want.len()
        && flips.as_slice().iter().zip(want).all(|(flip, labels)| flip.a.labels() == labels.0
            && flip.b.labels() == labels.1)
}

#[test]
fn options_of_a_flipped_octahedron(rt: HostRuntime) -> Result<(), Fail> {
    let after = flipped_octahedron(rt.alloc())?;
    assert_eq!(rt; counts(rt.alloc(), &after)?, (8, 5, 2));
    let want: [(&[u32], &[u32]); 5] = [
        (&[2, 5], &[3, 4]),
        (&[2, 6], &[3, 4]),
        (&[4, 5], &[1, 2]),
        (&[4, 6], &[1, 2]),
        (&[5, 6], &[1, 3]),
    ];
    assert!(rt; are_flips(options(rt.alloc(), &after, 1)?, &want));
    Ok(())
}

#[test]
fn vertex_of_a_disk_goes_and_a_point_comes(rt: HostRuntime) -> Result<(), Fail> {
    let disk = complex(rt.alloc(), &[&[1, 2, 4], &[1, 3, 4], &[2, 3, 4]])?;
    let cases: [(usize, &[(&[u32], &[u32])]); 2] = [
        (2, &[(&[4], &[1, 2, 3])]),
        (
            0,
            &[(&[1, 2, 4], &[5]), (&[1, 3, 4], &[5]), (&[2, 3, 4], &[5])],
        ),
    ];
    for (class, want) in cases {
        assert!(rt; are_flips(options(rt.alloc(), &disk, class)?, want));
    }
    Ok(())
}
