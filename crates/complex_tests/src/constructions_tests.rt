ghost use Rattle.std.specs.Prelude.{◌≡◌, None};
ghost use Rattle.simplex.specs.SimplexFault.{simplex_fault};

use crate::samples::{OCTAHEDRON, TETRAHEDRON, complex, has_facets};
use constructions::{
    MakeFault, bdcross, bdsimplex, cone, cyclic, handle, join, relabel, stacked, sum, suspension,
};
use facet_set::Facets;
use simplex::Pairs;
use std::alloc::Global;
use std::test::Fail;

const POINTS: &[&[u32]] = &[&[1], &[2]];

const SQUARE: &[&[u32]] = &[&[1, 3], &[1, 4], &[2, 3], &[2, 4]];

const OCTAGON: &[&[u32]] = &[
    &[1, 2],
    &[1, 8],
    &[2, 3],
    &[3, 4],
    &[4, 5],
    &[5, 6],
    &[6, 7],
    &[7, 8],
];

// A facet of most labels.
const LARGE: &[&[u32]] = &[&[1, 2, 3, 4, 5, 6, 7, 8, 9, 10, 11, 12]];

// The facets, or why there are none.
type Want = Result<&'static [&'static [u32]], MakeFault>;

fn is_made(made: Result<Facets, MakeFault>, want: Want) -> bool {
    match made {
        Ok(c) => match want {
            Ok(lists) => has_facets(c, lists),
            Err(_) => false,
        },
        Err(fault) => want.err() == Some(fault),
    }
}

// The number of facets.
fn count(made: Result<Facets, MakeFault>) -> Result<usize, MakeFault> {
    Ok(made?.as_slice().len())
}

#[test]
fn facets_of_boundaries(rt: HostRuntime) {
    let alloc = rt.alloc();
    assert!(rt; is_made(bdsimplex(alloc, 3), Ok(TETRAHEDRON)));
    assert!(rt; is_made(bdcross(alloc, 2), Ok(SQUARE)));
    assert!(rt; is_made(bdcross(alloc, 3), Ok(OCTAHEDRON)));
}

#[test]
fn numbers_of_facets_of_boundaries(rt: HostRuntime) {
    // The dimension, and what the boundaries of the simplex and of the cross-polytope have.
    let cases: [(u64, Result<usize, MakeFault>, Result<usize, MakeFault>); 3] = [
        (0, Err(MakeFault::Range), Err(MakeFault::Range)),
        (12, Ok(13), Ok(4096)),
        (13, Err(MakeFault::DimLimit), Err(MakeFault::DimLimit)),
    ];
    for (d, of_simplex, of_cross) in cases {
        assert_eq!(rt; count(bdsimplex(rt.alloc(), d)), of_simplex);
        assert_eq!(rt; count(bdcross(rt.alloc(), d)), of_cross);
    }
}

#[test]
fn two_points_joined_with_two_points_are_a_square(rt: HostRuntime) -> Result<(), Fail> {
    let alloc = rt.alloc();
    let points = complex(alloc, POINTS)?;
    assert!(rt; is_made(join(alloc, &points, &points, 16), Ok(SQUARE)));
    assert!(rt; is_made(join(alloc, &points, &points, 15), Err(MakeFault::Size)));
    assert!(rt; is_made(suspension(alloc, &points), Ok(SQUARE)));
    Ok(())
}

#[test]
fn join_with_the_void_complex_is_void(rt: HostRuntime) -> Result<(), Fail> {
    let large = complex(rt.alloc(), LARGE)?;
    let void = complex(rt.alloc(), &[])?;
    assert!(rt; is_made(join(rt.alloc(), &large, &void, 0), Ok(&[])));
    Ok(())
}

#[test]
fn cones(rt: HostRuntime) -> Result<(), Fail> {
    let cases: [(&[&[u32]], Want); 4] = [
        (&[&[1, 2]], Ok(&[&[1, 2, 3]])),
        (&[], Ok(&[])),
        (LARGE, Err(MakeFault::DimLimit)),
        (&[&[1_000_000]], Err(MakeFault::LabelRange)),
    ];
    for (lists, want) in cases {
        let c = complex(rt.alloc(), lists)?;
        assert!(rt; is_made(cone(rt.alloc(), &c), want));
    }
    Ok(())
}

// Whether this comes of the sum at the facets f of x and g of y.
fn is_sum(
    alloc: Global,
    x: &[&[u32]],
    f: &[u32],
    y: &[&[u32]],
    g: &[u32],
    want: Want,
) -> Result<bool, Fail>
    requires f { simplex_fault f.now ≡ None }
    requires g { simplex_fault g.now ≡ None }
{
    let x = complex(alloc, x)?;
    let y = complex(alloc, y)?;
    Ok(is_made(sum(alloc, &x, f, &y, g), want))
}

#[test]
fn sum_of_two_tetrahedra(rt: HostRuntime) -> Result<(), Fail> {
    let want: Want = Ok(&[
        &[1, 2, 4],
        &[1, 2, 5],
        &[1, 3, 4],
        &[1, 3, 5],
        &[2, 3, 4],
        &[2, 3, 5],
    ]);
    assert!(rt;
        is_sum(
            rt.alloc(),
            TETRAHEDRON,
            &[1, 2, 3],
            TETRAHEDRON,
            &[1, 2, 3],
            want
        )?
    );
    Ok(())
}

#[test]
fn sums_that_are_not_made(rt: HostRuntime) -> Result<(), Fail> {
    let mixed = Err(MakeFault::DimDiffers);
    assert!(rt;
        is_sum(
            rt.alloc(),
            TETRAHEDRON,
            &[1, 2, 3],
            &[&[1, 2]],
            &[1, 2],
            mixed
        )?
    );
    let off = Err(MakeFault::NotFacet);
    assert!(rt;
        is_sum(
            rt.alloc(),
            TETRAHEDRON,
            &[1, 2, 5],
            TETRAHEDRON,
            &[1, 2, 3],
            off
        )?
    );
    Ok(())
}

// Whether this comes of the handle at the facets f and g of x.
fn is_handled(alloc: Global, x: &[&[u32]], f: &[u32], g: &[u32], want: Want) -> Result<bool, Fail>
    requires f { simplex_fault f.now ≡ None }
    requires g { simplex_fault g.now ≡ None }
{
    let x = complex(alloc, x)?;
    Ok(is_made(handle(alloc, &x, f, g), want))
}

#[test]
fn handle_of_an_octagon(rt: HostRuntime) -> Result<(), Fail> {
    let want: Want = Ok(&[&[1, 7], &[1, 8], &[2, 3], &[2, 4], &[3, 4], &[7, 8]]);
    assert!(rt; is_handled(rt.alloc(), OCTAGON, &[1, 2], &[6, 5], want)?);
    Ok(())
}

#[test]
fn octahedron_has_no_handle(rt: HostRuntime) -> Result<(), Fail> {
    let near = Err(MakeFault::Near { vertex: 1 });
    assert!(rt; is_handled(rt.alloc(), OCTAHEDRON, &[1, 3, 5], &[2, 4, 6], near)?);
    let turned = Err(MakeFault::Near { vertex: 5 });
    assert!(rt; is_handled(rt.alloc(), OCTAHEDRON, &[5, 1, 3], &[6, 2, 4], turned)?);
    Ok(())
}

#[test]
fn facets_of_a_handle_have_no_label_in_common(rt: HostRuntime) -> Result<(), Fail> {
    let shared = Err(MakeFault::Overlap);
    assert!(rt; is_handled(rt.alloc(), OCTAHEDRON, &[1, 3, 5], &[1, 4, 6], shared)?);
    Ok(())
}

#[test]
fn empty_face_is_taken_out(rt: HostRuntime) -> Result<(), Fail> {
    let void: Want = Ok(&[]);
    assert!(rt; is_sum(rt.alloc(), &[&[]], &[], &[&[]], &[], void)?);
    assert!(rt; is_handled(rt.alloc(), &[&[]], &[], &[], void)?);
    Ok(())
}

#[test]
fn the_void_complex_has_no_handle(rt: HostRuntime) -> Result<(), Fail> {
    let none = Err(MakeFault::NotPure);
    assert!(rt; is_handled(rt.alloc(), &[], &[], &[], none)?);
    Ok(())
}

#[test]
fn labels_of_a_tetrahedron_replaced(rt: HostRuntime) -> Result<(), Fail> {
    let alloc = rt.alloc();
    let cases: [(&[(u32, u32)], Want); 4] = [
        (
            &[(4, 4), (1, 9), (2, 2), (3, 3)],
            Ok(&[&[2, 3, 4], &[2, 3, 9], &[2, 4, 9], &[3, 4, 9]]),
        ),
        (&[(1, 9)], Err(MakeFault::NotMap)),
        (&[(1, 9), (2, 9), (3, 3), (4, 4)], Err(MakeFault::NotMap)),
        (
            &[(1, 0), (2, 2), (3, 3), (4, 4)],
            Err(MakeFault::LabelRange),
        ),
    ];
    let x = complex(alloc, TETRAHEDRON)?;
    for (map, want) in cases {
        let map = Pairs::from_vec(Vec::from_slice(alloc, map)?);
        assert!(rt; is_made(relabel(alloc, &x, &map), want));
    }
    Ok(())
}

#[test]
fn cyclic_polytopes_have_the_facets_of_gale_or_are_not_made(rt: HostRuntime) {
    // The dimension, the number of vertices, the room, and what is made.
    let cases: [(u64, u64, u64, Want); 6] = [
        (2, 4, 100, Ok(&[&[1, 2], &[1, 4], &[2, 3], &[3, 4]])),
        (
            4,
            6,
            144,
            Ok(&[
                &[1, 2, 3, 4],
                &[1, 2, 3, 6],
                &[1, 2, 4, 5],
                &[1, 2, 5, 6],
                &[1, 3, 4, 6],
                &[1, 4, 5, 6],
                &[2, 3, 4, 5],
                &[2, 3, 5, 6],
                &[3, 4, 5, 6],
            ]),
        ),
        (3, 3, 1000, Err(MakeFault::Range)),
        (13, 20, 1000, Err(MakeFault::DimLimit)),
        (4, 6, 143, Err(MakeFault::Size)),
        (8, 60, 8_388_608, Err(MakeFault::Size)),
    ];
    for (k, n, room, want) in cases {
        assert!(rt; is_made(cyclic(rt.alloc(), k, n, room), want));
    }
}

#[test]
fn stacked_sphere_follows_the_words_of_the_seed(rt: HostRuntime) {
    let five: Want = Ok(&[
        &[1, 2, 3],
        &[1, 2, 6],
        &[1, 3, 4],
        &[1, 4, 5],
        &[1, 5, 8],
        &[1, 6, 8],
        &[2, 3, 7],
        &[2, 4, 5],
        &[2, 4, 7],
        &[2, 5, 6],
        &[3, 4, 9],
        &[3, 7, 9],
        &[4, 7, 9],
        &[5, 6, 8],
    ]);
    assert!(rt; is_made(stacked(rt.alloc(), 2, 5, 1, 1000), five));
}

#[test]
fn facets_and_vertices_of_a_large_stacked_sphere(rt: HostRuntime) -> Result<(), Fail> {
    let large = stacked(rt.alloc(), 3, 50, 7, 2480)?;
    assert_eq!(rt;
        (large.as_slice().len(), large.vertices()?.len()),
        (155, 55)
    );
    Ok(())
}

#[test]
fn stacked_spheres_that_are_not_made(rt: HostRuntime) {
    // The dimension, the number of subdivisions, the seed, the room, and the fault.
    for (d, n, seed, room, fault) in [
        (0, 1, 1, 1000, MakeFault::Range),
        (12, 1, 1, 1000, MakeFault::DimLimit),
        (2, 1_000_000_000_000_000_000, 1, 1000, MakeFault::LabelRange),
        (3, 50, 7, 2479, MakeFault::Size),
    ] {
        assert!(rt; is_made(stacked(rt.alloc(), d, n, seed, room), Err(fault)));
    }
}
