use crate::samples::{OCTAHEDRON, TETRAHEDRON, TORUS, complex};
use invariants::{
    Difference, InvariantFault, Invariants, first_difference, invariants_of, is_within_limits,
    sphere_invariants,
};
use std::alloc::Global;
use std::process::Abort;
use std::test::Fail;

type Lists = &'static [&'static [u32]];

// The real projective plane of SageMath, with six vertices.
const PROJECTIVE_PLANE: Lists = &[
    &[1, 2, 3],
    &[1, 2, 6],
    &[1, 3, 4],
    &[1, 4, 5],
    &[1, 5, 6],
    &[2, 3, 5],
    &[2, 4, 5],
    &[2, 4, 6],
    &[3, 4, 6],
    &[3, 5, 6],
];

// The Klein bottle of SageMath, with eight vertices.
const KLEIN_BOTTLE: Lists = &[
    &[1, 2, 5],
    &[1, 2, 7],
    &[1, 3, 5],
    &[1, 3, 6],
    &[1, 6, 7],
    &[2, 3, 4],
    &[2, 3, 7],
    &[2, 4, 6],
    &[2, 5, 8],
    &[2, 6, 8],
    &[3, 4, 8],
    &[3, 5, 7],
    &[3, 6, 8],
    &[4, 5, 7],
    &[4, 5, 8],
    &[4, 6, 7],
];

// The boundaries of two tetrahedra with a common vertex.
const WEDGE: Lists = &[
    &[1, 2, 3],
    &[1, 2, 4],
    &[1, 3, 4],
    &[1, 5, 6],
    &[1, 5, 7],
    &[1, 6, 7],
    &[2, 3, 4],
    &[5, 6, 7],
];

const TRIANGLE: Lists = &[&[1, 2, 3]];

const TWO_TRIANGLES: Lists = &[&[1, 2], &[1, 3], &[2, 3], &[4, 5], &[4, 6], &[5, 6]];

const HEXAGON: Lists = &[&[1, 2], &[1, 6], &[2, 3], &[3, 4], &[4, 5], &[5, 6]];

const TWO_POINTS: Lists = &[&[1], &[2]];

const THREE_POINTS: Lists = &[&[1], &[2], &[3]];

// The dimension, closedness, Euler characteristic and number of components.
const fn known(dim: i32, closed: bool, euler: i64, components: u64) -> Invariants {
    Invariants {
        dim,
        closed,
        euler,
        components,
    }
}

fn found(
    rt: &impl Abort,
    alloc: Global,
    lists: Lists,
) -> Result<Result<Invariants, InvariantFault>, Fail> {
    let c = complex(alloc, lists)?;
    assert!(rt; is_within_limits(&c));
    Ok(invariants_of(alloc, &c))
}

// Of surfaces the Euler characteristic is that of textbooks.
#[test]
fn invariants_of_small_complexes(rt: HostRuntime) -> Result<(), Fail> {
    let cases: [(Lists, Invariants); 12] = [
        (TETRAHEDRON, known(2, true, 2, 1)),
        (OCTAHEDRON, known(2, true, 2, 1)),
        (TORUS, known(2, true, 0, 1)),
        (KLEIN_BOTTLE, known(2, true, 0, 1)),
        (PROJECTIVE_PLANE, known(2, true, 1, 1)),
        (WEDGE, known(2, true, 3, 1)),
        (TRIANGLE, known(2, false, 1, 1)),
        (TWO_TRIANGLES, known(1, true, 0, 2)),
        (HEXAGON, known(1, true, 0, 1)),
        (TWO_POINTS, known(0, true, 2, 0)),
        (THREE_POINTS, known(0, false, 3, 0)),
        (&[&[]], known(-1, true, 0, 0)),
    ];
    for (lists, want) in cases {
        assert_eq!(rt; found(&rt, rt.alloc(), lists)?, Ok(want));
    }
    Ok(())
}

#[test]
fn complexes_that_are_not_pure_have_no_invariants(rt: HostRuntime) -> Result<(), Fail> {
    let cases: [Lists; 2] = [&[], &[&[1], &[2, 3]]];
    for lists in cases {
        assert_eq!(rt;
            found(&rt, rt.alloc(), lists)?,
            Err(InvariantFault::NotPure)
        );
    }
    Ok(())
}

#[test]
fn first_differences(rt: HostRuntime) -> Result<(), Fail> {
    let cases: [(Lists, Lists, Option<Difference>); 7] = [
        (
            TORUS,
            PROJECTIVE_PLANE,
            Some(Difference::Euler { left: 0, right: 1 }),
        ),
        (
            TETRAHEDRON,
            HEXAGON,
            Some(Difference::Dim { left: 2, right: 1 }),
        ),
        (
            TRIANGLE,
            TETRAHEDRON,
            Some(Difference::Closed {
                left: false,
                right: true,
            }),
        ),
        (
            TETRAHEDRON,
            TRIANGLE,
            Some(Difference::Closed {
                left: true,
                right: false,
            }),
        ),
        (
            TWO_TRIANGLES,
            HEXAGON,
            Some(Difference::Components { left: 2, right: 1 }),
        ),
        (TETRAHEDRON, OCTAHEDRON, None),
        (TORUS, KLEIN_BOTTLE, None),
    ];
    for (c, d, want) in cases {
        let left = found(&rt, rt.alloc(), c)??;
        let right = found(&rt, rt.alloc(), d)??;
        assert_eq!(rt; first_difference(&left, &right), want);
    }
    Ok(())
}

#[test]
fn what_tells_complexes_from_spheres(rt: HostRuntime) -> Result<(), Fail> {
    let cases: [(Lists, u32, Option<Difference>); 6] = [
        (TORUS, 2, Some(Difference::Euler { left: 0, right: 2 })),
        (WEDGE, 2, Some(Difference::Euler { left: 3, right: 2 })),
        (
            TWO_TRIANGLES,
            1,
            Some(Difference::Components { left: 2, right: 1 }),
        ),
        (
            THREE_POINTS,
            0,
            Some(Difference::Closed {
                left: false,
                right: true,
            }),
        ),
        (TWO_POINTS, 0, None),
        (OCTAHEDRON, 2, None),
    ];
    for (lists, d, want) in cases {
        let left = found(&rt, rt.alloc(), lists)??;
        assert_eq!(rt; first_difference(&left, &sphere_invariants(d)), want);
    }
    Ok(())
}
