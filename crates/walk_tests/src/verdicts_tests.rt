use crate::samples::{CROSSED, SQUARE, complex};
use facet_set::Facets;
use flip_certificate::Certificate;
use local_parts::{PartFault, is_closed, is_strong};
use relabelling::extend_map;
use simplex::{Pairs, Simplex};
use std::alloc::Global;
use std::test::Fail;
use verdicts::{Verdict, VerdictFault, equivalent, manifold, sphere};

// The images of 1 to 4 for which the square becomes the crossed one.
const MAP: &[(u32, u32)] = &[(1, 1), (2, 3), (3, 2), (4, 4)];

// Whether the complex as it stands is its own certificate.
fn is_sphere_at_once(alloc: Global, lists: &[&[u32]]) -> Result<bool, Fail> {
    let boundary = complex(alloc, lists)?;
    let verdict = sphere(alloc, &boundary, 0, 1)?;
    Ok(matches!(
        &verdict,
        Verdict::Yes(Certificate::Sphere { start, flips })
            if start.as_slice() == boundary.as_slice() && flips.len() == 0
    ))
}

#[test]
fn a_simplex_boundary_is_a_sphere_without_a_flip(rt: HostRuntime) -> Result<(), Fail> {
    let boundary: [&[u32]; 4] = [&[1, 2, 3], &[1, 2, 4], &[1, 3, 4], &[2, 3, 4]];
    assert!(rt; is_sphere_at_once(rt.alloc(), &boundary)?);
    Ok(())
}

fn is_undecided_at_once(alloc: Global, lists: &[&[u32]]) -> Result<bool, Fail> {
    let c = complex(alloc, lists)?;
    let verdict = sphere(alloc, &c, 0, 1)?;
    Ok(matches!(&verdict, Verdict::Undecided { spent: 0 }))
}

#[test]
fn a_cycle_of_four_is_undecided_without_a_flip(rt: HostRuntime) -> Result<(), Fail> {
    assert!(rt; is_undecided_at_once(rt.alloc(), SQUARE)?);
    Ok(())
}

// The number of blocks of the certificate. None where there is none.
fn block_count(alloc: Global, c: Facets) -> Result<Option<usize>, VerdictFault> {
    match &manifold(alloc, &c, 0, 1)? {
        Verdict::Yes(Certificate::Manifold { blocks, .. }) => Ok(Some(blocks.len())),
        _ => Ok(None),
    }
}

#[test]
fn a_manifold_has_links_with_vertices(rt: HostRuntime) -> Result<(), Fail> {
    let alloc = rt.alloc();
    let points = complex(alloc, &[&[1], &[2]])?;
    assert_eq!(rt; block_count(alloc, points), Err(VerdictFault::DimRange));
    let triangle = complex(alloc, &[&[1, 2], &[1, 3], &[2, 3]])?;
    assert_eq!(rt; block_count(alloc, triangle), Ok(Some(3)));
    Ok(())
}

fn are_equivalent_by(
    alloc: Global,
    c: &Facets,
    d: &Facets,
    want: &[(u32, u32)],
) -> Result<bool, Fail> {
    let verdict = equivalent(alloc, c, d, 0, 1)?;
    Ok(matches!(
        &verdict,
        Verdict::Yes(Certificate::Equivalent { map, .. }) if map.as_slice() == want
    ))
}

#[test]
fn two_cycles_of_four_are_equivalent_without_a_flip(rt: HostRuntime) -> Result<(), Fail> {
    let alloc = rt.alloc();
    let cycle = complex(alloc, SQUARE)?;
    let cross = complex(alloc, CROSSED)?;
    assert!(rt; are_equivalent_by(alloc, &cycle, &cross, MAP)?);
    Ok(())
}

// The bijection with these images of the facet. None where there is none, or where no facet of a closed and strong complex is given.
fn extended(
    alloc: Global,
    c: &Facets,
    d: &Facets,
    start: &Simplex,
    images: &[u32],
) -> Result<Option<Pairs>, PartFault> {
    if c.is_facet(start)
        && images.len() == start.len()
        && is_closed(alloc, c)?
        && is_strong(alloc, c)?
    {
        return Ok(extend_map(alloc, c, d, start, images)?);
    }
    Ok(None)
}

// Whether the bijection of the square with these images of 1 and 2 is `MAP`. None where there is none.
fn is_map(alloc: Global, images: &[u32]) -> Result<Option<bool>, Fail> {
    let start = Simplex::of(&[1, 2])?;
    let cycle = complex(alloc, SQUARE)?;
    let cross = complex(alloc, CROSSED)?;
    match extended(alloc, &cycle, &cross, &start, images)? {
        Some(map) => Ok(Some(map.as_slice() == MAP)),
        None => Ok(None),
    }
}

#[test]
fn a_bijection_is_known_by_its_images_of_one_edge(rt: HostRuntime) -> Result<(), Fail> {
    assert_eq!(rt; is_map(rt.alloc(), &[1, 3])?, Some(true));
    assert_eq!(rt; is_map(rt.alloc(), &[1, 2])?, None);
    Ok(())
}
