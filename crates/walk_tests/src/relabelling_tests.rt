use crate::samples::{CROSSED, OCTAHEDRON, SQUARE, complex};
use facet_set::Facets;
use relabelling::first_map;
use simplex::{Memory, Simplex};
use std::alloc::Global;
use std::test::Fail;

// Two complexes, and the least bijection from the one to the other.
type Case = (
    &'static [&'static [u32]],
    &'static [&'static [u32]],
    &'static [(u32, u32)],
);

const SMALL: [Case; 5] = [
    (SQUARE, CROSSED, &[(1, 1), (2, 3), (3, 2), (4, 4)]),
    (
        &[&[1, 2], &[2, 3]],
        &[&[1, 7], &[5, 7]],
        &[(1, 1), (2, 7), (3, 5)],
    ),
    (
        &[&[1, 2, 3], &[3, 4]],
        &[&[1, 2], &[2, 3, 4]],
        &[(1, 3), (2, 4), (3, 2), (4, 1)],
    ),
    (&[], &[], &[]),
    (
        OCTAHEDRON,
        OCTAHEDRON,
        &[(1, 1), (2, 2), (3, 3), (4, 4), (5, 5), (6, 6)],
    ),
];

fn is_first_map(
    alloc: Global,
    c: &Facets,
    d: &Facets,
    want: &[(u32, u32)],
) -> Result<bool, Memory> {
    match first_map(alloc, c, d)? {
        Some(map) => Ok(map.as_slice() == want),
        None => Ok(false),
    }
}

#[test]
fn least_maps_of_small_complexes(rt: HostRuntime) -> Result<(), Fail> {
    let alloc = rt.alloc();
    for (c, d, want) in SMALL {
        let c = complex(alloc, c)?;
        let d = complex(alloc, d)?;
        assert!(rt; is_first_map(alloc, &c, &d, want)?);
    }
    Ok(())
}

#[test]
fn no_map_from_four_to_five_vertices(rt: HostRuntime) -> Result<(), Fail> {
    let alloc = rt.alloc();
    let c = complex(alloc, SQUARE)?;
    let d = complex(alloc, &[&[1, 2], &[1, 5], &[2, 3], &[3, 4], &[4, 5]])?;
    assert!(rt; first_map(alloc, &c, &d)?.is_none());
    Ok(())
}

// The number at the place of a fixed shuffle of 1..=n, for n below the prime 101.
fn shuffled(n: u32, factor: u32, place: u32) -> u32 {
    let mut at = place;
    for _ in 0..101 {
        at = at.wrapping_mul(factor) % 101;
        if at <= n {
            break;
        }
    }
    at
}

// The edges from each place of the shuffle to the one after it, but none from the places that the step divides, where it is not 0.
fn chains(alloc: Global, n: u32, factor: u32, step: u32) -> Result<Facets, Fail> {
    let mut edges = Vec::new(alloc);
    for i in 1..n {
        if step == 0 || i % step > 0 {
            edges.push(Simplex::of(&[shuffled(n, factor, i), shuffled(n, factor, i + 1)])?)?;
        }
    }
    Ok(Facets::generated(alloc, &edges)?)
}

// The cycle through all places of the shuffle.
fn cycle(alloc: Global, n: u32, factor: u32) -> Result<Facets, Fail> {
    let mut edges = Vec::new(alloc);
    for i in 1..n.saturating_add(1) {
        edges.push(Simplex::of(&[shuffled(n, factor, i), shuffled(n, factor, after(i, n))])?)?;
    }
    Ok(Facets::generated(alloc, &edges)?)
}

fn after(i: u32, n: u32) -> u32 {
    if i < n { i + 1 } else { 1 }
}

// The boundary of the cyclic polytope of dimension 4, whose facets are two disjoint edges of a cycle of the vertices.
fn cyclic(alloc: Global, n: u32, factor: u32) -> Result<Facets, Fail> {
    let mut facets = Vec::new(alloc);
    for i in 1..n.saturating_add(1) {
        for j in i.saturating_add(2)..n.saturating_add(1) {
            if after(j, n) != i {
                facets.push(Simplex::of(&[
                    shuffled(n, factor, i),
                    shuffled(n, factor, after(i, n)),
                    shuffled(n, factor, j),
                    shuffled(n, factor, after(j, n)),
                ])?)?;
            }
        }
    }
    Ok(Facets::generated(alloc, &facets)?)
}

#[test]
fn two_long_cycles(rt: HostRuntime) -> Result<(), Fail> {
    let alloc = rt.alloc();
    let c = cycle(alloc, 52, 3)?;
    let d = cycle(alloc, 52, 7)?;
    assert!(rt; c.as_slice().len() == 52);
    assert!(rt; first_map(alloc, &c, &d)?.is_some());
    Ok(())
}

#[test]
fn two_cyclic_polytopes(rt: HostRuntime) -> Result<(), Fail> {
    let alloc = rt.alloc();
    let c = cyclic(alloc, 30, 3)?;
    let d = cyclic(alloc, 30, 7)?;
    assert!(rt; c.as_slice().len() == 405);
    assert!(rt; first_map(alloc, &c, &d)?.is_some());
    Ok(())
}

#[test]
fn two_long_paths(rt: HostRuntime) -> Result<(), Fail> {
    let alloc = rt.alloc();
    let c = chains(alloc, 50, 3, 0)?;
    let d = chains(alloc, 50, 7, 0)?;
    assert!(rt; first_map(alloc, &c, &d)?.is_some());
    Ok(())
}

#[test]
fn two_unions_of_edges(rt: HostRuntime) -> Result<(), Fail> {
    let alloc = rt.alloc();
    let c = chains(alloc, 50, 3, 2)?;
    let d = chains(alloc, 50, 7, 2)?;
    assert!(rt; c.as_slice().len() == 25);
    assert!(rt; first_map(alloc, &c, &d)?.is_some());
    Ok(())
}

#[test]
fn paths_of_other_lengths(rt: HostRuntime) -> Result<(), Fail> {
    let alloc = rt.alloc();
    let c = chains(alloc, 60, 3, 30)?;
    let d = chains(alloc, 60, 7, 20)?;
    assert!(rt; first_map(alloc, &c, &d)?.is_none());
    Ok(())
}
