ghost use Rattle.std.specs.Prelude.{◌≡◌};
ghost use Rattle.std.specs.List.{list_all};
ghost use Rattle.simplex.specs.Simplex.{is_label};
ghost use Rattle.flip_certificate.specs.Lines.{is_shaped, is_pair};

use crate::samples::{SQUARE, TRIANGLE, complex, flip};
use cert_replay::*;
use facet_set::Facets;
use flip_certificate::{Block, Blocks, Certificate};
use simplex::{Flips, LABEL_LIMIT, Memory, Pairs};
use std::alloc::Global;
use std::test::Fail;

type FlipList<'a> = &'a [(&'a [u32], &'a [u32])];

type Outcome = Result<u64, ReplayFault>;

const FIVE_CYCLE: &[&[u32]] = &[&[1, 2], &[1, 5], &[2, 3], &[3, 4], &[4, 5]];

fn flips(alloc: Global, list: FlipList) -> Result<Flips, Fail> {
    let mut flips = Flips::new(alloc);
    for (a, b) in list {
        flips.push(flip(a, b)?)?;
    }
    Ok(flips)
}

fn sphere(alloc: Global, start: &[&[u32]], list: FlipList) -> Result<Certificate, Fail> {
    Ok(Certificate::Sphere {
        start: complex(alloc, start)?,
        flips: flips(alloc, list)?,
    })
}

// The cycles of four and of five vertices.
fn cycles(alloc: Global) -> Result<(Facets, Facets), Fail> {
    Ok((complex(alloc, SQUARE)?, complex(alloc, FIVE_CYCLE)?))
}

fn both_flips(alloc: Global, first: FlipList, second: FlipList) -> Result<(Flips, Flips), Fail> {
    Ok((flips(alloc, first)?, flips(alloc, second)?))
}

fn pairs(alloc: Global, list: &[(u32, u32)]) -> Result<Pairs, Memory> {
    let mut pairs = Pairs::new(alloc);
    pairs.extend(list)?;
    Ok(pairs)
}

fn equivalent(
    alloc: Global,
    first: FlipList,
    map: &[(u32, u32)],
    second: FlipList,
) -> Result<Certificate, Fail> {
    let map = pairs(alloc, map)?;
    let (first, second) = both_flips(alloc, first, second)?;
    let (start, target) = cycles(alloc)?;
    Ok(Certificate::Equivalent {
        start,
        target,
        first,
        map,
        second,
    })
}

// No block has a flip.
fn manifold(alloc: Global, start: &[&[u32]], vertices: &[u32]) -> Result<Certificate, Fail> {
    let mut blocks = Blocks::new(alloc);
    for vertex in vertices {
        blocks.push(Block {
            vertex: *vertex,
            flips: Flips::new(alloc),
        })?;
    }
    Ok(Certificate::Manifold {
        start: complex(alloc, start)?,
        blocks,
    })
}

fn is_label(a: u32) -> bool
    ensures { result ≡ is_label a }
{
    1 <= a && a <= LABEL_LIMIT
}

fn are_pairs(pairs: &[(u32, u32)]) -> bool
    ensures { result ≡ list_all is_pair pairs.now }
{
    pairs
        .iter()
        .all(|pair| is_label(pair.0) && is_label(pair.1))
}

fn are_at_labels(blocks: &[Block]) -> bool
    ensures { result ≡ list_all (λ b. is_label b.vertex) blocks.now }
{
    blocks.iter().all(|block| is_label(block.vertex))
}

fn is_shaped(c: &Certificate) -> bool
    ensures { result ≡ is_shaped c.now }
{
    match c {
        Certificate::Sphere { .. } => true,
        Certificate::Equivalent { map, .. } => are_pairs(map.as_slice()),
        Certificate::Manifold { blocks, .. } => are_at_labels(blocks.as_slice()),
    }
}

// What the replay of a certificate answers, where it may be asked.
fn outcome(alloc: Global, c: Certificate) -> Outcome {
    if is_shaped(&c) {
        replay(alloc, &c)
    } else {
        Err(ReplayFault::Memory)
    }
}

const SHORT: (&[u32], &[u32]) = (&[1], &[2, 4]);

const MAP: &[(u32, u32)] = &[(2, 1), (3, 2), (4, 3)];

const LONG: FlipList = &[(&[1, 3], &[4]), (&[1, 4], &[5])];

// The flips before the map, the map, the flips behind it, and what the replay answers.
type Case = (
    FlipList<'static>,
    &'static [(u32, u32)],
    FlipList<'static>,
    Outcome,
);

const FROM_FOUR_TO_FIVE: &[Case] = &[
    (&[SHORT], MAP, LONG, Ok(3)),
    // The star that goes is not there.
    (
        &[(&[1], &[2, 3])],
        MAP,
        LONG,
        Err(ReplayFault::Flip { k: 1 }),
    ),
    // The label that comes is there.
    (
        &[SHORT],
        MAP,
        &[(&[1, 3], &[4]), (&[1, 4], &[2])],
        Err(ReplayFault::Flip { k: 3 }),
    ),
    // Two vertices with one image.
    (
        &[SHORT],
        &[(2, 1), (3, 2), (4, 2)],
        LONG,
        Err(ReplayFault::Map),
    ),
    // Short of the five-cycle by one flip.
    (
        &[SHORT],
        MAP,
        &[(&[1, 3], &[4])],
        Err(ReplayFault::End { vertex: 0 }),
    ),
];

#[test]
fn four_cycle_and_five_cycle(rt: HostRuntime) -> Result<(), Fail> {
    let alloc = rt.alloc();
    for (first, map, second, want) in FROM_FOUR_TO_FIVE {
        let c = equivalent(alloc, first, map, second)?;
        assert_eq!(rt; outcome(alloc, c), *want);
    }
    Ok(())
}

#[test]
fn each_part_of_a_flip_is_tested(rt: HostRuntime) -> Result<(), Fail> {
    let alloc = rt.alloc();
    let altered: [(&[u32], &[u32]); 4] = [
        (&[], &[1, 2, 4]),
        (&[1, 2], &[4]),
        (&[1, 2], &[2]),
        (&[9], &[2, 4]),
    ];
    for flip in altered {
        let c = equivalent(alloc, &[flip], MAP, LONG)?;
        assert_eq!(rt; outcome(alloc, c), Err(ReplayFault::Flip { k: 1 }));
    }
    Ok(())
}

const SPHERES: &[(&[&[u32]], FlipList<'static>, Outcome)] = &[
    (&[], &[], Err(ReplayFault::Start)),
    (SQUARE, &[], Err(ReplayFault::End { vertex: 0 })),
    // There and back.
    (TRIANGLE, &[(&[1, 2], &[900]), (&[900], &[1, 2])], Ok(2)),
];

#[test]
fn spheres(rt: HostRuntime) -> Result<(), Fail> {
    let alloc = rt.alloc();
    for (start, flips, want) in SPHERES {
        let c = sphere(alloc, start, flips)?;
        assert_eq!(rt; outcome(alloc, c), *want);
    }
    Ok(())
}

#[test]
fn manifolds(rt: HostRuntime) -> Result<(), Fail> {
    let alloc = rt.alloc();
    let cases: [(&[u32], Outcome); 2] = [
        (&[1, 2, 3], Ok(0)),
        (&[1, 2], Err(ReplayFault::Links { at: 3 })),
    ];
    for (vertices, want) in cases {
        let c = manifold(alloc, TRIANGLE, vertices)?;
        assert_eq!(rt; outcome(alloc, c), want);
    }
    Ok(())
}
