use crate::samples::{TETRAHEDRON, TORUS, complex};
use facet_set::Facets;
use morse_lists::{MorseFault, MorseStep, MorseSteps, Tally, check_morse, greedy_morse};
use simplex::Simplex;
use std::alloc::Global;
use std::test::Fail;

// The dunce hat with eight vertices, which is contractible and has no free face (Zeeman).
const DUNCE_HAT: &[&[u32]] = &[
    &[1, 2, 4],
    &[1, 2, 7],
    &[1, 2, 8],
    &[1, 3, 4],
    &[1, 3, 5],
    &[1, 3, 6],
    &[1, 5, 6],
    &[1, 7, 8],
    &[2, 3, 5],
    &[2, 3, 7],
    &[2, 3, 8],
    &[2, 4, 5],
    &[3, 4, 8],
    &[3, 6, 7],
    &[4, 5, 6],
    &[4, 6, 8],
    &[6, 7, 8],
];

const PROJECTIVE_PLANE: &[&[u32]] = &[
    &[1, 2, 3],
    &[1, 2, 6],
    &[1, 3, 4],
    &[1, 4, 5],
    &[1, 5, 6],
    &[2, 3, 5],
    &[2, 4, 5],
    &[2, 4, 6],
    &[3, 4, 6],
    &[3, 5, 6],
];

// Steps by the labels of their simplices.
type Pairs = &'static [(&'static [u32], &'static [u32])];

fn steps_of(alloc: Global, pairs: Pairs) -> Result<MorseSteps, Fail> {
    let mut steps = MorseSteps::new(alloc);
    for (low, high) in pairs {
        steps.push(MorseStep {
            low: Simplex::of(low)?,
            high: Simplex::of(high)?,
        })?;
    }
    Ok(steps)
}

// The counts of the greedy list, once the checker has passed over it.
fn greedy_tally(alloc: Global, c: &Facets) -> Result<Tally, Fail> {
    let steps = greedy_morse(alloc, c)?;
    Ok(check_morse(alloc, c, &steps)?)
}

// By hand, from the order of the steps.
#[test]
fn the_greedy_list_takes_the_first_of_the_largest(rt: HostRuntime) -> Result<(), Fail> {
    let cases: [(&[&[u32]], Pairs); 4] = [
        (
            &[&[1, 2, 3]],
            &[
                (&[1, 2], &[1, 2, 3]),
                (&[1], &[1, 3]),
                (&[2], &[2, 3]),
                (&[3], &[3]),
            ],
        ),
        (
            &[&[1, 2], &[1, 3], &[2, 3]],
            &[
                (&[1, 2], &[1, 2]),
                (&[1], &[1, 3]),
                (&[2], &[2, 3]),
                (&[3], &[3]),
            ],
        ),
        (&[&[]], &[]),
        (&[], &[]),
    ];
    for (lists, want) in cases {
        let c = complex(rt.alloc(), lists)?;
        let steps = greedy_morse(rt.alloc(), &c)?;
        assert_eq!(rt; steps.as_slice(), steps_of(rt.alloc(), want)?.as_slice());
    }
    Ok(())
}

// The dunce hat needs a critical edge and triangle, and the sphere and the projective plane no more than their Betti numbers.
#[test]
fn the_numbers_of_critical_steps(rt: HostRuntime) -> Result<(), Fail> {
    let cases: [(&[&[u32]], &[u64]); 5] = [
        (DUNCE_HAT, &[1, 1, 1]),
        (PROJECTIVE_PLANE, &[1, 1, 1]),
        (TETRAHEDRON, &[1, 0, 1]),
        (TORUS, &[1, 2, 1]),
        (&[&[]], &[]),
    ];
    for (lists, want) in cases {
        let c = complex(rt.alloc(), lists)?;
        assert_eq!(rt; greedy_tally(rt.alloc(), &c)?.as_slice(), want);
    }
    Ok(())
}

#[test]
fn what_is_no_morse_list(rt: HostRuntime) -> Result<(), Fail> {
    let edge = complex(rt.alloc(), &[&[1, 2]])?;
    let cases: [(Pairs, MorseFault); 5] = [
        (&[(&[1], &[1, 2]), (&[1], &[1])], MorseFault::Step { at: 2 }),
        (&[(&[1], &[1, 2])], MorseFault::Rest),
        (&[(&[1], &[1])], MorseFault::Step { at: 1 }),
        (&[(&[3], &[1, 2])], MorseFault::Step { at: 1 }),
        (&[], MorseFault::Rest),
    ];
    for (pairs, fault) in cases {
        let steps = steps_of(rt.alloc(), pairs)?;
        assert_eq!(rt; check_morse(rt.alloc(), &edge, &steps), Err(fault));
    }
    let whole = steps_of(rt.alloc(), &[(&[1], &[1, 2]), (&[2], &[2])])?;
    assert_eq!(rt;
        check_morse(rt.alloc(), &edge, &whole)?.as_slice(),
        [1, 0].as_slice()
    );
    Ok(())
}
