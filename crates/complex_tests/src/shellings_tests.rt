use crate::samples::{TORUS, are, complex};
use shellings::{GreedyFault, ShellFault, check_shelling, greedy_shelling};
use simplex::Simplex;
use std::alloc::Global;
use std::test::Fail;

const CYCLE: &[&[u32]] = &[&[1, 2], &[2, 3], &[3, 4], &[1, 4]];

// The boundaries of two tetrahedra with a vertex in common.
const WEDGE: &[&[u32]] = &[
    &[1, 2, 3],
    &[1, 2, 4],
    &[1, 3, 4],
    &[1, 5, 6],
    &[1, 5, 7],
    &[1, 6, 7],
    &[2, 3, 4],
    &[5, 6, 7],
];

// The simplices with these labels, in this order.
fn simplices(alloc: Global, lists: &[&[u32]]) -> Result<Vec<Simplex>, Fail> {
    let mut list = Vec::new(alloc);
    for labels in lists {
        list.push(Simplex::of(labels)?)?;
    }
    Ok(list)
}

// Facets, an order, and the first place of it that is not good.
type Case = (&'static [&'static [u32]], &'static [&'static [u32]], usize);

#[test]
fn shellings_are_counted(rt: HostRuntime) -> Result<(), Fail> {
    let cases: [(&[&[u32]], &[i64]); 3] = [
        (CYCLE, &[1, 2, 1]),
        (&[&[1, 2], &[1, 3], &[2, 3]], &[1, 1, 1]),
        (&[&[]], &[1]),
    ];
    for (order, want) in cases {
        let c = complex(rt.alloc(), order)?;
        let counts = check_shelling(&c, &simplices(rt.alloc(), order)?)?;
        assert_eq!(rt; counts.as_slice(), want);
    }
    Ok(())
}

#[test]
fn the_first_bad_place_is_answered(rt: HostRuntime) -> Result<(), Fail> {
    let cases: [Case; 5] = [
        (CYCLE, &[&[1, 2], &[3, 4], &[2, 3], &[1, 4]], 2),
        (CYCLE, &[&[1, 2], &[2, 3], &[3, 4]], 4),
        (CYCLE, &[&[1, 2], &[1, 2]], 2),
        (CYCLE, &[], 1),
        (CYCLE, &[&[1, 2], &[2, 3], &[1, 3]], 3),
    ];
    for (lists, order, at) in cases {
        let c = complex(rt.alloc(), lists)?;
        let checked = check_shelling(&c, &simplices(rt.alloc(), order)?);
        assert_eq!(rt; checked, Err(ShellFault::Bad { at }));
    }
    let mixed = complex(rt.alloc(), &[&[1, 2], &[3]])?;
    assert_eq!(rt; check_shelling(&mixed, &[]), Err(ShellFault::NotPure));
    Ok(())
}

#[test]
fn greedy_orders(rt: HostRuntime) -> Result<(), Fail> {
    let cases: [(&[&[u32]], &[&[u32]], bool); 3] = [
        (CYCLE, &[&[1, 2], &[1, 4], &[2, 3], &[3, 4]], true),
        (
            WEDGE,
            &[&[1, 2, 3], &[1, 2, 4], &[1, 3, 4], &[2, 3, 4]],
            false,
        ),
        (&[&[]], &[&[]], true),
    ];
    for (lists, order, whole) in cases {
        let c = complex(rt.alloc(), lists)?;
        let greedy = greedy_shelling(rt.alloc(), &c)?;
        assert!(rt; are(greedy.order.as_slice(), order));
        assert_eq!(rt; greedy.whole, whole);
    }
    Ok(())
}

#[test]
fn the_torus_is_not_shelled(rt: HostRuntime) -> Result<(), Fail> {
    let torus = complex(rt.alloc(), TORUS)?;
    let greedy = greedy_shelling(rt.alloc(), &torus)?;
    assert!(rt; !greedy.whole);
    let at = greedy.order.as_slice().len() + 1;
    let checked = check_shelling(&torus, greedy.order.as_slice());
    assert_eq!(rt; checked, Err(ShellFault::Bad { at }));
    let void = complex(rt.alloc(), &[])?;
    assert!(rt;
        matches!(
            greedy_shelling(rt.alloc(), &void),
            Err(GreedyFault::NotPure)
        )
    );
    Ok(())
}
