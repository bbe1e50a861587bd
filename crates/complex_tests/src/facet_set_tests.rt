use crate::samples::complex;
use facet_set::Facets;
use simplex::Simplex;
use std::alloc::Global;
use std::test::Fail;

fn simplices(alloc: Global, lists: &[&[u32]]) -> Result<Vec<Simplex>, Fail> {
    let mut simplices = Vec::new(alloc);
    for labels in lists {
        simplices.push(Simplex::of(labels)?)?;
    }
    Ok(simplices)
}

#[test]
fn generated_keeps_what_lies_in_no_other(rt: HostRuntime) -> Result<(), Fail> {
    let alloc = rt.alloc();
    let cases: [(&[&[u32]], &[&[u32]]); 6] = [
        (&[], &[]),
        (&[&[]], &[&[]]),
        (&[&[], &[3]], &[&[3]]),
        (&[&[1, 2, 3], &[2, 1]], &[&[1, 2, 3]]),
        (&[&[2], &[3], &[1, 3], &[1, 3]], &[&[1, 3], &[2]]),
        (
            &[&[4, 5], &[1, 2, 3, 4], &[2, 3, 4], &[2, 3, 5], &[3, 5]],
            &[&[1, 2, 3, 4], &[2, 3, 5], &[4, 5]],
        ),
    ];
    for (list, want) in cases {
        let facets = complex(alloc, list)?;
        assert_eq!(rt; facets.as_slice(), simplices(alloc, want)?.as_slice());
    }
    Ok(())
}

#[test]
fn exact_takes_just_the_lists_of_facets(rt: HostRuntime) -> Result<(), Fail> {
    let alloc = rt.alloc();
    let cases: [(&[&[u32]], bool); 5] = [
        (&[], true),
        (&[&[1, 2], &[1, 3], &[4]], true),
        (&[&[1, 3], &[1, 2]], false),
        (&[&[1, 2], &[1, 2]], false),
        (&[&[1, 2], &[2]], false),
    ];
    for (list, want) in cases {
        let facets = Facets::exact(alloc, &simplices(alloc, list)?)?;
        assert_eq!(rt; facets.is_some(), want);
    }
    Ok(())
}

fn numbers(facets: &Facets) -> (Option<i32>, bool, u32, u64, bool) {
    (
        facets.dim(),
        facets.is_pure(),
        facets.max_label(),
        facets.weight(),
        facets.is_simplex_boundary(),
    )
}

#[test]
fn numbers_of_small_complexes(rt: HostRuntime) -> Result<(), Fail> {
    let cases: [(&[&[u32]], (Option<i32>, bool, u32, u64, bool)); 6] = [
        (&[], (None, false, 0, 0, false)),
        (&[&[]], (Some(-1), true, 0, 1, false)),
        (&[&[1], &[7]], (Some(0), true, 7, 4, true)),
        (&[&[1, 2], &[3]], (Some(1), false, 3, 8, false)),
        (&[&[1, 2], &[1, 3], &[4, 5]], (Some(1), true, 5, 12, false)),
        (
            &[&[1, 2, 3], &[1, 2, 4], &[1, 3, 4], &[2, 3, 4]],
            (Some(2), true, 4, 32, true),
        ),
    ];
    for (list, want) in cases {
        assert_eq!(rt; numbers(&complex(rt.alloc(), list)?), want);
    }
    Ok(())
}

#[test]
fn vertices_and_the_least_label_that_is_none(rt: HostRuntime) -> Result<(), Fail> {
    let facets = complex(rt.alloc(), &[&[1, 2], &[2, 9], &[4]])?;
    let want: [u32; 4] = [1, 2, 4, 9];
    assert_eq!(rt; facets.vertices()?.as_slice(), want.as_slice());
    assert_eq!(rt; facets.fresh()?, Some(3));
    Ok(())
}

#[test]
fn what_two_complexes_have_apart(rt: HostRuntime) -> Result<(), Fail> {
    let before = complex(rt.alloc(), &[&[1, 2, 3], &[2, 3, 4]])?;
    let after = complex(rt.alloc(), &[&[1, 2, 3], &[4, 5]])?;
    let change = before.copy()?.difference(&after)?;
    let sizes = (change.gone.len(), change.come.len(), change.size());
    assert_eq!(rt; sizes, (1, 1, 2));
    Ok(())
}

#[test]
fn faces_and_facets(rt: HostRuntime) -> Result<(), Fail> {
    let alloc = rt.alloc();
    let facets = complex(alloc, &[&[1, 2, 3], &[4]])?;
    let cases: [(&[u32], bool, bool); 4] = [
        (&[1, 2, 3], true, true),
        (&[1, 3], true, false),
        (&[], true, false),
        (&[3, 4], false, false),
    ];
    for (labels, face, facet) in cases {
        let s = Simplex::of(labels)?;
        assert_eq!(rt; facets.has_face(&s), face);
        assert_eq!(rt; facets.is_facet(&s), facet);
    }
    Ok(())
}
