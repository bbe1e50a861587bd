use simplex::{Flip, Flips, Labels, Lists, Numbers, Pairs, Simplex, SimplexFault, Simplices, Text};
use std::cmp::Ordering;
use std::collections::HashMap;
use std::test::Fail;

const MOST: &[u32] = &[1, 2, 3, 4, 5, 6, 7, 8, 9, 10, 11, 12];

fn simplex(labels: &[u32]) -> Result<Simplex, SimplexFault> {
    Simplex::of(labels)
}

#[test]
fn labels_make_a_simplex(rt: HostRuntime) -> Result<(), Fail> {
    let cases: [(&[u32], &[u32]); 2] = [(&[3, 1, 2], &[1, 2, 3]), (MOST, MOST)];
    for (list, labels) in cases {
        assert_eq!(rt; simplex(list)?.labels(), labels);
    }
    Ok(())
}

#[test]
fn first_fault_of_a_list(rt: HostRuntime) {
    let cases: [(&[u32], SimplexFault); 4] = [
        (&[5, 5], SimplexFault::Twice { label: 5 }),
        (&[0], SimplexFault::Label { at: 0 }),
        (&[7, 1_000_001, 7], SimplexFault::Label { at: 1 }),
        (
            &[1, 2, 3, 4, 5, 6, 7, 8, 9, 10, 11, 12, 13],
            SimplexFault::Long { len: 13 },
        ),
    ];
    for (list, fault) in cases {
        assert_eq!(rt; simplex(list), Err(fault));
    }
}

#[test]
fn unions(rt: HostRuntime) -> Result<(), Fail> {
    let cases: [(&[u32], &[u32], &[u32]); 2] = [
        (&[1, 3, 5], &[2, 3, 1_000_000], &[1, 2, 3, 5, 1_000_000]),
        (MOST, &[1, 3, 5], MOST),
    ];
    for (a, b, union) in cases {
        assert_eq!(rt; simplex(a)?.union(&simplex(b)?), Some(simplex(union)?));
    }
    Ok(())
}

#[test]
fn no_union_has_more_than_twelve_labels(rt: HostRuntime) -> Result<(), Fail> {
    let far = simplex(&[2, 3, 1_000_000])?;
    assert_eq!(rt; simplex(MOST)?.union(&far), None);
    Ok(())
}

#[test]
fn parts_of_a_simplex(rt: HostRuntime) -> Result<(), Fail> {
    let a = simplex(&[1, 3, 5])?;
    let ends = simplex(&[1, 5])?;
    let rest = a.minus(&simplex(&[2, 3, 1_000_000])?);
    assert_eq!(rt; (rest, a.without(3), a.subset(0b101)), (ends, ends, ends));
    assert_eq!(rt; a.subset(0), Simplex::EMPTY);
    Ok(())
}

#[test]
fn a_proper_prefix_comes_first(rt: HostRuntime) -> Result<(), Fail> {
    let edge = simplex(&[1, 2])?;
    for (other, order) in [
        ([1, 2, 3].as_slice(), Ordering::Less),
        ([1, 3].as_slice(), Ordering::Less),
        ([1].as_slice(), Ordering::Greater),
    ] {
        assert_eq!(rt; edge.cmp(&simplex(other)?), order);
    }
    Ok(())
}

#[test]
fn a_simplex_is_a_key(rt: HostRuntime) -> Result<(), Fail> {
    let mut degrees = HashMap::new(rt.alloc());
    degrees.insert(simplex(&[2, 1])?, 7)?;
    for (key, degree) in [([1, 2].as_slice(), Some(7)), ([1].as_slice(), None)] {
        assert_eq!(rt; degrees.get(&simplex(key)?).copied(), degree);
    }
    Ok(())
}

#[test]
fn a_label_is_added(rt: HostRuntime) -> Result<(), Fail> {
    let mut labels = Labels::new(rt.alloc());
    labels.push(4)?;
    assert_eq!(rt; labels.as_slice(), [4].as_slice());
    assert_eq!(rt;
        (labels.at(0).copied(), labels.at(1).copied()),
        (Some(4), None)
    );
    Ok(())
}

#[test]
fn a_flip_is_added(rt: HostRuntime) -> Result<(), Fail> {
    let (edge, top) = (simplex(&[1, 2])?, simplex(&[3])?);
    let mut flips = Flips::new(rt.alloc());
    flips.push(Flip { a: edge, b: top })?;
    let back = Flip { a: top, b: edge };
    assert_eq!(rt; flips.at(0).copied(), Some(back.inverse()));
    Ok(())
}

#[test]
fn a_pair_is_added(rt: HostRuntime) -> Result<(), Fail> {
    let mut pairs = Pairs::new(rt.alloc());
    pairs.push((1, 2))?;
    assert_eq!(rt; pairs.len(), 1);
    Ok(())
}

#[test]
fn bytes_are_added(rt: HostRuntime) -> Result<(), Fail> {
    let mut text = Text::new(rt.alloc());
    text.push(b'x')?;
    text.extend(b"yz")?;
    assert_eq!(rt; text.as_slice(), b"xyz".as_slice());
    Ok(())
}

#[test]
fn a_list_is_added(rt: HostRuntime) -> Result<(), Fail> {
    let mut numbers = Numbers::new(rt.alloc());
    numbers.push(999_999_999_999_999_999)?;
    let mut lists = Lists::new(rt.alloc());
    lists.push(numbers)?;
    assert_eq!(rt; lists.len(), 1);
    Ok(())
}

#[test]
fn a_simplex_is_added(rt: HostRuntime) -> Result<(), Fail> {
    let edge = simplex(&[1, 2])?;
    let mut simplices = Simplices::new(rt.alloc());
    simplices.push(edge)?;
    assert_eq!(rt; simplices.as_slice(), [edge].as_slice());
    Ok(())
}
