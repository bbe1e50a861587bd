use packed_keys::Key;
use simplex::Simplex;
use std::test::Fail;

// Lists of labels in increasing order.
const LISTS: [&[u32]; 10] = [
    &[],
    &[1],
    &[1, 2],
    &[1, 2, 3],
    &[1, 2, 3, 4, 5, 6, 7, 8, 9],
    &[1, 2, 3, 4, 5, 6, 7, 8, 9, 10],
    &[1, 2, 3, 4, 5, 6, 7, 8, 9, 10, 11, 999_999],
    &[1, 2, 3, 4, 5, 6, 7, 8, 9, 10, 11, 1_000_000],
    &[1, 3],
    &[1_000_000],
];

fn packed(labels: &[u32]) -> Option<Key> {
    Some(Key::of(&Simplex::of(labels).ok()?))
}

#[test]
fn what_is_packed_comes_out(rt: HostRuntime) -> Result<(), Fail> {
    for labels in LISTS {
        if let Some(key) = packed(labels) {
            assert_eq!(rt; key.simplex().labels(), labels);
            assert_eq!(rt;
                (key.len(), key.is_empty()),
                (labels.len(), labels.is_empty())
            );
            assert_eq!(rt; key.at(labels.len()), None);
            assert_eq!(rt; key.at(0), labels.first().copied());
        }
    }
    Ok(())
}

#[test]
fn the_order_is_that_of_the_lists(rt: HostRuntime) -> Result<(), Fail> {
    for (i, labels) in LISTS.iter().enumerate() {
        for (j, others) in LISTS.iter().enumerate() {
            if let (Some(key), Some(other)) = (packed(labels), packed(others)) {
                assert_eq!(rt; key.cmp(&other), i.cmp(&j));
                assert_eq!(rt; key == other, i == j);
            }
        }
    }
    Ok(())
}

#[test]
fn subsets_by_their_numbers(rt: HostRuntime) -> Result<(), Fail> {
    let cases: [(u32, &[u32]); 5] = [
        (0, &[]),
        (1, &[2]),
        (6, &[3, 5]),
        (15, &[2, 3, 5, 7]),
        (24, &[7]),
    ];
    if let Ok(s) = Simplex::of(&[2, 3, 5, 7]) {
        for (mask, want) in cases {
            assert_eq!(rt; Key::subset(&s, mask).simplex().labels(), want);
            assert_eq!(rt; Key::subset(&s, mask), Key::of(&s.subset(mask)));
        }
    }
    Ok(())
}
