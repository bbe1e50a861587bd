use seeded_words::Words;

#[test]
fn the_first_words_of_seed_one(rt: HostRuntime) {
    let mut words = Words::new(1);
    assert_eq!(rt; words.next(), 3795398737);
    assert_eq!(rt; words.next(), 17903413);
    assert_eq!(rt; words.next(), 3545275701);
}
