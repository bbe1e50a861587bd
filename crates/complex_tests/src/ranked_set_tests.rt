ghost use Rattle.std.specs.Prelude.{◌≡◌, ◌<◌};

use ranked_set::RankedSet;
use seeded_words::Words;
use simplex::{Memory, Simplex, Steps};
use std::alloc::Global;
use std::marker::Brand;
use std::sync::ledger::{Blank, Ledger};
use std::test::Fail;

// One of 3,200 simplices of three labels.
fn triangle(word: u32) -> Simplex {
    let labels = [word % 40 + 1, word / 40 % 40 + 41, word / 1_600 % 2 + 81];
    match Simplex::of(&labels) {
        Ok(s) => s,
        Err(_) => Simplex::EMPTY,
    }
}

// Takes the simplex out where it is a member, and else puts it in.
fn change<L: Ledger>(set: &mut RankedSet, s: &Simplex, steps: &mut Steps<L>) -> Result<(), Memory> {
    if set.has(s) {
        set.remove(s, steps);
    } else {
        set.reserve(1)?;
        set.insert(s, steps);
    }
    Ok(())
}

// The same for a sorted list.
fn change_list(list: &mut Vec<Simplex>, s: Simplex) -> Result<(), Memory> {
    match list.binary_search(&s) {
        Ok(place) => {
            list.remove(place);
        }
        Err(place) => list.insert(place, s)?,
    }
    Ok(())
}

// Whether the set has the members of the list, place by place.
fn agrees(set: &RankedSet, list: &[Simplex]) -> bool {
    if set.len() != list.len() || set.at(list.len()).is_some() {
        return false;
    }
    for (k, s) in list.iter().enumerate() {
        if set.at(k) != Some(*s) || !set.has(s) {
            return false;
        }
    }
    true
}

// So many changes by the words of the seed, to a set and to a list: whether they agree, their length, and the count of changes.
fn compared<L: Ledger>(
    alloc: Global,
    seed: u64,
    count: u32,
    blank: Blank,
) -> Result<(bool, usize, u64), Memory>
    requires name { blank.name ≡ L.name }
    requires parts { blank.parts ≡ L.parts }
    requires some { 0 < L.parts }
{
    let mut steps = Steps::<L>::open(blank);
    let mut set = RankedSet::new(alloc);
    let mut list = Vec::new(alloc);
    let mut words = Words::new(seed);
    for _ in 0..count {
        let s = triangle(words.next());
        change(&mut set, &s, &mut steps)?;
        change_list(&mut list, s)?;
    }
    Ok((agrees(&set, &list), set.len(), set.changes()))
}

// A set with room for as many as it gets, from which all are taken out again: how many it had, and the count of changes.
fn emptied<L: Ledger>(alloc: Global, count: u32, blank: Blank) -> Result<(usize, u64), Memory>
    requires name { blank.name ≡ L.name }
    requires parts { blank.parts ≡ L.parts }
    requires some { 0 < L.parts }
{
    let mut steps = Steps::<L>::open(blank);
    let mut set = RankedSet::new(alloc);
    set.reserve(3_200)?;
    for word in 0..count {
        change(&mut set, &triangle(word), &mut steps)?;
    }
    let members = set.to_vec()?;
    for s in &members {
        if set.has(s) {
            set.remove(s, &mut steps);
        }
    }
    if !set.is_empty() {
        return Err(Memory);
    }
    Ok((members.len(), set.changes()))
}

fn compare(alloc: Global, seed: u64, count: u32) -> Result<(bool, usize, u64), Memory> {
    compared::<Brand>(alloc, seed, count, Blank::new(1))
}

fn empty(alloc: Global, count: u32) -> Result<(usize, u64), Memory> {
    emptied::<Brand>(alloc, count, Blank::new(1))
}

#[test]
fn as_a_sorted_list(rt: HostRuntime) -> Result<(), Fail> {
    for (seed, count) in [(1, 0), (1, 1), (2, 300), (3, 10_000)] {
        let (agree, _, changes) = compare(rt.alloc(), seed, count)?;
        assert_eq!(rt; (agree, changes), (true, count as u64));
    }
    Ok(())
}

#[test]
fn all_go_in_and_out(rt: HostRuntime) -> Result<(), Fail> {
    assert_eq!(rt; empty(rt.alloc(), 3_200)?, (3_200, 6_400));
    assert_eq!(rt; empty(rt.alloc(), 4_000)?, (2_400, 6_400));
    Ok(())
}
