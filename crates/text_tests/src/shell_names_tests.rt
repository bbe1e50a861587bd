use crate::samples::{TRIANGLE, complex};
use facet_set::{Facets, WEIGHT_LIMIT};
use script_text::Name;
use shell_names::{JOURNAL_LIMIT, Names};
use std::alloc::Global;
use std::test::Fail;

type Lists = &'static [&'static [u32]];

// What is done to a name. `Divide` edits it to the boundary of the tetrahedron, its facet 1, 2, 3 divided at this vertex.
#[derive(Clone, Copy)]
enum Step {
    Assign(Lists),
    Edit(Lists),
    Divide(u32),
    Undo,
    Redo,
}

// The journal, then of one name the number of its present facets, of its past and of its future complexes.
type Seen = (u64, usize, usize, usize);

const TETRAHEDRON: Lists = &[&[1, 2, 3], &[1, 2, 4], &[1, 3, 4], &[2, 3, 4]];

const EDGE: Lists = &[&[1, 2]];

const EDGE_AND_POINT: Lists = &[&[1, 2], &[3]];

fn divided(alloc: Global, at: u32) -> Result<Facets, Fail> {
    complex(
        alloc,
        &[
            &[1, 2, 4],
            &[1, 3, 4],
            &[2, 3, 4],
            &[1, 2, at],
            &[1, 3, at],
            &[2, 3, at],
        ],
    )
}

fn name(word: &[u8]) -> Result<Name, Fail> {
    Ok(Name::of(word).ok_or("no name")?)
}

fn assign(names: &mut Names, name: &Name, next: Facets) -> Result<(), Fail> {
    if names.weight_after(name, &next) <= WEIGHT_LIMIT {
        return Ok(names.assign(name, next)?);
    }
    Err(Fail::from("too heavy"))
}

fn edit(names: &mut Names, name: &Name, next: Facets) -> Result<(), Fail> {
    if names.holds(name)
        && names.weight_after(name, &next) <= WEIGHT_LIMIT
        && names.journal_after_edit(name, &next)? <= JOURNAL_LIMIT
    {
        return Ok(names.edit(name, next)?);
    }
    Err(Fail::from("no edit"))
}

fn undo(names: &mut Names, name: &Name) -> Result<(), Fail> {
    let past = names.past_len(name).ok_or("not held")?;
    if names.holds(name) && 0 < past && names.weight_after_undo(name) <= WEIGHT_LIMIT {
        return Ok(names.undo(name)?);
    }
    Err(Fail::from("no undo"))
}

fn redo(names: &mut Names, name: &Name) -> Result<(), Fail> {
    let future = names.future_len(name).ok_or("not held")?;
    if names.holds(name) && 0 < future && names.weight_after_redo(name) <= WEIGHT_LIMIT {
        return Ok(names.redo(name)?);
    }
    Err(Fail::from("no redo"))
}

fn make(alloc: Global, names: &mut Names, word: &[u8], step: &Step) -> Result<(), Fail> {
    let name = name(word)?;
    match step {
        Step::Assign(lists) => assign(names, &name, complex(alloc, lists)?),
        Step::Edit(lists) => edit(names, &name, complex(alloc, lists)?),
        Step::Divide(at) => edit(names, &name, divided(alloc, *at)?),
        Step::Undo => undo(names, &name),
        Step::Redo => redo(names, &name),
    }
}

fn held(alloc: Global, steps: &[(&[u8], Step)]) -> Result<Names, Fail> {
    let mut names = Names::new(alloc);
    for (word, step) in steps {
        make(alloc, &mut names, word, step)?;
    }
    Ok(names)
}

fn seen(names: &Names, word: &[u8]) -> Option<Seen> {
    let name = Name::of(word)?;
    let facets = names.present(&name)?.as_slice().len();
    let past = names.past_len(&name)?;
    Some((names.journal(), facets, past, names.future_len(&name)?))
}

fn seen_after(
    alloc: Global,
    names: &mut Names,
    word: &[u8],
    step: &Step,
) -> Result<Option<Seen>, Fail> {
    make(alloc, names, word, step)?;
    Ok(seen(names, word))
}

// A change from the tetrahedron to the divided one is of four facets.
const BRANCHES: &[(Step, Seen)] = &[
    (Step::Assign(TETRAHEDRON), (0, 4, 0, 0)),
    (Step::Divide(9), (4, 6, 1, 0)),
    (Step::Undo, (4, 4, 0, 1)),
    (Step::Divide(10), (4, 6, 1, 0)),
    (Step::Assign(TETRAHEDRON), (0, 4, 0, 0)),
];

#[test]
fn an_emptied_future_does_not_count_in_the_journal(rt: HostRuntime) -> Result<(), Fail> {
    let mut names = Names::new(rt.alloc());
    for (step, want) in BRANCHES {
        assert_eq!(rt;
            seen_after(rt.alloc(), &mut names, b"S", step)?,
            Some(*want)
        );
    }
    Ok(())
}

// What the journal would be after an edit. None where the name is not held.
fn journal_to_come(names: &Names, name: &Name, next: Facets) -> Result<Option<u64>, Fail> {
    if names.holds(name) {
        return Ok(Some(names.journal_after_edit(name, &next)?));
    }
    Ok(None)
}

#[test]
fn an_edit_back_would_count_in_the_journal(rt: HostRuntime) -> Result<(), Fail> {
    let alloc = rt.alloc();
    let s = name(b"S")?;
    let names = held(
        alloc,
        &[(b"S", Step::Assign(TETRAHEDRON)), (b"S", Step::Divide(9))],
    )?;
    let next = complex(alloc, TETRAHEDRON)?;
    assert_eq!(rt; journal_to_come(&names, &s, next)?, Some(8));
    Ok(())
}

const TURNS: &[(&[u8], Step, Seen)] = &[
    (b"X", Step::Assign(TETRAHEDRON), (0, 4, 0, 0)),
    (b"Y", Step::Assign(&[]), (0, 0, 0, 0)),
    (b"X", Step::Divide(5), (4, 6, 1, 0)),
    (b"X", Step::Edit(&[&[7]]), (11, 1, 2, 0)),
    (b"X", Step::Undo, (11, 6, 1, 1)),
    (b"X", Step::Undo, (11, 4, 0, 2)),
    (b"X", Step::Redo, (11, 6, 1, 1)),
    (b"X", Step::Assign(&[]), (0, 0, 0, 0)),
];

#[test]
fn complexes_come_back_in_turn_and_names_keep_their_places(rt: HostRuntime) -> Result<(), Fail> {
    let z = name(b"Z")?;
    let mut names = Names::new(rt.alloc());
    assert!(rt; names.is_empty());
    for (word, step, want) in TURNS {
        assert_eq!(rt;
            seen_after(rt.alloc(), &mut names, word, step)?,
            Some(*want)
        );
    }
    assert_eq!(rt; (names.len(), names.past_len(&z)), (2, None));
    Ok(())
}

// A triangle weighs 12, an edge 4, and an edge with a point 8.
const WEIGHED: &[(&[u8], Step, [u64; 4])] = &[
    (b"X", Step::Assign(TRIANGLE), [12, 0, 12, 12]),
    (b"Y", Step::Assign(EDGE), [16, 4, 16, 16]),
    (b"X", Step::Edit(EDGE_AND_POINT), [12, 4, 16, 12]),
];

// The weight, then what it would be without X, after `undo` of X and after `redo` of it.
fn weights(names: &Names, x: &Name) -> [u64; 4] {
    [
        names.weight(),
        names.weight_without(x),
        names.weight_after_undo(x),
        names.weight_after_redo(x),
    ]
}

#[test]
fn the_weight_replaced_does_not_count(rt: HostRuntime) -> Result<(), Fail> {
    let x = name(b"X")?;
    let mut names = Names::new(rt.alloc());
    for (word, step, want) in WEIGHED {
        make(rt.alloc(), &mut names, word, step)?;
        assert_eq!(rt; weights(&names, &x), *want);
    }
    Ok(())
}

// What the weight would be with an edge and a point in place of the complex of the name.
fn weight_to_come(alloc: Global, names: &Names, word: &[u8]) -> Result<u64, Fail> {
    let name = name(word)?;
    let next = complex(alloc, EDGE_AND_POINT)?;
    Ok(names.weight_after(&name, &next))
}

#[test]
fn the_weight_to_come_has_no_part_of_the_one_replaced(rt: HostRuntime) -> Result<(), Fail> {
    let alloc = rt.alloc();
    let steps: [(&[u8], Step); 2] = [(b"X", Step::Assign(TRIANGLE)), (b"Y", Step::Assign(EDGE))];
    let names = held(alloc, &steps)?;
    for (word, want) in [(b"X".as_slice(), 12), (b"Y", 20)] {
        assert_eq!(rt; weight_to_come(alloc, &names, word)?, want);
    }
    Ok(())
}
