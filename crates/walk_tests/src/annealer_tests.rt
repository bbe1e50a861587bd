use crate::samples::{SQUARE, TORUS, complex};
use annealer::{Walked, is_in_budget, walk};
use facet_set::Facets;
use flip_table::Session;
use std::alloc::Global;
use std::test::Fail;

type Lists = &'static [&'static [u32]];

// A triangle divided at an inner vertex.
const DISK: Lists = &[&[1, 2, 4], &[1, 3, 4], &[2, 3, 4]];

fn walked(alloc: Global, start: &Facets, budget: u32) -> Result<Walked, Fail> {
    let vertices = start.vertices()?.len();
    if start.is_pure() && start.size() > 0 && vertices <= 1000 && budget <= 1000 {
        let session = Session::new(alloc, start)?;
        return Ok(walk(alloc, session, 1, budget as u64)?);
    }
    Err(Fail::from("no walk starts here"))
}

fn walked_from(alloc: Global, lists: Lists, budget: u32) -> Result<Walked, Fail> {
    let start = complex(alloc, lists)?;
    walked(alloc, &start, budget)
}

// Whether the walk met and its goal is a simplex boundary, then the flips of all of it, those to the goal and those of the
// session there.
type Numbers = (bool, bool, u64, usize, usize);

fn numbers(walked: &Walked) -> Numbers {
    (
        walked.met,
        walked.session.is_simplex_boundary(),
        walked.made,
        walked.flips.len(),
        walked.session.mark(),
    )
}

const WALKS: &[(Lists, u32, Numbers)] = &[
    (DISK, 1, (false, false, 1, 1, 1)),
    (SQUARE, 5, (true, true, 1, 1, 1)),
    (SQUARE, 0, (false, false, 0, 0, 0)),
    // The only options of the torus divide a triangle.
    (TORUS, 10, (false, false, 10, 0, 0)),
];

#[test]
fn walks_meet_or_make_their_whole_budget(rt: HostRuntime) -> Result<(), Fail> {
    for (start, budget, want) in WALKS {
        let walked = walked_from(rt.alloc(), start, *budget)?;
        assert_eq!(rt; numbers(&walked), *want);
    }
    Ok(())
}

fn is_goal(alloc: Global, walked: Walked, lists: Lists) -> Result<bool, Fail> {
    let goal = complex(alloc, lists)?;
    Ok(walked.session.facets()?.as_slice() == goal.as_slice())
}

#[test]
fn a_disk_with_an_inner_vertex_becomes_a_triangle(rt: HostRuntime) -> Result<(), Fail> {
    let walked = walked_from(rt.alloc(), DISK, 1)?;
    assert!(rt; is_goal(rt.alloc(), walked, &[&[1, 2, 3]])?);
    Ok(())
}

#[test]
fn a_walk_that_only_grows_goes_back_to_its_start(rt: HostRuntime) -> Result<(), Fail> {
    let walked = walked_from(rt.alloc(), TORUS, 10)?;
    assert!(rt; is_goal(rt.alloc(), walked, TORUS)?);
    Ok(())
}

fn is_within(alloc: Global, lists: Lists, budget: u64) -> Result<bool, Fail> {
    let start = complex(alloc, lists)?;
    Ok(is_in_budget(&start, budget)?)
}

// The disk ends at a weight, and the point at a number of labels.
const BUDGETS: &[(Lists, u64, bool)] = &[
    (DISK, 524_286, true),
    (DISK, 524_287, false),
    (&[&[1]], 999_999, true),
    (&[&[1]], 1_000_000, false),
];

#[test]
fn budgets_end_at_a_weight_and_at_a_number_of_labels(rt: HostRuntime) -> Result<(), Fail> {
    for (start, budget, want) in BUDGETS {
        assert_eq!(rt; is_within(rt.alloc(), start, *budget)?, *want);
    }
    Ok(())
}
