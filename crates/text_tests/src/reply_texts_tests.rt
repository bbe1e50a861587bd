//! Each reply once, against its text.
use crate::samples::{SQUARE, complex, flip};
use flip_certificate::Certificate;
use reply_texts::{
    faces_reply, facets_reply, flips_reply, number_reply, numbers_reply, ok_reply, reduced_reply,
    refusal_reply, row_reply, undecided_at_reply, undecided_reply, yes_or_no, yes_reply,
};
use script_text::Condition;
use simplex::{Flip, Flips, Memory, Text};
use std::alloc::Global;
use std::test::Fail;

// The flip that takes out the vertex 2 of the square.
fn corner() -> Result<Flip, Fail> {
    flip(&[2], &[1, 3])
}

// Whether the reply was made and has this text.
fn reads(reply: Result<Text, Memory>, text: &[u8]) -> bool {
    match reply {
        Ok(reply) => reply.as_slice() == text,
        Err(_) => false,
    }
}

#[test]
fn complexes_are_shown_and_counted(rt: HostRuntime) -> Result<(), Fail> {
    let alloc = rt.alloc();
    let square = complex(alloc, SQUARE)?;
    let shown = [
        reads(
            facets_reply(alloc, &square),
            b"facets [[1,2],[1,4],[2,3],[3,4]]\n",
        ),
        reads(
            faces_reply(alloc, square.as_slice()),
            b"faces [[1,2],[1,4],[2,3],[3,4]]\n",
        ),
        reads(ok_reply(alloc, &square), b"ok 4\n"),
    ];
    assert_eq!(rt; shown, [true; 3]);
    Ok(())
}

#[test]
fn flips_are_shown_and_counted(rt: HostRuntime) -> Result<(), Fail> {
    let alloc = rt.alloc();
    let flips = [corner()?, corner()?];
    let goal = complex(alloc, SQUARE)?;
    let shown = [
        reads(reduced_reply(alloc, &flips, &goal), b"reduced 2 4\n"),
        reads(
            flips_reply(alloc, &flips),
            b"options [[[2],[1,3]],[[2],[1,3]]]\n",
        ),
        reads(flips_reply(alloc, &[]), b"options []\n"),
    ];
    assert_eq!(rt; shown, [true; 3]);
    Ok(())
}

#[test]
fn numbers_words_and_conditions_are_shown(rt: HostRuntime) {
    let alloc = rt.alloc();
    let shown = [
        reads(number_reply(alloc, b"euler ", -2), b"euler -2\n"),
        reads(
            row_reply(alloc, b"hvec ", &[1, 4, 10, -1]),
            b"hvec [1,4,10,-1]\n",
        ),
        reads(numbers_reply(alloc, b"betti ", &[]), b"betti []\n"),
        reads(
            numbers_reply(alloc, b"betti ", &[1, 2, 1]),
            b"betti [1,2,1]\n",
        ),
        reads(yes_or_no(alloc, b"closed ", true), b"closed yes\n"),
        reads(yes_or_no(alloc, b"strong ", false), b"strong no\n"),
        reads(
            refusal_reply(alloc, Condition::NotPure),
            b"refused not_pure\n",
        ),
    ];
    assert_eq!(rt; shown, [true; 7]);
}

// The reply that the square is a sphere, by one flip.
fn yes_of_the_square(alloc: Global) -> Result<Text, Fail> {
    let start = complex(alloc, SQUARE)?;
    let mut flips = Flips::new(alloc);
    flips.push(corner()?)?;
    let sphere = Certificate::Sphere { start, flips };
    Ok(yes_reply(alloc, &sphere)?)
}

#[test]
fn a_yes_has_its_certificate_behind_it(rt: HostRuntime) -> Result<(), Fail> {
    let yes = yes_of_the_square(rt.alloc())?;
    assert_eq!(rt;
        yes.as_slice(),
        b"sphere 1\ncertificate 1 sphere\nfacets [[1,2],[1,4],[2,3],[3,4]]\nflip [2] [1,3]\nend\n".as_slice()
    );
    Ok(())
}

#[test]
fn undecided_says_what_was_spent_and_where(rt: HostRuntime) {
    let alloc = rt.alloc();
    let shown = [
        reads(undecided_reply(alloc, 100), b"undecided 100\n"),
        reads(undecided_at_reply(alloc, 20, 1), b"undecided 20 vertex 1\n"),
    ];
    assert_eq!(rt; shown, [true; 2]);
}
