ghost use Rattle.std.specs.Prelude.{◌≡◌, ◌<◌, None, IfOk};

use crate::samples::complex;
use flip_rules::FlipFault;
use flip_table::{Session, StageFault};
use simplex::{Flip, Simplex, Steps};
use std::alloc::Global;
use std::marker::Brand;
use std::process::Abort;
use std::sync::ledger::{Blank, Ledger};
use std::test::Fail;

const SPHERE: &[&[u32]] = &[&[1, 2, 3], &[1, 2, 4], &[1, 3, 4], &[2, 3, 4]];

const MIXED: &[&[u32]] = &[&[1, 2, 3], &[3, 4]];

fn flip(a: &[u32], b: &[u32]) -> Result<Flip, Fail> {
    let a = Simplex::of(a)?;
    let b = Simplex::of(b)?;
    Ok(Flip { a, b })
}

fn session(alloc: Global, lists: &[&[u32]]) -> Result<Session, Fail>
    ensures { IfOk result (λ s. s.staged ≡ None) }
{
    Ok(Session::new(alloc, &complex(alloc, lists)?)?)
}

fn counts(session: &Session) -> [usize; 4] {
    [0, 1, 2, 3].map(|class| session.options_count(class))
}

#[test]
fn a_triangle_is_divided(rt: HostRuntime) -> Result<(), Fail> {
    divide::<Brand>(&rt, rt.alloc(), Blank::new(1))
}

fn divide<L: Ledger>(rt: &impl Abort, alloc: Global, blank: Blank) -> Result<(), Fail>
    requires name { blank.name ≡ L.name }
    requires parts { blank.parts ≡ L.parts }
    requires some { 0 < L.parts }
{
    let there = flip(&[1, 2, 3], &[5])?;
    let mut steps = Steps::<L>::open(blank);
    let cancelled = cancelled(alloc, &there, &mut steps)?;
    assert_eq!(rt; cancelled, ([[4, 0, 0, 0]; 3], 4, 0));
    let divided = divided(alloc, &there, &mut steps)?;
    assert_eq!(rt;
        divided,
        (
            [6, 3, 2, 0],
            1,
            [Some(true), Some(true), None, Some(true)],
            Err(StageFault::Refused(FlipFault::Star))
        )
    );
    Ok(())
}

// The options before the flip is staged, while it is, and once it is cancelled, and then the facets and the flips.
fn cancelled<L: Ledger>(
    alloc: Global,
    there: &Flip,
    steps: &mut Steps<L>,
) -> Result<([[usize; 4]; 3], usize, usize), Fail> {
    let mut sphere = session(alloc, SPHERE)?;
    let before = counts(&sphere);
    sphere.stage(there, steps)?;
    let staged = counts(&sphere);
    sphere.cancel();
    let after = counts(&sphere);
    Ok(([before, staged, after], sphere.facet_count(), sphere.mark()))
}

// The options and the flips after the flip, some of those read (`read_flips`), and what it answers when it is staged once more.
type Divided = ([usize; 4], usize, [Option<bool>; 4], Result<(), StageFault>);

fn divided<L: Ledger>(alloc: Global, there: &Flip, steps: &mut Steps<L>) -> Result<Divided, Fail> {
    let mut sphere = session(alloc, SPHERE)?;
    sphere.stage(there, steps)?;
    sphere.cancel();
    sphere.stage(there, steps)?;
    sphere.commit(steps);
    let counts = counts(&sphere);
    let flips = read_flips(&sphere);
    let again = sphere.stage(there, steps);
    Ok((counts, sphere.mark(), flips, again))
}

// Whether the flips read are those of the triangle 1, 2, 3 divided at 5.
fn read_flips(sphere: &Session) -> [Option<bool>; 4] {
    [
        is_flip(sphere.option_at(0, 0), &[1, 2, 4], &[6]),
        is_flip(sphere.option_at(2, 1), &[5], &[1, 2, 3]),
        is_flip(sphere.option_at(2, 2), &[], &[]),
        is_flip(sphere.flip_at(0), &[1, 2, 3], &[5]),
    ]
}

// Whether the flip takes out `a` and puts in `b`. None where there is none.
fn is_flip(read: Option<Flip>, a: &[u32], b: &[u32]) -> Option<bool> {
    let flip = read?;
    Some(flip.a.labels() == a && flip.b.labels() == b)
}

#[test]
fn readings_of_a_triangle_and_an_edge(rt: HostRuntime) -> Result<(), Fail> {
    let corner = Simplex::of(&[3])?;
    let mixed = session(rt.alloc(), MIXED)?;
    assert_eq!(rt;
        (mixed.dim(), mixed.is_pure(), mixed.is_simplex_boundary()),
        (Some(2), false, false)
    );
    assert_eq!(rt; (mixed.is_face(&corner), mixed.degree(&corner)), (true, 2));
    Ok(())
}

#[test]
fn a_complex_that_is_not_pure_has_no_options(rt: HostRuntime) -> Result<(), Fail> {
    let flip = flip(&[1], &[2])?;
    let mixed = session(rt.alloc(), MIXED)?;
    assert_eq!(rt;
        (counts(&mixed), mixed.option_at(0, 0), mixed.check(&flip)),
        ([0; 4], None, Err(FlipFault::NotPure))
    );
    Ok(())
}

#[test]
fn the_facets_of_a_session_are_those_of_its_complex(rt: HostRuntime) -> Result<(), Fail> {
    let mixed = session(rt.alloc(), MIXED)?;
    assert_eq!(rt; mixed.facets()?.as_slice().len(), 2);
    Ok(())
}
