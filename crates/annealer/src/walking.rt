ghost use Rattle.std.specs.Prelude.{◌≡◌, ◌+◌, ◌≤◌, ◌<◌, ◌++◌, false, [], None, length, take, option_to_list, IsTrue, IfOk, OnOk, if◌then◌else◌};
ghost use Rattle.simplex.specs.Simplex.{label_limit};
ghost use Rattle.facet_set.specs.Complex.{verts};
ghost use Rattle.facet_set.specs.Numbers.{size, is_pure};
ghost use Rattle.facet_set.specs.Flips.{goes};
ghost use Rattle.annealer.specs.Walk.{standing_after, walk, has_met, to_goal, facet_counts, place_of_least};

use crate::course::{Course, make};
use facet_set::Facets;
use flip_table::Session;
use seeded_words::Words;
use simplex::{Flip, Flips, Memory, Steps};
use std::alloc::Global;
use std::marker::Brand;
use std::sync::ledger::{Blank, Ledger};

/// What a walk comes to.
#[derive(Debug, Drop)]
pub struct Walked {
    /// The session at the goal.
    pub session: Session,
    /// The flips from the start to the goal.
    pub flips: Flips,
    /// The number of flips of the whole walk.
    pub made: u64,
    /// Whether the walk ended at the boundary of a simplex.
    pub met: bool,
}

/// Walks from the complex by bistellar flips, one for each word of the seed, to the first boundary of a simplex or as many flips
/// as the budget, and goes to the goal: the last complex where it met, and otherwise the first one with the fewest facets. The
/// schedule is own, after Bjorner and Lutz.
pub fn walk(alloc: Global, session: Session, seed: u64, budget: u64) -> Result<Walked, Memory>
    requires pure { IsTrue (is_pure session.present) }
    requires dim { 0 < size session.present }
    requires journal { session.journal ≡ [] }
    requires staged { session.staged ≡ None }
    requires room { length (verts session.present) + budget ≤ label_limit }
    ensures session { IfOk result (λ r. r.session ≡ standing_after session.present (to_goal session.present (walk session.present seed budget))) }
    ensures flips { IfOk result (λ r. r.flips ≡ to_goal session.present (walk session.present seed budget)) }
    ensures made { IfOk result (λ r. r.made ≡ length (walk session.present seed budget)) }
    ensures met { IfOk result (λ r. r.met ≡ has_met session.present (walk session.present seed budget)) }
    ensures whole { IfOk result (λ r. r.met ≡ false → r.made ≡ budget) }
{
    walk_over::<Brand>(alloc, session, seed, budget, Blank::new(1))
}

#[tactic(auto, using(crate::proofs::WalkLaws::on_walk_start, crate::proofs::WalkLaws::end_session, crate::proofs::WalkLaws::end_goes, crate::proofs::WalkLaws::end_place))]
fn walk_over<L: Ledger>(
    alloc: Global,
    session: Session,
    seed: u64,
    budget: u64,
    blank: Blank,
) -> Result<Walked, Memory>
    requires name { blank.name ≡ L.name }
    requires parts { blank.parts ≡ L.parts }
    requires some { 0 < L.parts }
    requires pure { IsTrue (is_pure session.present) }
    requires dim { 0 < size session.present }
    requires journal { session.journal ≡ [] }
    requires staged { session.staged ≡ None }
    requires room { length (verts session.present) + budget ≤ label_limit }
    ensures session { IfOk result (λ r. r.session ≡ standing_after session.present (to_goal session.present (walk session.present seed budget))) }
    ensures flips { IfOk result (λ r. r.flips ≡ to_goal session.present (walk session.present seed budget)) }
    ensures made { IfOk result (λ r. r.made ≡ length (walk session.present seed budget)) }
    ensures met { IfOk result (λ r. r.met ≡ has_met session.present (walk session.present seed budget)) }
    ensures whole { IfOk result (λ r. r.met ≡ false → r.made ≡ budget) }
{
    let mut steps = Steps::<L>::open(blank);
    let start = session.facets()?;
    let mut course = Course {
        session,
        words: Words::new(seed),
        heat: 0,
        size: start.size(),
        fewest: start.as_slice().len(),
        place: 0,
    };
    course.run(budget, &mut steps)?;
    finish(alloc, &start, course, &mut steps)
}

// Goes to the goal of a walk that is at its end.
#[tactic(auto, using(crate::proofs::WalkLaws::goal_front, crate::proofs::WalkLaws::goal_is_front))]
fn finish<L: Ledger>(
    alloc: Global,
    start: &Facets,
    course: Course,
    steps: &mut Steps<L>,
) -> Result<Walked, Memory>
    requires session { course.session ≡ standing_after start.now course.session.journal }
    requires goes { IsTrue (goes start.now course.session.journal) }
    requires place { course.place ≡ place_of_least (facet_counts start.now course.session.journal) }
    ensures session { IfOk result (λ r. r.session ≡ standing_after start.now (to_goal start.now course.session.journal)) }
    ensures flips { IfOk result (λ r. r.flips ≡ to_goal start.now course.session.journal) }
    ensures made { IfOk result (λ r. r.made ≡ length course.session.journal) }
    ensures met { IfOk result (λ r. r.met ≡ has_met start.now course.session.journal) }
{
    let made = course.session.mark();
    let met = course.session.is_simplex_boundary();
    let count = goal_len(met, made, course.place);
    let flips = front(alloc, &course.session, count)?;
    let session = stand(alloc, start, course.session, flips.as_slice(), steps)?;
    Ok(Walked {
        session,
        flips,
        made: made as u64,
        met,
    })
}

// The number of flips to the goal.
fn goal_len(met: bool, made: usize, place: usize) -> usize
    ensures { result ≡ (if met then made else place) }
{
    if met { made } else { place }
}

// The first flips of the journal.
#[tactic(auto, using(crate::proofs::WalkLaws::take_next))]
fn front(alloc: Global, session: &Session, count: usize) -> Result<Flips, Memory>
    ensures { IfOk result (λ l. l ≡ take count session.now.journal) }
{
    let mut flips = Flips::new(alloc);
    for k in 0..count {
        push_some(&mut flips, session.flip_at(k))?;
    }
    Ok(flips)
}

fn push_some(flips: &mut Flips, flip: Option<Flip>) -> Result<(), Memory>
    ensures { OnOk result (flips.new ≡ flips.old ++ option_to_list flip) }
{
    match flip {
        Some(flip) => flips.push(flip),
        None => Ok(()),
    }
}

// The session where the first flips of the journal lead. Where these are not all, they are made again from the start.
#[tactic(auto, using(crate::proofs::WalkLaws::stands_there))]
fn stand<L: Ledger>(
    alloc: Global,
    start: &Facets,
    session: Session,
    flips: &[Flip],
    steps: &mut Steps<L>,
) -> Result<Session, Memory>
    requires session { session ≡ standing_after start.now session.journal }
    requires flips { flips.now ≡ take (length flips.now) session.journal }
    requires goes { IsTrue (goes start.now flips.now) }
    ensures { IfOk result (λ s. s ≡ standing_after start.now flips.now) }
{
    if flips.len() == session.mark() {
        return Ok(session);
    }
    again(alloc, start, flips, steps)
}

// Makes the flips on a new session.
#[tactic(auto, using(crate::proofs::WalkLaws::again_passes, crate::proofs::WalkLaws::again_next))]
fn again<L: Ledger>(
    alloc: Global,
    start: &Facets,
    flips: &[Flip],
    steps: &mut Steps<L>,
) -> Result<Session, Memory>
    requires { IsTrue (goes start.now flips.now) }
    ensures { IfOk result (λ s. s ≡ standing_after start.now flips.now) }
{
    let mut session = Session::new(alloc, start)?;
    for flip in flips {
        make(&mut session, flip, steps)?;
    }
    Ok(session)
}
