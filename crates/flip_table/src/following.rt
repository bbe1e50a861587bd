// How the candidates follow a flip.
ghost use Rattle.std.specs.Prelude.{◌≡◌, ◌<◌, ◌-◌, length, map, not, IsTrue, IfOk};
ghost use Rattle.std.specs.List.{filter};
ghost use Rattle.simplex.specs.Simplex.{is_within};
ghost use Rattle.facet_set.specs.Complex.{is_complex, is_face};
ghost use Rattle.facet_set.specs.Numbers.{size};
ghost use Rattle.facet_set.specs.Star.{lies_in_join};
ghost use Rattle.flip_rules.specs.Candidates.{candidates};
ghost use Rattle.flip_table.specs.Following.{shared, near, is_inside, stayed, seen_in, next_candidates, next_lists};

use crate::merging::merged;
use facet_set::{Facets, is_face};
use flip_rules::{Candidate, Candidates, candidates, lies_in_join};
use simplex::{Flip, Memory, Simplex};
use std::alloc::{AllocError, Global};

/// The candidates of the complex that the flip has led to, by those before it. Each list is passed over once, and beside that only
/// what shares labels with A or B counts.
pub fn next_lists(
    alloc: Global,
    lists: &[Candidates],
    flip: &Flip,
    next: &Facets,
) -> Result<Vec<Candidates>, Memory>
    requires { length lists.now ≡ size next.now - 1 }
    ensures { IfOk result (λ v. v.items ≡ next_lists flip.now next.now lists.now) }
{
    let around = near(alloc, flip, 1, next.as_slice())?;
    let mut following = Vec::new(alloc);
    for (k, list) in lists.iter().enumerate() {
        let list = next_candidates(alloc, list.as_slice(), flip, next, &around, k + 1)?;
        following.push(list)?;
    }
    Ok(following)
}

// The candidates of the class, by those before.
fn next_candidates(
    alloc: Global,
    list: &[Candidate],
    flip: &Flip,
    next: &Facets,
    around: &[Simplex],
    class: usize,
) -> Result<Candidates, Memory>
    requires complex { IsTrue (is_complex next.now) }
    requires around { around.now ≡ near flip.now 1 next.now }
    requires below { class < size next.now }
    ensures { IfOk result (λ l. l ≡ next_candidates flip.now next.now class list.now) }
{
    let outside = outside(alloc, flip, list)?;
    let nearer = near(alloc, flip, next.size() - class, around)?;
    let nearer = Facets::generated(alloc, &nearer)?;
    let found = candidates(alloc, &nearer, class)?;
    let inside = inside(alloc, flip, next, around, found.as_slice())?;
    merged(alloc, &outside, &inside)
}

// The facets that have so many labels of A and B.
fn near(
    alloc: Global,
    flip: &Flip,
    count: usize,
    facets: &[Simplex],
) -> Result<Vec<Simplex>, AllocError>
    ensures { IfOk result (λ v. v.items ≡ near flip.now count facets.now) }
{
    facets
        .iter()
        .copied()
        .filter(|facet| count <= shared(facet, flip))
        .collect(alloc)
}

fn shared(facet: &Simplex, flip: &Flip) -> usize
    ensures { result ≡ shared flip.now facet.now }
{
    facet
        .labels()
        .iter()
        .filter(|label| flip.a.has(**label) || flip.b.has(**label))
        .count()
}

// What stays of the candidates outside the join.
fn outside(alloc: Global, flip: &Flip, list: &[Candidate]) -> Result<Vec<Candidate>, AllocError>
    ensures { IfOk result (λ v. v.items ≡ map (stayed flip.now) (filter (λ n. not (is_inside flip.now n)) list.now)) }
{
    list.iter()
        .copied()
        .filter(|candidate| !is_inside(candidate, flip))
        .map(|candidate| stayed(&candidate, flip))
        .collect(alloc)
}

// The candidates in the join, as they are in the whole complex.
fn inside(
    alloc: Global,
    flip: &Flip,
    next: &Facets,
    around: &[Simplex],
    list: &[Candidate],
) -> Result<Vec<Candidate>, AllocError>
    requires { around.now ≡ near flip.now 1 next.now }
    ensures { IfOk result (λ v. v.items ≡ map (seen_in next.now) (filter (is_inside flip.now) list.now)) }
{
    list.iter()
        .copied()
        .filter(|candidate| is_inside(candidate, flip))
        .map(|candidate| seen_in(&candidate, flip, next, around))
        .collect(alloc)
}

fn is_inside(candidate: &Candidate, flip: &Flip) -> bool
    ensures { result ≡ is_inside flip.now candidate.now }
{
    lies_in_join(&candidate.flip.a, flip)
}

fn stayed(candidate: &Candidate, flip: &Flip) -> Candidate
    ensures { result ≡ stayed flip.now candidate.now }
{
    let b = &candidate.flip.b;
    let is_blocked = if lies_in_join(b, flip) {
        !flip.a.within(b)
    } else {
        candidate.is_blocked
    };
    Candidate {
        flip: candidate.flip,
        is_blocked,
    }
}

fn seen_in(candidate: &Candidate, flip: &Flip, next: &Facets, around: &[Simplex]) -> Candidate
    requires { around.now ≡ near flip.now 1 next.now }
    ensures { result ≡ seen_in next.now candidate.now }
{
    Candidate {
        flip: candidate.flip,
        is_blocked: is_face_after(&candidate.flip.b, flip, next, around),
    }
}

// Whether the simplex is a face. Where it shares a label with the flip, so do the facets that contain it.
#[tactic(auto, using(crate::proofs::FollowingLaws::face_near))]
fn is_face_after(s: &Simplex, flip: &Flip, next: &Facets, around: &[Simplex]) -> bool
    requires { around.now ≡ near flip.now 1 next.now }
    ensures { result ≡ is_face next.now s.now }
{
    if shared(s, flip) > 0 {
        is_face(around, s)
    } else {
        next.has_face(s)
    }
}
