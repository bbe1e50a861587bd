// Which flip a walk takes.
ghost use Rattle.std.specs.Prelude.{◌≡◌, ◌≤◌, ◌<◌, ◌^◌, [], length, slice_get, None, IfSome, if◌then◌else◌};
ghost use Rattle.simplex.specs.FirstFailing.{first_failing};
ghost use Rattle.facet_set.specs.Numbers.{size};
ghost use Rattle.facet_set.specs.Flips.{options};
ghost use Rattle.flip_rules.specs.Tests.{flip_tests};
ghost use Rattle.annealer.specs.Walk.{is_shrinking, is_mixing, best_options, mixed_options, other_options, chosen, pick};

use flip_table::Session;
use simplex::Flip;

/// The flip that a walk takes for this heat and word, with the heat after it.
#[tactic(auto, using(crate::proofs::PickLaws::pick_hot, crate::proofs::PickLaws::pick_best, crate::proofs::PickLaws::pick_cold))]
pub fn pick(session: &Session, facet_size: usize, heat: u64, word: u32) -> Option<(Flip, u64)>
    requires size { facet_size ≡ size session.now.present }
    requires some { 0 < facet_size }
    requires bound { facet_size ≤ 12 }
    ensures value { result ≡ pick session.now.present heat word }
    ensures passes { IfSome result (λ p. first_failing (flip_tests session.now.present p.0) ≡ None) }
{
    if heat > 0 {
        return Some((pick_other(session, facet_size, word)?, heat - 1));
    }
    match pick_best(session, facet_size, word) {
        Some(flip) => Some((flip, 0)),
        None => Some((
            pick_other(session, facet_size, word)?,
            5 * facet_size as u64 - 1,
        )),
    }
}

// The pick among the options of the greatest class that has some and makes the complex smaller.
#[tactic(auto, using(crate::proofs::PickLaws::best_init, crate::proofs::PickLaws::best_next, crate::proofs::PickLaws::best_found, crate::proofs::PickLaws::best_done))]
fn pick_best(session: &Session, facet_size: usize, word: u32) -> Option<Flip>
    requires size { facet_size ≡ size session.now.present }
    requires bound { facet_size ≤ 12 }
    ensures value { result ≡ chosen (best_options session.now.present) word }
    ensures passes { IfSome result (λ m. first_failing (flip_tests session.now.present m) ≡ None) }
{
    for class in (0..facet_size).rev() {
        if let Some(flip) = pick_shrinking(session, facet_size, class, word) {
            return Some(flip);
        }
    }
    None
}

// The pick among the options of the class, if it makes the complex smaller.
fn pick_shrinking(session: &Session, facet_size: usize, class: usize, word: u32) -> Option<Flip>
    requires bound { class < 12 }
    ensures value { result ≡ chosen (if is_shrinking facet_size class then options session.now.present class else []) word }
    ensures passes { IfSome result (λ m. first_failing (flip_tests session.now.present m) ≡ None) }
{
    if 2 * class < facet_size {
        return None;
    }
    pick_of_class(session, class, word)
}

fn pick_of_class(session: &Session, class: usize, word: u32) -> Option<Flip>
    ensures value { result ≡ chosen (options session.now.present class) word }
    ensures passes { IfSome result (λ m. first_failing (flip_tests session.now.present m) ≡ None) }
{
    let count = session.options_count(class);
    if count == 0 {
        return None;
    }
    session.option_at(class, word as usize % count)
}

// The pick among the options of the other classes, and of class 0 where these have none.
#[tactic(auto, using(crate::proofs::PickLaws::other_none, crate::proofs::PickLaws::other_some))]
fn pick_other(session: &Session, facet_size: usize, word: u32) -> Option<Flip>
    requires size { facet_size ≡ size session.now.present }
    requires bound { facet_size ≤ 12 }
    ensures value { result ≡ chosen (other_options session.now.present) word }
    ensures passes { IfSome result (λ m. first_failing (flip_tests session.now.present m) ≡ None) }
{
    let count = mixed_count(session, facet_size);
    if count == 0 {
        return pick_of_class(session, 0, word);
    }
    mixed_at(session, facet_size, word as u128 % count)
}

// The number of options of the classes i with 1 <= i and 2i <= d. It may be above the last usize.
#[tactic(auto, using(crate::proofs::PickLaws::count_init, crate::proofs::PickLaws::count_next, crate::proofs::PickLaws::count_done))]
fn mixed_count(session: &Session, facet_size: usize) -> u128
    requires size { facet_size ≡ size session.now.present }
    requires bound { facet_size ≤ 12 }
    ensures { result ≡ length (mixed_options session.now.present) }
{
    let mut count = 0;
    for class in 0..facet_size {
        count += count_of_mixing(session, facet_size, class);
    }
    count
}

// The option of these classes at the place.
#[tactic(auto, using(crate::proofs::PickLaws::at_init, crate::proofs::PickLaws::at_found, crate::proofs::PickLaws::at_next, crate::proofs::PickLaws::at_done))]
fn mixed_at(session: &Session, facet_size: usize, place: u128) -> Option<Flip>
    requires size { facet_size ≡ size session.now.present }
    requires bound { facet_size ≤ 12 }
    ensures value { result ≡ slice_get (mixed_options session.now.present) place }
    ensures passes { IfSome result (λ m. first_failing (flip_tests session.now.present m) ≡ None) }
{
    let mut place = place;
    for class in 0..facet_size {
        let count = count_of_mixing(session, facet_size, class);
        if place < count {
            return option_of_mixing(session, facet_size, class, place as usize);
        }
        place -= count;
    }
    None
}

// The number of options of the class, if it is one of these.
fn count_of_mixing(session: &Session, facet_size: usize, class: usize) -> u128
    requires bound { class < 12 }
    ensures value { result ≡ length (if is_mixing facet_size class then options session.now.present class else []) }
    ensures bound { result < 2 ^ 64 }
{
    if is_mixing(facet_size, class) {
        session.options_count(class) as u128
    } else {
        0
    }
}

fn option_of_mixing(session: &Session, facet_size: usize, class: usize, k: usize) -> Option<Flip>
    requires bound { class < 12 }
    ensures value { result ≡ slice_get (if is_mixing facet_size class then options session.now.present class else []) k }
    ensures passes { IfSome result (λ m. first_failing (flip_tests session.now.present m) ≡ None) }
{
    if is_mixing(facet_size, class) {
        session.option_at(class, k)
    } else {
        None
    }
}

fn is_mixing(facet_size: usize, class: usize) -> bool
    requires bound { class < 12 }
    ensures { result ≡ is_mixing facet_size class }
{
    1 <= class && 2 * class < facet_size
}
