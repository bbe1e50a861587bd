// The goal of a walk, where no condition refuses it.
ghost use Rattle.std.specs.Prelude.{◌≡◌, ◌≤◌, ◌<◌, ◌+◌, [], ◌∷◌, ◌++◌, None, length, IfOk, OnOk, IfErr, IsTrue};
ghost use Rattle.simplex.specs.FirstFailing.{first_failing};
ghost use Rattle.simplex.specs.Simplex.{label_limit};
ghost use Rattle.facet_set.specs.Complex.{verts};
ghost use Rattle.facet_set.specs.Numbers.{is_pure, size};
ghost use Rattle.annealer.specs.Walk.{goal, to_goal, walk};
ghost use Rattle.reply_texts.specs.Replies.{reduced_reply};
ghost use Rattle.script_shell.specs.Commands.{editing_tests, pure_tests, reducing, walk_tests};
ghost use Rattle.script_shell.specs.Stops.{StopsAt};

use crate::edited::Edited;
use crate::purity::pure;
use crate::stop::Stop;
use annealer::{is_in_budget, walk};
use facet_set::Facets;
use flip_table::Session;
use reply_texts::reduced_reply;
use script_text::Condition;
use simplex::Memory;
use std::alloc::Global;

/// The goal of the walk of so many flips by the words of the seed.
pub fn reduced(alloc: Global, complex: &Facets, budget: u64, seed: u64) -> Result<Edited, Stop>
    ensures passed { OnOk result (first_failing (editing_tests (reducing complex.now budget seed)) ≡ None) }
    ensures complex { IfOk result (λ next. next.complex ≡ (reducing complex.now budget seed).complex) }
    ensures reply { IfOk result (λ next. next.reply ≡ (reducing complex.now budget seed).reply) }
    ensures refused { IfErr result (λ stop. StopsAt stop (first_failing (editing_tests (reducing complex.now budget seed)))) }
{
    can_walk(complex, budget)?;
    Ok(at_goal(alloc, complex, budget, seed)?)
}

// Whether a walk of so many flips from the complex keeps within its limits.
fn can_walk(complex: &Facets, budget: u64) -> Result<(), Stop>
    ensures passed { OnOk result (first_failing (pure_tests (complex.now ∷ []) ++ walk_tests complex.now budget) ≡ None) }
    ensures pure { OnOk result (IsTrue (is_pure complex.now)) }
    ensures dim { OnOk result (0 < size complex.now) }
    ensures room { OnOk result (length (verts complex.now) + budget ≤ label_limit) }
    ensures refused { IfErr result (λ stop. StopsAt stop (first_failing (pure_tests (complex.now ∷ []) ++ walk_tests complex.now budget))) }
{
    pure(complex)?;
    if complex.size() == 0 {
        return Err(Stop::Refused(Condition::DimRange));
    }
    if !is_in_budget(complex, budget)? {
        return Err(Stop::Refused(Condition::Budget));
    }
    Ok(())
}

// The goal of a walk that keeps within its limits.
fn at_goal(alloc: Global, complex: &Facets, budget: u64, seed: u64) -> Result<Edited, Memory>
    requires pure { IsTrue (is_pure complex.now) }
    requires dim { 0 < size complex.now }
    requires room { length (verts complex.now) + budget ≤ label_limit }
    ensures complex { IfOk result (λ next. next.complex ≡ goal complex.now (walk complex.now seed budget)) }
    ensures reply { IfOk result (λ next. next.reply ≡ reduced_reply (to_goal complex.now (walk complex.now seed budget)) (goal complex.now (walk complex.now seed budget))) }
{
    let session = Session::new(alloc, complex)?;
    let walked = walk(alloc, session, seed, budget)?;
    let goal = walked.session.facets()?;
    let reply = reduced_reply(alloc, walked.flips.as_slice(), &goal)?;
    Ok(Edited {
        complex: goal,
        reply,
    })
}
