// What the verdicts on named complexes come to, where no condition refuses them.
ghost use Rattle.std.specs.Prelude.{◌≡◌, ◌⊎◌, Bool, List, None, Some, IfOk, OnOk, IfErr, IsTrue, is_ok};
ghost use Rattle.simplex.specs.FirstFailing.{first_failing};
ghost use Rattle.shell_names.specs.State.{present};
ghost use Rattle.verdicts.specs.Sound.{CountedInVain, UndecidedInVain, YesIsSound};
ghost use Rattle.verdicts.specs.Verdicts.{equivalent_of, manifold_of, sphere_of};
ghost use Rattle.verdicts.specs.declared.verdict.Verdict.{Verdict};
ghost use Rattle.verdicts.specs.declared.verdict_fault.VerdictFault.{VerdictFault};
ghost use Rattle.verdicts.specs.declared.verdict_fault.VerdictFault.TheVariants as fault;
ghost use Rattle.script_shell.specs.Commands.{equivalent, manifold, sphere, verdict_reply, verdict_tests};
ghost use Rattle.script_shell.specs.Replays.{AreSound, certificate_of};
ghost use Rattle.script_shell.specs.Stops.{StopsAt};

use crate::stop::Stop;
use reply_texts::{undecided_at_reply, undecided_reply, yes_reply};
use script_text::{Condition, Name};
use shell_names::Names;
use simplex::{Memory, Text};
use std::alloc::Global;
use verdicts::{Verdict, VerdictFault};

/// The verdict `sphere X B SEED`: its reply where no condition refuses it.
pub fn sphere(
    alloc: Global,
    names: &Names,
    name: &Name,
    budget: u64,
    seed: u64,
) -> Result<Text, Stop>
    ensures passed { OnOk result (first_failing (sphere names.now name.now budget seed).tests ≡ None) }
    ensures text { IfOk result (λ text. text ≡ (sphere names.now name.now budget seed).reply) }
    ensures refused { IfErr result (λ stop. StopsAt stop (first_failing (sphere names.now name.now budget seed).tests)) }
    ensures sound { OnOk result (AreSound (certificate_of (sphere_of (present names.now name.now) budget seed))) }
    ensures vain { OnOk result (UndecidedInVain (present names.now name.now) budget seed
        (sphere_of (present names.now name.now) budget seed)) }
{
    let Some(complex) = names.present(name) else {
        return Err(Stop::Refused(Condition::NoName));
    };
    decided(alloc, verdicts::sphere(alloc, complex, budget, seed))
}

/// The verdict `equivalent X Y B SEED`: its reply where no condition refuses it.
pub fn equivalent(
    alloc: Global,
    names: &Names,
    left: &Name,
    right: &Name,
    budget: u64,
    seed: u64,
) -> Result<Text, Stop>
    ensures passed { OnOk result (first_failing (equivalent names.now left.now right.now budget seed).tests ≡ None) }
    ensures text { IfOk result (λ text. text ≡ (equivalent names.now left.now right.now budget seed).reply) }
    ensures refused { IfErr result (λ stop. StopsAt stop (first_failing (equivalent names.now left.now right.now budget seed).tests)) }
    ensures sound { OnOk result (AreSound (certificate_of (equivalent_of (present names.now left.now) (present names.now right.now) budget seed))) }
    ensures vain { OnOk result (CountedInVain (present names.now left.now) (present names.now right.now) budget seed
        (equivalent_of (present names.now left.now) (present names.now right.now) budget seed)) }
{
    let Some(start) = names.present(left) else {
        return Err(Stop::Refused(Condition::NoName));
    };
    let Some(target) = names.present(right) else {
        return Err(Stop::Refused(Condition::NoName));
    };
    decided(
        alloc,
        verdicts::equivalent(alloc, start, target, budget, seed),
    )
}

/// The verdict `manifold X B SEED`: its reply where no condition refuses it.
pub fn manifold(
    alloc: Global,
    names: &Names,
    name: &Name,
    budget: u64,
    seed: u64,
) -> Result<Text, Stop>
    ensures passed { OnOk result (first_failing (manifold names.now name.now budget seed).tests ≡ None) }
    ensures text { IfOk result (λ text. text ≡ (manifold names.now name.now budget seed).reply) }
    ensures refused { IfErr result (λ stop. StopsAt stop (first_failing (manifold names.now name.now budget seed).tests)) }
    ensures sound { OnOk result (AreSound (certificate_of (manifold_of (present names.now name.now) budget seed))) }
    ensures vain { OnOk result (UndecidedInVain (present names.now name.now) budget seed
        (manifold_of (present names.now name.now) budget seed)) }
{
    let Some(complex) = names.present(name) else {
        return Err(Stop::Refused(Condition::NoName));
    };
    decided(alloc, verdicts::manifold(alloc, complex, budget, seed))
}

// The reply to a verdict, or the condition that its fault stands for.
fn decided(alloc: Global, verdict: Result<Verdict, VerdictFault>) -> Result<Text, Stop>
    requires { IfOk verdict (λ v. YesIsSound v) }
    ensures passed { (ts : List (Bool × VerdictFault)) → OnOk verdict (first_failing ts ≡ None) → OnOk result (first_failing (verdict_tests ts) ≡ None) }
    ensures text { (v : Verdict) → IfOk verdict (λ w. w ≡ v) → IfOk result (λ text. text ≡ verdict_reply v) }
    ensures refused { (ts : List (Bool × VerdictFault)) → IfErr verdict (λ e. (e ≡ fault.Memory) ⊎ (first_failing ts ≡ Some e)) → IfErr result (λ stop. StopsAt stop (first_failing (verdict_tests ts))) }
    ensures sound { (v : Verdict) → IfOk verdict (λ w. w ≡ v) → OnOk result (YesIsSound v) }
    ensures given { OnOk result (IsTrue (is_ok verdict)) }
{
    let verdict = verdict?;
    Ok(reply(alloc, &verdict)?)
}

// The reply that gives the verdict.
fn reply(alloc: Global, verdict: &Verdict) -> Result<Text, Memory>
    requires { YesIsSound verdict.now }
    ensures { IfOk result (λ text. text ≡ verdict_reply verdict.now) }
{
    match verdict {
        Verdict::Yes(certificate) => yes_reply(alloc, certificate),
        Verdict::Undecided { spent } => undecided_reply(alloc, *spent),
        Verdict::UndecidedAt { vertex, spent } => undecided_at_reply(alloc, *spent, *vertex),
    }
}
