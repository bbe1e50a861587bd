ghost use Rattle.std.specs.Prelude.{◌≡◌, ◌⊎◌, Some, None, IfOk, OnOk, IfErr};
ghost use Rattle.simplex.specs.FirstFailing.{first_failing};
ghost use Rattle.verdicts.specs.Ready.{IsReady};
ghost use Rattle.verdicts.specs.Sound.{YesIsSound, UndecidedInVain};
ghost use Rattle.verdicts.specs.Tests.{sphere_tests};
ghost use Rattle.verdicts.specs.Verdicts.{sphere_of};
ghost use Rattle.verdicts.specs.declared.verdict_fault.VerdictFault.TheVariants as fault;

use crate::ready::{are_facets, budget_fault, ready_fault};
use crate::walks::walk_from;
use crate::{Verdict, VerdictFault};
use facet_set::Facets;
use flip_certificate::Certificate;
use simplex::Memory;
use std::alloc::Global;

/// Whether the walk from the complex meets the boundary of a simplex: yes with its flips, and else undecided (own, after Bjorner and
/// Lutz). `DimRange` below dimension 0, `Budget` where `annealer::is_in_budget` says no.
#[tactic(auto, using(crate::proofs::ReadyLaws::sphere_ready))]
pub fn sphere(alloc: Global, c: &Facets, budget: u64, seed: u64) -> Result<Verdict, VerdictFault>
    ensures value { IfOk result (λ v. v ≡ sphere_of c.now budget seed) }
    ensures passed { OnOk result (first_failing (sphere_tests c.now budget) ≡ None) }
    ensures faults { IfErr result (λ e. (e ≡ fault.Memory) ⊎ (first_failing (sphere_tests c.now budget) ≡ Some e)) }
    ensures sound { IfOk result (λ v. YesIsSound v) }
    ensures vain { IfOk result (λ v. UndecidedInVain c.now budget seed v) }
{
    if let Some(fault) = sphere_fault(c, budget)? {
        return Err(fault);
    }
    are_facets(c);
    Ok(decide(alloc, c, budget, seed)?)
}

// The first test that fails.
fn sphere_fault(c: &Facets, budget: u64) -> Result<Option<VerdictFault>, Memory>
    ensures { IfOk result (λ o. o ≡ first_failing (sphere_tests c.now budget)) }
{
    match ready_fault(c, 1) {
        Some(fault) => Ok(Some(fault)),
        None => budget_fault(c, budget),
    }
}

// The verdict, where no test fails.
fn decide(alloc: Global, c: &Facets, budget: u64, seed: u64) -> Result<Verdict, Memory>
    requires { IsReady 1 c.now budget }
    ensures { IfOk result (λ v. v ≡ sphere_of c.now budget seed) }
{
    let walked = walk_from(alloc, c, budget, seed)?;
    if walked.met {
        Ok(Verdict::Yes(Certificate::Sphere {
            start: c.copy()?,
            flips: walked.flips,
        }))
    } else {
        Ok(Verdict::Undecided { spent: budget })
    }
}
