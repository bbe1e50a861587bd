ghost use Rattle.std.specs.Prelude.{◌≡◌, ◌⊎◌, ◌≤◌, ◌+◌, Some, None, IfOk, OnOk, IfErr, if◌then◌else◌, map, reverse};
ghost use Rattle.simplex.specs.FirstFailing.{first_failing};
ghost use Rattle.simplex.specs.Flip.{inverse};
ghost use Rattle.simplex.specs.Simplex.{label_limit};
ghost use Rattle.facet_set.specs.Flips.{undoing};
ghost use Rattle.verdicts.specs.Ready.{IsReady};
ghost use Rattle.verdicts.specs.Sound.{YesIsSound, CountedInVain};
ghost use Rattle.verdicts.specs.Tests.{equivalent_tests};
ghost use Rattle.verdicts.specs.Verdicts.{equivalent_of};
ghost use Rattle.verdicts.specs.declared.verdict_fault.VerdictFault.TheVariants as fault;

use crate::ready::{are_facets, budget_fault, is_void};
use crate::walks::walk_from;
use crate::{Verdict, VerdictFault};
use facet_set::Facets;
use flip_certificate::Certificate;
use relabelling::first_map;
use simplex::{Flip, Flips, Memory};
use std::alloc::{AllocError, Global};

/// Whether a bijection of vertices carries the goal of the walk from c to that of the walk from d with the same seed (own). A yes
/// needs no walk that met. `DimRange` below dimension 0, `Budget` where `annealer::is_in_budget` says no of one of them.
#[tactic(auto, using(crate::proofs::ReadyLaws::first_ready, crate::proofs::ReadyLaws::second_ready))]
pub fn equivalent(
    alloc: Global,
    c: &Facets,
    d: &Facets,
    budget: u64,
    seed: u64,
) -> Result<Verdict, VerdictFault>
    ensures value { IfOk result (λ v. v ≡ equivalent_of c.now d.now budget seed) }
    ensures passed { OnOk result (first_failing (equivalent_tests c.now d.now budget) ≡ None) }
    ensures faults { IfErr result (λ e. (e ≡ fault.Memory) ⊎ (first_failing (equivalent_tests c.now d.now budget) ≡ Some e)) }
    ensures sound { IfOk result (λ v. YesIsSound v) }
    ensures vain { IfOk result (λ v. CountedInVain c.now d.now budget seed v) }
{
    if let Some(fault) = equivalent_fault(c, d, budget)? {
        return Err(fault);
    }
    are_facets(c);
    are_facets(d);
    Ok(decide(alloc, c, d, budget, seed)?)
}

// The first test that fails.
fn equivalent_fault(c: &Facets, d: &Facets, budget: u64) -> Result<Option<VerdictFault>, Memory>
    ensures { IfOk result (λ o. o ≡ first_failing (equivalent_tests c.now d.now budget)) }
{
    if is_void(c) || is_void(d) {
        return Ok(Some(VerdictFault::Void));
    }
    if !c.is_pure() || !d.is_pure() {
        return Ok(Some(VerdictFault::NotPure));
    }
    if c.size() < 1 || d.size() < 1 {
        return Ok(Some(VerdictFault::DimRange));
    }
    if c.size() != d.size() {
        return Ok(Some(VerdictFault::DimDiffers));
    }
    match budget_fault(c, budget)? {
        Some(fault) => Ok(Some(fault)),
        None => budget_fault(d, budget),
    }
}

// The verdict, where no test fails.
fn decide(alloc: Global, c: &Facets, d: &Facets, budget: u64, seed: u64) -> Result<Verdict, Memory>
    requires first { IsReady 1 c.now budget }
    requires second { IsReady 1 d.now budget }
    ensures { IfOk result (λ v. v ≡ equivalent_of c.now d.now budget seed) }
{
    let first = walk_from(alloc, c, budget, seed)?;
    let second = walk_from(alloc, d, budget, seed)?;
    match first_map(alloc, &first.session.facets()?, &second.session.facets()?)? {
        Some(map) => Ok(Verdict::Yes(Certificate::Equivalent {
            start: c.copy()?,
            target: d.copy()?,
            first: first.flips,
            map,
            second: undoing(alloc, second.flips.as_slice())?,
        })),
        None => Ok(Verdict::Undecided {
            spent: spent(first.met, budget) + spent(second.met, budget),
        }),
    }
}

// The flips that a walk spent in vain.
fn spent(met: bool, budget: u64) -> u64
    requires { budget ≤ label_limit }
    ensures value { result ≡ (if met then 0 else budget) }
    ensures bound { result ≤ label_limit }
{
    if met { 0 } else { budget }
}

// The inverses of the flips, the last first.
fn undoing(alloc: Global, flips: &[Flip]) -> Result<Flips, Memory>
    ensures { IfOk result (λ l. l ≡ undoing flips.now) }
{
    let inverses = inverses_back(alloc, flips)?;
    Ok(Flips::from_vec(inverses))
}

fn inverses_back(alloc: Global, flips: &[Flip]) -> Result<Vec<Flip>, AllocError>
    ensures { IfOk result (λ v. v.items ≡ map inverse (reverse flips.now)) }
{
    flips.iter().rev().map(|flip| flip.inverse()).collect(alloc)
}
