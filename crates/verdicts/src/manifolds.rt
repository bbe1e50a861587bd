ghost use Rattle.std.specs.Prelude.{◌≡◌, ◌⊎◌, Some, None, [], ◌∷◌, IfOk, OnOk, IfErr, IsTrue};
ghost use Rattle.simplex.specs.FirstFailing.{first_failing};
ghost use Rattle.simplex.specs.Members.{In};
ghost use Rattle.simplex.specs.Simplex.{is_label};
ghost use Rattle.facet_set.specs.Complex.{verts, is_face};
ghost use Rattle.flip_certificate.specs.Valid.{vertex_link};
ghost use Rattle.verdicts.specs.Ready.{IsReady};
ghost use Rattle.verdicts.specs.Sound.{YesIsSound, UndecidedInVain};
ghost use Rattle.verdicts.specs.Tests.{manifold_tests};
ghost use Rattle.verdicts.specs.Verdicts.{manifold_of, found, meets};
ghost use Rattle.verdicts.specs.declared.verdict_fault.VerdictFault.TheVariants as fault;

use crate::ready::{are_facets, budget_fault, ready_fault};
use crate::walks::walk_from;
use crate::{Verdict, VerdictFault};
use annealer::Walked;
use facet_set::Facets;
use flip_certificate::{Block, Blocks, Certificate};
use local_parts::{PartFault, link};
use simplex::{Memory, Simplex};
use std::alloc::Global;

// The most flips of all walks on the links of a complex together. The limit is own.
const LINKS_LIMIT: u128 = 4_194_304;

/// Whether the walk on the link of each vertex, each with the same seed, meets the boundary of a simplex (own, after Bjorner and
/// Lutz). `DimRange` below dimension 1, `Budget` where `annealer::is_in_budget` says no, or vertices times budget is above 4,194,304.
#[tactic(auto, using(crate::proofs::ReadyLaws::manifold_ready))]
pub fn manifold(alloc: Global, c: &Facets, budget: u64, seed: u64) -> Result<Verdict, VerdictFault>
    ensures value { IfOk result (λ v. v ≡ manifold_of c.now budget seed) }
    ensures passed { OnOk result (first_failing (manifold_tests c.now budget) ≡ None) }
    ensures faults { IfErr result (λ e. (e ≡ fault.Memory) ⊎ (first_failing (manifold_tests c.now budget) ≡ Some e)) }
    ensures sound { IfOk result (λ v. YesIsSound v) }
    ensures vain { IfOk result (λ v. UndecidedInVain c.now budget seed v) }
{
    if let Some(fault) = manifold_fault(c, budget)? {
        return Err(fault);
    }
    are_facets(c);
    Ok(decide(alloc, c, budget, seed)?)
}

// The first test that fails.
fn manifold_fault(c: &Facets, budget: u64) -> Result<Option<VerdictFault>, Memory>
    ensures { IfOk result (λ o. o ≡ first_failing (manifold_tests c.now budget)) }
{
    if let Some(fault) = ready_fault(c, 2) {
        return Ok(Some(fault));
    }
    if let Some(fault) = budget_fault(c, budget)? {
        return Ok(Some(fault));
    }
    let vertices = c.vertices()?.len();
    if vertices as u128 * budget as u128 > LINKS_LIMIT {
        return Ok(Some(VerdictFault::Budget));
    }
    Ok(None)
}

// The verdict, where no test fails.
#[tactic(auto, using(crate::proofs::ManifoldLaws::unmet_next, crate::proofs::ManifoldLaws::unmet_here, crate::proofs::ManifoldLaws::blocks_more))]
fn decide(alloc: Global, c: &Facets, budget: u64, seed: u64) -> Result<Verdict, Memory>
    requires { IsReady 2 c.now budget }
    ensures { IfOk result (λ v. v ≡ manifold_of c.now budget seed) }
{
    let vertices = c.vertices()?;
    let mut blocks = Blocks::new(alloc);
    for vertex in vertices.as_slice() {
        let walked = walk_on_link(alloc, c, *vertex, budget, seed)?;
        if !walked.met {
            return Ok(Verdict::UndecidedAt {
                vertex: *vertex,
                spent: budget,
            });
        }
        blocks.push(Block {
            vertex: *vertex,
            flips: walked.flips,
        })?;
    }
    Ok(Verdict::Yes(Certificate::Manifold {
        start: c.copy()?,
        blocks,
    }))
}

// The walk from the link of the vertex.
fn walk_on_link(
    alloc: Global,
    c: &Facets,
    vertex: u32,
    budget: u64,
    seed: u64,
) -> Result<Walked, Memory>
    requires ready { IsReady 2 c.now budget }
    requires vertex { In vertex (verts c.now) }
    ensures flips { IfOk result (λ r. r.flips ≡ found (vertex_link c.now vertex) budget seed) }
    ensures met { IfOk result (λ r. r.met ≡ meets (vertex_link c.now vertex) budget seed) }
{
    let link = link_of(alloc, c, vertex)?;
    walk_from(alloc, &link, budget, seed)
}

// The link of the vertex.
fn link_of(alloc: Global, c: &Facets, vertex: u32) -> Result<Facets, Memory>
    requires label { IsTrue (is_label vertex) }
    requires face { IsTrue (is_face c.now (vertex ∷ [])) }
    ensures { IfOk result (λ d. d ≡ vertex_link c.now vertex) }
{
    match link(alloc, c, &point(vertex)) {
        Ok(link) => Ok(link),
        Err(PartFault::Memory) => Err(Memory),
        Err(PartFault::NotFace | PartFault::NotPure) => unreachable!(),
    }
}

fn point(label: u32) -> Simplex
    requires { IsTrue (is_label label) }
    ensures { result ≡ label ∷ [] }
{
    match Simplex::of(&[label]) {
        Ok(point) => point,
        Err(_) => unreachable!(),
    }
}
