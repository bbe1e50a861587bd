ghost use Rattle.std.specs.Prelude.{◌≡◌, ◌⊎◌, false, None, Some, IfOk, OnOk, IfErr, IsTrue};
ghost use Rattle.std.specs.List.{list_all};
ghost use Rattle.simplex.specs.FirstFailing.{first_failing};
ghost use Rattle.simplex.specs.Simplex.{is_label};
ghost use Rattle.facet_set.specs.Flips.{same_facets};
ghost use Rattle.flip_certificate.specs.Count.{flip_count};
ghost use Rattle.flip_certificate.specs.Lines.{is_shaped, is_pair};
ghost use Rattle.flip_certificate.specs.Valid.{is_valid, is_pure_from, first_fault, first_difference, block_vertices, vertex_link, block_tests, sphere_tests};
ghost use Rattle.flip_certificate.specs.declared.certificate.Certificate.TheVariants.{Sphere, Equivalent, Manifold};
ghost use Rattle.cert_replay.specs.Faults.{replay_faults};
ghost use Rattle.cert_replay.specs.declared.replay_fault.ReplayFault.TheVariants as fault;

use crate::ReplayFault;
use crate::links::vertex_link;
use crate::maps::{are_equal, is_map};
use crate::moving::{is_pure_from, moved};
use facet_set::{Facets, image};
use flip_certificate::{Block, Blocks, Certificate, flip_count};
use simplex::{Flip, Flips, Memory, Pairs};
use std::alloc::Global;

/// The number of flips of a valid certificate, as `flip_count` gives it, and otherwise its first fault: so none but those that
/// are not valid are refused. The order of the tests is own.
pub fn replay(alloc: Global, c: &Certificate) -> Result<u64, ReplayFault>
    requires { IsTrue (is_shaped c.now) }
    ensures value { IfOk result (λ n. n ≡ flip_count c.now) }
    ensures valid { OnOk result (IsTrue (is_valid c.now)) }
    ensures faults { IfErr result (λ e. (e ≡ fault.Memory) ⊎ (first_fault replay_faults c.now ≡ Some e)) }
    ensures refused { IfErr result (λ e. (e ≡ fault.Memory) ⊎ (is_valid c.now ≡ false)) }
{
    test(alloc, c)?;
    Ok(flip_count(c))
}

fn test(alloc: Global, c: &Certificate) -> Result<(), ReplayFault>
    requires { IsTrue (is_shaped c.now) }
    ensures passed { OnOk result (first_fault replay_faults c.now ≡ None) }
    ensures faults { IfErr result (λ e. (e ≡ fault.Memory) ⊎ (first_fault replay_faults c.now ≡ Some e)) }
{
    match c {
        Certificate::Sphere { start, flips } => test_sphere(alloc, start, flips),
        Certificate::Equivalent {
            start,
            target,
            first,
            map,
            second,
        } => test_equivalent(alloc, start, target, first, map, second),
        Certificate::Manifold { start, blocks } => test_manifold(alloc, start, blocks),
    }
}

fn test_sphere(alloc: Global, start: &Facets, flips: &Flips) -> Result<(), ReplayFault>
    ensures passed { OnOk result (first_fault replay_faults (Sphere start.now flips.now) ≡ None) }
    ensures faults { IfErr result (λ e. (e ≡ fault.Memory) ⊎ (first_fault replay_faults (Sphere start.now flips.now) ≡ Some e)) }
{
    if !is_pure_from(1, start) {
        return Err(ReplayFault::Start);
    }
    test_boundary(alloc, start, flips.as_slice(), 0, 0)
}

fn test_equivalent(
    alloc: Global,
    start: &Facets,
    target: &Facets,
    first: &Flips,
    map: &Pairs,
    second: &Flips,
) -> Result<(), ReplayFault>
    requires { IsTrue (list_all is_pair map.now) }
    ensures passed { OnOk result (first_fault replay_faults (Equivalent start.now target.now first.now map.now second.now) ≡ None) }
    ensures faults { IfErr result (λ e. (e ≡ fault.Memory)
        ⊎ (first_fault replay_faults (Equivalent start.now target.now first.now map.now second.now) ≡ Some e)) }
{
    if !(is_pure_from(1, start) && is_pure_from(1, target)) {
        return Err(ReplayFault::Start);
    }
    let reached = moved(alloc, start, first.as_slice(), 0)?;
    if !is_map(alloc, map.as_slice(), &reached)? {
        return Err(ReplayFault::Map);
    }
    let from = image(alloc, reached.as_slice(), map.as_slice())?;
    let last = moved(alloc, &from, second.as_slice(), first.len() as u64)?;
    if !is_same(&last, target) {
        return Err(ReplayFault::End { vertex: 0 });
    }
    Ok(())
}

fn test_manifold(alloc: Global, start: &Facets, blocks: &Blocks) -> Result<(), ReplayFault>
    requires { IsTrue (list_all (λ b. is_label b.vertex) blocks.now) }
    ensures passed { OnOk result (first_fault replay_faults (Manifold start.now blocks.now) ≡ None) }
    ensures faults { IfErr result (λ e. (e ≡ fault.Memory) ⊎ (first_fault replay_faults (Manifold start.now blocks.now) ≡ Some e)) }
{
    if !is_pure_from(2, start) {
        return Err(ReplayFault::Start);
    }
    let vertices = start.vertices()?;
    let listed = block_vertices(alloc, blocks.as_slice())?;
    if !are_equal(&listed, vertices.as_slice()) {
        let at = first_difference(&listed, vertices.as_slice());
        return Err(ReplayFault::Links { at });
    }
    test_blocks(alloc, start, blocks.as_slice())
}

// The vertices of the blocks.
fn block_vertices(alloc: Global, blocks: &[Block]) -> Result<Vec<u32>, Memory>
    ensures { IfOk result (λ v. v.items ≡ block_vertices blocks.now) }
{
    Ok(blocks.iter().map(|block| block.vertex).collect(alloc)?)
}

// The first place, from 1, at which the lists differ.
fn first_difference(xs: &[u32], ys: &[u32]) -> u64
    ensures { result ≡ first_difference xs.now ys.now }
{
    let mut at = 0;
    while at < xs.len() && at < ys.len() && xs[at] == ys[at] {
        at += 1;
    }
    at as u64 + 1
}

// Tests block by block, with the number of the flips before.
fn test_blocks(alloc: Global, start: &Facets, blocks: &[Block]) -> Result<(), ReplayFault>
    requires { IsTrue (list_all (λ b. is_label b.vertex) blocks.now) }
    ensures passed { OnOk result (first_failing (block_tests replay_faults 0 start.now blocks.now) ≡ None) }
    ensures faults { IfErr result (λ e. (e ≡ fault.Memory) ⊎ (first_failing (block_tests replay_faults 0 start.now blocks.now) ≡ Some e)) }
{
    let mut before: u64 = 0;
    for block in blocks {
        test_block(alloc, start, block, before)?;
        before = before.saturating_add(block.flips.len() as u64);
    }
    Ok(())
}

fn test_block(alloc: Global, c: &Facets, block: &Block, before: u64) -> Result<(), ReplayFault>
    requires { IsTrue (is_label block.now.vertex) }
    ensures passed { OnOk result (first_failing (sphere_tests replay_faults before block.now.vertex (vertex_link c.now block.now.vertex) block.now.flips) ≡ None) }
    ensures faults { IfErr result (λ e. (e ≡ fault.Memory)
        ⊎ (first_failing (sphere_tests replay_faults before block.now.vertex (vertex_link c.now block.now.vertex) block.now.flips) ≡ Some e)) }
{
    let link = vertex_link(alloc, c, block.vertex)?;
    test_boundary(alloc, &link, block.flips.as_slice(), before, block.vertex)
}

// Whether the flips go, where so many stand before, and lead to the boundary of a simplex.
fn test_boundary(
    alloc: Global,
    start: &Facets,
    flips: &[Flip],
    before: u64,
    vertex: u32,
) -> Result<(), ReplayFault>
    ensures passed { OnOk result (first_failing (sphere_tests replay_faults before vertex start.now flips.now) ≡ None) }
    ensures faults { IfErr result (λ e. (e ≡ fault.Memory) ⊎ (first_failing (sphere_tests replay_faults before vertex start.now flips.now) ≡ Some e)) }
{
    let last = moved(alloc, start, flips, before)?;
    if !last.is_simplex_boundary() {
        return Err(ReplayFault::End { vertex });
    }
    Ok(())
}

fn is_same(c: &Facets, d: &Facets) -> bool
    ensures { result ≡ same_facets c.now d.now }
{
    c.as_slice() == d.as_slice()
}
