// The classes of vertices.
ghost use Rattle.std.specs.Prelude.{◌≡◌, ◌++◌, map, IfOk, OnOk, IsTrue};
ghost use Rattle.std.specs.Ordering.{nat_cmp};
ghost use Rattle.simplex.specs.InOrder.{is_increasing};
ghost use Rattle.facet_set.specs.Connection.{components};
ghost use Rattle.local_parts.specs.Pairs.{place, pairs_of, vertex_pairs};

use crate::forest::class_count;
use facet_set::Facets;
use simplex::{Memory, Simplex};
use std::alloc::Global;

/// The number of classes of vertices under chains of edges.
pub fn components(alloc: Global, c: &Facets) -> Result<usize, Memory>
    ensures { IfOk result (λ n. n ≡ components c.now) }
{
    let vertices = c.vertices()?;
    let pairs = vertex_pairs(alloc, c.as_slice(), vertices.as_slice())?;
    class_count(alloc, vertices.len(), &pairs)
}

// Pairs of places of vertices, by which the vertices of each facet hang together.
fn vertex_pairs(
    alloc: Global,
    facets: &[Simplex],
    vertices: &[u32],
) -> Result<Vec<(usize, usize)>, Memory>
    requires { IsTrue (is_increasing nat_cmp vertices.now) }
    ensures { IfOk result (λ v. v.items ≡ vertex_pairs vertices.now facets.now) }
{
    let mut pairs = Vec::new(alloc);
    for facet in facets {
        add_pairs(&mut pairs, facet.labels(), vertices)?;
    }
    Ok(pairs)
}

fn add_pairs(
    pairs: &mut Vec<(usize, usize)>,
    labels: &[u32],
    vertices: &[u32],
) -> Result<(), Memory>
    requires { IsTrue (is_increasing nat_cmp vertices.now) }
    ensures { OnOk result (pairs.new.items ≡ pairs.old.items ++ pairs_of vertices.now labels.now) }
{
    if labels.is_empty() {
        return Ok(());
    }
    add_pairs_with(pairs, place(vertices, labels[0]), labels, vertices)
}

fn add_pairs_with(
    pairs: &mut Vec<(usize, usize)>,
    first: usize,
    labels: &[u32],
    vertices: &[u32],
) -> Result<(), Memory>
    requires { IsTrue (is_increasing nat_cmp vertices.now) }
    ensures { OnOk result (pairs.new.items
        ≡ pairs.old.items ++ map (λ a. (first, place vertices.now a)) labels.now) }
{
    for label in labels {
        pairs.push((first, place(vertices, *label)))?;
    }
    Ok(())
}

// The place of the label among the vertices, or their number where it is none of them.
fn place(vertices: &[u32], label: u32) -> usize
    requires { IsTrue (is_increasing nat_cmp vertices.now) }
    ensures { result ≡ place vertices.now label }
{
    vertices.binary_search(&label).unwrap_or(vertices.len())
}
