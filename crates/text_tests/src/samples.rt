// Complexes and flips of which several of the examples speak.
use facet_set::Facets;
use simplex::{Flip, Simplex};
use std::alloc::Global;
use std::test::Fail;

pub const TRIANGLE: &[&[u32]] = &[&[1, 2], &[1, 3], &[2, 3]];

pub const SQUARE: &[&[u32]] = &[&[1, 2], &[1, 4], &[2, 3], &[3, 4]];

// The complex that the lists generate.
pub fn complex(alloc: Global, lists: &[&[u32]]) -> Result<Facets, Fail> {
    let mut list = Vec::new(alloc);
    for labels in lists {
        list.push(Simplex::of(labels)?)?;
    }
    Ok(Facets::generated(alloc, list.as_slice())?)
}

pub fn flip(a: &[u32], b: &[u32]) -> Result<Flip, Fail> {
    let a = Simplex::of(a)?;
    let b = Simplex::of(b)?;
    Ok(Flip { a, b })
}
