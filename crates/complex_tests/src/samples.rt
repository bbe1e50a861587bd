// Complexes of which several of the examples speak.
use facet_set::Facets;
use simplex::Simplex;
use std::alloc::Global;
use std::test::Fail;

pub const TETRAHEDRON: &[&[u32]] = &[&[1, 2, 3], &[1, 2, 4], &[1, 3, 4], &[2, 3, 4]];

pub const OCTAHEDRON: &[&[u32]] = &[
    &[1, 3, 5],
    &[1, 3, 6],
    &[1, 4, 5],
    &[1, 4, 6],
    &[2, 3, 5],
    &[2, 3, 6],
    &[2, 4, 5],
    &[2, 4, 6],
];

// The torus with seven vertices (Moebius, Csaszar).
pub const TORUS: &[&[u32]] = &[
    &[1, 2, 4],
    &[1, 2, 6],
    &[1, 3, 4],
    &[1, 3, 7],
    &[1, 5, 6],
    &[1, 5, 7],
    &[2, 3, 5],
    &[2, 3, 7],
    &[2, 4, 5],
    &[2, 6, 7],
    &[3, 4, 6],
    &[3, 5, 6],
    &[4, 5, 7],
    &[4, 6, 7],
];

// The complex that the lists generate.
pub fn complex(alloc: Global, lists: &[&[u32]]) -> Result<Facets, Fail> {
    let mut list = Vec::new(alloc);
    for labels in lists {
        list.push(Simplex::of(labels)?)?;
    }
    Ok(Facets::generated(alloc, list.as_slice())?)
}

// Whether these are the simplices with the labels of the lists, in this order.
pub fn are(simplices: &[Simplex], lists: &[&[u32]]) -> bool {
    simplices.len() == lists.len()
        && simplices
            .iter()
            .zip(lists)
            .all(|(s, labels)| s.labels() == *labels)
}

// Whether the complex has just the facets of the lists, in this order.
pub fn has_facets(c: Facets, lists: &[&[u32]]) -> bool {
    are(c.as_slice(), lists)
}
