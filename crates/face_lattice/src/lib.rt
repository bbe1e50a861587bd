//! The faces of a complex, each with the number of facets that contain it and its link vertices.
#![tactic(auto)]

mod cell;
mod labels;
mod lattice;
mod laws;
mod passes;
mod room;
mod slab;
mod slot;
mod vacant;

pub use lattice::Lattice;
pub use laws::{faces_lie_in_facets, no_facet_no_face};
