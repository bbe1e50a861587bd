//! Elementary collapses, and facets that go and come.
#![tactic(auto)]

mod checking;
mod free_fault;
mod holder;
mod laws;
mod moves;

pub use checking::check_free;
pub use free_fault::FreeFault;
pub use laws::{add_faces, collapse_faces, drop_faces, partner_is_facet};
pub use moves::{add_facet, collapse, drop_facet};
