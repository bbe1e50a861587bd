//! Complexes made from numbers and from other complexes: spheres, joins, sums, handles, relabellings.
#![tactic(auto)]

mod cyclic_spheres;
mod fronts;
mod gluing;
mod joins;
mod laws;
mod make_fault;
mod nearness;
mod relabelling;
mod sets;
mod spheres;
mod stacked_spheres;

pub use cyclic_spheres::cyclic;
pub use gluing::{handle, sum};
pub use joins::{cone, join, suspension};
pub use laws::{join_faces, join_numbers, relabels_back};
pub use make_fault::MakeFault;
pub use relabelling::relabel;
pub use spheres::{bdcross, bdsimplex};
pub use stacked_spheres::{stacked, stacked_goes};
