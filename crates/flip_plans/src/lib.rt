//! What a flip does to the tables of faces: which faces ask for which sets, and which options come and go.
#![tactic(auto)]

mod asked;
mod laws;
mod plan;
mod steps;

pub use laws::{
    askers_come, askers_follow, askers_go, askers_stay, degrees_turn, faces_in_join, links_turn,
    options_by_faces, options_come, options_go, outside_stays, sizes_stay,
};
pub use plan::{Asking, Plan, SetChange};
