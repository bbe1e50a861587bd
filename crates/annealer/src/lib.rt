//! The walk by bistellar flips towards the boundary of a simplex.
#![tactic(auto)]

mod budget;
mod course;
mod laws;
mod picking;
mod walking;

pub use budget::is_in_budget;
pub use laws::always_picks;
pub use walking::{Walked, walk};
