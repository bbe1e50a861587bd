//! Verdicts on complexes, each yes with its certificate.
#![tactic(auto)]

mod equivalence;
mod laws;
mod manifolds;
mod ready;
mod spheres;
mod verdict;
mod verdict_fault;
mod walks;

pub use equivalence::equivalent;
pub use laws::{
    equivalent_vain, equivalent_yes, manifold_vain, manifold_yes, sphere_vain, sphere_yes,
};
pub use manifolds::manifold;
pub use spheres::sphere;
pub use verdict::Verdict;
pub use verdict_fault::VerdictFault;
