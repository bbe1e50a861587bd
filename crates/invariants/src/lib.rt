//! What bistellar flips and relabellings keep of a pure complex, by which complexes are told apart, and from spheres.
#![tactic(auto)]

mod difference;
mod face_counts;
mod invariant_fault;
mod invariants;
mod laws;

pub use difference::{Difference, first_difference};
pub use face_counts::is_within_limits;
pub use invariant_fault::InvariantFault;
pub use invariants::{Invariants, invariants_of, sphere_invariants};
pub use laws::{
    boundaries_have_sphere_invariants, difference_tells_apart, reason_is_no_dimension,
    reason_tells_no_sphere, steps_keep_invariants,
};
