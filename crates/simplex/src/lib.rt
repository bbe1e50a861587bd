//! Simplices as label sets, flips, the list types that contracts see as lists, and the counter of steps.
#![tactic(auto)]

mod flip;
mod items;
mod laws;
mod memory;
mod simplex;
mod simplex_fault;
mod steps;

pub use flip::Flip;
pub use items::{Flips, Items, Labels, Lists, Numbers, Pairs, Simplices, Text};
pub use laws::{
    faultless_is_simplex, set_has_the_members, sets_are_their_members,
    simplices_are_distinct_labels, subsets_at, within_is_by_members,
};
pub use memory::Memory;
pub use simplex::{LABEL_LIMIT, LEN_LIMIT, Simplex};
pub use simplex_fault::SimplexFault;
pub use steps::Steps;
