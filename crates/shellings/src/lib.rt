//! Shellings of pure simplicial complexes: the checker of an order, and the greedy order.
#![tactic(auto)]

mod candidates;
mod checking;
mod greedy;
mod greedy_fault;
mod laws;
mod missing;
mod place_set;
mod placement;
mod restrictions;
mod rows;
mod shell_fault;
mod stars;

pub use checking::check_shelling;
pub use greedy::{Greedy, greedy_shelling};
pub use greedy_fault::GreedyFault;
pub use laws::{counts_are_h_vector, each_face_in_one_interval, greedy_is_stuck};
pub use shell_fault::ShellFault;
