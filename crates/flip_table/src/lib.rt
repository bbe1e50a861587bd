//! A complex that is changed by one bistellar flip at a time, with the options of each class and the journal of the flips made.
#![tactic(auto)]

mod following;
mod kept;
mod laws;
mod merging;
mod next;
mod session;
mod stage_fault;

pub use laws::candidates_follow;
pub use session::Session;
pub use stage_fault::StageFault;
