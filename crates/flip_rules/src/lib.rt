//! The plain rule of bistellar flips, by scans of a facet list, and all allowed flips of a class, by counting at the faces.
#![tactic(auto)]

mod candidate;
mod checking;
mod flip_fault;
mod flipping;
mod laws;
mod listing;
mod parts;
mod tallies;
mod tally;

pub use candidate::{Candidate, Candidates};
pub use checking::check;
pub use flip_fault::FlipFault;
pub use flipping::apply;
pub use laws::{one_counterpart, open_candidates, star_by_counts, undone_by_inverse};
pub use listing::{candidates, options};
pub use parts::lies_in_join;
