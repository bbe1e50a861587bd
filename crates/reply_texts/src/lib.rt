//! The texts of replies: one line each, and behind that of a yes its certificate.
#![tactic(auto)]

mod answers;
mod edits;
mod flips;
mod laws;
mod refusal;
mod verdicts;

pub use answers::{faces_reply, facets_reply, number_reply, numbers_reply, row_reply, yes_or_no};
pub use edits::{ok_reply, reduced_reply};
pub use flips::flips_reply;
pub use laws::replies_are_lines;
pub use refusal::refusal_reply;
pub use verdicts::{undecided_at_reply, undecided_reply, yes_reply};
