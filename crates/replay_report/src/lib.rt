//! The report on all certificates in a text: which are valid, and the first fault of each that is not.
#![tactic(auto)]

mod cutting;
mod judging;
mod laws;
mod report;
mod reporting;

pub use cutting::line_len;
pub use laws::{certificates_are_the_parts, spelled_is_one_part, valid_is_accepted};
pub use report::Report;
pub use reporting::replay_all;
