//! What a shell holds: names in the order of naming, each with its past complexes, a present one and its future ones.
#![tactic(auto)]

mod entry;
mod limits;
mod names;
mod trail;

pub use limits::JOURNAL_LIMIT;
pub use names::Names;
