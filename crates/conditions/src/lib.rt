//! The conditions that refuse a command, and their names.
#![tactic(auto)]

mod condition;

pub use condition::Condition;
