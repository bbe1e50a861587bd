//! The words of a seed: 32-bit numbers, one after another, the same on each run.
#![tactic(auto)]

mod words;

pub use words::Words;
