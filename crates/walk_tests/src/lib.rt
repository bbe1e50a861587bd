//! Worked examples of sessions, walks, bijections and verdicts, through the public calls of their crates.
#![tactic(auto)]

#[cfg(test)]
mod annealer_tests;
#[cfg(test)]
mod flip_table_tests;
#[cfg(test)]
mod relabelling_tests;
#[cfg(test)]
mod samples;
#[cfg(test)]
mod verdicts_tests;
