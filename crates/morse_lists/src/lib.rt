//! Discrete Morse lists: steps that take a complex down to nothing, by elementary collapses and critical facets.
#![tactic(auto)]

mod all_faces;
mod cells;
mod checking;
mod face_queue;
mod face_table;
mod greedy;
mod laws;
mod morse_fault;
mod morse_step;
mod tally;

pub use checking::check_morse;
pub use greedy::greedy_morse;
pub use laws::{
    faultless_is_morse_list, greedy_is_one, morse_euler, morse_inequalities, rank_of_any_order,
};
pub use morse_fault::MorseFault;
pub use morse_step::{MorseStep, MorseSteps};
pub use tally::Tally;
