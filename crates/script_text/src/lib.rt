//! The script grammar: what is blank, the tokens and the form of each command, and the command that bytes are.
#![tactic(auto)]

mod command;
mod form;
mod forms;
mod laws;
mod parts;
mod reading;
mod token;

pub use command::{Command, CommandFault, Edit, Maker, Question};
pub use conditions::Condition;
pub use laws::{reads_the_spelled, spelled_apart};
pub use plain_text::{
    NAME_LIMIT, Name, Printed, number_of, put_facets, put_list, put_number, put_simplex,
};
pub use reading::{is_blank, is_in_comment, read_command};
