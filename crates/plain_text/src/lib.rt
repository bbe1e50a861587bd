//! Bytes, names and numbers, and the texts of numbers, simplices and facet lists: what scripts, replies and certificates share.
#![tactic(auto)]

mod bytes;
mod name;
mod number;
mod printing;

pub use bytes::{is_digit, is_letter, is_run_byte, is_white};
pub use name::{NAME_LIMIT, Name};
pub use number::number_of;
pub use printing::{Printed, put_facets, put_list, put_number, put_simplex};
