//! The f-vector, h-vector, g-vector and Euler characteristic of a simplicial complex, by its numbers of faces.
//! Each call asks for numbers of faces within their limits, which `Counts::is_within_limits` tests; none takes memory.
#![tactic(auto)]

mod choose;
mod counts;
mod laws;
mod row;
mod vectors;

pub use counts::{COUNT_LIMIT, Counts};
pub use laws::{euler_by_h, euler_is_signed_sum, h_sums_to_top};
pub use row::Row;
pub use vectors::{euler, f, g, h};
