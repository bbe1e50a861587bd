//! Matrices over the field of two elements, and their ranks.
#![tactic(auto)]

mod column;
mod laws;
mod matrix;

pub use laws::{
    rank_is_of_any_order, rank_is_that_of_the_places, rank_is_within_the_columns,
    rank_is_within_the_rows, span_has_the_sums,
};
pub use matrix::{BitMatrix, SIDE_LIMIT};
