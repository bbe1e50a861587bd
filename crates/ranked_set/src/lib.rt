//! Sorted sets of simplices with places, kept in blocks, whose changes take no memory where there is room.
#![tactic(auto)]

mod blocks;
mod ranked;

pub use ranked::RankedSet;
