//! Betti numbers modulo 2, and tables that keep the ranks that they are computed from.
#![tactic(auto)]

mod betti;
mod betti_fault;
mod boundary;
mod laws;
mod rank_table;

pub use betti::Betti;
pub use betti_fault::BettiFault;
pub use laws::{limit_is_the_least, ranks_fit, ranks_stay_below};
pub use rank_table::RankTable;
