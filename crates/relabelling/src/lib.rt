//! Bijections of vertices that carry one complex to another.
#![tactic(auto)]

mod colours;
mod extending;
mod flags;
mod laws;
mod leading;
mod least;
mod ridges;
mod search;

pub use extending::extend_map;
pub use laws::{boundaries_are_carried, first_map_is_least, map_members, one_by_facet};
pub use least::first_map;
