//! Parts of a complex: links, stars, deletions, skeletons, boundaries; closedness and connection.
#![tactic(auto)]

mod around;
mod facet_classes;
mod forest;
mod part_fault;
mod pieces;
mod ridge_counts;
mod ridges;
mod skeletons;
mod vertex_classes;

pub use around::{deletion, link, star};
pub use facet_classes::is_strong;
pub use part_fault::PartFault;
pub use ridges::{boundary, is_closed};
pub use skeletons::skeleton;
pub use vertex_classes::components;
