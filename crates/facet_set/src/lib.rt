//! Facet lists: simplicial complexes as sets of simplices of which none lies in another.
#![tactic(auto)]

mod change;
mod facets;
mod generated;
mod laws;
mod limits;
mod relabelled;
mod vertices;

pub use change::Change;
pub use facets::{Facets, is_face};
pub use laws::{
    all_faces, class_chains, class_members, family_faces, flips_back, fresh_is_least,
    generated_faces, generated_members, known_by_faces, link_faces, option_flips,
};
pub use limits::WEIGHT_LIMIT;
pub use relabelled::{image, image_of, image_table, images, point, with_images, with_label};
