//! Whether a certificate is valid: each flip of it is made again on the facets alone.
#![tactic(auto)]

mod allowing;
mod balls;
mod corners;
mod laws;
mod links;
mod maps;
mod moving;
mod replay_fault;
mod replaying;
mod table;

pub use laws::faulty_is_not_valid;
pub use replay_fault::ReplayFault;
pub use replaying::replay;
