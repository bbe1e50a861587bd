//! Certificates: facet lists with the flips that carry them to a known complex, their one text, and when they are valid.
#![tactic(auto)]

mod block;
mod cert_fault;
mod certificate;
mod counting;
mod cutting;
mod draft;
mod guessing;
mod laws;
mod line;
mod line_reading;
mod reading;
mod writing;

pub use block::{Block, Blocks};
pub use cert_fault::CertFault;
pub use certificate::Certificate;
pub use counting::flip_count;
pub use laws::{
    first_difference, first_stuck, form_lines, none_begins_another, one_certificate, one_text,
    reads_the_spelled, valid_has_no_fault,
};
pub use line::Kind;
pub use reading::read;
pub use writing::write;
