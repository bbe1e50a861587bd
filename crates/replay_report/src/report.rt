use simplex::Text;

/// The report on the certificates in a text.
#[derive(Debug, Drop)]
pub struct Report {
    /// A line for each part of the text, and a last one with both numbers.
    pub text: Text,
    /// The number of parts.
    pub parts: u64,
    /// The number of parts that spell valid certificates.
    pub accepted: u64,
}
