use facet_set::Facets;
use simplex::Text;

/// What an edit comes to.
#[derive(Debug, Drop)]
pub struct Edited {
    /// The complex after it.
    pub complex: Facets,
    /// The reply.
    pub reply: Text,
}
