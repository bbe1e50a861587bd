use simplex::{Flips, Items};

/// A vertex, and the flips that carry its link to the boundary of a simplex.
#[derive(Debug, Drop)]
pub struct Block {
    pub vertex: u32,
    pub flips: Flips,
}

/// Blocks, one after another.
pub type Blocks = Items<Block>;
