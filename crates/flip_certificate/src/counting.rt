ghost use Rattle.std.specs.Prelude.{◌≡◌};
ghost use Rattle.flip_certificate.specs.Count.{flip_count, stopped, flips_in_blocks};

use crate::{Block, Certificate};

/// The number of flips, or 18,446,744,073,709,551,615 where there are more. It takes no memory.
pub fn flip_count(c: &Certificate) -> u64
    ensures { result ≡ flip_count c.now }
{
    match c {
        Certificate::Sphere { flips, .. } => flips.len() as u64,
        Certificate::Equivalent { first, second, .. } => {
            (first.len() as u64).saturating_add(second.len() as u64)
        }
        Certificate::Manifold { blocks, .. } => block_flips(blocks.as_slice()),
    }
}

fn block_flips(blocks: &[Block]) -> u64
    ensures { result ≡ stopped (flips_in_blocks blocks.now) }
{
    let mut count: u64 = 0;
    for block in blocks {
        count = count.saturating_add(block.flips.len() as u64);
    }
    count
}
