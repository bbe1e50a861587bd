use simplex::Memory;

/// The first fault of a certificate that is not valid.
#[derive(Clone, Copy, Debug, PartialEq, Eq)]
pub enum ReplayFault {
    /// A start or target is not pure, or its dimension is below 0, or below 1 where the certificate is of a manifold.
    Start,
    /// The flip numbered k from 1, through the whole certificate, is not allowed where it stands. The number stops at
    /// 18,446,744,073,709,551,615.
    Flip { k: u64 },
    /// The first members of the map are not the vertices reached, in increasing order, or its second members do not differ.
    Map,
    /// The vertices of the blocks are not those of the complex; `at` is the first place, from 1, at which they differ.
    Links { at: u64 },
    /// The last complex is no simplex boundary, that of the block of this vertex, or of the whole certificate for 0; or it is not
    /// the target.
    End { vertex: u32 },
    /// Want of memory.
    Memory,
}

impl From<Memory> for ReplayFault {
    ghost use Rattle.std.specs.Prelude.{◌≡◌};
    ghost use Rattle.cert_replay.specs.declared.replay_fault.ReplayFault.TheVariants as fault;

    ghost from_gives = { λ _ e. e ≡ fault.Memory };

    fn from(_: Memory) -> ReplayFault {
        ReplayFault::Memory
    }
}
