use simplex::Memory;

/// Why there is no verdict.
#[derive(Clone, Copy, Debug, PartialEq, Eq)]
pub enum VerdictFault {
    /// A complex is void.
    Void,
    /// A complex is not pure.
    NotPure,
    /// The dimension of a complex is below 0, or below 1 where a manifold is asked for.
    DimRange,
    /// The dimensions of the two complexes differ.
    DimDiffers,
    /// A walk of so many flips may pass the limits.
    Budget,
    /// Want of memory.
    Memory,
}

impl From<Memory> for VerdictFault {
    ghost use Rattle.std.specs.Prelude.{◌≡◌};
    ghost use Rattle.verdicts.specs.declared.verdict_fault.VerdictFault.TheVariants as fault;

    ghost from_gives = { λ _ e. e ≡ fault.Memory };

    fn from(_: Memory) -> VerdictFault {
        VerdictFault::Memory
    }
}
