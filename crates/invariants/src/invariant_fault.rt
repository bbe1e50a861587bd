use simplex::Memory;

/// Why the invariants of a complex are not answered.
#[derive(Clone, Copy, Debug, PartialEq, Eq)]
pub enum InvariantFault {
    /// The complex is not pure.
    NotPure,
    /// Want of memory.
    Memory,
}

impl From<Memory> for InvariantFault {
    ghost use Rattle.std.specs.Prelude.{◌≡◌};
    ghost use Rattle.invariants.specs.declared.invariant_fault.InvariantFault.TheVariants as fault;

    ghost from_gives = { λ _ e. e ≡ fault.Memory };

    fn from(_: Memory) -> InvariantFault {
        InvariantFault::Memory
    }
}
