use simplex::Memory;
use std::alloc::AllocError;

/// Why a part of a complex is not answered.
#[derive(Clone, Copy, Debug, PartialEq, Eq)]
pub enum PartFault {
    /// The simplex is no face of the complex.
    NotFace,
    /// The complex is not pure.
    NotPure,
    /// Want of memory.
    Memory,
}

impl From<Memory> for PartFault {
    ghost use Rattle.std.specs.Prelude.{◌≡◌};
    ghost use Rattle.local_parts.specs.declared.part_fault.PartFault.TheVariants as fault;

    ghost from_gives = { λ _ e. e ≡ fault.Memory };

    fn from(_: Memory) -> PartFault {
        PartFault::Memory
    }
}

impl From<AllocError> for PartFault {
    ghost use Rattle.std.specs.Prelude.{◌≡◌};
    ghost use Rattle.local_parts.specs.declared.part_fault.PartFault.TheVariants as fault;

    ghost from_gives = { λ _ e. e ≡ fault.Memory };

    fn from(_: AllocError) -> PartFault {
        PartFault::Memory
    }
}
