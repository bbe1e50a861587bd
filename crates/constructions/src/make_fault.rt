use simplex::Memory;
use std::alloc::AllocError;

/// Why a complex is not made. The limits are own.
#[derive(Clone, Copy, Debug, PartialEq, Eq)]
pub enum MakeFault {
    /// A number is out of its range.
    Range,
    /// A facet would have more than 12 labels.
    DimLimit,
    /// A label is out of 1..1,000,000, or would be.
    LabelRange,
    /// A complex is not pure.
    NotPure,
    /// The dimensions differ.
    DimDiffers,
    /// A simplex is no facet.
    NotFacet,
    /// The pairs give not each vertex one label, or give two the same.
    NotMap,
    /// The two facets have a label in common.
    Overlap,
    /// The label is near the one that it would become one with.
    Near { vertex: u32 },
    /// The weight would be above the room.
    Size,
    /// Want of memory.
    Memory,
}

impl From<Memory> for MakeFault {
    ghost use Rattle.std.specs.Prelude.{◌≡◌};
    ghost use Rattle.constructions.specs.declared.make_fault.MakeFault.TheVariants as fault;

    ghost from_gives = { λ _ e. e ≡ fault.Memory };

    fn from(_: Memory) -> MakeFault {
        MakeFault::Memory
    }
}

impl From<AllocError> for MakeFault {
    ghost use Rattle.std.specs.Prelude.{◌≡◌};
    ghost use Rattle.constructions.specs.declared.make_fault.MakeFault.TheVariants as fault;

    ghost from_gives = { λ _ e. e ≡ fault.Memory };

    fn from(_: AllocError) -> MakeFault {
        MakeFault::Memory
    }
}
