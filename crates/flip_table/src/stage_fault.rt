use flip_rules::FlipFault;
use simplex::Memory;
use std::alloc::AllocError;

/// Why a flip is not staged.
#[derive(Clone, Copy, Debug, PartialEq, Eq)]
pub enum StageFault {
    /// The flip is not allowed, for this reason.
    Refused(FlipFault),
    /// Want of memory.
    Memory,
}

impl From<FlipFault> for StageFault {
    ghost use Rattle.std.specs.Prelude.{◌≡◌};
    ghost use Rattle.flip_table.specs.declared.stage_fault.StageFault.TheVariants as fault;

    ghost from_gives = { λ f e. e ≡ fault.Refused f };

    fn from(fault: FlipFault) -> StageFault {
        StageFault::Refused(fault)
    }
}

impl From<Memory> for StageFault {
    ghost use Rattle.std.specs.Prelude.{◌≡◌};
    ghost use Rattle.flip_table.specs.declared.stage_fault.StageFault.TheVariants as fault;

    ghost from_gives = { λ _ e. e ≡ fault.Memory };

    fn from(_: Memory) -> StageFault {
        StageFault::Memory
    }
}

impl From<AllocError> for StageFault {
    ghost use Rattle.std.specs.Prelude.{◌≡◌};
    ghost use Rattle.flip_table.specs.declared.stage_fault.StageFault.TheVariants as fault;

    ghost from_gives = { λ _ e. e ≡ fault.Memory };

    fn from(_: AllocError) -> StageFault {
        StageFault::Memory
    }
}
