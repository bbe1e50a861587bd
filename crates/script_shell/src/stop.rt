use betti_tables::BettiFault;
use collapse_moves::FreeFault;
use constructions::MakeFault;
use flip_rules::FlipFault;
use local_parts::PartFault;
use script_text::Condition;
use simplex::{Memory, SimplexFault};
use std::alloc::AllocError;
use verdicts::VerdictFault;

/// Why a command stops before its end.
#[derive(Clone, Copy, Debug, PartialEq, Eq)]
pub enum Stop {
    /// A condition refuses it.
    Refused(Condition),
    /// Want of memory.
    Memory,
}

impl From<Memory> for Stop {
    ghost use Rattle.std.specs.Prelude.{◌≡◌};
    ghost use Rattle.script_shell.specs.declared.stop.Stop.TheVariants as stop;

    ghost from_gives = { λ _ s. s ≡ stop.Memory };

    fn from(_: Memory) -> Stop {
        Stop::Memory
    }
}

impl From<AllocError> for Stop {
    ghost use Rattle.std.specs.Prelude.{◌≡◌};
    ghost use Rattle.script_shell.specs.declared.stop.Stop.TheVariants as stop;

    ghost from_gives = { λ _ s. s ≡ stop.Memory };

    fn from(_: AllocError) -> Stop {
        Stop::Memory
    }
}

impl From<SimplexFault> for Stop {
    ghost use Rattle.std.specs.Prelude.{◌≡◌};
    ghost use Rattle.script_shell.specs.Commands.{condition_of};
    ghost use Rattle.script_shell.specs.declared.stop.Stop.TheVariants as stop;

    ghost from_gives = { λ fault s. s ≡ stop.Refused (condition_of fault) };

    fn from(fault: SimplexFault) -> Stop {
        Stop::Refused(match fault {
            SimplexFault::Long { .. } => Condition::DimLimit,
            SimplexFault::Label { .. } => Condition::LabelRange,
            SimplexFault::Twice { .. } => Condition::LabelTwice,
        })
    }
}

impl From<FlipFault> for Stop {
    ghost use Rattle.std.specs.Prelude.{◌≡◌};
    ghost use Rattle.script_shell.specs.Commands.{flip_condition};
    ghost use Rattle.script_shell.specs.declared.stop.Stop.TheVariants as stop;

    ghost from_gives = { λ fault s. s ≡ stop.Refused (flip_condition fault) };

    fn from(fault: FlipFault) -> Stop {
        Stop::Refused(match fault {
            FlipFault::NotPure => Condition::NotPure,
            FlipFault::Size => Condition::FlipSize,
            FlipFault::Overlap => Condition::Overlap,
            FlipFault::Star => Condition::FlipStar,
            FlipFault::Present => Condition::FlipPresent,
        })
    }
}

impl From<PartFault> for Stop {
    ghost use Rattle.std.specs.Prelude.{◌≡◌};
    ghost use Rattle.script_shell.specs.Stops.{part_stop};

    ghost from_gives = { λ fault s. s ≡ part_stop fault };

    fn from(fault: PartFault) -> Stop {
        match fault {
            PartFault::NotFace => Stop::Refused(Condition::NotFace),
            PartFault::NotPure => Stop::Refused(Condition::NotPure),
            PartFault::Memory => Stop::Memory,
        }
    }
}

impl From<FreeFault> for Stop {
    ghost use Rattle.std.specs.Prelude.{◌≡◌};
    ghost use Rattle.script_shell.specs.Commands.{free_condition};
    ghost use Rattle.script_shell.specs.declared.stop.Stop.TheVariants as stop;

    ghost from_gives = { λ fault s. s ≡ stop.Refused (free_condition fault) };

    fn from(fault: FreeFault) -> Stop {
        Stop::Refused(match fault {
            FreeFault::NotFace => Condition::NotFace,
            FreeFault::NotFree => Condition::NotFree,
        })
    }
}

impl From<MakeFault> for Stop {
    ghost use Rattle.std.specs.Prelude.{◌≡◌};
    ghost use Rattle.script_shell.specs.Stops.{make_stop};

    ghost from_gives = { λ fault s. s ≡ make_stop fault };

    fn from(fault: MakeFault) -> Stop {
        match fault {
            MakeFault::Range => Stop::Refused(Condition::Range),
            MakeFault::DimLimit => Stop::Refused(Condition::DimLimit),
            MakeFault::LabelRange => Stop::Refused(Condition::LabelRange),
            MakeFault::NotPure => Stop::Refused(Condition::NotPure),
            MakeFault::DimDiffers => Stop::Refused(Condition::DimDiffers),
            MakeFault::NotFacet => Stop::Refused(Condition::NotFacet),
            MakeFault::NotMap => Stop::Refused(Condition::NotMap),
            MakeFault::Overlap => Stop::Refused(Condition::Overlap),
            MakeFault::Near { .. } => Stop::Refused(Condition::Near),
            MakeFault::Size => Stop::Refused(Condition::SizeLimit),
            MakeFault::Memory => Stop::Memory,
        }
    }
}

impl From<BettiFault> for Stop {
    ghost use Rattle.std.specs.Prelude.{◌≡◌};
    ghost use Rattle.script_shell.specs.Stops.{betti_stop};

    ghost from_gives = { λ fault s. s ≡ betti_stop fault };

    fn from(fault: BettiFault) -> Stop {
        match fault {
            BettiFault::RankLimit { .. } => Stop::Refused(Condition::RankLimit),
            BettiFault::Memory => Stop::Memory,
        }
    }
}

impl From<VerdictFault> for Stop {
    ghost use Rattle.std.specs.Prelude.{◌≡◌};
    ghost use Rattle.script_shell.specs.Stops.{verdict_stop};

    ghost from_gives = { λ fault s. s ≡ verdict_stop fault };

    fn from(fault: VerdictFault) -> Stop {
        match fault {
            VerdictFault::Void => Stop::Refused(Condition::Void),
            VerdictFault::NotPure => Stop::Refused(Condition::NotPure),
            VerdictFault::DimRange => Stop::Refused(Condition::DimRange),
            VerdictFault::DimDiffers => Stop::Refused(Condition::DimDiffers),
            VerdictFault::Budget => Stop::Refused(Condition::Budget),
            VerdictFault::Memory => Stop::Memory,
        }
    }
}
