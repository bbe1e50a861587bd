ghost use Rattle.std.specs.Prelude.{◌≡◌};
ghost use Rattle.script_shell.specs.Exits.{exit_code};

use crate::stream::ReadEnd;
use run_ends::SinkFault;
use std::alloc::AllocError;

/// How a run ended. The ends and their statuses are own.
#[derive(Clone, Copy, Debug, PartialEq, Eq)]
pub enum Exit {
    /// The output was written, and nothing in it is a refusal.
    Done,
    /// The output was written, and something in it is a refusal.
    Refused,
    /// The words are of no form, and the usage line was written.
    Usage,
    /// Want of memory.
    Memory,
    /// The source failed.
    ReadFault,
    /// The sink failed.
    WriteFault,
    /// The input is longer than 16,777,216 bytes.
    TooLong,
}

impl Exit {
    /// The status of the program.
    pub fn code(self) -> u8
        ensures { result ≡ exit_code self }
    {
        match self {
            Exit::Done => 0,
            Exit::Refused => 1,
            Exit::Usage => 2,
            Exit::Memory => 3,
            Exit::ReadFault => 4,
            Exit::WriteFault => 5,
            Exit::TooLong => 6,
        }
    }
}

impl From<AllocError> for Exit {
    ghost use Rattle.std.specs.Prelude.{◌≡◌};
    ghost use Rattle.script_shell.specs.declared.exit.Exit.TheVariants.{Memory};

    ghost from_gives = { λ _ e. e ≡ Memory };

    fn from(_: AllocError) -> Exit {
        Exit::Memory
    }
}

impl From<ReadEnd> for Exit {
    ghost use Rattle.std.specs.Prelude.{◌≡◌};
    ghost use Rattle.script_shell.specs.Answering.{read_exit};

    ghost from_gives = { λ end e. e ≡ read_exit end };

    fn from(end: ReadEnd) -> Exit {
        match end {
            ReadEnd::Failed => Exit::ReadFault,
            ReadEnd::TooLong => Exit::TooLong,
            ReadEnd::Memory => Exit::Memory,
        }
    }
}

impl From<SinkFault> for Exit {
    ghost use Rattle.std.specs.Prelude.{◌≡◌};
    ghost use Rattle.script_shell.specs.Answering.{sink_exit};

    ghost from_gives = { λ fault e. e ≡ sink_exit fault };

    fn from(fault: SinkFault) -> Exit {
        match fault {
            SinkFault::Failed => Exit::WriteFault,
            SinkFault::Memory => Exit::Memory,
        }
    }
}
