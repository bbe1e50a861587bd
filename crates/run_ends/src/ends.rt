ghost use Rattle.std.specs.Prelude.{◌≡◌, Bool, false, Option, List, ℕ, is_ok};
ghost use Rattle.std.specs.Io.{ReadsAtMost};
ghost use Rattle.run_ends.specs.Ends.{ReadsBytes, Taken, WritesBytes, Writes, Stays, HasCause, HasSinkCause};

use std::alloc::AllocError;

/// A read, a write or a finish failed.
#[derive(Clone, Copy, Debug, PartialEq, Eq)]
pub struct Failed;

/// Why a write appended nothing.
#[derive(Clone, Copy, Debug, PartialEq, Eq)]
pub enum SinkFault {
    /// The sink failed, and counted it.
    Failed,
    /// Want of memory, which is no fault of the sink and is not counted.
    Memory,
}

impl From<AllocError> for SinkFault {
    ghost use Rattle.std.specs.Prelude.{◌≡◌};
    ghost use Rattle.run_ends.specs.declared.ends.SinkFault.TheVariants.{Memory};

    ghost from_gives = { λ _ e. e ≡ Memory };

    fn from(_: AllocError) -> SinkFault {
        SinkFault::Memory
    }
}

/// Something that gives bytes, in order and each once.
pub trait Source {
    /// The bytes still to come, where the source tells them. Whether it does never changes.
    ghost left: { Self → Option (List ℕ) };

    /// How many bytes were taken.
    ghost taken: { Self → ℕ };

    /// How often a read failed. The count never falls, and stops at the last value of a u64. A read that does not fail
    /// leaves it as it was.
    ghost faults: { Self → ℕ };

    /// Puts the next bytes at the front of the buffer, and says how many.
    /// None of a nonempty buffer comes only at the end. A read that fails takes nothing.
    fn read(&mut self, buf: &mut [u8]) -> Result<usize, Failed>
        ensures bound { ReadsAtMost result buf.new }
        ensures bytes { ReadsBytes (left self.old) (left self.new) result buf.new }
        ensures taken { Taken (taken self.old) (taken self.new) result }
        ensures cause { HasCause (faults self.old) (faults self.new) result };
}

/// Something that takes bytes, in order, and is finished at the end.
pub trait Sink {
    /// The bytes written, where the sink tells them. Whether it does never changes.
    ghost written: { Self → Option (List ℕ) };

    /// Whether the last call was a `finish` that answered Ok.
    ghost finished: { Self → Bool };

    /// How often a write or a finish failed. The count never falls, and stops at the last value
    /// of a u64. A write or a finish that does not fail leaves it as it was.
    ghost faults: { Self → ℕ };

    /// Appends the first bytes of the piece, at least one of a nonempty piece, and says how many.
    /// A write that fails or wants memory appends nothing.
    fn write(&mut self, bytes: &[u8]) -> Result<usize, SinkFault>
        ensures bound { Writes result bytes.now }
        ensures bytes { WritesBytes (written self.old) (written self.new) result bytes.now }
        ensures finished { finished self.new ≡ false }
        ensures cause { HasSinkCause (faults self.old) (faults self.new) result };

    /// Hands on all that was written. What was written stays, whatever it answers.
    fn finish(&mut self) -> Result<(), Failed>
        ensures bytes { Stays (written self.old) (written self.new) }
        ensures finished { finished self.new ≡ is_ok result }
        ensures cause { HasCause (faults self.old) (faults self.new) result };
}
