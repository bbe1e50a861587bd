ghost use Rattle.std.specs.Prelude.{◌≡◌, ◌<◌, ◌+◌, None, IsErr, length};
ghost use Rattle.std.specs.Io.{ReadsAtMost};
ghost use Rattle.run_ends.specs.Counts.{last_count, faults_after};
ghost use Rattle.run_ends.specs.Ends.{ReadsBytes, Taken, HasCause};

use crate::counting::count_up;
use crate::{Failed, Source};
use std::io::Read;
use std::marker::Model;

/// A source over any reader of std, as standard input. It tells nothing of its bytes.
#[derive(Drop)]
pub struct StdSource<R> {
    reader: R,
    taken: u64,
    faults: u64,
}

impl<R> Model for StdSource<R> {
    ghost use Rattle.run_ends.specs.Streams.{StdSourceState};

    ghost Value = { StdSourceState };

    ghost view = { λ s. record { taken = s.taken; faults = s.faults } };
}

impl<R: Read> StdSource<R> {
    /// Starts with nothing taken and no fault.
    pub fn over(reader: R) -> StdSource<R>
        ensures start { result ≡ record { taken = 0; faults = 0 } }
    {
        StdSource {
            reader,
            taken: 0,
            faults: 0,
        }
    }
}

impl<R: Read> Source for StdSource<R> {
    ghost left = { λ _. None };

    ghost taken = { λ s. s.taken };

    ghost faults = { λ s. s.faults };

    /// One read of the reader. Where the buffer's length would carry the count of bytes taken
    /// past the last value of a u64, it fails before it reads.
    fn read(&mut self, buf: &mut [u8]) -> Result<usize, Failed>
        ensures bound { ReadsAtMost result buf.new }
        ensures bytes { ReadsBytes None None result buf.new }
        ensures taken { Taken self.old.taken self.new.taken result }
        ensures cause { HasCause self.old.faults self.new.faults result }

        // Each fault is counted. A read that would pass the last count leaves the buffer as it was.
        ensures faults { self.new.faults ≡ faults_after result self.old.faults }
        ensures too_far { last_count < self.old.taken + length buf.old → IsErr result }
        ensures unread { last_count < self.old.taken + length buf.old → buf.new ≡ buf.old }
    {
        if buf.len() as u64 > u64::MAX - self.taken {
            self.faults = count_up(self.faults);
            return Err(Failed);
        }
        match self.reader.read(buf) {
            Ok(count) => {
                self.taken += count as u64;
                Ok(count)
            }
            Err(_) => {
                self.faults = count_up(self.faults);
                Err(Failed)
            }
        }
    }
}
