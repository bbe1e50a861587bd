ghost use Rattle.std.specs.Prelude.{◌≡◌, ◌≢◌, None, Err, false, is_ok};
ghost use Rattle.run_ends.specs.Counts.{faults_after, sink_faults_after};
ghost use Rattle.run_ends.specs.Ends.{WritesBytes, Writes, Stays, HasCause, HasSinkCause};

use crate::counting::count_up;
use crate::{Failed, Sink, SinkFault};
use std::io::Write;
use std::marker::Model;

/// A sink over any writer of std, as standard output. It tells nothing of its bytes.
#[derive(Drop)]
pub struct StdSink<W> {
    writer: W,
    finished: bool,
    faults: u64,
}

impl<W> Model for StdSink<W> {
    ghost use Rattle.run_ends.specs.Streams.{StdSinkState};

    ghost Value = { StdSinkState };

    ghost view = { λ s. record { finished = s.finished; faults = s.faults } };
}

impl<W: Write> StdSink<W> {
    /// Starts unfinished and with no fault.
    pub fn over(writer: W) -> StdSink<W>
        ensures start { result ≡ record { finished = false; faults = 0 } }
    {
        StdSink {
            writer,
            finished: false,
            faults: 0,
        }
    }
}

impl<W: Write> Sink for StdSink<W> {
    ghost written = { λ _. None };

    ghost finished = { λ s. s.finished };

    ghost faults = { λ s. s.faults };

    /// One write of the writer. One that takes nothing of a nonempty piece is a fault.
    fn write(&mut self, bytes: &[u8]) -> Result<usize, SinkFault>
        ensures bound { Writes result bytes.now }
        ensures bytes { WritesBytes None None result bytes.now }
        ensures finished { self.new.finished ≡ false }
        ensures cause { HasSinkCause self.old.faults self.new.faults result }

        // Each fault is counted, and it never wants memory.
        ensures faults { self.new.faults ≡ sink_faults_after result self.old.faults }
        ensures no_memory { result ≢ Err SinkFault.Memory }
    {
        self.finished = false;
        match self.writer.write(bytes) {
            Ok(count) if count > 0 || bytes.is_empty() => Ok(count),
            _ => {
                self.faults = count_up(self.faults);
                Err(SinkFault::Failed)
            }
        }
    }

    /// One flush of the writer.
    fn finish(&mut self) -> Result<(), Failed>
        ensures bytes { Stays None None }
        ensures finished { self.new.finished ≡ is_ok result }
        ensures cause { HasCause self.old.faults self.new.faults result }
        ensures faults { self.new.faults ≡ faults_after result self.old.faults }
    {
        self.finished = self.writer.flush().is_ok();
        if self.finished {
            return Ok(());
        }
        self.faults = count_up(self.faults);
        Err(Failed)
    }
}
