// A sink over any writer.
ghost use Rattle.std.specs.Prelude.{◌≡◌, ◌≤◌, ◌<◌};
ghost use Rattle.ak_outside.specs.Tries.{Settles, CountsFailure};
ghost use Rattle.ak_outside.specs.Writes.{FitsPiece, TakesFirst, WriteCause, writer_gives, write_count};

use crate::sink::{Sink, Wrote};
use crate::tries::{Attempt, Counted};
use std::io;
use std::io::ErrorKind;

/// A sink that gives its bytes to a writer, and flushes nothing. An interrupted write is tried again;
/// another error is a fault, and so is a write that takes nothing of a piece that has bytes.
#[derive(Drop)]
pub struct WriterSink<T> {
    calls: Counted<T>,
}

impl<'b, T: io::Write> Attempt<&'b [u8]> for T {
    ghost gives = { λ piece. writer_gives T.contents piece.now };

    fn attempt(&mut self, piece: &'b [u8]) -> io::Result<usize> {
        if piece.is_empty() {
            return Ok(0);
        }
        match self.write(piece)? {
            0 => Err(ErrorKind::WriteZero.into()),
            count => Ok(count),
        }
    }
}

impl<T: io::Write> WriterSink<T> {
    /// A sink over the writer. It has not failed.
    pub fn over(writer: T) -> Self
        ensures bytes { ⟦<WriterSink<T> as Sink>⟧.written result ≡ T.contents writer }
        ensures faults { ⟦<WriterSink<T> as Sink>⟧.faults result ≡ 0 }
    {
        WriterSink {
            calls: Counted::new(writer),
        }
    }

    /// How many writes have failed, at most 2^64 - 1.
    pub fn faults(&self) -> u64
        ensures { result ≡ ⟦<WriterSink<T> as Sink>⟧.faults self.now }
    {
        self.calls.fault_count
    }
}

impl<T: io::Write> Sink for WriterSink<T> {
    ghost written = { λ s. T.contents s.calls.caller };

    ghost faults = { λ s. s.calls.fault_count };

    /// One write. An interrupted one is tried again; one that fails, or takes nothing of a piece that
    /// has bytes, is counted. A piece that has none is not given to the writer.
    fn write(&mut self, bytes: &[u8]) -> Wrote
        ensures count { self.old.calls.fault_count ≤ self.new.calls.fault_count }
        ensures cause { WriteCause self.old.calls.fault_count self.new.calls.fault_count result }
        ensures fits { FitsPiece result bytes.now }
        ensures bytes { TakesFirst (T.contents self.old.calls.caller) (T.contents self.new.calls.caller) result bytes.now }
        ensures settled { Settles (writer_gives T.contents bytes.now) self.old.calls.caller (write_count result) self.new.calls.caller }
        ensures counted { CountsFailure self.old.calls.fault_count self.new.calls.fault_count (write_count result) }
    {
        match self.calls.call(bytes) {
            Some(count) => Wrote::Took(count),
            None => Wrote::Failed,
        }
    }
}
