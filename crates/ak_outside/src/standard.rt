// Standard input and output, at the edge: a source over the runtime's reader and a sink over its writer.
// What is done with their answers is proved over any reader and any writer. What is trusted:
// - that the runtime's reader gives the bytes of standard input that are left, in their order;
// - that the runtime's writer writes to standard output, and that what it has written needs no flush;
// - that both answer an error exactly where the system does, of the kind `Interrupted` for a signal.
ghost use Rattle.std.specs.Prelude.{◌≡◌, ◌≤◌};
ghost use Rattle.ak_outside.specs.Tries.{CountsFailure};
ghost use Rattle.ak_outside.specs.Reads.{FitsBuffer, LeavesRest, GivesFirst, EndsExactly, ReadCause, read_count};

use crate::reader::ReaderSource;
use crate::sink::Sink;
use crate::source::{Read, Source};
use crate::writer::WriterSink;
use std::io;
use std::io::Printer;
use std::marker::{Model, PhantomData};

/// Standard input. Callers see what is left, where the runtime's reader says, and the count of faults.
/// Its reader is asked for no bytes but those that a read gives, so that it has none read ahead.
#[derive(Drop)]
pub struct StdSource<'a, R: Input> {
    source: ReaderSource<R::Reader>,
    runtime: PhantomData<&'a R>,
}

impl<'a, R: Input> Model for StdSource<'a, R> {
    ghost use Rattle.ak_outside.specs.Reads.{StandardInput};

    ghost Value = { StandardInput };

    ghost view = { λ s. record { left = R.Reader.remaining s.source.calls.caller.reader; faults = s.source.calls.fault_count } };
}

impl<'a, R: Input> StdSource<'a, R> {
    /// Standard input as the runtime has it. It has not failed.
    pub fn new(rt: &'a R) -> Self
        ensures { result.faults ≡ 0 }
    {
        StdSource {
            source: ReaderSource::over(rt.reader()),
            runtime: PhantomData,
        }
    }

    /// How many reads have failed, at most 2^64 - 1.
    pub fn faults(&self) -> u64
        ensures { result ≡ self.now.faults }
    {
        self.source.faults()
    }
}

impl<'a, R: Input> Source for StdSource<'a, R> {
    ghost remaining = { λ s. s.left };

    ghost faults = { λ s. s.faults };

    /// One read of at most `MOST_READ` bytes. An interrupted one is tried again; another that fails is counted.
    fn read(&mut self, buffer: &mut [u8]) -> Read
        ensures count { self.old.faults ≤ self.new.faults }
        ensures cause { ReadCause self.old.faults self.new.faults result }
        ensures fits { FitsBuffer result buffer.new }
        ensures rest { LeavesRest result buffer.old buffer.new }
        ensures bytes { GivesFirst self.old.left self.new.left result buffer.new }
        ensures end { EndsExactly self.old.left result buffer.new }
        ensures counted { CountsFailure self.old.faults self.new.faults (read_count result) }
    {
        self.source.read(buffer)
    }
}

/// Standard output: a sink over the runtime's writer, of which no bytes are known. A write has left the
/// process when it returns.
pub type StdSink<'a, R> = WriterSink<Printer<'a, R>>;

impl<'a, R: Print> WriterSink<Printer<'a, R>> {
    /// Standard output as the runtime has it. It has not failed.
    pub fn new(rt: &'a R) -> Self
        ensures { ⟦<WriterSink<Printer<'a, R>> as Sink>⟧.faults result ≡ 0 }
    {
        WriterSink::over(io::writer(rt))
    }
}
