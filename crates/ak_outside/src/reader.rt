// A source over any reader.
ghost use Rattle.std.specs.Prelude.{◌≡◌, ◌≤◌, length, take};
ghost use Rattle.ak_outside.specs.declared.reader.TheConstants.{MOST_READ};
ghost use Rattle.ak_outside.specs.Tries.{Settles, CountsFailure};
ghost use Rattle.ak_outside.specs.Reads.{FitsBuffer, LeavesRest, GivesFirst, EndsExactly, ReadCause, ReadsInto, reader_gives, read_count};

use crate::source::{Read, Source};
use crate::tries::{Attempt, Counted};
use std::io;

/// The most bytes that one read of a `ReaderSource` gives, also into a larger buffer. So a buffer of this size is as good as any.
pub const MOST_READ: usize = 8192;

/// A source of the bytes that a reader gives. An interrupted read is tried again; another error is a fault.
#[derive(Drop)]
pub struct ReaderSource<T> {
    calls: Counted<Scratch<T>>,
}

// A reader may write past the bytes that it gives, so it reads into a buffer of its own.
#[derive(Drop)]
struct Scratch<T> {
    reader: T,
    buffer: [u8; MOST_READ],
    ghost has_room: { length buffer ≡ MOST_READ },
}

impl<T: io::Read> Attempt<usize> for Scratch<T> {
    ghost gives = { λ room. reader_gives (λ s. T.remaining s.reader) (λ s. s.buffer) room };

    fn attempt(&mut self, room: usize) -> io::Result<usize> {
        read_into(&mut self.reader, &mut self.buffer, room)
    }
}

// One read of at most `room` bytes to the start of the buffer.
fn read_into<T: io::Read>(reader: &mut T, buffer: &mut [u8], room: usize) -> io::Result<usize>
    ensures { ReadsInto (T.remaining reader.old) (T.remaining reader.new) result (take room buffer.new) }
{
    let room = room.min(buffer.len());
    reader.read(&mut buffer[..room])
}

impl<T: io::Read> ReaderSource<T> {
    /// A source over the reader. It has not failed.
    pub fn over(reader: T) -> Self
        ensures left { ⟦<ReaderSource<T> as Source>⟧.remaining result ≡ T.remaining reader }
        ensures faults { ⟦<ReaderSource<T> as Source>⟧.faults result ≡ 0 }
    {
        ReaderSource {
            calls: Counted::new(Scratch {
                reader,
                buffer: [0; MOST_READ],
            }),
        }
    }

    /// How many reads have failed, at most 2^64 - 1.
    pub fn faults(&self) -> u64
        ensures { result ≡ ⟦<ReaderSource<T> as Source>⟧.faults self.now }
    {
        self.calls.fault_count
    }
}

impl<T: io::Read> Source for ReaderSource<T> {
    ghost remaining = { λ s. T.remaining s.calls.caller.reader };

    ghost faults = { λ s. s.calls.fault_count };

    /// One read of at most `MOST_READ` bytes. An interrupted one is tried again; another that fails is counted.
    fn read(&mut self, buffer: &mut [u8]) -> Read
        ensures count { self.old.calls.fault_count ≤ self.new.calls.fault_count }
        ensures cause { ReadCause self.old.calls.fault_count self.new.calls.fault_count result }
        ensures fits { FitsBuffer result buffer.new }
        ensures rest { LeavesRest result buffer.old buffer.new }
        ensures bytes { GivesFirst (T.remaining self.old.calls.caller.reader) (T.remaining self.new.calls.caller.reader) result buffer.new }
        ensures end { EndsExactly (T.remaining self.old.calls.caller.reader) result buffer.new }
        ensures settled { Settles (reader_gives (λ s. T.remaining s.reader) (λ s. s.buffer) (length buffer.old)) self.old.calls.caller (read_count result) self.new.calls.caller }
        ensures counted { CountsFailure self.old.calls.fault_count self.new.calls.fault_count (read_count result) }
    {
        match self.calls.call(buffer.len()) {
            Some(count) => {
                let given = &self.calls.caller.buffer[..];
                buffer[..count].copy_from_slice(&given[..count]);
                Read::Got(count)
            }
            None => Read::Failed,
        }
    }
}
