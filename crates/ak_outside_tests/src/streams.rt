// Readers and writers whose calls are listed: interrupted, failed, or a move of so many bytes.
use ak_outside::{Read, ReaderSource, Sink, Source, WriterSink, Wrote, write_all};
use std::io;
use std::io::ErrorKind;
use std::test::Fail;

#[derive(Clone, Copy)]
enum Turn {
    Interrupted,
    Failed,
    Moves(usize),
}

use Turn::{Failed, Interrupted, Moves};

fn moved(turns: &mut &[Turn]) -> io::Result<usize> {
    let Some((turn, rest)) = turns.split_first() else {
        return Ok(0);
    };
    *turns = rest;
    match *turn {
        Interrupted => Err(ErrorKind::Interrupted.into()),
        Failed => Err(ErrorKind::Other.into()),
        Moves(most) => Ok(most),
    }
}

// It spoils the whole buffer before it gives anything.
#[derive(Drop)]
struct ListedReader<'a> {
    bytes: &'a [u8],
    turns: &'a [Turn],
}

impl io::Read for ListedReader<'_> {
    fn read(&mut self, buf: &mut [u8]) -> io::Result<usize> {
        buf.fill(b'?');
        let most = moved(&mut self.turns)?;
        let count = most.min(buf.len()).min(self.bytes.len());
        let (given, rest) = self.bytes.split_at(count);
        buf[..count].copy_from_slice(given);
        self.bytes = rest;
        Ok(count)
    }
}

#[derive(Drop)]
struct ListedWriter<'a> {
    written: Vec<u8>,
    turns: &'a [Turn],
}

impl io::Write for ListedWriter<'_> {
    fn write(&mut self, buf: &[u8]) -> io::Result<usize> {
        let count = moved(&mut self.turns)?.min(buf.len());
        self.written.extend_from_slice(&buf[..count])?;
        Ok(count)
    }

    fn flush(&mut self) -> io::Result<()> {
        Ok(())
    }
}

// Whether a read over two dots answers so, leaves these bytes in their place, and so many reads have failed then.
fn reads_so(
    source: &mut ReaderSource<ListedReader>,
    answer: Read,
    bytes: &[u8; 2],
    faults: u64,
) -> bool {
    let mut buffer = *b"..";
    let answered = source.read(&mut buffer) == answer;
    answered && buffer == *bytes && source.faults() == faults
}

// Interruptions are passed over, other errors are faults, and one byte moves at a time, also after
// the end.
#[test]
fn a_reader_fails_in_turn(rt: HostRuntime) {
    let turns = [
        Interrupted,
        Failed,
        Interrupted,
        Interrupted,
        Moves(1),
        Failed,
        Moves(1),
        Interrupted,
        Moves(9),
        Failed,
    ];
    let mut source = ReaderSource::over(ListedReader {
        bytes: b"abc",
        turns: &turns,
    });
    let reads = [
        (Read::Failed, b"..", 1),
        (Read::Got(1), b"a.", 1),
        (Read::Failed, b"..", 2),
        (Read::Got(1), b"b.", 2),
        (Read::Got(1), b"c.", 2),
        (Read::Failed, b"..", 3),
        (Read::Got(0), b"..", 3),
    ];
    for (answer, bytes, faults) in &reads {
        assert!(rt; reads_so(&mut source, *answer, *bytes, *faults));
    }
}

// Whether a write takes the whole piece, or not, and so many writes have failed then.
fn writes_so(
    sink: &mut WriterSink<&mut ListedWriter>,
    bytes: &[u8],
    whole: bool,
    faults: u64,
) -> bool {
    write_all(sink, bytes) == whole && sink.faults() == faults
}

// Whether two pieces of five are written whole, and then an empty one.
fn fails_in_turn(writer: &mut ListedWriter) -> bool {
    let mut sink = WriterSink::over(writer);
    let writes: [(&[u8], bool, u64); 5] = [
        (b"ab", false, 1),
        (b"cd", true, 1),
        (b"ef", false, 2),
        (b"gh", false, 3),
        (b"ij", true, 3),
    ];
    'writes: for (bytes, whole, faults) in &writes {
        if !writes_so(&mut sink, bytes, *whole, *faults) {
            return false;
        }
    }
    sink.write(b"") == Wrote::Took(0)
}

const TURNS: [Turn; 9] = [
    Interrupted,
    Failed,
    Moves(1),
    Interrupted,
    Moves(1),
    Moves(1),
    Failed,
    Moves(0),
    Moves(9),
];

// A write that takes nothing is a fault too.
#[test]
fn a_writer_fails_in_turn(rt: HostRuntime) {
    let mut writer = ListedWriter {
        written: Vec::new(rt.alloc()),
        turns: &TURNS,
    };
    assert!(rt; fails_in_turn(&mut writer));
    assert!(rt; writer.written.as_slice() == b"cdeij".as_slice());
}
