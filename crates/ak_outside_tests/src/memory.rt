use ak_outside::{
    MemorySink, MemorySource, Read, Sink, Source, StdSink, StdSource, SteadySink, SteadySource,
    Wrote, write_all,
};
use std::test::Fail;

// Whether the reads over one buffer answer so in turn.
fn answers<S: Source>(source: &mut S, buffer: &mut [u8], wanted: &[Read]) -> bool {
    'reads: for answer in wanted {
        if source.read(buffer) != *answer {
            return false;
        }
    }
    true
}

fn fails_at_listed_reads(source: &mut MemorySource) -> bool {
    let mut buffer = [0; 5];
    let wanted = [
        Read::Failed,
        Read::Got(4),
        Read::Failed,
        Read::Got(2),
        Read::Got(0),
    ];
    let answered = answers(source, &mut buffer, &wanted);
    answered && buffer == *b"efcd\0" && source.faults() == 2
}

// Whether each piece is written whole, or not, in turn.
fn takes(sink: &mut MemorySink, pieces: &[(&[u8], bool)]) -> bool {
    'writes: for (piece, whole) in pieces {
        if write_all(sink, piece) != *whole {
            return false;
        }
    }
    true
}

fn fails_at_listed_writes(sink: &mut MemorySink) -> bool {
    let pieces: [(&[u8], bool); 4] = [(b"ab", true), (b"cd", false), (b"ef", true), (b"gh", false)];
    let taken = takes(sink, &pieces) && sink.bytes() == b"abef".as_slice();
    taken && sink.faults() == 2 && sink.starved() == 0
}

fn gives_all(source: &mut SteadySource) -> bool {
    let wanted = [Read::Got(2), Read::Got(1), Read::Got(0)];
    answers(source, &mut [0; 2], &wanted)
}

// Each answer is a call's: the failing ones by their numbers, from 1.
#[test]
fn listed_calls_fail(rt: HostRuntime) -> Result<(), Fail> {
    let mut source = MemorySource::new(rt.alloc(), b"abcdef", 4, &[1, 3])?;
    assert!(rt; fails_at_listed_reads(&mut source));
    let mut sink = MemorySink::new(rt.alloc(), &[2, 4])?;
    assert!(rt; fails_at_listed_writes(&mut sink));
    let mut steady = SteadySource::new(rt.alloc(), b"xyz")?;
    assert!(rt; gives_all(&mut steady));
    assert!(rt; write_all(&mut SteadySink::new(), b"gone"));
    Ok(())
}

// What stands in standard input is not known here: it may be empty.
#[test]
fn standard_input_is_read(rt: HostRuntime) {
    let mut input = StdSource::new(&rt);
    let mut buffer = [0; 4];
    assert_eq!(rt; input.read(&mut []), Read::Got(0));
    assert_ne!(rt; input.read(&mut buffer), Read::Failed);
    assert_eq!(rt; input.faults(), 0);
}

#[test]
fn standard_output_is_written(rt: HostRuntime) {
    let mut output = StdSink::new(&rt);
    assert_eq!(rt; output.write(b""), Wrote::Took(0));
    assert!(rt; write_all(&mut output, b"one line\n"));
    assert_eq!(rt; output.faults(), 0);
}
