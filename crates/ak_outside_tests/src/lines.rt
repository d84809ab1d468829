use ak_outside::{LineReader, MemorySource, Next};
use std::alloc::{AllocError, Global};
use std::test::Fail;

// The bytes of a source, how many of them a read gives, which reads fail, and the answers: where one is a line, this line.
type Row<'a> = (&'a [u8], usize, &'a [u64], &'a [(Next, &'a [u8])]);

const NOTHING: &[u8] = b"";

static ROWS: [Row<'static>; 6] = [
    // A line ends with LF or with the input, and one CR before that is no part of it.
    (
        b"one\r\n\ntwo\r\r\nthree\r",
        3,
        &[],
        &[
            (Next::Line(3), b"one"),
            (Next::Line(0), b""),
            (Next::Line(4), b"two\r"),
            (Next::Line(5), b"three"),
            (Next::End, NOTHING),
            (Next::End, NOTHING),
        ],
    ),
    (b"", 1, &[2], &[(Next::End, NOTHING), (Next::End, NOTHING)]),
    (
        b"one\n",
        9,
        &[3],
        &[
            (Next::Line(3), b"one"),
            (Next::End, NOTHING),
            (Next::End, NOTHING),
        ],
    ),
    // After a read that failed a later call reads on, and nothing is lost.
    (
        b"one\ntwo\n",
        6,
        &[2, 3],
        &[
            (Next::Line(3), b"one"),
            (Next::Failed, NOTHING),
            (Next::Failed, NOTHING),
            (Next::Line(3), b"two"),
            (Next::End, NOTHING),
        ],
    ),
    (
        b"one",
        9,
        &[1],
        &[
            (Next::Failed, NOTHING),
            (Next::Line(3), b"one"),
            (Next::End, NOTHING),
        ],
    ),
    (
        b"one",
        9,
        &[2],
        &[
            (Next::Failed, NOTHING),
            (Next::Line(3), b"one"),
            (Next::End, NOTHING),
        ],
    ),
];

// Whether the next answer is this one, with this line where it is one.
fn answers(reader: &mut LineReader, source: &mut MemorySource, wanted: Next, line: &[u8]) -> bool {
    let next = reader.next(source);
    next == wanted && (!matches!(next, Next::Line(_)) || reader.line() == line)
}

fn gives(alloc: Global, row: &Row) -> Result<bool, AllocError> {
    let mut source = MemorySource::new(alloc, row.0, row.1.max(1), row.2)?;
    let mut reader = LineReader::new();
    let mut all = true;
    'answers: for (wanted, line) in row.3 {
        all = all && answers(&mut reader, &mut source, *wanted, line);
    }
    Ok(all)
}

#[test]
fn lines_are_read(rt: HostRuntime) -> Result<(), Fail> {
    'rows: for row in &ROWS {
        assert!(rt; gives(rt.alloc(), row)?);
    }
    Ok(())
}

// So many bytes of a line, then these bytes, and then a line more.
fn long_text(alloc: Global, count: usize, end: &[u8]) -> Result<Vec<u8>, AllocError> {
    let mut text = vec![in alloc; b'#'; count]?;
    text.extend_from_slice(end)?;
    text.extend_from_slice(b"next\n")?;
    Ok(text)
}

// Whether a reader answers so twice for a line of so many bytes with this end, where each read after so many fails.
fn ends_line(
    alloc: Global,
    count: usize,
    end: &[u8],
    reads: u64,
    wanted: (Next, Next),
) -> Result<bool, AllocError> {
    let text = long_text(alloc, count, end)?;
    let mut source = MemorySource::new(alloc, &text, 4097, &[reads.saturating_add(1)])?;
    let mut reader = LineReader::new();
    Ok(reader.next(&mut source) == wanted.0 && reader.next(&mut source) == wanted.1)
}

// How long a line is, how it ends, how many reads may be asked, and what comes of it twice: a line may have 4,096 bytes, and one that
// has more is seen as soon as so many are there, also again.
static LONG: [(usize, &[u8], u64, (Next, Next)); 5] = [
    (4096, b"\n", 3, (Next::Line(4096), Next::Line(4))),
    (4096, b"\r\n", 3, (Next::Line(4096), Next::Line(4))),
    (4097, b"\n", 1, (Next::TooLong, Next::TooLong)),
    (4096, b"\r\r\n", 2, (Next::TooLong, Next::TooLong)),
    (9000, b"\n", 1, (Next::TooLong, Next::TooLong)),
];

#[test]
fn long_lines_are_seen(rt: HostRuntime) -> Result<(), Fail> {
    'rows: for (count, end, reads, wanted) in &LONG {
        assert!(rt; ends_line(rt.alloc(), *count, end, *reads, *wanted)?);
    }
    Ok(())
}
