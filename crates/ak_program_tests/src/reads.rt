// Reads and writes of a replay that fail, each in turn.
use ak_driver::run_replay;
use ak_outside::{MemorySink, MemorySource, Status};
use std::alloc::{AllocError, Global};
use std::test::Fail;

const SCHEDULE: &[u8] =
    b"listed a:1 b:1\nstrategy static-quorum 2\nmargin 2\ndeadline 9\nstable 9\nshards 10\nbuffer 2\nthreshold 1\nlimit 1\nstart a:1#1\nstart b:1#1\nfound a:1#1\njoin b:1#1 a:1\ndeliver 1\ndeliver 2\ndeliver 3\n";

const ONE: &[u8] = b"1 start a:1#1\n";

const FOUR: &[u8] =
    b"1 start a:1#1\n2 start b:1#1\n3 found a:1#1\n  update 1 joined a:1#1\n  view a:1#1=1 | a:1#1 joining | -\n4 join b:1#1 a:1\n  send 1 join to a:1\n";

const SEVEN: &[u8] =
    b"1 start a:1#1\n2 start b:1#1\n3 found a:1#1\n  update 1 joined a:1#1\n  view a:1#1=1 | a:1#1 joining | -\n4 join b:1#1 a:1\n  send 1 join to a:1\n5 deliver 1\n  at a:1#1 join from b:1#1\n  update 2 joined b:1#1\n  send 2 welcome to b:1#1\n  view a:1#1=2 | a:1#1 joining, b:1#1 joining | -\n6 deliver 2\n  at b:1#1 welcome from a:1#1\n  send 3 gossip to a:1#1\n  view a:1#1=2 | a:1#1 joining, b:1#1 joining | -\n7 deliver 3\n  at a:1#1 gossip from b:1#1\n";

// What stands before the last lines where the read of this number fails, of those that give at most 40 bytes each.
fn before(read: u64) -> &'static [u8] {
    match read {
        1 | 2 | 3 => b"",
        4 => ONE,
        5 => FOUR,
        _ => SEVEN,
    }
}

fn replays(
    alloc: Global,
    reads: &[u64],
    writes: &[u64],
    output: &mut Vec<u8>,
) -> Result<Status, AllocError> {
    let mut input = MemorySource::new(alloc, SCHEDULE, 40, reads)?;
    let mut sink = MemorySink::new(alloc, writes)?;
    let status = run_replay(alloc, &mut input, &mut sink);
    output.extend_from_slice(sink.bytes())?;
    Ok(status)
}

fn read_fails_so(alloc: Global, read: u64) -> Result<bool, AllocError> {
    let mut output = Vec::new(alloc);
    let status = replays(alloc, &[read], &[], &mut output)?;
    let Some(rest) = output.as_slice().strip_prefix(before(read)) else {
        return Ok(false);
    };
    if read > 6 {
        return Ok(status == Status::Done && rest.starts_with(b"steps 7\n"));
    }
    Ok(status == Status::Read && rest == b"error 5 read\n".as_slice())
}

#[test]
fn each_read_fails_in_turn(rt: HostRuntime) -> Result<(), Fail> {
    for read in 1..21 {
        assert!(rt; read_fails_so(rt.alloc(), read)?, "{read}");
    }
    Ok(())
}

fn write_fails_so(alloc: Global, whole: &[u8], write: u64) -> Result<bool, AllocError> {
    let mut output = Vec::new(alloc);
    let status = replays(alloc, &[], &[write], &mut output)?;
    if write > 4 {
        return Ok(status == Status::Done && output.as_slice() == whole);
    }
    Ok(status == Status::Write && output.len() < whole.len() && whole.starts_with(&output))
}

#[test]
fn each_write_fails_in_turn(rt: HostRuntime) -> Result<(), Fail> {
    let mut whole = Vec::new(rt.alloc());
    assert!(rt; replays(rt.alloc(), &[], &[], &mut whole)? == Status::Done);
    for write in 1..9 {
        assert!(rt; write_fails_so(rt.alloc(), &whole, write)?, "{write}");
    }
    Ok(())
}
