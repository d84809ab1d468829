use ak_address::Text;
use ak_driver::{collect_words, exit, run_with_notes};
use ak_notes::SinkNotes;
use ak_outside::{
    MemoryArguments, MemoryClock, MemoryFolder, MemoryLink, MemorySink, MemorySource, Status,
};
use std::alloc::{AllocError, Global};
use std::process::ExitCode;
use std::test::Fail;
use std::thread::Threads;

const HEADERS: &[u8] =
    b"listed a:1\nstrategy static-quorum 1\nmargin 2\ndeadline 9\nstable 9\nshards 10\nbuffer 2\nthreshold 1\nlimit 1\n";

const SUMMARY: &[u8] = b"steps 0\npackets 0\nhistory 0\nmargin kept\ndoubles none\n";

const REPLAY: [&[u8]; 2] = [b"akka", b"replay"];

// What a run is to come to: its status, the bytes that are written, and how often the input and the output fail.
type Wanted<'a> = (Status, &'a [u8], u64, u64);

// The numbers of the reads and of the writes that fail.
type Failing<'a> = (&'a [u64], &'a [u64]);

// A run with these arguments, over a folder with no file, a link over which nothing comes and a clock that stands.
fn runs<R: Threads + Sync>(
    rt: &R,
    alloc: Global,
    arguments: &[&[u8]],
    input: &mut MemorySource,
    output: &mut MemorySink,
) -> Result<Status, AllocError> {
    let mut clock = MemoryClock::new(alloc, &[])?;
    runs_by_clock(rt, alloc, arguments, input, output, &mut clock)
}

fn runs_by_clock<R: Threads + Sync>(
    rt: &R,
    alloc: Global,
    arguments: &[&[u8]],
    input: &mut MemorySource,
    output: &mut MemorySink,
    clock: &mut MemoryClock,
) -> Result<Status, AllocError> {
    let mut link = MemoryLink::new(alloc, Vec::new(alloc), &[], &[], &[])?;
    runs_over_link(rt, alloc, arguments, input, output, &mut link, clock)
}

fn runs_over_link<R: Threads + Sync>(
    rt: &R,
    alloc: Global,
    arguments: &[&[u8]],
    input: &mut MemorySource,
    output: &mut MemorySink,
    link: &mut MemoryLink,
    clock: &mut MemoryClock,
) -> Result<Status, AllocError> {
    let mut notes = SinkNotes {
        sink: MemorySink::new(alloc, &[1])?,
    };
    runs_with_notes(rt, alloc, arguments, input, output, link, clock, &mut notes)
}

// What people are told makes no difference: here the first note fails, so that each run below comes to what is wanted all the same.
fn runs_with_notes<R: Threads + Sync>(
    rt: &R,
    alloc: Global,
    arguments: &[&[u8]],
    input: &mut MemorySource,
    output: &mut MemorySink,
    link: &mut MemoryLink,
    clock: &mut MemoryClock,
    notes: &mut SinkNotes<MemorySink>,
) -> Result<Status, AllocError> {
    let words = MemoryArguments::new(arguments);
    let mut folder = MemoryFolder::new(alloc, Vec::new(alloc), &[])?;
    Ok(run_with_notes(
        rt,
        alloc,
        &words,
        &mut folder,
        input,
        output,
        link,
        clock,
        notes,
    ))
}

// Whether a run with these arguments comes to what is wanted.
fn ends_so<R: Threads + Sync>(
    rt: &R,
    alloc: Global,
    arguments: &[&[u8]],
    input: &mut MemorySource,
    output: &mut MemorySink,
    wanted: Wanted,
) -> Result<bool, AllocError> {
    let status = runs(rt, alloc, arguments, input, output)?;
    let written = status == wanted.0 && output.bytes() == wanted.1;
    Ok(written && input.faults() == wanted.2 && output.faults() == wanted.3)
}

// The same over an output whose listed writes fail.
fn ends_at_writes<R: Threads + Sync>(
    rt: &R,
    alloc: Global,
    arguments: &[&[u8]],
    input: &mut MemorySource,
    failing: &[u64],
    wanted: Wanted,
) -> Result<bool, AllocError> {
    let mut output = MemorySink::new(alloc, failing)?;
    ends_so(rt, alloc, arguments, input, &mut output, wanted)
}

// The same over an input too whose listed reads fail. A function that owns one of them is proved to let it go at each of its
// ends, so none owns both.
fn comes_to<R: Threads + Sync>(
    rt: &R,
    alloc: Global,
    arguments: &[&[u8]],
    text: &[u8],
    failing: Failing,
    wanted: Wanted,
) -> Result<bool, AllocError> {
    let mut input = MemorySource::new(alloc, text, 7, failing.0)?;
    ends_at_writes(rt, alloc, arguments, &mut input, failing.1, wanted)
}

static OTHERS: [&[&[u8]]; 8] = [
    &[],
    &[b"replay"],
    &[b"akka"],
    &[b"akka", b"watch"],
    &[b"akka", b"replay", b"extra"],
    &[b"akka", b"replay", b""],
    &[b"akka", b"sweep"],
    &[
        b"akka",
        b"sweep",
        b"--first",
        b"0",
        b"--count",
        b"0",
        b"--events",
        b"1",
    ],
];

// Other words answer one line, and read nothing: the first read would fail.
#[test]
fn other_words_are_refused(rt: HostRuntime) -> Result<(), Fail> {
    let wanted: Wanted = (Status::Usage, b"error 2 usage\n", 0, 0);
    for arguments in &OTHERS {
        assert!(rt; comes_to(&rt, rt.alloc(), arguments, b"", (&[1], &[]), wanted)?);
    }
    Ok(())
}

static SWEEP: [&[u8]; 10] = [
    b"akka",
    b"sweep",
    b"--workers",
    b"2",
    b"--first",
    b"0",
    b"--count",
    b"2",
    b"--events",
    b"30",
];

const SWEPT: &[u8] =
    b"seed 0 steps 30 packets 26 history 6 margin kept doubles none\nseed 1 steps 30 packets 30 history 6 margin kept doubles none\nseeds 2 kept 2 doubles 0\n";

// A sweep reads nothing: the first read would fail.
#[test]
fn seeds_are_swept(rt: HostRuntime) -> Result<(), Fail> {
    let done: Wanted = (Status::Done, SWEPT, 0, 0);
    assert!(rt; comes_to(&rt, rt.alloc(), &SWEEP, b"", (&[1], &[]), done)?);
    let failed: Wanted = (Status::Write, b"", 0, 1);
    assert!(rt; comes_to(&rt, rt.alloc(), &SWEEP, b"", (&[1], &[1]), failed)?);
    Ok(())
}

static NODE: [&[u8]; 6] = [b"akka", b"node", b"--config", b"F", b"--ticks", b"0"];

static CONTROL: [&[u8]; 6] = [b"akka", b"ctl", b"--to", b"a:1", b"--say", b"leave a:1#1"];

// A node without its file is refused, and what asks one sends; neither reads.
#[test]
fn nodes_are_run_and_asked(rt: HostRuntime) -> Result<(), Fail> {
    let refused: Wanted = (Status::Configuration, b"error 3 C9\n", 0, 0);
    assert!(rt; comes_to(&rt, rt.alloc(), &NODE, b"", (&[1], &[]), refused)?);
    let sent: Wanted = (Status::Done, b"sent\n", 0, 0);
    assert!(rt; comes_to(&rt, rt.alloc(), &CONTROL, b"", (&[1], &[]), sent)?);
    Ok(())
}

// Whether the words are those that come after the first argument.
fn are_words(words: &[Text], arguments: &[&[u8]]) -> bool {
    'words: for (index, word) in words.iter().enumerate() {
        if Some(word.bytes()) != arguments.get(index.saturating_add(1)).copied() {
            return false;
        }
    }
    words.len().saturating_add(1) == arguments.len()
}

// Whether these arguments and a long one come back whole.
fn collects(alloc: Global, long: &[u8]) -> Result<bool, AllocError> {
    let all: [&[u8]; 4] = [b"akka", b"replay", long, b""];
    Ok(are_words(&collect_words(alloc, &MemoryArguments::new(&all))?, &all))
}

// Each word is whole, also one that is longer than the first buffers.
#[test]
fn words_are_whole(rt: HostRuntime) -> Result<(), Fail> {
    let long = vec![in rt.alloc(); b'x'; 1000]?;
    assert!(rt; collects(rt.alloc(), &long)?);
    Ok(())
}

#[test]
fn statuses_are_exit_statuses(rt: HostRuntime) {
    assert!(rt; exit(Status::Done) == ExitCode::SUCCESS);
    assert!(rt; exit(Status::Read) == ExitCode::from(5));
}

// These lines after the headers.
fn schedule(alloc: Global, events: &[u8]) -> Result<Vec<u8>, AllocError> {
    let mut text = HEADERS.to_vec(alloc)?;
    text.extend_from_slice(events)?;
    Ok(text)
}

// Whether a replay of these lines after the headers comes to what is wanted.
fn replays_to<R: Threads + Sync>(
    rt: &R,
    alloc: Global,
    events: &[u8],
    failing: Failing,
    wanted: Wanted,
) -> Result<bool, AllocError> {
    let text = schedule(alloc, events)?;
    comes_to(rt, alloc, &REPLAY, &text, failing, wanted)
}

const REFUSED: &[u8] = b"1 start a:1#1\nerror 4 S1 line 11\n";

const FAILED_READ: Wanted<'static> = (Status::Read, b"error 5 read\n", 1, 0);

// Lines after the headers, which calls fail, and what a replay comes to.
static ENDS: [(&[u8], Failing<'static>, Wanted<'static>); 4] = [
    (b"", (&[1, 2], &[]), FAILED_READ),
    (b"", (&[], &[1, 2]), (Status::Write, b"", 0, 1)),
    (b"", (&[], &[]), (Status::Done, SUMMARY, 0, 0)),
    (
        b"start a:1#1\ntock a:1#1\n",
        (&[], &[]),
        (Status::Schedule, REFUSED, 0, 0),
    ),
];

// A failed read or write is the last; a schedule's text is printed to its end, or to the refused line.
#[test]
fn replays_end(rt: HostRuntime) -> Result<(), Fail> {
    for (events, failing, wanted) in &ENDS {
        assert!(rt; replays_to(&rt, rt.alloc(), events, *failing, *wanted)?);
    }
    Ok(())
}

const FOUNDING: &[u8] =
    b"1 start a:1#1\n2 found a:1#1\n  update 1 joined a:1#1\n  view a:1#1=1 | a:1#1 joining | -\nsteps 2\npackets 0\nhistory 1\nmargin kept\ndoubles none\n";

// Lines after the headers, and what a replay comes to.
static PRINTED: [(&[u8], Wanted<'static>); 6] = [
    (
        b"start a:1#1\nfound a:1#1\n",
        (Status::Done, FOUNDING, 0, 0),
    ),
    (
        b"start a:1#1\r\nfound a:1#1\r\n",
        (Status::Done, FOUNDING, 0, 0),
    ),
    (
        b"\n# A comment.\nstart a:1#1\n   \n  found   a:1#01\r",
        (Status::Done, FOUNDING, 0, 0),
    ),
    (
        b"start a:1#1\nfound a:1#1\r\r\n",
        (Status::Schedule, REFUSED, 0, 0),
    ),
    (
        b"start a:1#1\n\nstart a:1#1\nfound a:1#1\n",
        (
            Status::Schedule,
            b"1 start a:1#1\nerror 4 S4 line 12\n",
            0,
            0,
        ),
    ),
    (
        b"start b:1#1\n",
        (Status::Schedule, b"error 4 S3 line 10\n", 0, 0),
    ),
];

// Each step is printed once and each line is counted, a CR at a line's end is no part of it, and the whole text is read.
#[test]
fn replays_print_each_line_once(rt: HostRuntime) -> Result<(), Fail> {
    'rows: for (events, wanted) in &PRINTED {
        assert!(rt; replays_to(&rt, rt.alloc(), events, (&[], &[]), *wanted)?);
    }
    Ok(())
}

// More steps than are written at once.
fn many_steps(alloc: Global) -> Result<Vec<u8>, AllocError> {
    let mut text = schedule(alloc, b"start a:1#1\n")?;
    for _ in 0..5000 {
        text.extend_from_slice(b"join a:1#1 a:1\n")?;
    }
    Ok(text)
}

// The replay of the input has this status, and its output fails once where that says so.
fn replay_to<R: Threads + Sync>(
    rt: &R,
    alloc: Global,
    input: &mut MemorySource,
    output: &mut MemorySink,
    status: Status,
) -> Result<(), Fail> {
    let failed = u64::from(status == Status::Write);
    let ended = runs(rt, alloc, &REPLAY, input, output)?;
    if ended == status && output.faults() == failed {
        return Ok(());
    }
    Err("the replay ends otherwise")?
}

fn written_from<R: Threads + Sync>(
    rt: &R,
    alloc: Global,
    input: &mut MemorySource,
    failing: &[u64],
    status: Status,
) -> Result<Vec<u8>, Fail> {
    let mut output = MemorySink::new(alloc, failing)?;
    replay_to(rt, alloc, input, &mut output, status)?;
    Ok(output.bytes().to_vec(alloc)?)
}

// What is written where a replay of this text has this status, and these writes fail.
fn written<R: Threads + Sync>(
    rt: &R,
    alloc: Global,
    text: &[u8],
    failing: &[u64],
    status: Status,
) -> Result<Vec<u8>, Fail> {
    let mut input = MemorySource::new(alloc, text, 7, &[])?;
    written_from(rt, alloc, &mut input, failing, status)
}

// A prefix that is neither empty nor the whole.
fn is_proper_prefix(prefix: &[u8], whole: &[u8]) -> bool {
    !prefix.is_empty() && prefix.len() < whole.len() && whole.starts_with(prefix)
}

// Whether what is written of this text where the second write fails is such a prefix.
fn leaves_a_prefix<R: Threads + Sync>(rt: &R, alloc: Global, text: &[u8]) -> Result<bool, Fail> {
    let whole = written(rt, alloc, text, &[], Status::Done)?;
    let prefix = written(rt, alloc, text, &[2], Status::Write)?;
    Ok(is_proper_prefix(&prefix, &whole))
}

// Where the second write fails, the sink took the first piece, which is a prefix of the text.
#[test]
fn a_failed_write_leaves_a_prefix(rt: HostRuntime) -> Result<(), Fail> {
    let text = many_steps(rt.alloc())?;
    assert!(rt; leaves_a_prefix(&rt, rt.alloc(), &text)?);
    Ok(())
}

// The number of the read that comes after these bytes, of which a read gives seven.
fn read_after(text: &[u8]) -> u64 {
    (text.len().div_ceil(7) as u64).saturating_add(1)
}

// These lines, and then a comment of 4,096 bytes and one byte more.
fn long_line(alloc: Global, before: &[u8], last: u8) -> Result<Vec<u8>, AllocError> {
    let mut text = before.to_vec(alloc)?;
    extend_long(alloc, &mut text)?;
    text.push(last)?;
    Ok(text)
}

fn extend_long(alloc: Global, text: &mut Vec<u8>) -> Result<(), AllocError> {
    let long = vec![in alloc; b'#'; 4096]?;
    text.extend_from_slice(&long)
}

// Whether a replay of these lines and of such a comment comes to what is wanted, where the read after them fails.
fn ends_at_long_line<R: Threads + Sync>(
    rt: &R,
    alloc: Global,
    before: &[u8],
    last: u8,
    wanted: Wanted,
) -> Result<bool, AllocError> {
    let text = long_line(alloc, before, last)?;
    let failing = [read_after(&text)];
    comes_to(rt, alloc, &REPLAY, &text, (&failing, &[]), wanted)
}

const FOUNDED_AND_REFUSED: &[u8] =
    b"1 start a:1#1\n2 found a:1#1\n  update 1 joined a:1#1\n  view a:1#1=1 | a:1#1 joining | -\nerror 4 S1 line 12\n";

const FOUNDED_AND_UNREAD: &[u8] =
    b"1 start a:1#1\n2 found a:1#1\n  update 1 joined a:1#1\n  view a:1#1=1 | a:1#1 joining | -\nerror 5 read\n";

// Lines, the last byte of such a comment after them, and what a replay comes to.
static LONG_LINES: [(&[u8], u8, Wanted<'static>); 4] = [
    (b"", b'\r', FAILED_READ),
    (b"", b'#', (Status::Schedule, b"error 4 S2 line 1\n", 0, 0)),
    (HEADERS, b'\r', FAILED_READ),
    (
        HEADERS,
        b'#',
        (Status::Schedule, b"error 4 S1 line 10\n", 0, 0),
    ),
];

// The same where two steps run before the comment.
fn all_steps_end_at_long_line<R: Threads + Sync>(
    rt: &R,
    alloc: Global,
    running: &[u8],
) -> Result<bool, AllocError> {
    let refused: Wanted = (Status::Schedule, FOUNDED_AND_REFUSED, 0, 0);
    let unread: Wanted = (Status::Read, FOUNDED_AND_UNREAD, 1, 0);
    let failed = ends_at_long_line(rt, alloc, running, b'\r', unread)?;
    Ok(failed && ends_at_long_line(rt, alloc, running, b'#', refused)?)
}

fn two_steps_end_at_long_line<R: Threads + Sync>(
    rt: &R,
    alloc: Global,
) -> Result<bool, AllocError> {
    let running = schedule(alloc, b"start a:1#1\nfound a:1#1\n")?;
    all_steps_end_at_long_line(rt, alloc, &running)
}

// A line of 4,096 bytes may end in CR, so the next read is asked, and fails. A longer one is refused with no other read,
// after the steps before it, even if it is a comment.
#[test]
fn a_long_line_ends_the_reading(rt: HostRuntime) -> Result<(), Fail> {
    'rows: for (before, last, wanted) in &LONG_LINES {
        assert!(rt; ends_at_long_line(&rt, rt.alloc(), before, *last, *wanted)?);
    }
    assert!(rt; two_steps_end_at_long_line(&rt, rt.alloc())?);
    Ok(())
}

// Whether the read of this number and the one after it end a replay of the text at the first of them.
fn ends_at_read<R: Threads + Sync>(
    rt: &R,
    alloc: Global,
    text: &[u8],
    first: u64,
) -> Result<bool, AllocError> {
    let failing = [first, first.saturating_add(1)];
    comes_to(rt, alloc, &REPLAY, text, (&failing, &[]), FAILED_READ)
}

// Whether no read is asked after the end of the text: it would fail.
fn asks_no_more<R: Threads + Sync>(
    rt: &R,
    alloc: Global,
    text: &[u8],
    status: Status,
    printed: &[u8],
) -> Result<bool, AllocError> {
    let failing = [read_after(text).saturating_add(1)];
    comes_to(
        rt,
        alloc,
        &REPLAY,
        text,
        (&failing, &[]),
        (status, printed, 0, 0),
    )
}

// Whether a read that fails in the midst of the headers, or in place of the end, is the last one, and none is asked after the end.
fn reads_to_end<R: Threads + Sync>(rt: &R, alloc: Global) -> Result<bool, AllocError> {
    let middle = ends_at_read(rt, alloc, HEADERS, 2)?;
    let end = ends_at_read(rt, alloc, HEADERS, read_after(HEADERS))?;
    Ok(middle && end && asks_no_more(rt, alloc, HEADERS, Status::Done, SUMMARY)?)
}

// Whether no read is asked after a line that is refused.
fn reads_to_refusal<R: Threads + Sync>(rt: &R, alloc: Global) -> Result<bool, AllocError> {
    let text = schedule(alloc, b"start a:1#1\ntock a:1#1\n")?;
    let failing = [read_after(&text)];
    let refused = (Status::Schedule, REFUSED, 0, 0);
    comes_to(rt, alloc, &REPLAY, &text, (&failing, &[]), refused)
}

// A read that fails in the midst of the headers, or in place of the end, is the last, and no step is printed. After the end no read is
// asked, nor after a line that is refused.
#[test]
fn a_failed_read_is_the_last(rt: HostRuntime) -> Result<(), Fail> {
    assert!(rt; reads_to_end(&rt, rt.alloc())?);
    assert!(rt; reads_to_refusal(&rt, rt.alloc())?);
    Ok(())
}

const TWO_STEPS: &[u8] = b"start a:1#1\nfound a:1#1\n";

// A replay of two steps and one line more, of whose input the first read gives so many bytes past the two steps, and the second one
// fails; the third would give more.
fn cut_after_two_steps<R: Threads + Sync>(
    rt: &R,
    alloc: Global,
    past: usize,
) -> Result<bool, AllocError> {
    let mut text = schedule(alloc, TWO_STEPS)?;
    let first = text.len().saturating_add(past).max(1);
    text.extend_from_slice(b"tick a:1#1 0\n")?;
    let mut input = MemorySource::new(alloc, &text, first, &[2])?;
    let unread: Wanted = (Status::Read, FOUNDED_AND_UNREAD, 1, 0);
    ends_at_writes(rt, alloc, &REPLAY, &mut input, &[], unread)
}

// The headers and the first two events of the schedule in which two nodes find each other.
const TWO_STARTS: &[u8] =
    b"listed a:1 b:1\nstrategy static-quorum 2\nmargin 2\ndeadline 9\nstable 9\nshards 10\nbuffer 2\nthreshold 1\nlimit 1\nstart a:1#1\nstart b:1#1\n";

const STARTED_AND_UNREAD: &[u8] = b"1 start a:1#1\n2 start b:1#1\nerror 5 read\n";

// A replay of that schedule, of whose input the first read gives these lines, and the second one fails; the third would give more.
fn cut_after_two_starts<R: Threads + Sync>(rt: &R, alloc: Global) -> Result<bool, AllocError> {
    let mut text = TWO_STARTS.to_vec(alloc)?;
    text.extend_from_slice(b"found a:1#1\njoin b:1#1 a:1\n")?;
    let mut input = MemorySource::new(alloc, &text, TWO_STARTS.len().max(1), &[2])?;
    let unread: Wanted = (Status::Read, STARTED_AND_UNREAD, 1, 0);
    ends_at_writes(rt, alloc, &REPLAY, &mut input, &[], unread)
}

// Where the source fails, the steps of all lines stand that it had given whole; what it gave of one more line is no line.
#[test]
fn whole_lines_stand_before_a_failed_read(rt: HostRuntime) -> Result<(), Fail> {
    assert!(rt; cut_after_two_starts(&rt, rt.alloc())?);
    'bytes: for past in 0..13 {
        assert!(rt; cut_after_two_steps(&rt, rt.alloc(), past)?);
    }
    Ok(())
}

// Whether all that is printed before the refusal stands before the summary too.
fn stand_before_refusal(printed: &[u8], whole: &[u8]) -> bool {
    let Some(steps) = printed.strip_suffix(b"error 4 S1 line 5011\n".as_slice()) else {
        return false;
    };
    let Some(summary) = whole.strip_prefix(steps) else {
        return false;
    };
    steps.len() > 65536 && summary.starts_with(b"steps 5001\n")
}

// What is printed of the same steps where a refused line comes after them.
fn printed_to_refusal<R: Threads + Sync>(rt: &R, alloc: Global) -> Result<Vec<u8>, Fail> {
    let mut text = many_steps(alloc)?;
    text.extend_from_slice(b"tock a:1#1\n")?;
    written(rt, alloc, &text, &[], Status::Schedule)
}

// Whether these steps stand before a refusal, each of them once.
fn steps_stand<R: Threads + Sync>(rt: &R, alloc: Global, text: &[u8]) -> Result<bool, Fail> {
    let whole = written(rt, alloc, text, &[], Status::Done)?;
    let printed = printed_to_refusal(rt, alloc)?;
    Ok(stand_before_refusal(&printed, &whole))
}

// More steps than are written at once stand before a refusal, each of them once.
#[test]
fn all_steps_stand_before_a_refusal(rt: HostRuntime) -> Result<(), Fail> {
    let text = many_steps(rt.alloc())?;
    assert!(rt; steps_stand(&rt, rt.alloc(), &text)?);
    Ok(())
}
