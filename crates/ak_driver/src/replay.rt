//! The replay of a recorded schedule: reads one line after another, applies it, and prints its step before the next is read.

ghost use Rattle.std.specs.Prelude.{◌≡◌, ◌⊎◌, ◌+◌, ◌≤◌, ◌<◌, ◌++◌, ℕ, List, Err, OnOk, OnErr, Some, IfSome, IfNone, length, true};
ghost use Rattle.ak_outside.specs.Lines.{to_come, Gives, NextCause, EndedBy};
ghost use Rattle.ak_outside.specs.Outside.{Rose, AppendsPrefix};
ghost use Rattle.ak_schedule.specs.Draft.{first_draft};
ghost use Rattle.ak_driver.specs.Headline.{KeepsEntitiesApart};
ghost use Rattle.ak_driver.specs.ReplayPromise.{Promises, EndsSource, IsCompleted};
ghost use Rattle.ak_schedule.specs.Line.{most_bytes};
ghost use Rattle.ak_driver.specs.ReplayText.{Progress, refusal_text, code_text, reason_text, IsRefused};
ghost use Rattle.ak_driver.specs.ReplayContracts.{stop_of, IsReady, IsOpened, Opens, Stands, progress_of, HeadingAnswers, HeaderLineAnswers, RunningAnswers, PassesOver, TurnAnswers, FinishAnswers, Flushes, finished_status, Ended, EndsWith};
ghost use Rattle.ak_outside.specs.Endings.{Written, memory_line};
ghost use Rattle.ak_driver.specs.StatusContracts.{ReplayCause};
ghost use Rattle.ak_outside.specs.declared.status.Status.TheVariants.{Schedule, Memory};

use crate::explain::explain;
use ak_address::{Text, print_number};
use ak_notes::{NoNotes, Notes, warn_of_quorum};
use ak_outside::{LineReader, Next, Sink, Source, Status, out_of_memory, write_all, written};
use ak_report::print_bytes;
use ak_schedule::{Draft, LineFault, is_passed_over, read_line};
use ak_world::{Reason, Refused, World, append_step, print_summary};
use std::alloc::{AllocError, Global};
use std::mem;

/// A schedule may have this many lines.
pub const MOST_LINES: u32 = 200_000;

/// A schedule may have this many events.
const MOST_EVENTS: u64 = 50_000;

// A schedule has this many headers.
const MOST_HEADERS: u32 = 9;

// Text is written in pieces of about this many bytes.
const PIECE: usize = 1 << 16;

// Why a line is refused. It shows as its code.
#[derive(Clone, Copy, Debug, PartialEq, Eq)]
pub(crate) enum Code {
    // It spells no event.
    Malformed,
    // It is not the next header, or there is none.
    BadHeader,
    // It is past a limit on lines or events.
    PastLimit,
    // The world refuses its event.
    Invalid(Reason),
}

impl Code {
    fn text(&self) -> &'static [u8]
        ensures { result.now ≡ code_text self.now }
    {
        match self {
            Code::Malformed => b"S1",
            Code::BadHeader => b"S2",
            Code::PastLimit => b"S12",
            Code::Invalid(why) => reason_text(*why),
        }
    }
}

// The code of a reason of the world.
fn reason_text(why: Reason) -> &'static [u8]
    ensures { result.now ≡ reason_text why }
{
    match why {
        Reason::Unlisted => b"S3",
        Reason::UniqueUsed => b"S4",
        Reason::AddressInUse => b"S5",
        Reason::SecondFound => b"S6",
        Reason::UnknownNode => b"S7",
        Reason::NodeStopped => b"S8",
        Reason::NoPacket { sent: _ } => b"S9",
        Reason::TooManyPackets => b"S10",
        Reason::TooManyStarts => b"S11",
        Reason::BadEntity => b"S14",
    }
}

// Why a replay goes no further.
#[derive(Clone, Copy, Debug, PartialEq, Eq)]
pub(crate) enum Stop {
    Refused(Code),
    NoMemory,
}

impl From<AllocError> for Stop {
    ghost use Rattle.ak_driver.specs.declared.replay.Stop.TheVariants.{NoMemory};

    ghost from_gives = { λ _ e. e ≡ NoMemory };

    fn from(_error: AllocError) -> Stop {
        Stop::NoMemory
    }
}

// Why the world did not apply an event ends a replay so.
fn stop_of(why: Refused) -> Stop
    ensures { result ≡ stop_of why }
{
    match why {
        Refused::Invalid(why) => Stop::Refused(Code::Invalid(why)),
        Refused::NoMemory(error) => error.into(),
    }
}

// Headers are read, the optional ones too, and then events are applied: the world begins with the first of them, or at the end.
#[derive(Drop)]
enum Stage {
    Heading(Draft),
    Running(World),
}

// How far a replay has come: the number of the next line, from 1 on, and how many events were applied.
#[derive(Drop)]
struct Replay {
    stage: Stage,
    line: u64,
    steps: u64,
}

impl Replay {
    fn new(alloc: Global) -> Replay
        ensures { result ≡ record { stage = Stage.Heading first_draft; line = 1; steps = 0 } }
    {
        Replay {
            stage: Stage::Heading(Draft::new(alloc)),
            line: 1,
            steps: 0,
        }
    }

    // What one line does. Each stage tells by itself which lines it passes over.
    fn turn<N: Notes>(
        &mut self,
        alloc: Global,
        line: &[u8],
        text: &mut Vec<u8>,
        out: &mut Vec<u8>,
        notes: &mut N,
    ) -> Result<(), Stop>
        requires ready { IsReady self.old.stage self.old.steps }
        requires short { length line.now ≤ most_bytes }
        ensures ready { OnOk result (IsReady self.new.stage self.new.steps) }
        ensures line { OnErr result (self.new.line ≡ self.old.line) }
        ensures turn { TurnAnswers result line.now (progress_of self.old) (progress_of self.new) out.old.items out.new.items }
    {
        if self.line > u64::from(MOST_LINES) {
            return Err(Stop::Refused(Code::PastLimit));
        }
        // A line counts once it is accepted, since a refusal names it.
        match &mut self.stage {
            Stage::Heading(draft) => {
                if heading(alloc, draft, line)? {
                    self.line += 1;
                    return Ok(());
                }
                self.open(alloc, notes);
                self.run(alloc, line, text, out)
            }
            Stage::Running(_) => self.run(alloc, line, text, out),
        }
    }

    // What one line does in the world.
    fn run(
        &mut self,
        alloc: Global,
        line: &[u8],
        text: &mut Vec<u8>,
        out: &mut Vec<u8>,
    ) -> Result<(), Stop>
        requires opened { IsOpened self.old.stage self.old.steps }
        requires limit { self.old.line ≤ MOST_LINES }
        ensures ready { (p : Progress) → Stands p self.old line.now → OnOk result (IsReady self.new.stage self.new.steps) }
        ensures line { OnErr result (self.new.line ≡ self.old.line) }
        ensures turn { (p : Progress) → Stands p self.old line.now → TurnAnswers result line.now p (progress_of self.new) out.old.items out.new.items }
    {
        match &mut self.stage {
            Stage::Heading(_) => Err(Stop::Refused(Code::BadHeader)),
            Stage::Running(world) => {
                if running(alloc, world, self.steps, line, text, out)? {
                    self.steps += 1;
                }
                self.line += 1;
                Ok(())
            }
        }
    }

    // Where all nine headers are read, the world begins.
    fn open<N: Notes>(&mut self, alloc: Global, notes: &mut N)
        ensures stage { Opens self.old.stage self.new.stage }
        ensures line { self.new.line ≡ self.old.line }
        ensures steps { self.new.steps ≡ self.old.steps }
    {
        // The stage is taken out first, since the draft is used up by its settings.
        let stage = mem::replace(&mut self.stage, Stage::Heading(Draft::new(alloc)));
        self.stage = match stage {
            Stage::Heading(draft) => match draft.finish() {
                Ok(settings) => {
                    warn_of_quorum(alloc, notes, &settings);
                    Stage::Running(World::new(alloc, settings))
                }
                Err(draft) => Stage::Heading(draft),
            },
            Stage::Running(world) => Stage::Running(world),
        };
    }

    // Why a line that is too long is refused: whatever it says, it is no header, no event and no comment.
    fn long_code(&self) -> Code
        requires { IsReady self.now.stage self.now.steps }
        ensures { (line : List ℕ) → most_bytes < length line → IsRefused (progress_of self.now) line result }
    {
        if self.line > u64::from(MOST_LINES) {
            return Code::PastLimit;
        }
        if self.headers_read() < MOST_HEADERS {
            return Code::BadHeader;
        }
        if self.steps >= MOST_EVENTS {
            return Code::PastLimit;
        }
        Code::Malformed
    }

    // How many headers were read.
    fn headers_read(&self) -> u32
        ensures { result ≡ (progress_of self.now).headers }
    {
        match &self.stage {
            Stage::Heading(draft) => draft.headers_read(),
            Stage::Running(_) => MOST_HEADERS,
        }
    }

    // The types that were read, once there is a world.
    fn types(&self) -> &[Text] {
        match &self.stage {
            Stage::Heading(_) => &[],
            Stage::Running(world) => &world.settings().types,
        }
    }

    // After the last line: the summary is written, or a header is missing.
    fn ends<W: Sink, N: Notes>(
        &mut self,
        alloc: Global,
        out: &mut Vec<u8>,
        output: &mut W,
        notes: &mut N,
    ) -> Status
        requires { IsReady self.old.stage self.old.steps }
        ensures count { W.faults output.old ≤ W.faults output.new }
        ensures cause { ReplayCause result 0 0 (W.faults output.old) (W.faults output.new) }
        ensures ends { EndsWith (progress_of self.old) out.old.items result (W.faults output.old) (W.faults output.new) (W.written output.old) (W.written output.new) }
    {
        self.open(alloc, notes);
        let end = self.finish(alloc, out);
        if let Err(stop) = &end {
            explain(alloc, stop, self.headers_read(), &[], self.line, &[], notes);
        }
        ended(alloc, end, self.line, out, output)
    }

    // At a line that stops the replay.
    fn stops<W: Sink, N: Notes>(
        &self,
        alloc: Global,
        stop: Stop,
        line: &[u8],
        out: &mut Vec<u8>,
        output: &mut W,
        notes: &mut N,
    ) -> Status
        ensures count { W.faults output.old ≤ W.faults output.new }
        ensures cause { ReplayCause result 0 0 (W.faults output.old) (W.faults output.new) }
        ensures stops { Ended (Err stop) self.now.line out.old.items result (W.faults output.old) (W.faults output.new) (W.written output.old) (W.written output.new) }
    {
        explain(
            alloc,
            &stop,
            self.headers_read(),
            self.types(),
            self.line,
            line,
            notes,
        );
        ended(alloc, Err(stop), self.line, out, output)
    }

    // After the last line: the summary, and whether there is a double; or a header is missing.
    fn finish(&self, alloc: Global, out: &mut Vec<u8>) -> Result<bool, Stop>
        requires { IsOpened self.now.stage self.now.steps }
        ensures { FinishAnswers result (progress_of self.now) out.old.items out.new.items }
    {
        match &self.stage {
            Stage::Heading(_) => Err(Stop::Refused(Code::BadHeader)),
            Stage::Running(world) => {
                print_summary(alloc, world, self.steps, out)?;
                Ok(world.first_double().is_some())
            }
        }
    }
}

// One line while headers are read; false where it is for the world, since it is none.
fn heading(alloc: Global, draft: &mut Draft, line: &[u8]) -> Result<bool, Stop>
    requires { length line.now ≤ most_bytes }
    ensures { HeadingAnswers result line.now draft.old draft.new }
{
    if is_passed_over(line) {
        return Ok(true);
    }
    match read_header(alloc, draft, line) {
        Ok(read) => Ok(read),
        Err(LineFault::Malformed) => Err(Stop::Refused(Code::Malformed)),
        Err(LineFault::BadHeader) => Err(Stop::Refused(Code::BadHeader)),
        Err(LineFault::NoMemory(error)) => Err(error.into()),
    }
}

// The next header, or once all are read an optional one; false where the line begins as none of these.
fn read_header(alloc: Global, draft: &mut Draft, line: &[u8]) -> Result<bool, LineFault>
    requires { length line.now ≤ most_bytes }
    ensures { HeaderLineAnswers result line.now draft.old draft.new }
{
    if draft.headers_read() == MOST_HEADERS {
        return draft.extra(alloc, line);
    }
    draft.header(alloc, line)?;
    Ok(true)
}

// One line after the headers, when so many events were applied: its event is read, applied and printed, whole or not at all, by way
// of the text. False where it is passed over. Most lines spell an event, so that this is tried first: no line that is passed over
// spells one.
fn running(
    alloc: Global,
    world: &mut World,
    steps: u64,
    line: &[u8],
    text: &mut Vec<u8>,
    out: &mut Vec<u8>,
) -> Result<bool, Stop>
    requires { length world.old.events ≡ steps }
    ensures { RunningAnswers result line.now steps world.old world.new out.old.items out.new.items }
{
    if steps >= MOST_EVENTS {
        return pass_over(line, Code::PastLimit);
    }
    let event = match read_line(alloc, line) {
        Ok(event) => event,
        Err(LineFault::NoMemory(error)) => return Err(error.into()),
        Err(_) => return pass_over(line, Code::Malformed),
    };
    let step = match world.apply(alloc, &event) {
        Ok(step) => step,
        Err(why) => return Err(stop_of(why)),
    };
    // Emptied before the step and not after it: one that found no memory may have left a part.
    text.clear();
    append_step(alloc, world, steps + 1, &event, &step, text)?;
    print_bytes(text, out)?;
    Ok(true)
}

// A line that brings no event: it is passed over, or else refused with this code.
fn pass_over(line: &[u8], code: Code) -> Result<bool, Stop>
    ensures { PassesOver result line.now code }
{
    if is_passed_over(line) {
        return Ok(false);
    }
    Err(Stop::Refused(code))
}

// The line that says which line is refused, and why.
fn print_refusal(alloc: Global, code: Code, line: u64, out: &mut Vec<u8>) -> Result<(), AllocError>
    ensures ok { OnOk result (out.new.items ≡ out.old.items ++ refusal_text code line) }
    ensures err { OnErr result (out.new.items ≡ out.old.items) }
{
    // Made aside, since the steps are still to be written where it finds no memory.
    let mut text = Vec::new(alloc);
    print_bytes(b"error 4 ", &mut text)?;
    print_bytes(code.text(), &mut text)?;
    print_bytes(b" line ", &mut text)?;
    print_number(line, &mut text)?;
    print_bytes(b"\n", &mut text)?;
    print_bytes(&text, out)
}

// Writes what was printed and the line on a refusal, or the line on memory where there is none for that.
fn refused<W: Sink>(
    alloc: Global,
    code: Code,
    line: u64,
    out: &mut Vec<u8>,
    output: &mut W,
) -> Status
    ensures count { W.faults output.old ≤ W.faults output.new }
    ensures cause { ReplayCause result 0 0 (W.faults output.old) (W.faults output.new) }
    ensures refused { Written Schedule (out.old.items ++ refusal_text code line) result (W.faults output.old) (W.faults output.new) (W.written output.old) (W.written output.new)
        ⊎ Written Memory (out.old.items ++ memory_line) result (W.faults output.old) (W.faults output.new) (W.written output.old) (W.written output.new) }
{
    match print_refusal(alloc, code, line, out) {
        Ok(()) => written(output, out, Status::Schedule),
        Err(_) => out_of_memory(output, out),
    }
}

// The status of a replay whose lines were all accepted.
fn finished_status(doubled: bool) -> Status
    ensures { result ≡ finished_status doubled }
{
    if doubled {
        Status::Double
    } else {
        Status::Done
    }
}

// Writes what was printed and how the replay ended.
fn ended<W: Sink>(
    alloc: Global,
    end: Result<bool, Stop>,
    line: u64,
    out: &mut Vec<u8>,
    output: &mut W,
) -> Status
    ensures count { W.faults output.old ≤ W.faults output.new }
    ensures cause { ReplayCause result 0 0 (W.faults output.old) (W.faults output.new) }
    ensures ended { Ended end line out.old.items result (W.faults output.old) (W.faults output.new) (W.written output.old) (W.written output.new) }
{
    match end {
        Ok(doubled) => written(output, out, finished_status(doubled)),
        Err(Stop::NoMemory) => out_of_memory(output, out),
        Err(Stop::Refused(code)) => refused(alloc, code, line, out, output),
    }
}

// The next line. Before the source is asked for it, which may have to wait, and once much is there, what was printed is written. None
// where the sink failed.
fn next_line<S: Source, W: Sink>(
    reader: &mut LineReader,
    input: &mut S,
    out: &mut Vec<u8>,
    output: &mut W,
) -> Option<Next>
    ensures read { S.faults input.old ≤ S.faults input.new }
    ensures count { W.faults output.old ≤ W.faults output.new }
    ensures next { IfSome result (λ next. Gives next reader.new (to_come reader.old (S.remaining input.old)) (to_come reader.new (S.remaining input.new)) × NextCause (S.faults input.old) (S.faults input.new) next) }
    ensures stays { IfSome result (λ next. reader.old.ended ≡ true → reader.new.ended ≡ true) }
    ensures ended { IfSome result (λ next. reader.new.ended ≡ true → EndedBy reader.old.ended (S.remaining input.old) (S.remaining input.new)) }
    ensures flushes { IfSome result (λ next. Flushes next out.old.items out.new.items (W.written output.old) (W.written output.new) × (W.faults output.new ≡ W.faults output.old)) }
    ensures fails { IfNone result (Rose (W.faults output.old) (W.faults output.new) × AppendsPrefix (W.written output.old) (W.written output.new) out.old.items) }
{
    if out.len() < PIECE {
        if let Some(next) = reader.buffered() {
            return Some(next);
        }
    }
    if !write_all(output, out) {
        return None;
    }
    out.clear();
    Some(reader.next(input))
}

/// Replays a recorded schedule: applies and prints the event of each line before it reads the next line, and prints the summary
/// after the last one.
///
/// Answers `Done` where every line is accepted and no entity was active on two nodes at once, and `Double` where one was, after
/// the same text, whose last line names it; `Schedule` where a line is refused, after the steps before it and a
/// line that says which and why; `Read` where the source failed, after the steps of all lines that it had given whole and a line that
/// says so; `Write` where the sink failed, and nothing else is written then; and `Memory`, after whole steps. `Read` and `Write` come
/// exactly where a fault came first: at each other status no count of faults rose.
///
/// Where the bytes of the source are known, the sink took what the rules say of all of them, also where reading stopped at a
/// limit before their end; after `Read` what they say of the lines that ended with LF among the bytes that the source gave. After
/// `Done` and `Double` the source is at its end.
///
/// Where neither the source nor the sink fails, the replay is complete: a schedule whose lines are all accepted gives `Done` or
/// `Double` and its whole text, and one with a refused line gives `Schedule` and its whole text, unless memory ends.
///
/// Where the strategy is a static quorum of more than half of the addresses with the role and the margin of the run was kept, no entity
/// was active on two nodes at once: the text says `margin kept` and `doubles none`, and the status is not `Double`. Where an
/// entity was, the margin was broken at the step at which it started the second time, or earlier.
pub fn run_replay<S: Source, W: Sink>(alloc: Global, input: &mut S, output: &mut W) -> Status
    ensures read { S.faults input.old ≤ S.faults input.new }
    ensures written { W.faults output.old ≤ W.faults output.new }
    ensures cause { ReplayCause result (S.faults input.old) (S.faults input.new) (W.faults output.old) (W.faults output.new) }
    ensures promise { Promises (S.remaining input.old) (S.remaining input.new) result (W.written output.old) (W.written output.new) }
    ensures end { IfSome (S.remaining input.old) (λ all. EndsSource result (S.remaining input.new)) }
    ensures headline { IfSome (S.remaining input.old) (λ bytes. KeepsEntitiesApart bytes result (W.written output.old) (W.written output.new)) }
    ensures complete { (bytes : List ℕ) → S.remaining input.old ≡ Some bytes → (Rose (S.faults input.old) (S.faults input.new) → ⊥) → (Rose (W.faults output.old) (W.faults output.new) → ⊥)
        → IsCompleted bytes result (W.written output.old) (W.written output.new) }
{
    replay_with_notes(alloc, input, output, &mut NoNotes)
}

/// The same, and the notes are told why a line is refused.
pub(crate) fn replay_with_notes<S: Source, W: Sink, N: Notes>(
    alloc: Global,
    input: &mut S,
    output: &mut W,
    notes: &mut N,
) -> Status
    ensures read { S.faults input.old ≤ S.faults input.new }
    ensures written { W.faults output.old ≤ W.faults output.new }
    ensures cause { ReplayCause result (S.faults input.old) (S.faults input.new) (W.faults output.old) (W.faults output.new) }
    ensures promise { Promises (S.remaining input.old) (S.remaining input.new) result (W.written output.old) (W.written output.new) }
    ensures end { IfSome (S.remaining input.old) (λ all. EndsSource result (S.remaining input.new)) }
    ensures headline { IfSome (S.remaining input.old) (λ bytes. KeepsEntitiesApart bytes result (W.written output.old) (W.written output.new)) }
    ensures complete { (bytes : List ℕ) → S.remaining input.old ≡ Some bytes → (Rose (S.faults input.old) (S.faults input.new) → ⊥) → (Rose (W.faults output.old) (W.faults output.new) → ⊥)
        → IsCompleted bytes result (W.written output.old) (W.written output.new) }
{
    let mut replay = Replay::new(alloc);
    let mut reader = LineReader::new();
    let mut text = Vec::new(alloc);
    let mut out = Vec::new(alloc);
    'lines: loop {
        match next_line(&mut reader, input, &mut out, output) {
            None => return Status::Write,
            Some(Next::Failed) => {
                notes.say(b"standard input could not be read\n");
                return written(output, b"error 5 read\n", Status::Read);
            }
            Some(Next::End) => return replay.ends(alloc, &mut out, output, notes),
            Some(Next::TooLong) => {
                let stop = Stop::Refused(replay.long_code());
                return replay.stops(alloc, stop, reader.line(), &mut out, output, notes);
            }
            Some(Next::Line(_)) => {
                if let Err(stop) = replay.turn(alloc, reader.line(), &mut text, &mut out, notes) {
                    return replay.stops(alloc, stop, reader.line(), &mut out, output, notes);
                }
            }
        }
    }
}
