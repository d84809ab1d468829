//! Sweeps of generated runs.

ghost use Rattle.std.specs.Prelude.{◌≡◌, ◌≤◌, ◌<◌, ◌^◌, ◌+◌, List, IfOk};
ghost use Rattle.ak_outside.specs.Outside.{Rose};
ghost use Rattle.ak_sweep.specs.declared.line.Line.{Line};
ghost use Rattle.ak_sweeps.specs.GeneratedRun.{IsLineOf};
ghost use Rattle.ak_sweeps.specs.RunContracts.{WritesLines};
ghost use Rattle.ak_sweeps.specs.SweepPromise.{Sweeps, IsCompleted, EachKeepsApart, status_of};
ghost use Rattle.ak_sweeps.specs.SweepText.{AreLines};

use crate::print::{is_doubled, print_line, print_totals};
use crate::run::line_of;
use ak_notes::Notes;
use ak_outside::{Sink, Status, out_of_memory, write_all, written};
use ak_sweep::{Job, Line, OpenGate, sweep};
use ak_world::World;
use std::alloc::{AllocError, Global};
use std::thread::Threads;

// So many seeds are run before it is told how far the sweep is.
const BLOCK: u32 = 1000;

// Text is written in pieces of about this many bytes.
const PIECE: usize = 1 << 16;

// The status of a sweep with these lines.
fn status_of(lines: &[Line]) -> Status
    ensures { result ≡ status_of lines.now }
{
    if is_doubled(lines) {
        Status::Double
    } else {
        Status::Done
    }
}

/// Writes these lines and their totals. Answers `Double` where a line says that there was a double, and `Done` where none does;
/// `Memory` where memory ran out, after some first lines, whole, and a line that says so; and `Write` exactly where the sink failed,
/// which took a prefix of one of these texts. (This project's choice.)
pub fn write_lines<W: Sink>(alloc: Global, lines: &[Line], output: &mut W) -> Status
    ensures count { W.faults output.old ≤ W.faults output.new }
    ensures written { WritesLines lines.now result (W.faults output.old) (W.faults output.new) (W.written output.old) (W.written output.new) }
{
    let mut text = Vec::new(alloc);
    let mut out = Vec::new(alloc);
    'lines: for line in lines {
        if print_line(line, &mut text, &mut out).is_err() {
            return out_of_memory(output, &out);
        }
        if out.len() >= PIECE {
            if !write_all(output, &out) {
                return Status::Write;
            }
            out.clear();
        }
    }
    if print_totals(lines, &mut text, &mut out).is_err() {
        return out_of_memory(output, &out);
    }
    written(output, &out, status_of(lines))
}

// The runs of a sweep, each of at most so many events. A worker keeps a world from one run to the next.
#[derive(Drop)]
struct Runs {
    alloc: Global,
    events: u64,
    ghost few: { events < 2 ^ 62 },
}

impl Job for Runs {
    type Kept = Option<World>;

    ghost answers = { λ runs seed line. IsLineOf seed runs.events line };

    fn begin(&self) -> Option<World> {
        None
    }

    fn line(&self, spare: &mut Option<World>, seed: u64) -> Result<Line, AllocError> {
        line_of(self.alloc, spare, seed, self.events)
    }

    fn end(&self, spare: Option<World>) {
        drop(spare);
    }
}

// The lines of a block of seeds, by so many workers.
fn lines_of_block<R: Threads + Sync>(
    rt: &R,
    alloc: Global,
    first: u64,
    count: u32,
    events: u64,
    workers: u32,
) -> Result<Vec<Line>, AllocError>
    requires seeds { first + count < 2 ^ 64 }
    requires events { events < 2 ^ 62 }
    requires some { 1 ≤ workers }
    requires few { workers ≤ 64 }
    ensures { IfOk result (λ lines. AreLines first count events lines.items) }
{
    let runs = Runs { alloc, events };
    sweep(rt, alloc, first, count, workers, &runs, &OpenGate)
}

// The lines of the seeds, block by block.
fn lines_of<R: Threads + Sync, N: Notes>(
    rt: &R,
    alloc: Global,
    first: u64,
    count: u32,
    events: u64,
    workers: u32,
    notes: &mut N,
) -> Result<Vec<Line>, AllocError>
    requires seeds { first + count < 2 ^ 64 }
    requires events { events < 2 ^ 62 }
    requires some { 1 ≤ workers }
    requires few { workers ≤ 64 }
    ensures { IfOk result (λ lines. AreLines first count events lines.items) }
{
    let mut lines = Vec::new(alloc);
    let mut done = 0;
    'blocks: while done < count {
        let size = (count - done).min(BLOCK);
        let block = lines_of_block(rt, alloc, first + u64::from(done), size, events, workers)?;
        lines.extend_from_slice(&block)?;
        // Told once the block is kept, so that no more is told than is done.
        done += size;
        notes.progress(alloc, u64::from(done), u64::from(count));
    }
    Ok(lines)
}

/// Runs the generated schedules of so many seeds, from the first one on, each of at most so many events, by so many workers, and
/// writes a line for each in the order of the seeds, and the totals. (This project's choice.)
///
/// Answers `Double` where a line says that there was a double, and `Done` where none does, after the same text for every number of
/// workers; `Memory` where memory ran out, after the lines of some first seeds, whole, and a line that says so; and `Write` where
/// the sink failed, and nothing else is written then. `Write` comes exactly where a fault came: at each other status the sink's
/// count of faults did not rise.
///
/// Where the sink does not fail the sweep is complete: it gives its whole text, with `Done` or `Double`, unless memory ends.
///
/// A line that says that the margin was kept says that there is no double. The notes are told how far the sweep is.
pub fn run_sweep<R: Threads + Sync, W: Sink, N: Notes>(
    rt: &R,
    alloc: Global,
    first: u64,
    count: u64,
    events: u64,
    workers: u32,
    output: &mut W,
    notes: &mut N,
) -> Status
    requires first { first ≤ 9_000_000_000_000_000_000 }
    requires seeds { count ≤ 100_000 }
    requires events { events ≤ 2_000 }
    requires some { 1 ≤ workers }
    requires few { workers ≤ 64 }
    ensures written { W.faults output.old ≤ W.faults output.new }
    ensures sweep { Sweeps first count events result (W.faults output.old) (W.faults output.new) (W.written output.old) (W.written output.new) }
    ensures apart { (lines : List Line) → AreLines first count events lines → EachKeepsApart lines }
    ensures complete { (Rose (W.faults output.old) (W.faults output.new) → ⊥) → IsCompleted first count events result (W.written output.old) (W.written output.new) }
{
    match lines_of(rt, alloc, first, count as u32, events, workers, notes) {
        Ok(lines) => write_lines(alloc, &lines, output),
        Err(_) => written(output, b"error 7 memory\n", Status::Memory),
    }
}
