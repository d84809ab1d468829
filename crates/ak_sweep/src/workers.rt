ghost use Rattle.std.specs.Prelude.{◌≡◌, ℕ, ◌+◌, ◌-◌, ◌*◌, ◌<◌, ◌≤◌, ◌^◌, IfOk, vec_len, slice_index_or};
ghost use Rattle.ak_sweep.specs.declared.line.Line.{Line};
ghost use Rattle.ak_sweep.specs.Lines.{lines_from, AnswersAs, AreLines, AreLinesOfPart, IsPart};

use crate::gate::{Gate, OpenGate};
use crate::job::Job;
use crate::line::Line;
use std::alloc::{AllocError, Global};
use std::thread;
use std::thread::Threads;

/// The lines of so many seeds from the first one on, by one thread: at each index an answer of the job for the seed there.
/// Only memory can fail, also in a job. (This project's choice.)
pub fn sweep_one<J: Job>(
    alloc: Global,
    first: u64,
    count: u64,
    job: &J,
) -> Result<Vec<Line>, AllocError>
    requires seeds { first + count < 2 ^ 64 }
    ensures lines { IfOk result (λ lines. AreLines (J.answers job.now) first count lines.items) }
    ensures alone { (answer : ℕ → Line) → AnswersAs (J.answers job.now) answer → IfOk result (λ lines. lines.items ≡ lines_from answer first count) }
{
    let mut kept = job.begin();
    let lines = lines_between(alloc, first, 0, count, &mut kept, job, &OpenGate);
    job.end(kept);
    lines
}

/// The same lines, by so many workers, from 1 to 64, each of which takes a part of the seeds, in a row, and shares nothing that is
/// kept; with the gate's calls around each run, by its index. For a job that has one answer for each seed the lines are those of
/// one thread, for every number of workers. Only memory can fail, also in a job. (This project's choice.)
pub fn sweep<R: Threads + Sync, J: Job + Sync, G: Gate + Sync>(
    rt: &R,
    alloc: Global,
    first: u64,
    count: u32,
    workers: u32,
    job: &J,
    gate: &G,
) -> Result<Vec<Line>, AllocError>
    requires seeds { first + count < 2 ^ 64 }
    requires some { 1 ≤ workers }
    requires few { workers ≤ 64 }
    ensures lines { IfOk result (λ lines. AreLines (J.answers job.now) first count lines.items) }
    ensures alone { (answer : ℕ → Line) → AnswersAs (J.answers job.now) answer → IfOk result (λ lines. lines.items ≡ lines_from answer first count) }
{
    in_parts(rt, alloc, first, count, workers, job, gate)
}

// The parts one after another.
fn in_parts<R: Threads + Sync, J: Job + Sync, G: Gate + Sync>(
    rt: &R,
    alloc: Global,
    first: u64,
    count: u32,
    workers: u32,
    job: &J,
    gate: &G,
) -> Result<Vec<Line>, AllocError>
    requires seeds { first + count < 2 ^ 64 }
    requires some { 1 ≤ workers }
    requires few { workers ≤ 64 }
    ensures { IfOk result (λ lines. AreLines (J.answers job.now) first count lines.items) }
{
    let size = size_of(count, workers);
    let parts = parts_of(rt, alloc, first, u64::from(count), size, workers, job, gate)?;
    let mut lines = Vec::new(alloc);
    'parts: for part in &parts {
        match part {
            Ok(part) => lines.extend_from_slice(part)?,
            Err(error) => return Err(*error),
        }
    }
    Ok(lines)
}

// How many lines each part has, but for the last ones.
fn size_of(count: u32, workers: u32) -> u64
    requires some { 1 ≤ workers }
    requires few { workers ≤ 64 }
    ensures covers { count ≤ workers * result }
    ensures short { result < 2 ^ 33 }
{
    (u64::from(count) + u64::from(workers) - 1) / u64::from(workers)
}

// The lines of each part, by a worker for each.
fn parts_of<R: Threads + Sync, J: Job + Sync, G: Gate + Sync>(
    rt: &R,
    alloc: Global,
    first: u64,
    count: u64,
    size: u64,
    workers: u32,
    job: &J,
    gate: &G,
) -> Result<Vec<Result<Vec<Line>, AllocError>>, AllocError>
    requires { (part : ℕ) → part < workers → IsPart first count size part }
    ensures many { IfOk result (λ parts. vec_len parts ≡ workers) }
    ensures each { IfOk result (λ parts. (part : ℕ) (d : _) → part < workers → IfOk (slice_index_or parts.items part d) (λ lines. AreLinesOfPart (J.answers job.now) first count size part lines.items)) }
{
    thread::map_indices(
        rt,
        alloc,
        workers as usize,
        &|part: usize| -> Result<Vec<Line>, AllocError>
            requires { IsPart first count size part }
            ensures { IfOk result (λ lines. AreLinesOfPart (J.answers job.entry.now) first count size part lines.items) }
        { part_of(alloc, first, count, size, part, job, gate) },
    )
}

// The lines of a part.
fn part_of<J: Job, G: Gate>(
    alloc: Global,
    first: u64,
    count: u64,
    size: u64,
    part: usize,
    job: &J,
    gate: &G,
) -> Result<Vec<Line>, AllocError>
    requires { IsPart first count size part }
    ensures { IfOk result (λ lines. AreLinesOfPart (J.answers job.now) first count size part lines.items) }
{
    let part = part as u64;
    let from = (part * size).min(count);
    let to = ((part + 1) * size).min(count);
    let mut kept = job.begin();
    let lines = lines_between(alloc, first, from, to, &mut kept, job, gate);
    job.end(kept);
    lines
}

// The lines of the seeds from one index to another.
fn lines_between<J: Job, G: Gate>(
    alloc: Global,
    first: u64,
    from: u64,
    to: u64,
    kept: &mut J::Kept,
    job: &J,
    gate: &G,
) -> Result<Vec<Line>, AllocError>
    requires order { from ≤ to }
    requires seeds { first + to < 2 ^ 64 }
    ensures { IfOk result (λ lines. AreLines (J.answers job.now) (first + from) (to - from) lines.items) }
{
    let mut lines = Vec::new(alloc);
    'seeds: for index in from..to {
        let line = line_of(first, index, kept, job, gate)?;
        lines.push(line)?;
    }
    Ok(lines)
}

// The line of the seed at an index, between the two calls of the gate.
fn line_of<J: Job, G: Gate>(
    first: u64,
    index: u64,
    kept: &mut J::Kept,
    job: &J,
    gate: &G,
) -> Result<Line, AllocError>
    requires { first + index < 2 ^ 64 }
    ensures { IfOk result (J.answers job.now (first + index)) }
{
    gate.enter(index);
    let line = job.line(kept, first + index);
    gate.leave(index);
    line
}
