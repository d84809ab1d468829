ghost use Rattle.std.specs.Prelude.{◌≤◌, ◌≡◌};

use ak_sweep::{Gate, Job, Line, OpenGate, sweep, sweep_one};
use std::alloc::{AllocError, Global};
use std::sync::atomic::{AtomicBool, AtomicU64, Ordering};
use std::test::Fail;
use std::thread;
use std::thread::Threads;

// How often a run waits at most for the other one.
const MOST_TURNS: u32 = 100_000_000;

// A line that its seed tells.
fn line(seed: u64) -> Line
    ensures { result.seed ≡ seed }
{
    Line {
        seed,
        steps: seed % 7,
        packets: seed % 11,
        history: seed % 13,
        kept: seed % 2 == 0,
        double: seed % 3 == 0,
    }
}

// The job that tells it. It keeps how many seeds its part had so far, and adds up the parts as they end.
#[derive(Drop)]
struct Told {
    parts: AtomicU64,
    seeds: AtomicU64,
}

impl Told {
    fn new() -> Told {
        Told {
            parts: AtomicU64::new(0),
            seeds: AtomicU64::new(0),
        }
    }
}

impl Job for Told {
    type Kept = u64;

    ghost answers = { λ told seed line. line.seed ≡ seed };

    fn begin(&self) -> u64 {
        0
    }

    fn line(&self, kept: &mut u64, seed: u64) -> Result<Line, AllocError> {
        *kept = kept.wrapping_add(1);
        Ok(line(seed))
    }

    fn end(&self, kept: u64) {
        self.parts.fetch_add(1, Ordering::SeqCst);
        self.seeds.fetch_add(kept, Ordering::SeqCst);
    }
}

fn by_workers<R: Threads + Sync>(
    rt: &R,
    alloc: Global,
    count: u32,
    workers: u32,
) -> Result<Vec<Line>, AllocError>
    requires some { 1 ≤ workers }
    requires few { workers ≤ 64 }
{
    sweep(rt, alloc, 5, count, workers, &Told::new(), &OpenGate)
}

fn by_one(alloc: Global, count: u32) -> Result<Vec<Line>, AllocError> {
    sweep_one(alloc, 5, u64::from(count), &Told::new())
}

fn are_alike<R: Threads + Sync>(
    rt: &R,
    alloc: Global,
    count: u32,
    workers: u32,
) -> Result<bool, Fail>
    requires some { 1 ≤ workers }
    requires few { workers ≤ 64 }
{
    let alone = by_one(alloc, count)?;
    let together = by_workers(rt, alloc, count, workers)?;
    Ok(alone.len() == count as usize && alone == together)
}

#[test]
fn any_number_of_workers_gives_the_lines_of_one(rt: HostRuntime) -> Result<(), Fail> {
    'workers: for workers in [1, 2, 3, 7, 20, 64] {
        assert!(rt; are_alike(&rt, rt.alloc(), 20, workers)?);
    }
    assert!(rt; are_alike(&rt, rt.alloc(), 0, 3)?);
    Ok(())
}

// Each part keeps a value of its own from its first seed to its last, and lets go of it once.
#[test]
fn each_part_keeps_one_value(rt: HostRuntime) -> Result<(), Fail> {
    let told = Told::new();
    let lines = sweep(&rt, rt.alloc(), 0, 20, 3, &told, &OpenGate)?;
    assert!(rt; lines.len() == 20);
    assert!(rt; told.parts.load(Ordering::SeqCst) == 3);
    assert!(rt; told.seeds.load(Ordering::SeqCst) == 20);
    Ok(())
}

// The first run may end only once the second has begun.
#[derive(Drop)]
struct Waiting {
    has_begun: AtomicBool,
    was_seen: AtomicBool,
}

impl Waiting {
    fn wait(&self) {
        'turns: for _ in 0..MOST_TURNS {
            if self.has_begun.load(Ordering::SeqCst) {
                self.was_seen.store(true, Ordering::SeqCst);
                return;
            }
            thread::yield_now();
        }
    }
}

impl Gate for Waiting {
    fn enter(&self, index: u64) {
        if index == 1 {
            self.has_begun.store(true, Ordering::SeqCst);
        }
    }

    fn leave(&self, index: u64) {
        if index == 0 {
            self.wait();
        }
    }
}

#[test]
fn two_workers_go_side_by_side(rt: HostRuntime) -> Result<(), Fail> {
    let gate = Waiting {
        has_begun: AtomicBool::new(false),
        was_seen: AtomicBool::new(false),
    };
    let lines = sweep(&rt, rt.alloc(), 0, 2, 2, &Told::new(), &gate)?;
    assert!(rt; lines.len() == 2);
    assert!(rt; gate.was_seen.load(Ordering::SeqCst));
    Ok(())
}
