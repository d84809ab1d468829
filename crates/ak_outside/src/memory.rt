// A source and a sink in memory, whose calls fail where they are listed.
ghost use Rattle.std.specs.Prelude.{◌≡◌, ◌≤◌, ◌<◌, ◌+◌, ◌++◌, ◌↔◌, [], Some, IfOk, length, take, drop, min};
ghost use Rattle.std.specs.Bool.{OnTrue, OnFalse};
ghost use Rattle.ak_outside.specs.Outside.{counted};
ghost use Rattle.ak_outside.specs.Reads.{FitsBuffer, LeavesRest, GivesFirst, EndsExactly, ReadCause};
ghost use Rattle.ak_outside.specs.Writes.{FitsPiece, TakesFirst, WriteCause};
ghost use Rattle.ak_outside.specs.Memory.{is_listed, ReadGave, ReadFailed, WriteTook, WriteFailed};

use crate::sink::{Sink, Wrote};
use crate::source::{Read, Source};
use std::alloc::{AllocError, Global};
use std::marker::Model;

/// A source that has its bytes in memory. Callers see a `Reader`; what is left is known.
#[derive(Drop)]
pub struct MemorySource {
    bytes: Vec<u8>,
    start: usize,
    most: usize,
    listed: Vec<u64>,
    call_count: u64,
    fault_count: u64,
}

impl Model for MemorySource {
    ghost use Rattle.std.specs.Prelude.{◌≤◌, drop, vec_len};
    ghost use Rattle.ak_outside.specs.Memory.{Reader};

    ghost Value = { Reader };

    ghost view = { λ s. record { left = drop s.start s.bytes.items; piece = s.most; failing = s.listed.items; calls = s.call_count; faults = s.fault_count } };

    ghost invariant = { λ s. (s.start ≤ vec_len s.bytes) × (1 ≤ s.most) };
}

impl MemorySource {
    /// A source of these bytes, of which a read gives at most `piece`. The reads whose numbers,
    /// counted from 1, stand in `failing` fail; a read's number stays at 2^64 - 1 once there.
    pub fn new(
        alloc: Global,
        bytes: &[u8],
        piece: usize,
        failing: &[u64],
    ) -> Result<MemorySource, AllocError>
        requires { 1 ≤ piece }
        ensures { IfOk result (λ s. s ≡ record { left = bytes.now; piece = piece; failing = failing.now; calls = 0; faults = 0 }) }
    {
        Ok(MemorySource {
            bytes: bytes.to_vec(alloc)?,
            start: 0,
            most: piece,
            listed: failing.to_vec(alloc)?,
            call_count: 0,
            fault_count: 0,
        })
    }

    /// How many reads have failed, at most 2^64 - 1.
    pub fn faults(&self) -> u64
        ensures { result ≡ self.now.faults }
    {
        self.fault_count
    }
}

impl Source for MemorySource {
    ghost remaining = { λ s. Some s.left };

    ghost faults = { λ s. s.faults };

    /// Fails exactly where the number of the call is listed.
    fn read(&mut self, buffer: &mut [u8]) -> Read
        ensures count { self.old.faults ≤ self.new.faults }
        ensures cause { ReadCause self.old.faults self.new.faults result }
        ensures fits { FitsBuffer result buffer.new }
        ensures rest { LeavesRest result buffer.old buffer.new }
        ensures bytes { GivesFirst (Some self.old.left) (Some self.new.left) result buffer.new }
        ensures end { EndsExactly (Some self.old.left) result buffer.new }
        ensures listed { OnTrue (is_listed self.old.failing (counted self.old.calls)) (ReadFailed self.old self.new result) }
        ensures unlisted { OnFalse (is_listed self.old.failing (counted self.old.calls)) (ReadGave self.old self.new result (length buffer.old)) }
    {
        self.call_count = self.call_count.saturating_add(1);
        if stands_in(&self.listed, self.call_count) {
            self.fault_count = self.fault_count.saturating_add(1);
            return Read::Failed;
        }
        let count = give(&self.bytes[self.start..], self.most, buffer);
        self.start += count;
        Read::Got(count)
    }
}

/// A sink that keeps its bytes in memory. Callers see a `Writer`; what was written is known.
#[derive(Drop)]
pub struct MemorySink {
    bytes: Vec<u8>,
    listed: Vec<u64>,
    call_count: u64,
    fault_count: u64,
    starved_count: u64,
}

impl Model for MemorySink {
    ghost use Rattle.ak_outside.specs.Memory.{Writer};

    ghost Value = { Writer };

    ghost view = { λ s. record { written = s.bytes.items; failing = s.listed.items; calls = s.call_count; faults = s.fault_count; starved = s.starved_count } };
}

impl MemorySink {
    /// A sink that has written nothing. The writes whose numbers, counted from 1, stand in `failing`
    /// fail; a write's number stays at 2^64 - 1 once there.
    pub fn new(alloc: Global, failing: &[u64]) -> Result<MemorySink, AllocError>
        ensures { IfOk result (λ s. s ≡ record { written = []; failing = failing.now; calls = 0; faults = 0; starved = 0 }) }
    {
        Ok(MemorySink {
            bytes: Vec::new(alloc),
            listed: failing.to_vec(alloc)?,
            call_count: 0,
            fault_count: 0,
            starved_count: 0,
        })
    }

    /// The bytes written so far.
    pub fn bytes(&self) -> &[u8]
        ensures { result.now ≡ self.now.written }
    {
        &self.bytes
    }

    /// How many writes have failed, at most 2^64 - 1.
    pub fn faults(&self) -> u64
        ensures { result ≡ self.now.faults }
    {
        self.fault_count
    }

    /// How many writes have failed for lack of memory, at most 2^64 - 1. The others were listed.
    pub fn starved(&self) -> u64
        ensures { result ≡ self.now.starved }
    {
        self.starved_count
    }
}

impl Sink for MemorySink {
    ghost written = { λ s. Some s.written };

    ghost faults = { λ s. s.faults };

    /// Fails where the number of the call is listed. Another takes the whole piece, or finds no
    /// memory for it, which `starved` counts.
    fn write(&mut self, bytes: &[u8]) -> Wrote
        ensures count { self.old.faults ≤ self.new.faults }
        ensures cause { WriteCause self.old.faults self.new.faults result }
        ensures fits { FitsPiece result bytes.now }
        ensures bytes { TakesFirst (Some self.old.written) (Some self.new.written) result bytes.now }
        ensures listed { OnTrue (is_listed self.old.failing (counted self.old.calls)) (WriteFailed self.old self.new result) }
        ensures unlisted { OnFalse (is_listed self.old.failing (counted self.old.calls)) (WriteTook self.old self.new result bytes.now) }
    {
        self.call_count = self.call_count.saturating_add(1);
        if stands_in(&self.listed, self.call_count) {
            self.fault_count = self.fault_count.saturating_add(1);
            return Wrote::Failed;
        }
        if self.bytes.extend_from_slice(bytes).is_err() {
            self.fault_count = self.fault_count.saturating_add(1);
            self.starved_count = self.starved_count.saturating_add(1);
            return Wrote::Failed;
        }
        Wrote::Took(bytes.len())
    }
}

fn stands_in(listed: &[u64], call: u64) -> bool
    ensures { result ≡ is_listed listed.now call }
{
    listed.contains(&call)
}

// Copies first bytes to the start of the buffer, at most `most`, leaves the rest of the buffer, and
// says how many.
pub(crate) fn give(bytes: &[u8], most: usize, buffer: &mut [u8]) -> usize
    requires { 1 ≤ most }
    ensures count { result ≡ min most (min (length buffer.old) (length bytes.now)) }
    ensures bytes { bytes.now ≡ take result buffer.new ++ drop result bytes.now }
    ensures rest { drop result buffer.new ≡ drop result buffer.old }
    ensures end { 0 < length buffer.new → (result ≡ 0) ↔ (bytes.now ≡ []) }
{
    let count = most.min(buffer.len().min(bytes.len()));
    buffer[..count].copy_from_slice(&bytes[..count]);
    count
}
