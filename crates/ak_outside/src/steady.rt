// A source and a sink that never fail.
ghost use Rattle.std.specs.Prelude.{◌≡◌, ◌≤◌, Some, None, IfOk, length, drop, min};
ghost use Rattle.ak_outside.specs.Reads.{FitsBuffer, LeavesRest, GivesFirst, EndsExactly};

use crate::memory::give;
use crate::sink::{Sink, Wrote};
use crate::source::{Read, Source};
use std::alloc::{AllocError, Global};
use std::marker::Model;

/// A source that has its bytes in memory and never fails. Callers see the bytes that are left, which are known.
#[derive(Drop)]
pub struct SteadySource {
    bytes: Vec<u8>,
    start: usize,
}

impl Model for SteadySource {
    ghost use Rattle.std.specs.Prelude.{◌≤◌, ℕ, List, drop, vec_len};

    ghost Value = { List ℕ };

    ghost view = { λ s. drop s.start s.bytes.items };

    ghost invariant = { λ s. s.start ≤ vec_len s.bytes };
}

impl SteadySource {
    /// A source of these bytes.
    pub fn new(alloc: Global, bytes: &[u8]) -> Result<SteadySource, AllocError>
        ensures { IfOk result (λ s. s ≡ bytes.now) }
    {
        Ok(SteadySource {
            bytes: bytes.to_vec(alloc)?,
            start: 0,
        })
    }
}

impl Source for SteadySource {
    ghost remaining = { λ s. Some s };

    ghost faults = { λ _. 0 };

    /// Gives as much as is left and fits.
    fn read(&mut self, buffer: &mut [u8]) -> Read
        ensures fits { FitsBuffer result buffer.new }
        ensures rest { LeavesRest result buffer.old buffer.new }
        ensures bytes { GivesFirst (Some self.old) (Some self.new) result buffer.new }
        ensures end { EndsExactly (Some self.old) result buffer.new }
        ensures steady { result ≡ Read.Got (min (length buffer.old) (length self.old)) }
    {
        let count = give(&self.bytes[self.start..], usize::MAX, buffer);
        self.start += count;
        Read::Got(count)
    }
}

/// A sink that takes every byte, keeps none and never fails; its bytes are not known.
#[derive(Drop)]
pub struct SteadySink {}

impl SteadySink {
    /// A sink that has written nothing. Its bytes are not known, and it has not failed.
    pub fn new() -> SteadySink
        ensures bytes { ⟦<SteadySink as Sink>⟧.written result ≡ None }
        ensures faults { ⟦<SteadySink as Sink>⟧.faults result ≡ 0 }
    {
        SteadySink {}
    }
}

impl Sink for SteadySink {
    ghost written = { λ _. None };

    ghost faults = { λ _. 0 };

    /// Takes the whole piece.
    fn write(&mut self, bytes: &[u8]) -> Wrote
        ensures { result ≡ Wrote.Took (length bytes.now) }
    {
        Wrote::Took(bytes.len())
    }
}
