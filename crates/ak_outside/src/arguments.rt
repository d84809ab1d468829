// The command line that a program was started with.
ghost use Rattle.std.specs.Prelude.{◌≡◌, ℕ, List, Option, Some, None, IfSome, map};
ghost use Rattle.std.specs.Io.{WritesAtMost};
ghost use Rattle.ak_outside.specs.Arguments.{Fills};

use std::env::{Env, FillError};
use std::marker::Model;

/// The arguments of a program: its name, and then the words that it was started with.
pub trait Arguments {
    /// The arguments, where they are known.
    ghost arguments: { Self → Option (List (List ℕ)) };

    /// Copies the argument at this index, from 0 on, to the start of the buffer, and answers its length; `TooLong`
    /// exactly where it is longer than the buffer, and `NotPresent` exactly where there is none.
    fn argument(&self, index: usize, buffer: &mut [u8]) -> Result<usize, FillError>
        ensures bound { WritesAtMost result buffer.new }
        ensures fills { IfSome (arguments self.now) (λ all. Fills all index result buffer.new) };
}

/// Arguments in memory, the program's name before its words. They are known.
#[derive(Drop)]
pub struct MemoryArguments<'a> {
    all: &'a [&'a [u8]],
}

impl<'a> Model for MemoryArguments<'a> {
    ghost use Rattle.std.specs.Prelude.{ℕ, List, map};

    ghost Value = { List (List ℕ) };

    ghost view = { λ s. map (λ one. one.now) s.all.now };
}

impl<'a> MemoryArguments<'a> {
    /// These arguments.
    pub fn new(all: &'a [&'a [u8]]) -> MemoryArguments<'a>
        ensures { result ≡ map (λ one. one.now) all.now }
    {
        MemoryArguments { all }
    }
}

impl<'a> Arguments for MemoryArguments<'a> {
    ghost arguments = { λ s. Some s };

    fn argument(&self, index: usize, buffer: &mut [u8]) -> Result<usize, FillError> {
        let Some(one) = self.all.get(index) else {
            return Err(FillError::NotPresent);
        };
        if one.len() > buffer.len() {
            return Err(FillError::TooLong);
        }
        buffer[..one.len()].copy_from_slice(one);
        Ok(one.len())
    }
}

/// The arguments as the runtime has them. None are known.
#[derive(Drop)]
pub struct StdArguments<'a, R: Env> {
    runtime: &'a R,
}

impl<'a, R: Env> StdArguments<'a, R> {
    /// The arguments of this process, as this runtime has them.
    pub fn new(rt: &'a R) -> Self
        ensures { result.runtime.now ≡ rt.now }
    {
        StdArguments { runtime: rt }
    }
}

impl<'a, R: Env> Arguments for StdArguments<'a, R> {
    ghost arguments = { λ _. None };

    fn argument(&self, index: usize, buffer: &mut [u8]) -> Result<usize, FillError> {
        self.runtime.arg(index, buffer)
    }
}
