// Standard error, at the edge.
use crate::notes::Notes;
use crate::sentence::{Piece, joined};
use ak_outside::{Clock, StdClock, WriterSink, write_all};
use std::alloc::{AllocError, Global};
use std::io::IsTerminal;
use std::{io, time};

/// Standard error. Where it is a terminal, progress is one line there that is written over, with the seconds since the start.
#[derive(Drop)]
pub struct StdNotes<'a, R: time::Clock, T> {
    sink: WriterSink<T>,
    clock: StdClock<'a, R>,
    start: u64,
    watched: bool,
}

impl<'a, R: time::Clock, T: io::Write + IsTerminal> StdNotes<'a, R, T> {
    /// Standard error as the runtime has it, from this moment on.
    pub fn new(rt: &'a R, stream: T) -> Self {
        let watched = stream.is_terminal();
        let mut clock = StdClock::new(rt);
        let start = clock.now();
        StdNotes {
            sink: WriterSink::over(stream),
            clock,
            start,
            watched,
        }
    }
}

impl<'a, R: time::Clock, T: io::Write> Notes for StdNotes<'a, R, T> {
    fn say(&mut self, text: &[u8]) {
        let _arrived = write_all(&mut self.sink, text);
    }

    fn progress(&mut self, alloc: Global, done: u64, all: u64) {
        if !self.watched {
            return;
        }
        let seconds = self.clock.now().saturating_sub(self.start) / 1000;
        if let Ok(text) = progress_line(alloc, done, all, seconds) {
            let _arrived = write_all(&mut self.sink, &text);
        }
    }
}

// It is written over the one before, and taken away when all is done, so that it does not stand among the output.
fn progress_line(alloc: Global, done: u64, all: u64, seconds: u64) -> Result<Vec<u8>, AllocError> {
    if done >= all {
        return joined(alloc, &[Piece::Text(b"\r\x1b[K")]);
    }
    joined(
        alloc,
        &[
            Piece::Text(b"\r"),
            Piece::Number(done),
            Piece::Text(b" of "),
            Piece::Number(all),
            Piece::Text(b" seeds, "),
            Piece::Number(seconds),
            Piece::Text(b" s"),
        ],
    )
}
