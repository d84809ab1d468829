// Where it goes.
use ak_outside::{Sink, write_all};
use std::alloc::Global;

/// What people are told. Nothing is answered: whether they see it is nobody's concern (this project's choice).
pub trait Notes {
    /// Whole lines, each with its end.
    fn say(&mut self, text: &[u8]);

    /// How far something long has come: so many of all are done. Where nobody watches nothing is said.
    fn progress(&mut self, alloc: Global, done: u64, all: u64);
}

/// Takes every byte and keeps none.
#[derive(Clone, Copy, Debug, Drop)]
pub struct NoNotes;

impl Notes for NoNotes {
    fn say(&mut self, _text: &[u8]) {}

    fn progress(&mut self, _alloc: Global, _done: u64, _all: u64) {}
}

/// Writes what is said to a sink, which may fail. Of progress it says nothing.
#[derive(Drop)]
pub struct SinkNotes<W> {
    /// The sink.
    pub sink: W,
}

impl<W: Sink> Notes for SinkNotes<W> {
    fn say(&mut self, text: &[u8]) {
        let _arrived = write_all(&mut self.sink, text);
    }

    fn progress(&mut self, _alloc: Global, _done: u64, _all: u64) {}
}
