// Where bytes go.
ghost use Rattle.std.specs.Prelude.{ℕ, ◌≡◌, ◌≤◌, List, Option};
ghost use Rattle.std.specs.Bool.{OnTrue, OnFalse};
ghost use Rattle.std.specs.Io.KnownBytes.{Appends};
ghost use Rattle.ak_outside.specs.Outside.{Rose, AppendsPrefix};
ghost use Rattle.ak_outside.specs.Writes.{FitsPiece, TakesFirst, WriteCause};

/// The answer of a write.
#[derive(Clone, Copy, Debug, PartialEq, Eq)]
pub enum Wrote {
    /// So many first bytes of the piece were written, at least one of a piece that has any.
    Took(usize),
    /// The sink has failed and counted it. It took nothing.
    Failed,
}

/// A sink of bytes. Each fault is counted: this project's choice.
pub trait Sink {
    /// The bytes written so far, where they are known. Once known they stay known.
    ghost written: { Self → Option (List ℕ) };

    /// How often the sink has failed. It never falls; kept as a `u64` it stays at 2^64 - 1 once there.
    ghost faults: { Self → ℕ };

    /// Takes some first bytes of the piece, at least one where it has any. `Took` leaves the count of
    /// faults. `Failed` comes only where the count rose in this call, or stands at 2^64 - 1 after it,
    /// and leaves what was written.
    fn write(&mut self, bytes: &[u8]) -> Wrote
        ensures count { faults self.old ≤ faults self.new }
        ensures cause { WriteCause (faults self.old) (faults self.new) result }
        ensures fits { FitsPiece result bytes.now }
        ensures bytes { TakesFirst (written self.old) (written self.new) result bytes.now };
}

/// Writes all the bytes, in as many pieces as the sink wants. True leaves the sink's count of faults.
/// False comes only where the count rose in this call, or stands at 2^64 - 1 after it, and then some
/// first bytes were written.
pub fn write_all<W: Sink>(sink: &mut W, bytes: &[u8]) -> bool
    ensures count { W.faults sink.old ≤ W.faults sink.new }
    ensures whole { OnTrue result (Appends (W.written sink.old) (W.written sink.new) bytes.now) }
    ensures kept { OnTrue result (W.faults sink.new ≡ W.faults sink.old) }
    ensures cause { OnFalse result (Rose (W.faults sink.old) (W.faults sink.new)) }
    ensures prefix { OnFalse result (AppendsPrefix (W.written sink.old) (W.written sink.new) bytes.now) }
{
    let mut done = 0;
    'pieces: while done < bytes.len() {
        match sink.write(&bytes[done..]) {
            Wrote::Took(more) => done += more,
            Wrote::Failed => return false,
        }
    }
    true
}
