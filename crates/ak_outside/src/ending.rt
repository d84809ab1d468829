// How a run ends.
ghost use Rattle.std.specs.Prelude.{◌≤◌, ◌++◌};
ghost use Rattle.ak_outside.specs.Endings.{Written, memory_line};
ghost use Rattle.ak_outside.specs.declared.status.Status.TheVariants.{Memory};

use crate::sink::{Sink, write_all};
use crate::status::Status;

/// Writes the last text of a run, and answers this status: `Write` where the sink fails on the way.
pub fn written<W: Sink>(output: &mut W, text: &[u8], status: Status) -> Status
    ensures count { W.faults output.old ≤ W.faults output.new }
    ensures written { Written status text.now result (W.faults output.old) (W.faults output.new) (W.written output.old) (W.written output.new) }
{
    if write_all(output, text) {
        status
    } else {
        Status::Write
    }
}

/// Writes what was printed before memory ran out, and after it the line that says so. Answers `Memory`: `Write` where the sink fails
/// on the way. Takes no memory.
pub fn out_of_memory<W: Sink>(output: &mut W, printed: &[u8]) -> Status
    ensures count { W.faults output.old ≤ W.faults output.new }
    ensures written { Written Memory (printed.now ++ memory_line) result (W.faults output.old) (W.faults output.new) (W.written output.old) (W.written output.new) }
{
    // No memory is left to join the two texts, so each is written by itself.
    if !write_all(output, printed) {
        return Status::Write;
    }
    written(output, b"error 7 memory\n", Status::Memory)
}
