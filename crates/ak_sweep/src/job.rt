ghost use Rattle.std.specs.Prelude.{ℕ, IfOk};
ghost use Rattle.ak_sweep.specs.declared.line.Line.{Line};

use crate::line::Line;
use std::alloc::AllocError;

/// What makes the lines of a sweep.
pub trait Job {
    /// What is kept from one seed to the next, so that memory that was taken for one serves the next. No line tells of it.
    type Kept;

    /// A line may be the answer for a seed, whatever is kept.
    ghost answers: { Self → ℕ → Line → Type 0 };

    /// What is kept before the first seed.
    fn begin(&self) -> Self::Kept;

    /// The line of a seed. Only memory can fail.
    fn line(&self, kept: &mut Self::Kept, seed: u64) -> Result<Line, AllocError>
        ensures { IfOk result (answers self.now seed) };

    /// What is kept is let go after the last seed.
    fn end(&self, kept: Self::Kept);
}
