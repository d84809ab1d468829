// Why a node goes no further.
ghost use Rattle.std.specs.Prelude.{◌≡◌};

use std::alloc::AllocError;

/// Why a node goes no further before its ticks are done.
#[derive(Clone, Copy, Debug, PartialEq, Eq)]
pub(crate) enum End {
    /// Memory ran out.
    Memory,
    /// The sink failed.
    Write,
    /// The link failed.
    Link,
    /// Too many turns in a row made no tick.
    Turns,
}

impl From<AllocError> for End {
    ghost use Rattle.ak_turns.specs.declared.end.End.TheVariants.{Memory};

    ghost from_gives = { λ _ e. e ≡ Memory };

    fn from(_error: AllocError) -> End {
        End::Memory
    }
}
