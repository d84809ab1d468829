ghost use Rattle.std.specs.Prelude.{◌≡◌};
ghost use Rattle.std.specs.declared.alloc.AllocError.{AllocError};
ghost use Rattle.ak_schedule.specs.declared.fault.LineFault.TheVariants.{NoMemory};

use std::alloc::{AllocError, AllocFailed};
use thiserror::Error;

/// Why a line of a schedule was not read. It shows as its code.
#[derive(Debug, Drop, Error)]
pub enum LineFault {
    /// The line spells no event.
    #[error("S1")]
    Malformed,
    /// The line is not the next header, or its value is out of range.
    #[error("S2")]
    BadHeader,
    /// Memory ran out.
    #[error("memory")]
    NoMemory(AllocError),
}

impl From<AllocError> for LineFault {
    ghost from_gives = { λ error fault. fault ≡ NoMemory error };

    fn from(error: AllocError) -> LineFault {
        LineFault::NoMemory(error)
    }
}

impl<T: Drop> From<AllocFailed<T>> for LineFault {
    ghost from_gives = { λ _ fault. (error : AllocError) × (fault ≡ NoMemory error) };

    fn from(error: AllocFailed<T>) -> LineFault {
        LineFault::NoMemory(error.into())
    }
}
