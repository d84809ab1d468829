ghost use Rattle.std.specs.Prelude.{◌≡◌, IfOk, OnErr, Some, None};
ghost use Rattle.ak_field.specs.Reading.{fault_number};
ghost use Rattle.ak_field.specs.declared.fault.WireFault.TheVariants.{NoMemory};
ghost use Rattle.std.specs.declared.alloc.AllocError.{AllocError};

use std::alloc::{AllocError, AllocFailed};
use thiserror::Error;

/// Why bytes were not read as a datagram: the first fault from the left. It shows as its code.
#[derive(Clone, Copy, Debug, PartialEq, Eq, Error)]
pub enum WireFault {
    /// A field's bytes are not all there.
    #[error("W1")]
    Short,
    /// The first three bytes are not those of every datagram.
    #[error("W2")]
    Magic,
    /// The version of the format is another.
    #[error("W3")]
    Version,
    /// There is no such kind of message.
    #[error("W4")]
    Kind,
    /// A length is out of its range.
    #[error("W5")]
    Count,
    /// A list does not ascend.
    #[error("W6")]
    Order,
    /// A number or a text is out of its range.
    #[error("W7")]
    Range,
    /// Bytes stand after the last field.
    #[error("W8")]
    Trailing,
    /// Memory ran out.
    #[error("memory")]
    NoMemory(AllocError),
}

impl WireFault {
    /// Its number, from 1 to 8; where memory ran out, which is no fault of the bytes, the error with which it did. Takes no memory.
    pub fn number(&self) -> Result<u8, AllocError>
        ensures number { IfOk result (λ n. fault_number self.now ≡ Some n) }
        ensures memory { OnErr result (fault_number self.now ≡ None) }
    {
        match self {
            WireFault::Short => Ok(1),
            WireFault::Magic => Ok(2),
            WireFault::Version => Ok(3),
            WireFault::Kind => Ok(4),
            WireFault::Count => Ok(5),
            WireFault::Order => Ok(6),
            WireFault::Range => Ok(7),
            WireFault::Trailing => Ok(8),
            WireFault::NoMemory(error) => Err(*error),
        }
    }
}

impl From<AllocError> for WireFault {
    ghost from_gives = { λ error fault. fault ≡ NoMemory error };

    fn from(error: AllocError) -> WireFault {
        WireFault::NoMemory(error)
    }
}

impl<T: Drop> From<AllocFailed<T>> for WireFault {
    ghost from_gives = { λ _ fault. (error : AllocError) × (fault ≡ NoMemory error) };

    fn from(error: AllocFailed<T>) -> WireFault {
        WireFault::NoMemory(error.into())
    }
}
