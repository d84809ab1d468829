ghost use Rattle.std.specs.Prelude.{◌≡◌};
ghost use Rattle.std.specs.declared.alloc.AllocError.{AllocError};
ghost use Rattle.ak_config.specs.declared.fault.ConfigFault.TheVariants.{NoMemory};

use ak_address::Text;
use std::alloc::{AllocError, AllocFailed};
use thiserror::Error;

/// Why bytes are no configuration: the first fault, with the key that it is about. It shows as its code. The faults and their
/// order are this project's choice.
#[derive(Debug, Drop, Error)]
pub enum ConfigFault {
    /// The bytes are no TOML document.
    #[error("C1")]
    NotToml,
    /// A key that must be there is not.
    #[error("C2")]
    Missing(Text),
    /// There is no such key; of several the least in the order of their bytes.
    #[error("C3")]
    Unknown(Text),
    /// The value is of another type.
    #[error("C4")]
    WrongType(Text),
    /// The value is out of its range, an address that is to have the role is not listed, or a name is none of a type.
    #[error("C5")]
    Range(Text),
    /// A text is no address.
    #[error("C6")]
    BadAddress(Text),
    /// The node's own address is not listed.
    #[error("C7")]
    SelfUnlisted(Text),
    /// An address is listed twice, or has the role twice, or a type stands twice.
    #[error("C8")]
    Repeated(Text),
    /// Memory ran out.
    #[error("memory")]
    NoMemory(AllocError),
}

impl From<AllocError> for ConfigFault {
    ghost from_gives = { λ error fault. fault ≡ NoMemory error };

    fn from(error: AllocError) -> ConfigFault {
        ConfigFault::NoMemory(error)
    }
}

impl<T: Drop> From<AllocFailed<T>> for ConfigFault {
    ghost from_gives = { λ _ fault. (error : AllocError) × (fault ≡ NoMemory error) };

    fn from(error: AllocFailed<T>) -> ConfigFault {
        ConfigFault::NoMemory(error.into())
    }
}
