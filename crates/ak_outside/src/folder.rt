// Where named files are.
ghost use Rattle.std.specs.Prelude.{◌≡◌, ℕ, ◌≤◌, List, Option, IfSome};
ghost use Rattle.ak_outside.specs.declared.folder.MemoryFile.{MemoryFile};
ghost use Rattle.ak_outside.specs.declared.folder.Loaded.TheVariants.{NoMemory};
ghost use Rattle.ak_outside.specs.Folder.{GivesFile, FitsMost, LoadCause};

use ak_address::Text;
use std::alloc::{AllocError, Global};

/// A file by its name, with its bytes.
#[derive(Debug, Drop)]
pub struct MemoryFile {
    pub name: Text,
    pub bytes: Text,
}

/// The answer of a load.
#[derive(Debug, Drop)]
pub enum Loaded {
    /// The bytes of the file, no more than were asked for.
    Bytes(Text),
    /// The file has more bytes.
    TooLarge,
    /// No file has the name.
    NoFile,
    /// The folder has failed and counted it.
    Failed,
    /// Memory ran out.
    NoMemory(AllocError),
}

impl From<AllocError> for Loaded {
    ghost from_gives = { λ error loaded. loaded ≡ NoMemory error };

    fn from(error: AllocError) -> Loaded {
        Loaded::NoMemory(error)
    }
}

/// Files by their names. Each fault is counted; that there is no file, or a file that is too large, is none: this project's choice.
pub trait Folder {
    /// The files, where they are known.
    ghost files: { Self → Option (List MemoryFile) };

    /// How often the folder has failed. It never falls; kept as a `u64` it stays at 2^64 - 1 once there.
    ghost faults: { Self → ℕ };

    /// The bytes of the file of this name, at most `most`: `NoFile` exactly where no file has the name, `TooLarge` exactly where
    /// it has more bytes. `Failed` comes only where the count of faults rose in this call, or stands at 2^64 - 1 after it, and
    /// the others leave it. The files stay as they are.
    fn load(&mut self, alloc: Global, name: &Text, most: usize) -> Loaded
        ensures count { faults self.old ≤ faults self.new }
        ensures cause { LoadCause (faults self.old) (faults self.new) result }
        ensures fits { FitsMost result most }
        ensures kept { files self.new ≡ files self.old }
        ensures file { IfSome (files self.old) (λ all. GivesFile all name.now most result) };
}
