// A folder in memory, whose loads fail where they are listed.
ghost use Rattle.std.specs.Prelude.{◌≡◌, ◌≤◌, Some, IfOk, option_map};
ghost use Rattle.std.specs.Bool.{OnTrue, OnFalse};
ghost use Rattle.ak_outside.specs.Folder.{content, FoundSo, GivesFile, FitsMost, LoadCause};
ghost use Rattle.ak_outside.specs.MemoryLink.{fails_next, LoadDone, LoadFailed};

use crate::calls::Calls;
use crate::folder::{Folder, Loaded, MemoryFile};
use ak_address::Text;
use std::alloc::{AllocError, Global};
use std::marker::Model;

/// A folder that has its files in memory. Callers see a `Shelf`; the files are known.
#[derive(Drop)]
pub struct MemoryFolder {
    all: Vec<MemoryFile>,
    calls: Calls,
    fault_count: u64,
}

impl Model for MemoryFolder {
    ghost use Rattle.ak_outside.specs.MemoryLink.{Shelf};

    ghost Value = { Shelf };

    ghost view = { λ s. record { files = s.all.items; loads = s.calls; faults = s.fault_count } };
}

impl MemoryFolder {
    /// A folder of these files; of two with one name the first counts. The loads whose numbers, counted from 1, stand in
    /// `failing` fail; a load's number stays at 2^64 - 1 once there.
    pub fn new(
        alloc: Global,
        files: Vec<MemoryFile>,
        failing: &[u64],
    ) -> Result<MemoryFolder, AllocError>
        ensures { IfOk result (λ s. s ≡ record { files = files.items; loads = record { failing = failing.now; made = 0 }; faults = 0 }) }
    {
        let calls = Calls::new(alloc, failing)?;
        Ok(MemoryFolder {
            all: files,
            calls,
            fault_count: 0,
        })
    }

    /// How many loads have failed, at most 2^64 - 1.
    pub fn faults(&self) -> u64
        ensures { result ≡ self.now.faults }
    {
        self.fault_count
    }
}

impl Folder for MemoryFolder {
    ghost files = { λ s. Some s.files };

    ghost faults = { λ s. s.faults };

    /// Fails exactly where the number of the call is listed.
    fn load(&mut self, alloc: Global, name: &Text, most: usize) -> Loaded
        ensures count { self.old.faults ≤ self.new.faults }
        ensures cause { LoadCause self.old.faults self.new.faults result }
        ensures fits { FitsMost result most }
        ensures kept { Some self.new.files ≡ Some self.old.files }
        ensures file { GivesFile self.old.files name.now most result }
        ensures listed { OnTrue (fails_next self.old.loads) (LoadFailed self.old self.new result) }
        ensures unlisted { OnFalse (fails_next self.old.loads) (LoadDone self.old self.new result) }
    {
        if self.calls.next_fails() {
            self.fault_count = self.fault_count.saturating_add(1);
            return Loaded::Failed;
        }
        found(alloc, &self.all, name, most)
    }
}

// The bytes of the first file of that name.
fn found(alloc: Global, files: &[MemoryFile], name: &Text, most: usize) -> Loaded
    ensures fits { FitsMost result most }
    ensures file { GivesFile files.now name.now most result }
    ensures sound { FoundSo result }
{
    let Some(bytes) = content(files, name) else {
        return Loaded::NoFile;
    };
    if bytes.bytes().len() > most {
        return Loaded::TooLarge;
    }
    match bytes.copy(alloc) {
        Ok(bytes) => Loaded::Bytes(bytes),
        Err(error) => error.into(),
    }
}

fn content<'a>(files: &'a [MemoryFile], name: &Text) -> Option<&'a Text>
    ensures { option_map (λ bytes. bytes.now) result ≡ content name.now files.now }
{
    'files: for file in files {
        if file.name.is(name) {
            return Some(&file.bytes);
        }
    }
    None
}
