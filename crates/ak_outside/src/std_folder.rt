// The folder that the process runs in, at the edge: a folder over the runtime's files. What is done with a file's bytes is proved
// over any source. What is trusted:
// - that the runtime opens the file of a name, from the folder that the process runs in on, and gives its bytes in their order;
// - that it answers an error exactly where the system does, of the kind `NotFound`, or `NotADirectory` for a name that goes
//   through a file, where no file has the name, and of the kind `Interrupted` for a signal.
ghost use Rattle.std.specs.Prelude.{◌≡◌, ◌↔◌, None, IsTrue, IfOk};
ghost use Rattle.ak_outside.specs.Folder.{FitsMost, HasFailed, ReadsFile};

use crate::folder::{Folder, Loaded};
use crate::reader::{MOST_READ, ReaderSource};
use crate::source::{Read, Source};
use ak_address::Text;
use std::alloc::{AllocError, Global};
use std::io::ErrorKind;
use std::rt::Files;
use std::{fs, io};

// So often an open that was interrupted is tried again.
const MOST_RETRIES: u64 = 100;

/// The files of the system, by their paths. None are known.
#[derive(Drop)]
pub struct StdFolder<'a, R: Files> {
    runtime: &'a R,
    fault_count: u64,
}

impl<'a, R: Files> StdFolder<'a, R> {
    /// The files as the runtime has them. It has not failed.
    pub fn new(rt: &'a R) -> Self
        ensures { ⟦<StdFolder<'a, R> as Folder>⟧.faults result ≡ 0 }
    {
        StdFolder {
            runtime: rt,
            fault_count: 0,
        }
    }

    /// How many loads have failed, at most 2^64 - 1.
    pub fn faults(&self) -> u64
        ensures { result ≡ ⟦<StdFolder<'a, R> as Folder>⟧.faults self.now }
    {
        self.fault_count
    }
}

impl<'a, R: Files> Folder for StdFolder<'a, R> {
    ghost files = { λ _. None };

    ghost faults = { λ s. s.fault_count };

    /// Opens the file and reads it to its end, or past `most` bytes. A name that is not UTF-8 is no file's. An interrupted call is
    /// tried again, an open at most 100 times; another that fails is counted.
    fn load(&mut self, alloc: Global, name: &Text, most: usize) -> Loaded {
        let answer = load_file(self.runtime, alloc, name, most);
        if has_failed(&answer) {
            self.fault_count = self.fault_count.saturating_add(1);
        }
        answer
    }
}

fn has_failed(answer: &Loaded) -> bool
    ensures { IsTrue result ↔ HasFailed answer.now }
{
    match answer {
        Loaded::Failed => true,
        _ => false,
    }
}

fn load_file<R: Files>(rt: &R, alloc: Global, name: &Text, most: usize) -> Loaded
    ensures { FitsMost result most }
{
    let Ok(path) = std::str::from_utf8(name.bytes()) else {
        return Loaded::NoFile;
    };
    match open(rt, path) {
        Ok(file) => read_file(alloc, &mut ReaderSource::over(file), most),
        Err(e) => match e.kind() {
            ErrorKind::NotFound => Loaded::NoFile,
            ErrorKind::NotADirectory => Loaded::NoFile,
            _ => Loaded::Failed,
        },
    }
}

// Opens until the call is not interrupted, or has been tried again so often.
fn open<R: Files>(rt: &R, path: &str) -> io::Result<R::File> {
    'tries: for _ in 0..MOST_RETRIES {
        match fs::open(rt, path) {
            Ok(file) => return Ok(file),
            Err(e) => {
                if e.kind() != ErrorKind::Interrupted {
                    return Err(e);
                }
            }
        }
    }
    fs::open(rt, path)
}

fn read_file<S: Source>(alloc: Global, source: &mut S, most: usize) -> Loaded
    ensures fits { FitsMost result most }
    ensures reads { ReadsFile (S.remaining source.old) most result }
{
    match read_most(alloc, source, most) {
        Ok(answer) => answer,
        Err(error) => error.into(),
    }
}

// All bytes of the source, unless they are more than may be.
fn read_most<S: Source>(alloc: Global, source: &mut S, most: usize) -> Result<Loaded, AllocError>
    ensures fits { IfOk result (λ answer. FitsMost answer most) }
    ensures reads { IfOk result (ReadsFile (S.remaining source.old) most) }
{
    let mut bytes = Vec::new(alloc);
    let mut buffer = vec![in alloc; 0; MOST_READ]?;
    'reads: while bytes.len() <= most {
        match source.read(&mut buffer) {
            Read::Failed => return Ok(Loaded::Failed),
            Read::Got(0) => return Ok(Loaded::Bytes(Text::from_bytes(alloc, &bytes)?)),
            Read::Got(count) => bytes.extend_from_slice(&buffer[..count])?,
        }
    }
    Ok(Loaded::TooLarge)
}
