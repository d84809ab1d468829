//! The edge to the outside: where bytes come from and go to, with a count of the faults, and the
//! exit status of a run. A program is proved over the traits. They have the implementations below: in
//! memory, over any reader or writer, and at the real edge, where the runtime's own reader and writer are
//! trusted and no bytes are known.
#![tactic(auto)]

mod arguments;
mod calls;
mod clock;
mod ending;
mod folder;
mod lines;
mod link;
mod memory;
mod memory_folder;
mod memory_link;
mod reader;
mod sink;
mod source;
mod standard;
mod status;
mod std_clock;
mod std_folder;
mod steady;
mod tries;
mod writer;

pub use arguments::{Arguments, MemoryArguments, StdArguments};
pub use clock::{Clock, MemoryClock};
pub use ending::{out_of_memory, written};
pub use folder::{Folder, Loaded, MemoryFile};
pub use lines::{LineReader, Next};
pub use link::{Bound, Heard, Link, Looked, Sent, Taken};
pub use memory::{MemorySink, MemorySource};
pub use memory_folder::MemoryFolder;
pub use memory_link::MemoryLink;
pub use reader::{MOST_READ, ReaderSource};
pub use sink::{Sink, Wrote, write_all};
pub use source::{Read, Source};
pub use standard::{StdSink, StdSource};
pub use status::Status;
pub use std_clock::StdClock;
pub use std_folder::StdFolder;
pub use steady::{SteadySink, SteadySource};
pub use writer::WriterSink;
