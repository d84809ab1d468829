// Which addresses a node and what asks one have looked up, and when.
ghost use Rattle.std.specs.Prelude.{None};

use crate::ends::files;
use ak_address::{Address, Text, Unique, parse_address};
use ak_notes::SinkNotes;
use ak_options::Request;
use ak_outside::{Bound, Heard, Link, Looked, MemoryClock, MemoryFolder, MemorySink, Sent, Status};
use ak_report::print_bytes;
use ak_turns::{run_ctl, run_node};
use std::alloc::{AllocError, Global};
use std::test::Fail;

// A link that finds every host but `x`, and keeps a line for each call.
#[derive(Drop)]
struct Told {
    lines: Vec<u8>,
}

fn print_call(what: &[u8], at: Option<&Address>, lines: &mut Vec<u8>) -> Result<(), AllocError> {
    print_bytes(what, lines)?;
    if let Some(at) = at {
        at.print_into(lines)?;
    }
    print_bytes(b"\n", lines)
}

impl Link for Told {
    ghost bound = { λ _. None };

    ghost sends = { λ _. None };

    ghost coming = { λ _. None };

    ghost faults = { λ _. 0 };

    ghost losses = { λ _. 0 };

    fn look_up(&mut self, at: &Address) -> Looked {
        let _kept = print_call(b"look up ", Some(at), &mut self.lines);
        if at.host.bytes() == b"x".as_slice() {
            return Looked::Unknown;
        }
        Looked::Known
    }

    fn bind(&mut self, at: Option<&Address>) -> Bound {
        let _kept = print_call(b"bind ", at, &mut self.lines);
        Bound::Ready
    }

    fn send(&mut self, to: &Address, _bytes: &[u8]) -> Sent {
        let _kept = print_call(b"send ", Some(to), &mut self.lines);
        Sent::Sent
    }

    fn receive(&mut self, _buffer: &mut [u8]) -> Heard {
        let _kept = print_call(b"receive", None, &mut self.lines);
        Heard::Quiet
    }
}

// It joins through a host that is not listed, and knows of one that is not found.
const CONFIG: &[u8] =
    b"self = \"b:1\"\nuid = 1\nlisted = [\"b:1\", \"x:1\"]\nstrategy = \"static-quorum\"\nquorum = 2\njoin = \"a:1\"\ntick-ms = 100\n";

const CALLS: &[u8] =
    b"look up b:1\nlook up x:1\nlook up a:1\nbind b:1\nsend a:1\nreceive\nreceive\nsend a:1\n";

const WARNING: &[u8] =
    b"warning: the name of x:1 was not found: packets to it are lost until the node is started again\n";

#[test]
fn a_node_looks_up_before_its_bind_alone(rt: HostRuntime) -> Result<(), Fail> {
    let mut folder = MemoryFolder::new(rt.alloc(), files(rt.alloc(), CONFIG)?, &[])?;
    let mut link = Told {
        lines: Vec::new(rt.alloc()),
    };
    let mut notes = SinkNotes {
        sink: MemorySink::new(rt.alloc(), &[])?,
    };
    let status = run_node(
        rt.alloc(),
        &Text::from_bytes(rt.alloc(), b"f")?,
        1,
        &mut folder,
        &mut MemorySink::new(rt.alloc(), &[])?,
        &mut link,
        &mut MemoryClock::new(rt.alloc(), &[0, 50, 100])?,
        &mut notes,
    );
    assert!(rt; status == Status::Done);
    assert!(rt; link.lines.as_slice() == CALLS);
    assert!(rt; notes.sink.bytes() == WARNING);
    Ok(())
}

fn leave(alloc: Global) -> Result<Request, AllocError> {
    let host = Text::from_bytes(alloc, b"a")?;
    Ok(Request::Leave(Unique {
        address: Address { host, port: 1 },
        uid: 1,
    }))
}

#[test]
fn what_asks_a_node_looks_it_up(rt: HostRuntime) -> Result<(), Fail> {
    let mut link = Told {
        lines: Vec::new(rt.alloc()),
    };
    let mut output = MemorySink::new(rt.alloc(), &[])?;
    let to = parse_address(rt.alloc(), b"a:1")?;
    let status = run_ctl(rt.alloc(), to, leave(rt.alloc())?, &mut output, &mut link);
    assert!(rt; status == Status::Done && output.bytes() == b"sent\n".as_slice());
    assert!(rt; link.lines.as_slice() == b"look up a:1\nbind \nsend a:1\n".as_slice());
    Ok(())
}
