use crate::ends::{Given, Wanted, comes_to};
use ak_outside::Status;
use std::test::Fail;

const FOUNDER: &[u8] =
    b"self = \"a:1\"\nuid = 1\nlisted = [\"a:1\"]\nstrategy = \"static-quorum\"\nquorum = 1\nfound = true\ntick-ms = 100\n";

const JOINER: &[u8] =
    b"self = \"b:1\"\nuid = 1\nlisted = [\"a:1\", \"b:1\"]\nstrategy = \"static-quorum\"\nquorum = 2\njoin = \"a:1\"\ntick-ms = 100\n";

const NOTHING: Wanted<'static> = Wanted {
    status: Status::Done,
    text: b"",
    asked: 0,
    taken: 0,
};

// A founder over a link over which nothing comes and a clock that stands.
const QUIET: Given<'static> = Given {
    config: FOUNDER,
    ticks: 0,
    packets: &[],
    readings: &[],
    loads: &[],
    binds: &[],
    sends: &[],
    receives: &[],
    writes: &[],
};

#[test]
fn a_receive_fails(rt: HostRuntime) -> Result<(), Fail> {
    let given = Given {
        ticks: 2,
        packets: &[b"AKC", b""],
        readings: &[0, 100, 150],
        receives: &[3],
        ..QUIET
    };
    let wanted = Wanted {
        status: Status::Link,
        text: b"1 found a:1#1\n  update 1 joined a:1#1\n  view a:1#1=1 | a:1#1 joining | -\n2 bad W1\n3 tick\n  update 2 up a:1#1 1\n  view a:1#1=2 | a:1#1 up 1 | -\n  settled a:1#1=2\nerror 8 link\n",
        ..NOTHING
    };
    assert!(rt; comes_to(rt.alloc(), b"f", &given, &wanted)?);
    Ok(())
}

#[test]
fn a_send_fails(rt: HostRuntime) -> Result<(), Fail> {
    let given = Given {
        config: JOINER,
        readings: &[0, 100, 150],
        sends: &[1],
        ..QUIET
    };
    let wanted = Wanted {
        text: b"1 join b:1#1 a:1\n  send 1 join to a:1\n  lost 1\nsteps 1\npackets 1\n",
        asked: 1,
        ..NOTHING
    };
    assert!(rt; comes_to(rt.alloc(), b"f", &given, &wanted)?);
    let taken = Given {
        sends: &[],
        ..given
    };
    let wanted = Wanted {
        text: b"1 join b:1#1 a:1\n  send 1 join to a:1\nsteps 1\npackets 1\n",
        taken: 1,
        ..wanted
    };
    assert!(rt; comes_to(rt.alloc(), b"f", &taken, &wanted)?);
    Ok(())
}

// A join from an address that is not listed.
const STRANGER: &[u8] =
    b"AKC\x01\x01\x01x\x00\x01\x00\x00\x00\x00\x00\x00\x00\x01\x01a\x00\x01\x00\x00\x00\x00\x00\x00\x00\x00";

// A heartbeat for another uid.
const ELSEWHERE: &[u8] =
    b"AKC\x01\x04\x01x\x00\x01\x00\x00\x00\x00\x00\x00\x00\x01\x01a\x00\x01\x00\x00\x00\x00\x00\x00\x00\x09";

// A gossip that counts two updates of the receiver, which has made one.
const FOREIGN: &[u8] =
    b"AKC\x01\x03\x01x\x00\x01\x00\x00\x00\x00\x00\x00\x00\x01\x01a\x00\x01\x00\x00\x00\x00\x00\x00\x00\x01\x01\x01a\x00\x01\x00\x00\x00\x00\x00\x00\x00\x01\x00\x00\x00\x00\x00\x00\x00\x02\x01\x00\x00\x00\x00\x00\x00\x00\x00\x00\x00\x00\x00\x00\x00\x00\x00\x00";

// The join, of a kind that there is not.
const UNKNOWN_KIND: &[u8] =
    b"AKC\x01\x1a\x01x\x00\x01\x00\x00\x00\x00\x00\x00\x00\x01\x01a\x00\x01\x00\x00\x00\x00\x00\x00\x00\x00";

// The join, and a byte more.
const BYTE_MORE: &[u8] =
    b"AKC\x01\x01\x01x\x00\x01\x00\x00\x00\x00\x00\x00\x00\x01\x01a\x00\x01\x00\x00\x00\x00\x00\x00\x00\x00\x00";

#[test]
fn hostile_packets_change_nothing(rt: HostRuntime) -> Result<(), Fail> {
    let given = Given {
        ticks: 1,
        packets: &[STRANGER, ELSEWHERE, FOREIGN],
        readings: &[0, 0, 0, 0, 100],
        ..QUIET
    };
    let wanted = Wanted {
        text: b"1 found a:1#1\n  update 1 joined a:1#1\n  view a:1#1=1 | a:1#1 joining | -\n2 packet\n  at a:1#1 join from x:1#1\n  refused N4\n3 packet\n  dead\n4 packet\n  at a:1#1 gossip from x:1#1\n  refused N5\n5 tick\n  update 2 up a:1#1 1\n  view a:1#1=2 | a:1#1 up 1 | -\n  settled a:1#1=2\nsteps 5\npackets 0\n",
        ..NOTHING
    };
    assert!(rt; comes_to(rt.alloc(), b"f", &given, &wanted)?);
    let more = Given {
        packets: &[STRANGER, ELSEWHERE, FOREIGN, UNKNOWN_KIND, BYTE_MORE],
        readings: &[0, 0, 0, 0, 0, 0, 100],
        ..given
    };
    let wanted = Wanted {
        text: b"1 found a:1#1\n  update 1 joined a:1#1\n  view a:1#1=1 | a:1#1 joining | -\n2 packet\n  at a:1#1 join from x:1#1\n  refused N4\n3 packet\n  dead\n4 packet\n  at a:1#1 gossip from x:1#1\n  refused N5\n5 bad W4\n6 bad W8\n7 tick\n  update 2 up a:1#1 1\n  view a:1#1=2 | a:1#1 up 1 | -\n  settled a:1#1=2\nsteps 7\npackets 0\n",
        ..wanted
    };
    assert!(rt; comes_to(rt.alloc(), b"f", &more, &wanted)?);
    Ok(())
}

const FOUND: &[u8] =
    b"1 found a:1#1\n  update 1 joined a:1#1\n  view a:1#1=1 | a:1#1 joining | -\nerror 9 turns\n";

#[test]
fn a_clock_that_stands_ends_a_node(rt: HostRuntime) -> Result<(), Fail> {
    let given = Given { ticks: 1, ..QUIET };
    let wanted = Wanted {
        status: Status::Turns,
        text: FOUND,
        ..NOTHING
    };
    assert!(rt; comes_to(rt.alloc(), b"f", &given, &wanted)?);
    Ok(())
}

// A reading below an earlier one counts as the earlier one: so the second tick is due at 250 alone.
#[test]
fn time_does_not_go_back(rt: HostRuntime) -> Result<(), Fail> {
    let given = Given {
        config: b"self = \"a:1\"\nuid = 1\nlisted = [\"a:1\"]\nstrategy = \"down-all\"\ntick-ms = 100\n",
        ticks: 2,
        packets: &[b"", b"", b"", b"AKC", b"AKC"],
        readings: &[50, 150, 60, 200, 249, 250],
        ..QUIET
    };
    let wanted = Wanted {
        text: b"1 tick\n2 bad W1\n3 bad W1\n4 tick\nsteps 4\npackets 0\n",
        ..NOTHING
    };
    assert!(rt; comes_to(rt.alloc(), b"f", &given, &wanted)?);
    Ok(())
}

fn ends_so(status: Status, text: &'static [u8]) -> Wanted<'static> {
    Wanted {
        status,
        text,
        ..NOTHING
    }
}

#[test]
fn faults_end_a_node(rt: HostRuntime) -> Result<(), Fail> {
    let alloc = rt.alloc();
    let missing = ends_so(Status::Configuration, b"error 3 C9\n");
    assert!(rt; comes_to(alloc, b"g", &QUIET, &missing)?);
    let read = Given {
        loads: &[1],
        ..QUIET
    };
    assert!(rt;
        comes_to(
            alloc,
            b"f",
            &read,
            &ends_so(Status::Read, b"error 5 read\n")
        )?
    );
    let bind = Given {
        binds: &[1],
        ..QUIET
    };
    assert!(rt;
        comes_to(
            alloc,
            b"f",
            &bind,
            &ends_so(Status::Link, b"error 8 link\n")
        )?
    );
    let write = Given {
        writes: &[1],
        ..QUIET
    };
    assert!(rt; comes_to(alloc, b"f", &write, &ends_so(Status::Write, b""))?);
    Ok(())
}

#[test]
fn configurations_are_refused(rt: HostRuntime) -> Result<(), Fail> {
    let alloc = rt.alloc();
    let keyless = Given {
        config: b"self = \"a:1\"\n",
        ..QUIET
    };
    let wanted = ends_so(Status::Configuration, b"error 3 C2 uid\n");
    assert!(rt; comes_to(alloc, b"f", &keyless, &wanted)?);
    let no_toml = Given {
        config: b"uid =\n",
        ..QUIET
    };
    let wanted = ends_so(Status::Configuration, b"error 3 C1\n");
    assert!(rt; comes_to(alloc, b"f", &no_toml, &wanted)?);
    let large = vec![in alloc; b'#'; 65_537]?;
    let too_large = Given {
        config: &large,
        ..QUIET
    };
    let wanted = ends_so(Status::Configuration, b"error 3 C10\n");
    assert!(rt; comes_to(alloc, b"f", &too_large, &wanted)?);
    Ok(())
}
