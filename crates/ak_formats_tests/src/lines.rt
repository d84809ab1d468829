use ak_address::{Address, Text, parse_address};
use ak_schedule::{Draft, Event, LineFault, print_event, read_line};
use ak_settings::{Settings, Strategy};
use std::alloc::{AllocError, Global};
use std::test::Fail;

fn print_copy(copy: &Result<Event, AllocError>, out: &mut Vec<u8>) -> Result<(), Fail> {
    match copy {
        Ok(event) => Ok(print_event(event, out)?),
        Err(_) => Err("out of memory")?,
    }
}

fn print_copy_of(alloc: Global, event: &Event, out: &mut Vec<u8>) -> Result<(), Fail> {
    print_copy(&event.copy(alloc), out)
}

fn print_code(alloc: Global, fault: &LineFault, out: &mut Vec<u8>) -> Result<(), Fail> {
    let code = format!(in alloc; "{fault}")?;
    Ok(out.extend_from_slice(code.as_bytes())?)
}

// Whether a copy of the event is printed so, or the fault has this code.
fn shows(alloc: Global, read: &Result<Event, LineFault>, wanted: &str) -> Result<bool, Fail> {
    let mut out = Vec::new(alloc);
    match read {
        Ok(event) => print_copy_of(alloc, event, &mut out)?,
        Err(fault) => print_code(alloc, fault, &mut out)?,
    }
    Ok(out.as_slice() == wanted.as_bytes())
}

fn reads_as(alloc: Global, line: &str, wanted: &str) -> Result<bool, Fail> {
    shows(alloc, &read_line(alloc, line.as_bytes()), wanted)
}

// A line, and what it reads as.
static LINES: [(&str, &str); 27] = [
    ("start n1:1#1", "start n1:1#1"),
    ("  found  n1:01#0001 ", "found n1:1#1"),
    ("join n2:1#2 n1:00001", "join n2:1#2 n1:1"),
    ("tick n1:1#1 0", "tick n1:1#1 0"),
    ("tick n1:1#1 4294967295", "tick n1:1#1 4294967295"),
    ("tick n1:1#1 4294967296", "S1"),
    ("deliver 00000000000000000007", "deliver 7"),
    ("deliver 000000000000000000007", "S1"),
    ("deliver 9223372036854775807", "deliver 9223372036854775807"),
    ("deliver 9223372036854775808", "S1"),
    ("leave n1:1#1 n2:1#2", "leave n1:1#1 n2:1#2"),
    ("down n1:1#1 n2:1#2", "down n1:1#1 n2:1#2"),
    ("offer n1:1#1 !~# 5", "offer n1:1#1 !~# 5"),
    ("offer n1:1#1 e\u{7f} 5", "S1"),
    (
        "offer n1:1#1 0123456789012345678901234567890123456789012345678901234567890123 0",
        "offer n1:1#1 0123456789012345678901234567890123456789012345678901234567890123 0",
    ),
    // Which settings it is an entity of is not asked yet.
    (
        "offer n1:1#1 0000000000000000000000000000000000000000000000000000000000000000000000000000000000000000000000000 0",
        "offer n1:1#1 0000000000000000000000000000000000000000000000000000000000000000000000000000000000000000000000000 0",
    ),
    (
        "offer n1:1#1 00000000000000000000000000000000000000000000000000000000000000000000000000000000000000000000000000 0",
        "S1",
    ),
    ("stop n1:1#1", "stop n1:1#1"),
    ("stop\tn1:1#1", "S1"),
    ("stop n1:1#1\t", "S1"),
    ("stop n1:1#1 n1:1#1", "S1"),
    ("Stop n1:1#1", "S1"),
    ("stop n1:1", "S1"),
    ("join n2:1#2 n1:1#1", "S1"),
    ("margin 6", "S1"),
    ("", "S1"),
    ("# start n1:1#1", "S1"),
];

#[test]
fn events_are_read_copied_and_printed(rt: HostRuntime) -> Result<(), Fail> {
    for (line, wanted) in &LINES {
        assert!(rt; reads_as(rt.alloc(), line, wanted)?, "{line}");
    }
    Ok(())
}

const HEADER_LINES: [&str; 9] = [
    "listed n1:1 n2:1",
    "strategy static-quorum 2",
    "margin 6",
    "deadline 5",
    "stable 4",
    "shards 10",
    "buffer 7",
    "threshold 3",
    "limit 2",
];

// The settings of nine header lines, one of them another; or how many are read before the refused one.
fn settings_with(alloc: Global, index: usize, other: &str) -> Result<Settings, usize> {
    let mut draft = Draft::new(alloc);
    'headers: for (i, usual) in HEADER_LINES.iter().enumerate() {
        let line = if i == index { other } else { *usual };
        let Ok(done) = draft.header(alloc, line.as_bytes()) else {
            return Err(i);
        };
        if done {
            return draft.finish().map_err(|_| i);
        }
    }
    Err(HEADER_LINES.len())
}

// The index of a header line, and another line there.
static ACCEPTED: [(usize, &str); 22] = [
    (0, "listed a:1"),
    (
        0,
        "listed a:1 a:2 a:3 a:4 a:5 a:6 a:7 a:8 b:1 b:2 b:3 b:4 b:5 b:6 b:7 b:8 c:1 c:2 c:3 c:4 c:5 c:6 c:7 c:8 d:1 d:2 d:3 d:4 d:5 d:6 d:7 d:8",
    ),
    (1, "strategy static-quorum 1"),
    (1, "strategy static-quorum 32"),
    (1, "strategy keep-majority"),
    (1, "strategy keep-oldest on"),
    (1, " strategy  keep-oldest  off "),
    (1, "  strategy   down-all "),
    (2, "margin 1"),
    (2, "margin 1000000"),
    (3, "deadline 1"),
    (3, "deadline 1000000"),
    (4, "stable 1"),
    (4, "stable 0001000000"),
    (5, "shards 1"),
    (5, "shards 1000"),
    (6, "buffer 1"),
    (6, "buffer 100000"),
    (7, "threshold 1"),
    (7, "threshold 1000"),
    (8, "limit 1"),
    (8, "limit 1000"),
];

static REFUSED: [(usize, &str); 36] = [
    (0, "listed"),
    (0, "listed a:1 b:1 a:01"),
    (0, "listed a:1 b"),
    (
        0,
        "listed a:1 a:2 a:3 a:4 a:5 a:6 a:7 a:8 b:1 b:2 b:3 b:4 b:5 b:6 b:7 b:8 c:1 c:2 c:3 c:4 c:5 c:6 c:7 c:8 d:1 d:2 d:3 d:4 d:5 d:6 d:7 d:8 e:1",
    ),
    (0, "strategy down-all"),
    (1, "strategy static-quorum 0"),
    (1, "strategy static-quorum 33"),
    (1, "strategy static-quorum"),
    (1, "strategy keep-majority 1"),
    (1, "strategy keep-majority on"),
    (1, "strategy down-all off"),
    (1, "strategy static-quorum on"),
    (1, "strategy keep-oldest"),
    (1, "strategy keep-oldest 1"),
    (1, "strategy keep-oldest true"),
    (1, "strategy keep-oldest On"),
    (1, "strategy keep-oldest on off"),
    (1, "strategy keep-oldests on"),
    (1, "margin 6"),
    (2, "margin 0"),
    (2, "margin 1000001"),
    (2, "margin 6 6"),
    (2, "margin"),
    (3, "deadline 0"),
    (3, "deadline 1000001"),
    (4, "stable 0"),
    (4, "stable 1000001"),
    (5, "shards 0"),
    (5, "shards 1001"),
    (6, "buffer 0"),
    (6, "buffer 100001"),
    (7, "threshold 0"),
    (7, "threshold 1001"),
    (8, "limit 0"),
    (8, "limit 1001"),
    (8, "limit\t1"),
];

#[test]
fn headers_are_read_in_their_order_and_ranges(rt: HostRuntime) -> Result<(), Fail> {
    for (index, line) in &ACCEPTED {
        assert!(rt; settings_with(rt.alloc(), *index, line).is_ok());
    }
    for (index, line) in &REFUSED {
        assert_eq!(rt; settings_with(rt.alloc(), *index, line).err(), Some(*index));
    }
    Ok(())
}

// The strategy of a header line, if it is one.
fn strategy_of(alloc: Global, line: &str) -> Option<Strategy> {
    match settings_with(alloc, 1, line) {
        Ok(settings) => Some(settings.strategy),
        Err(_) => None,
    }
}

#[test]
fn strategies_are_those_of_their_lines(rt: HostRuntime) -> Result<(), Fail> {
    for (line, wanted) in [
        ("strategy static-quorum 1", Strategy::StaticQuorum(1)),
        ("strategy static-quorum 32", Strategy::StaticQuorum(32)),
        ("strategy keep-majority", Strategy::KeepMajority),
        ("strategy keep-oldest on", Strategy::KeepOldest(true)),
        ("strategy keep-oldest off", Strategy::KeepOldest(false)),
        ("strategy down-all", Strategy::DownAll),
    ] {
        assert!(rt; strategy_of(rt.alloc(), line) == Some(wanted), "{line}");
    }
    Ok(())
}

// How many addresses are listed, the quorum, and then the settings in their order.
fn numbers(settings: &Settings) -> [usize; 9] {
    [
        settings.listed.len(),
        settings.settling() as usize,
        settings.margin as usize,
        settings.deadline as usize,
        settings.stable as usize,
        settings.shards as usize,
        settings.buffer as usize,
        settings.threshold as usize,
        settings.limit as usize,
    ]
}

// Whether the address is listed, and whether it has the role.
fn knows(alloc: Global, settings: &Settings, address: &str) -> Result<(bool, bool), Fail> {
    let at = parse_address(alloc, address.as_bytes())?;
    Ok((settings.is_listed(&at), settings.has_role(&at)))
}

// A copy of the settings that all nine usual lines make.
fn usual(alloc: Global) -> Result<Settings, Fail> {
    match settings_with(alloc, 0, HEADER_LINES[0]) {
        Ok(settings) => Ok(settings.copy(alloc)?),
        Err(_) => Err("refused")?,
    }
}

#[test]
fn settings_are_those_of_the_lines(rt: HostRuntime) -> Result<(), Fail> {
    let settings = usual(rt.alloc())?;
    assert_eq!(rt; numbers(&settings), [2, 2, 6, 5, 4, 10, 7, 3, 2]);
    assert_eq!(rt; settings.strategy, Strategy::StaticQuorum(2));
    assert!(rt; knows(rt.alloc(), &settings, "n2:1")? == (true, true));
    assert!(rt; knows(rt.alloc(), &settings, "n2:2")? == (false, false));
    Ok(())
}

// What the settings of the nine lines and of a role of the second address know of it and of the first.
fn known_with_role(alloc: Global) -> Result<[(bool, bool); 2], Fail> {
    let mut draft = draft_with(alloc, HEADER_LINES[0])?;
    read_later(alloc, &mut draft, "role n2:1");
    match draft.finish() {
        Ok(settings) => Ok([
            knows(alloc, &settings, "n1:1")?,
            knows(alloc, &settings, "n2:1")?,
        ]),
        Err(_) => Err("refused")?,
    }
}

#[test]
fn an_address_without_the_role_is_listed(rt: HostRuntime) -> Result<(), Fail> {
    assert!(rt; known_with_role(rt.alloc())? == [(true, false), (true, true)]);
    Ok(())
}

// Optional headers after the nine, what came of the last one, how long a member waits then, and which addresses have the role.
type Later = (&'static [&'static str], Read, u32, &'static [&'static str]);

// What comes of a line after the ninth header.
#[derive(Clone, Copy, PartialEq, Eq)]
enum Read {
    // It is an optional header.
    Header,
    // It is none.
    None,
    Refused,
}

static LATER: [Later; 11] = [
    (&["weakly 3"], Read::Header, 3, &["n1:1", "n2:1"]),
    (&["weakly 0"], Read::Header, 0, &["n1:1", "n2:1"]),
    (
        &["  weakly  0001000000 "],
        Read::Header,
        1000000,
        &["n1:1", "n2:1"],
    ),
    (&["weakly 1000001"], Read::Refused, 0, &["n1:1", "n2:1"]),
    (&["weakly -1"], Read::Refused, 0, &["n1:1", "n2:1"]),
    (&["weakly"], Read::Refused, 0, &["n1:1", "n2:1"]),
    (&["weakly 3 3"], Read::Refused, 0, &["n1:1", "n2:1"]),
    (
        &["weakly 3", "weakly 4"],
        Read::Refused,
        3,
        &["n1:1", "n2:1"],
    ),
    (
        &["weakly 3", "weaklyup 4"],
        Read::None,
        3,
        &["n1:1", "n2:1"],
    ),
    (&["limit 2"], Read::None, 0, &["n1:1", "n2:1"]),
    (&["start n1:1#1"], Read::None, 0, &["n1:1", "n2:1"]),
];

static ROLES: [Later; 25] = [
    (&["role n1:1"], Read::Header, 0, &["n1:1"]),
    (&["role n1:1 n2:1"], Read::Header, 0, &["n1:1", "n2:1"]),
    (&["role n2:1 n1:1"], Read::Header, 0, &["n2:1", "n1:1"]),
    (&["  role   n2:0001 "], Read::Header, 0, &["n2:1"]),
    (&["weakly 3", "role n2:1"], Read::Header, 3, &["n2:1"]),
    (&["role"], Read::Refused, 0, &["n1:1", "n2:1"]),
    (&["role n1:1 n1:1"], Read::Refused, 0, &["n1:1", "n2:1"]),
    (
        &["role n1:1 n2:1 n1:01"],
        Read::Refused,
        0,
        &["n1:1", "n2:1"],
    ),
    (&["role z:1"], Read::Refused, 0, &["n1:1", "n2:1"]),
    (&["role n1:1 n3:1"], Read::Refused, 0, &["n1:1", "n2:1"]),
    (&["role n1:2"], Read::Refused, 0, &["n1:1", "n2:1"]),
    (&["role n1"], Read::Refused, 0, &["n1:1", "n2:1"]),
    (&["role n1:1#1"], Read::Refused, 0, &["n1:1", "n2:1"]),
    (&["role 1"], Read::Refused, 0, &["n1:1", "n2:1"]),
    (&["role n1:1,n2:1"], Read::Refused, 0, &["n1:1", "n2:1"]),
    (&["role\tn1:1"], Read::None, 0, &["n1:1", "n2:1"]),
    (&["roles n1:1"], Read::None, 0, &["n1:1", "n2:1"]),
    (&["Role n1:1"], Read::None, 0, &["n1:1", "n2:1"]),
    (&["listed n1:1"], Read::None, 0, &["n1:1", "n2:1"]),
    // Twice, and out of order.
    (&["role n1:1", "role n1:1"], Read::Refused, 0, &["n1:1"]),
    (&["role n1:1", "role n2:1"], Read::Refused, 0, &["n1:1"]),
    (&["role n1:1", "weakly 3"], Read::Refused, 0, &["n1:1"]),
    (
        &["weakly 3", "role n1:1", "weakly 3"],
        Read::Refused,
        3,
        &["n1:1"],
    ),
    // What is refused leaves nothing behind.
    (&["role n2:1 z:1", "role n1:1"], Read::Header, 0, &["n1:1"]),
    (
        &["role n2:1 z:1", "weakly 3"],
        Read::Header,
        3,
        &["n1:1", "n2:1"],
    ),
];

// Optional headers after the nine, what came of the last one, and the types then.
type Typed = (&'static [&'static str], Read, &'static [&'static str]);

static TYPES: [Typed; 23] = [
    (&["types order"], Read::Header, &["order"]),
    (
        &["  types  user   order "],
        Read::Header,
        &["user", "order"],
    ),
    (&["types Az-_09"], Read::Header, &["Az-_09"]),
    (
        &["types a b c d e f g h"],
        Read::Header,
        &["a", "b", "c", "d", "e", "f", "g", "h"],
    ),
    (&["types a b c d e f g h i"], Read::Refused, &[]),
    (
        &["types 01234567890123456789012345678901"],
        Read::Header,
        &["01234567890123456789012345678901"],
    ),
    (
        &["types 012345678901234567890123456789012"],
        Read::Refused,
        &[],
    ),
    (&["types"], Read::Refused, &[]),
    (&["types order order"], Read::Refused, &[]),
    (&["types order/1"], Read::Refused, &[]),
    (&["types order.1"], Read::Refused, &[]),
    (&["types order,user"], Read::Refused, &[]),
    (&["types a:1"], Read::Refused, &[]),
    (&["type order"], Read::None, &[]),
    (&["Types order"], Read::None, &[]),
    (&["types\torder"], Read::None, &[]),
    // Twice, and out of order.
    (&["types order", "types order"], Read::Refused, &["order"]),
    (&["types order", "role n1:1"], Read::Refused, &["order"]),
    (&["types order", "weakly 3"], Read::Refused, &["order"]),
    (
        &["weakly 3", "role n1:1", "types order"],
        Read::Header,
        &["order"],
    ),
    (
        &["weakly 3", "types order", "weakly 3"],
        Read::Refused,
        &["order"],
    ),
    // What is refused leaves nothing behind.
    (
        &["types user user", "types order"],
        Read::Header,
        &["order"],
    ),
    (&["types user user", "role n1:1"], Read::Header, &[]),
];

// Nothing is asked of a draft without its nine headers, or of a line that is too long.
fn read_later(alloc: Global, draft: &mut Draft, line: &str) -> Read {
    let line = line.as_bytes();
    if draft.headers_read() != 9 || line.len() > 4096 {
        return Read::None;
    }
    match draft.extra(alloc, line) {
        Ok(true) => Read::Header,
        Ok(false) => Read::None,
        Err(_) => Read::Refused,
    }
}

// A draft of nine headers, of which the first is this one.
fn draft_with(alloc: Global, listed: &str) -> Result<Draft, LineFault> {
    let mut draft = Draft::new(alloc);
    draft.header(alloc, listed.as_bytes())?;
    'headers: for line in &HEADER_LINES[1..] {
        if draft.headers_read() < 9 {
            draft.header(alloc, line.as_bytes())?;
        }
    }
    Ok(draft)
}

fn last_read(alloc: Global, draft: &mut Draft, lines: &[&str]) -> Read {
    let mut last = Read::None;
    'lines: for line in lines {
        last = read_later(alloc, draft, line);
    }
    last
}

fn is_address(alloc: Global, address: Option<&Address>, name: &str) -> Result<bool, Fail> {
    let wanted = parse_address(alloc, name.as_bytes())?;
    match address {
        Some(address) => Ok(address.compare(&wanted).is_eq()),
        None => Ok(false),
    }
}

// Whether these are the addresses of a role, in this order.
fn is_role(alloc: Global, role: &[Address], names: &[&str]) -> Result<bool, Fail> {
    for (index, name) in names.iter().enumerate() {
        if !is_address(alloc, role.get(index), name)? {
            return Ok(false);
        }
    }
    Ok(role.len() == names.len())
}

// Whether a copy of the settings has that waiting time and that role.
fn are_so(alloc: Global, settings: &Settings, later: &Later) -> Result<bool, Fail> {
    let copy = settings.copy(alloc)?;
    Ok(copy.weakly == later.2 && is_role(alloc, &copy.role, later.3)?)
}

fn goes_on(alloc: Global, later: &Later) -> Result<bool, Fail> {
    let mut draft = draft_with(alloc, HEADER_LINES[0])?;
    let last = last_read(alloc, &mut draft, later.0);
    match draft.finish() {
        Ok(settings) => Ok(last == later.1 && are_so(alloc, &settings, later)?),
        Err(_) => Ok(false),
    }
}

// Whether these are the types, in this order.
fn are_types(types: &[Text], names: &[&str]) -> bool {
    for (index, name) in names.iter().enumerate() {
        let Some(each) = types.get(index) else {
            return false;
        };
        if each.bytes() != name.as_bytes() {
            return false;
        }
    }
    types.len() == names.len()
}

// Whether a copy of the settings has these types, with ten shards for each.
fn are_typed(alloc: Global, settings: &Settings, names: &[&str]) -> Result<bool, Fail> {
    let copy = settings.copy(alloc)?;
    let many = copy.number_of_shards() as usize;
    Ok(are_types(&copy.types, names) && many / 10 == names.len().max(1))
}

fn has_types(alloc: Global, typed: &Typed) -> Result<bool, Fail> {
    let mut draft = draft_with(alloc, HEADER_LINES[0])?;
    let last = last_read(alloc, &mut draft, typed.0);
    match draft.finish() {
        Ok(settings) => Ok(last == typed.1 && are_typed(alloc, &settings, typed.2)?),
        Err(_) => Ok(false),
    }
}

#[test]
fn types_come_last(rt: HostRuntime) -> Result<(), Fail> {
    for (index, typed) in TYPES.iter().enumerate() {
        assert!(rt; has_types(rt.alloc(), typed)?, "{index}");
    }
    Ok(())
}

#[test]
fn optional_headers_come_after_the_ninth(rt: HostRuntime) -> Result<(), Fail> {
    for (index, later) in LATER.iter().enumerate() {
        assert!(rt; goes_on(rt.alloc(), later)?, "{index}");
    }
    for (index, later) in ROLES.iter().enumerate() {
        assert!(rt; goes_on(rt.alloc(), later)?, "{index}");
    }
    Ok(())
}

const LISTED: &str =
    "listed a:1 a:2 a:3 a:4 a:5 a:6 a:7 a:8 b:1 b:2 b:3 b:4 b:5 b:6 b:7 b:8 c:1 c:2 c:3 c:4 c:5 c:6 c:7 c:8 d:1 d:2 d:3 d:4 d:5 d:6 d:7 d:8";

// A role, and how many of as many addresses as there may be have it; none where it is refused.
static SIZES: [(&str, Option<usize>); 4] = [
    ("role c:8", Some(1)),
    (
        "role a:1 a:2 a:3 a:4 a:5 a:6 a:7 a:8 b:1 b:2 b:3 b:4 b:5 b:6 b:7 b:8 c:1 c:2 c:3 c:4 c:5 c:6 c:7 c:8 d:1 d:2 d:3 d:4 d:5 d:6 d:7 d:8",
        Some(32),
    ),
    (
        "role a:1 a:2 a:3 a:4 a:5 a:6 a:7 a:8 b:1 b:2 b:3 b:4 b:5 b:6 b:7 b:8 c:1 c:2 c:3 c:4 c:5 c:6 c:7 c:8 d:1 d:2 d:3 d:4 d:5 d:6 d:7 d:8 a:1",
        None,
    ),
    (
        "role a:1 a:2 a:3 a:4 a:5 a:6 a:7 a:8 b:1 b:2 b:3 b:4 b:5 b:6 b:7 b:8 c:1 c:2 c:3 c:4 c:5 c:6 c:7 c:8 d:1 d:2 d:3 d:4 d:5 d:6 d:7 d:8 e:1",
        None,
    ),
];

fn size_of(alloc: Global, role: &str) -> Result<Option<usize>, Fail> {
    let mut draft = draft_with(alloc, LISTED)?;
    let read = read_later(alloc, &mut draft, role);
    match draft.finish() {
        Ok(settings) => Ok((read == Read::Header).then_some(settings.role.len())),
        Err(_) => Ok(None),
    }
}

#[test]
fn as_many_as_32_addresses_have_the_role(rt: HostRuntime) -> Result<(), Fail> {
    for (role, wanted) in &SIZES {
        assert!(rt; size_of(rt.alloc(), role)? == *wanted, "{role}");
    }
    Ok(())
}

#[test]
fn a_draft_without_its_lines_is_not_finished(rt: HostRuntime) {
    assert!(rt; Draft::new(rt.alloc()).finish().is_err());
}

fn shows_as(alloc: Global, fault: &LineFault, code: &str) -> Result<bool, Fail> {
    Ok(format!(in alloc; "{fault}")?.as_str() == code)
}

#[test]
fn a_fault_shows_as_its_code(rt: HostRuntime) -> Result<(), Fail> {
    let faults = [
        (LineFault::Malformed, "S1"),
        (LineFault::BadHeader, "S2"),
        (LineFault::NoMemory(AllocError), "memory"),
    ];
    for (fault, code) in &faults {
        assert!(rt; shows_as(rt.alloc(), fault, code)?);
    }
    Ok(())
}
