use ak_address::Text;
use ak_options::{Command, Request, read_command};
use std::alloc::{AllocError, Global};
use std::test::Fail;

// The name of an option, and its value.
type Pair<'a> = (&'a [u8], &'a [u8]);

// The words as texts.
fn texts(alloc: Global, words: &[&[u8]]) -> Result<Vec<Text>, AllocError> {
    let mut texts = Vec::new(alloc);
    'words: for word in words {
        texts.push(Text::from_bytes(alloc, word)?)?;
    }
    Ok(texts)
}

fn is_refused(alloc: Global, words: &[Text]) -> Result<bool, AllocError> {
    Ok(read_command(alloc, words)?.is_none())
}

fn all_refused(alloc: Global, cases: &[&[&[u8]]]) -> Result<bool, AllocError> {
    'cases: for words in cases {
        if !is_refused(alloc, &texts(alloc, words)?)? {
            return Ok(false);
        }
    }
    Ok(true)
}

static REFUSED: [&[&[u8]]; 41] = [
    // no command
    &[],
    &[b""],
    &[b"watch"],
    &[b"Replay"],
    &[b"replay "],
    &[b"--help"],
    &[b"--version"],
    &[b"-"],
    // no options where there are none
    &[b"replay", b""],
    &[b"replay", b"extra"],
    &[b"replay", b"--first", b"1"],
    &[b"replay", b"replay"],
    // none where there are some
    &[b"sweep"],
    &[b"node"],
    &[b"ctl"],
    // one that is required is missing
    &[
        b"sweep",
        b"--count",
        b"1",
        b"--events",
        b"1",
        b"--workers",
        b"1",
    ],
    &[
        b"sweep",
        b"--first",
        b"1",
        b"--events",
        b"1",
        b"--workers",
        b"1",
    ],
    &[
        b"sweep",
        b"--first",
        b"1",
        b"--count",
        b"1",
        b"--workers",
        b"1",
    ],
    &[b"node", b"--config", b"F"],
    &[b"node", b"--ticks", b"1"],
    &[b"ctl", b"--to", b"a:1"],
    &[b"ctl", b"--say", b"leave a:1#1"],
    // one stands twice, with one value or with two
    &[
        b"sweep",
        b"--first",
        b"1",
        b"--count",
        b"1",
        b"--events",
        b"1",
        b"--first",
        b"1",
    ],
    &[
        b"sweep",
        b"--first",
        b"1",
        b"--count",
        b"1",
        b"--events",
        b"1",
        b"--events",
        b"2",
    ],
    &[
        b"sweep",
        b"--first",
        b"1",
        b"--count",
        b"1",
        b"--events",
        b"1",
        b"--workers",
        b"1",
        b"--workers",
        b"2",
    ],
    &[
        b"sweep",
        b"--workers",
        b"0",
        b"--first",
        b"1",
        b"--count",
        b"1",
        b"--events",
        b"1",
        b"--workers",
        b"1",
    ],
    &[
        b"node",
        b"--config",
        b"F",
        b"--config",
        b"F",
        b"--ticks",
        b"1",
    ],
    &[
        b"node",
        b"--config",
        b"F",
        b"--ticks",
        b"1",
        b"--ticks",
        b"0",
    ],
    &[
        b"ctl",
        b"--to",
        b"a:1",
        b"--to",
        b"b:1",
        b"--say",
        b"leave a:1#1",
    ],
    &[
        b"ctl",
        b"--to",
        b"a:1",
        b"--say",
        b"leave a:1#1",
        b"--say",
        b"down a:1#1",
    ],
    // the name is no option of the command
    &[
        b"node",
        b"--config",
        b"F",
        b"--ticks",
        b"1",
        b"--workers",
        b"1",
    ],
    &[
        b"node",
        b"--config",
        b"F",
        b"--ticks",
        b"1",
        b"--to",
        b"a:1",
    ],
    &[b"node", b"-config", b"F", b"--ticks", b"1"],
    &[b"node", b"config", b"F", b"--ticks", b"1"],
    &[b"node", b"--Config", b"F", b"--ticks", b"1"],
    &[b"node", b"--config=F", b"--ticks", b"1"],
    &[b"node", b"--config\xff", b"F", b"--ticks", b"1"],
    &[b"node", b"\xff", b"F", b"--config", b"F", b"--ticks", b"1"],
    &[b"node\xff", b"--config", b"F", b"--ticks", b"1"],
    // words between the pairs
    &[b"node", b"--", b"--config", b"F", b"--ticks", b"1"],
    &[b"node", b"", b"", b"--config", b"F", b"--ticks", b"1"],
];

#[test]
fn other_words_ask_for_nothing(rt: HostRuntime) -> Result<(), Fail> {
    assert!(rt; all_refused(rt.alloc(), &REFUSED)?);
    Ok(())
}

static SWEEP: [Pair<'static>; 4] = [
    (b"--first", b"7"),
    (b"--count", b"10"),
    (b"--events", b"300"),
    (b"--workers", b"4"),
];

static NODE: [Pair<'static>; 2] = [(b"--config", b"F"), (b"--ticks", b"100")];

static CTL: [Pair<'static>; 2] = [(b"--to", b"a:1"), (b"--say", b"leave b:1#2")];

// A command's name, and the pairs with another one at a place.
fn replaced(
    alloc: Global,
    name: &[u8],
    pairs: &[Pair],
    place: usize,
    other: Pair,
) -> Result<Vec<Text>, AllocError> {
    let mut words = Vec::new(alloc);
    words.push(Text::from_bytes(alloc, name)?)?;
    'pairs: for (index, pair) in pairs.iter().enumerate() {
        let (option, value) = if index == place { other } else { *pair };
        words.push(Text::from_bytes(alloc, option)?)?;
        words.push(Text::from_bytes(alloc, value)?)?;
    }
    Ok(words)
}

// Whether each of these is refused at each place.
fn refused_in_each_place(
    alloc: Global,
    name: &[u8],
    pairs: &[Pair],
    wrong: &[Pair],
) -> Result<bool, AllocError> {
    'wrong: for other in wrong {
        'places: for place in 0..pairs.len() {
            if !is_refused(alloc, &replaced(alloc, name, pairs, place, *other)?)? {
                return Ok(false);
            }
        }
    }
    Ok(true)
}

static WRONG_OF_SWEEP: [Pair<'static>; 26] = [
    (b"--first", b""),
    (b"--first", b"-1"),
    (b"--first", b"+1"),
    (b"--first", b" 1"),
    (b"--first", b"1 "),
    (b"--first", b"x"),
    (b"--first", b"1\xff"),
    (b"--first", b"000000000000000000001"),
    (b"--first", b"9000000000000000001"),
    (b"--first", b"18446744073709551616"),
    (b"--count", b""),
    (b"--count", b"0"),
    (b"--count", b"100001"),
    (b"--count", b"--count"),
    (b"--events", b"0"),
    (b"--events", b"2001"),
    (b"--events", b"0x1"),
    (b"--workers", b"0"),
    (b"--workers", b"65"),
    (b"--workers", b""),
    (b"--ticks", b"1"),
    (b"--config", b"1"),
    (b"", b"1"),
    (b"1", b"--first"),
    (b"--first ", b"1"),
    (b"--first\xff", b"1"),
];

static WRONG_OF_NODE: [Pair<'static>; 8] = [
    (b"--ticks", b""),
    (b"--ticks", b"-1"),
    (b"--ticks", b"1000000001"),
    (b"--ticks", b"1\xff"),
    (b"--first", b"1"),
    (b"--workers", b"1"),
    (b"--Ticks", b"1"),
    (b"--conf\xffg", b"F"),
];

static WRONG_OF_CTL: [Pair<'static>; 24] = [
    (b"--to", b""),
    (b"--to", b"a"),
    (b"--to", b"a:0"),
    (b"--to", b"a:65536"),
    (b"--to", b":1"),
    (b"--to", b"a:1 "),
    (b"--to", b"a:1#1"),
    (b"--to", b"\xff:1"),
    (b"--say", b""),
    (b"--say", b" "),
    (b"--say", b"leave"),
    (b"--say", b"leave b:1"),
    (b"--say", b"leave b:1#0"),
    (b"--say", b"leave b:1#2 c:1#1"),
    (b"--say", b"leave\tb:1#2"),
    (b"--say", b"down"),
    (b"--say", b"offer e"),
    (b"--say", b"offer e -1"),
    (b"--say", b"offer e 9223372036854775808"),
    (b"--say", b"join b:1"),
    (b"--say", b"stop"),
    (b"--say", b"tick 1"),
    (b"--say", b"#leave b:1#2"),
    (b"--at", b"a:1"),
];

#[test]
fn wrong_pairs_are_refused_in_each_place(rt: HostRuntime) -> Result<(), Fail> {
    let alloc = rt.alloc();
    assert!(rt; refused_in_each_place(alloc, b"sweep", &SWEEP, &WRONG_OF_SWEEP)?);
    assert!(rt; refused_in_each_place(alloc, b"node", &NODE, &WRONG_OF_NODE)?);
    assert!(rt; refused_in_each_place(alloc, b"ctl", &CTL, &WRONG_OF_CTL)?);
    Ok(())
}

// The words, and one more at a place.
fn with_one_more(alloc: Global, words: &[&[u8]], place: usize) -> Result<Vec<Text>, AllocError> {
    let mut more = Vec::new(alloc);
    'words: for (index, word) in words.iter().enumerate() {
        if index == place {
            more.push(Text::from_bytes(alloc, b"1")?)?;
        }
        more.push(Text::from_bytes(alloc, word)?)?;
    }
    if place >= words.len() {
        more.push(Text::from_bytes(alloc, b"1")?)?;
    }
    Ok(more)
}

static EVEN: [&[u8]; 5] = [b"node", b"--config", b"F", b"--ticks", b"1"];

fn refused_with_one_more(alloc: Global, words: &[&[u8]]) -> Result<bool, AllocError> {
    'places: for place in 0..=words.len() {
        if !is_refused(alloc, &with_one_more(alloc, words, place)?)? {
            return Ok(false);
        }
    }
    Ok(true)
}

#[test]
fn a_word_too_many_is_refused_in_each_place(rt: HostRuntime) -> Result<(), Fail> {
    assert!(rt; refused_with_one_more(rt.alloc(), &EVEN)?);
    Ok(())
}

type Numbers = (u64, u64, u64, u32);

fn is_sweep(command: &Command, wanted: Numbers) -> bool {
    match command {
        Command::Sweep {
            first,
            count,
            events,
            workers,
        } => (*first, *count, *events, *workers) == wanted,
        _ => false,
    }
}

fn asks_for_sweep(alloc: Global, words: &[Text], wanted: Numbers) -> Result<bool, AllocError> {
    match read_command(alloc, words)? {
        Some(command) => Ok(is_sweep(&command, wanted)),
        None => Ok(false),
    }
}

// A pair in place of one of a sweep, where it is the first, the second and so on, and the numbers then.
static SWEEPS: [(usize, Pair<'static>, Numbers); 14] = [
    (0, (b"--first", b"0"), (0, 10, 300, 4)),
    (0, (b"--first", b"00000000000000000001"), (1, 10, 300, 4)),
    (
        0,
        (b"--first", b"9000000000000000000"),
        (9_000_000_000_000_000_000, 10, 300, 4),
    ),
    (1, (b"--count", b"1"), (7, 1, 300, 4)),
    (1, (b"--count", b"100000"), (7, 100_000, 300, 4)),
    (2, (b"--events", b"1"), (7, 10, 1, 4)),
    (2, (b"--events", b"2000"), (7, 10, 2_000, 4)),
    (3, (b"--workers", b"1"), (7, 10, 300, 1)),
    (3, (b"--workers", b"64"), (7, 10, 300, 64)),
    (3, (b"--workers", b"0064"), (7, 10, 300, 64)),
    (4, (b"", b""), (7, 10, 300, 4)),
    (0, (b"--first", b"007"), (7, 10, 300, 4)),
    (1, (b"--count", b"0000010"), (7, 10, 300, 4)),
    (2, (b"--events", b"0300"), (7, 10, 300, 4)),
];

fn sweeps_are_read(alloc: Global) -> Result<bool, AllocError> {
    'cases: for (place, pair, wanted) in &SWEEPS {
        if !asks_for_sweep(
            alloc,
            &replaced(alloc, b"sweep", &SWEEP, *place, *pair)?,
            *wanted,
        )? {
            return Ok(false);
        }
    }
    Ok(true)
}

// The pairs in other orders, and without workers.
static ORDERS: [(&[&[u8]], Numbers); 4] = [
    (
        &[
            b"sweep",
            b"--workers",
            b"4",
            b"--events",
            b"3",
            b"--count",
            b"2",
            b"--first",
            b"1",
        ],
        (1, 2, 3, 4),
    ),
    (
        &[
            b"sweep",
            b"--count",
            b"2",
            b"--workers",
            b"4",
            b"--first",
            b"1",
            b"--events",
            b"3",
        ],
        (1, 2, 3, 4),
    ),
    (
        &[
            b"sweep",
            b"--first",
            b"1",
            b"--count",
            b"2",
            b"--events",
            b"3",
        ],
        (1, 2, 3, 1),
    ),
    (
        &[
            b"sweep",
            b"--events",
            b"3",
            b"--count",
            b"2",
            b"--first",
            b"1",
        ],
        (1, 2, 3, 1),
    ),
];

fn orders_are_read(alloc: Global) -> Result<bool, AllocError> {
    'cases: for (words, wanted) in &ORDERS {
        if !asks_for_sweep(alloc, &texts(alloc, words)?, *wanted)? {
            return Ok(false);
        }
    }
    Ok(true)
}

#[test]
fn sweeps_are_asked_for(rt: HostRuntime) -> Result<(), Fail> {
    assert!(rt; sweeps_are_read(rt.alloc())?);
    assert!(rt; orders_are_read(rt.alloc())?);
    Ok(())
}

fn is_node(command: &Command, name: &[u8], wanted: u64) -> bool {
    match command {
        Command::Node { config, ticks } => config.bytes() == name && *ticks == wanted,
        _ => false,
    }
}

fn asks_for_node(
    alloc: Global,
    words: &[Text],
    name: &[u8],
    wanted: u64,
) -> Result<bool, AllocError> {
    match read_command(alloc, words)? {
        Some(command) => Ok(is_node(&command, name, wanted)),
        None => Ok(false),
    }
}

// The words, and the configuration's name and the ticks that they say.
static NODES: [(&[&[u8]], &[u8], u64); 9] = [
    (&[b"node", b"--config", b"F", b"--ticks", b"0"], b"F", 0),
    (
        &[b"node", b"--ticks", b"1000000000", b"--config", b"F"],
        b"F",
        1_000_000_000,
    ),
    (&[b"node", b"--config", b"", b"--ticks", b"1"], b"", 1),
    (
        &[b"node", b"--config", b" a b ", b"--ticks", b"1"],
        b" a b ",
        1,
    ),
    (
        &[b"node", b"--config", b"\xff\xfe\x00", b"--ticks", b"1"],
        b"\xff\xfe\x00",
        1,
    ),
    (
        &[b"node", b"--config", b"--ticks", b"--ticks", b"1"],
        b"--ticks",
        1,
    ),
    (
        &[b"node", b"--ticks", b"1", b"--config", b"--config"],
        b"--config",
        1,
    ),
    (&[b"node", b"--config", b"--", b"--ticks", b"1"], b"--", 1),
    (
        &[b"node", b"--config", b"node", b"--ticks", b"0000000001"],
        b"node",
        1,
    ),
];

fn nodes_are_read(alloc: Global) -> Result<bool, AllocError> {
    'cases: for (words, name, ticks) in &NODES {
        if !asks_for_node(alloc, &texts(alloc, words)?, name, *ticks)? {
            return Ok(false);
        }
    }
    Ok(true)
}

#[test]
fn nodes_are_asked_for(rt: HostRuntime) -> Result<(), Fail> {
    assert!(rt; nodes_are_read(rt.alloc())?);
    Ok(())
}

// The request in one spelling.
fn print_request(request: &Request, out: &mut Vec<u8>) -> Result<(), AllocError> {
    match request {
        Request::Leave(member) => {
            out.extend_from_slice(b"leave ")?;
            member.print_into(out)
        }
        Request::Down(member) => {
            out.extend_from_slice(b"down ")?;
            member.print_into(out)
        }
        Request::Offer(entity, payload) => {
            out.extend_from_slice(b"offer ")?;
            out.extend_from_slice(entity.name().bytes())?;
            out.extend_from_slice(b" ")?;
            ak_address::print_number(*payload, out)
        }
    }
}

// Where the node is and what it is asked, in one spelling.
fn print_ctl(command: &Command, out: &mut Vec<u8>) -> Result<(), AllocError> {
    match command {
        Command::Ctl { to, say } => {
            to.print_into(out)?;
            out.extend_from_slice(b" ")?;
            print_request(say, out)
        }
        _ => Ok(()),
    }
}

fn asks_for_ctl(alloc: Global, words: &[Text], wanted: &[u8]) -> Result<bool, AllocError> {
    let mut out = Vec::new(alloc);
    match read_command(alloc, words)? {
        Some(command) => print_ctl(&command, &mut out)?,
        None => return Ok(false),
    }
    Ok(out.as_slice() == wanted)
}

static CTLS: [(&[&[u8]], &[u8]); 8] = [
    (
        &[b"ctl", b"--to", b"a:1", b"--say", b"leave b:1#2"],
        b"a:1 leave b:1#2",
    ),
    (
        &[b"ctl", b"--say", b"down b:1#2", b"--to", b"a:1"],
        b"a:1 down b:1#2",
    ),
    (
        &[b"ctl", b"--to", b"a:65535", b"--say", b"offer e 5"],
        b"a:65535 offer e 5",
    ),
    (
        &[b"ctl", b"--to", b"a:01", b"--say", b"  leave  b:01#02 "],
        b"a:1 leave b:1#2",
    ),
    (
        &[b"ctl", b"--to", b"a:1", b"--say", b"leave a:1#1"],
        b"a:1 leave a:1#1",
    ),
    (
        &[b"ctl", b"--to", b"a:1", b"--say", b"offer --to 0"],
        b"a:1 offer --to 0",
    ),
    (
        &[b"ctl", b"--to", b"a:1", b"--say", b"offer leave 007"],
        b"a:1 offer leave 7",
    ),
    (
        &[
            b"ctl",
            b"--to",
            b"a:1",
            b"--say",
            b"offer e 9223372036854775807",
        ],
        b"a:1 offer e 9223372036854775807",
    ),
];

fn ctls_are_read(alloc: Global) -> Result<bool, AllocError> {
    'cases: for (words, wanted) in &CTLS {
        if !asks_for_ctl(alloc, &texts(alloc, words)?, wanted)? {
            return Ok(false);
        }
    }
    Ok(true)
}

// A request of so many bytes, most of them spaces.
fn asks_with_spaces(alloc: Global, bytes: usize) -> Result<bool, AllocError> {
    let mut say = vec![in alloc; b' '; bytes.saturating_sub(11)]?;
    say.extend_from_slice(b"leave b:1#2")?;
    let words = texts(alloc, &[b"ctl", b"--to", b"a:1", b"--say", &say])?;
    asks_for_ctl(alloc, &words, b"a:1 leave b:1#2")
}

#[test]
fn requests_are_asked_for(rt: HostRuntime) -> Result<(), Fail> {
    assert!(rt; ctls_are_read(rt.alloc())?);
    assert!(rt; asks_with_spaces(rt.alloc(), 4090)?);
    assert!(rt; !asks_with_spaces(rt.alloc(), 4091)?);
    Ok(())
}

fn asks_for_replay(alloc: Global, words: &[Text]) -> Result<bool, AllocError> {
    match read_command(alloc, words)? {
        Some(Command::Replay) => Ok(true),
        _ => Ok(false),
    }
}

#[test]
fn a_replay_is_asked_for(rt: HostRuntime) -> Result<(), Fail> {
    assert!(rt; asks_for_replay(rt.alloc(), &texts(rt.alloc(), &[b"replay"])?)?);
    Ok(())
}
