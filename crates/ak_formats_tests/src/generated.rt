use ak_address::{Uniques, parse_unique};
use ak_generate::{Generator, Sight};
use ak_schedule::{Event, print_event};
use std::alloc::Global;
use std::test::Fail;

// How many packets were sent, and the event that comes next then, or nothing.
type Given = (u64, &'static str);

// The first thirty events of a run, where five processes run from the fifth on.
static SEED_0: [Given; 30] = [
    (0, "start n1:1#1"),
    (0, "start n2:1#1"),
    (0, "start n3:1#1"),
    (0, "start n4:1#1"),
    (0, "start n5:1#1"),
    (0, "found n1:1#1"),
    (0, "join n2:1#1 n1:1"),
    (1, "join n3:1#1 n1:1"),
    (2, "join n4:1#1 n1:1"),
    (3, "join n5:1#1 n1:1"),
    (4, "tick n3:1#1 336081875"),
    (5, "deliver 1"),
    (6, "tick n2:1#1 56572352"),
    (7, "deliver 1"),
    (8, "tick n4:1#1 1017583790"),
    (9, "deliver 4"),
    (10, "deliver 5"),
    (11, "deliver 7"),
    (12, "deliver 11"),
    (13, "down n2:1#1 n1:1#1"),
    (13, "deliver 9"),
    (14, "deliver 7"),
    (15, "leave n3:1#1 n4:1#1"),
    (15, "deliver 9"),
    (16, "deliver 12"),
    (17, "deliver 5"),
    (18, "deliver 14"),
    (19, "tick n5:1#1 197786953"),
    (20, "tick n5:1#1 807510274"),
    (21, "tick n1:1#1 2814847219"),
];

// The same of another seed.
static SEED_1: [Given; 30] = [
    (0, "start n1:1#1"),
    (0, "start n2:1#1"),
    (0, "start n3:1#1"),
    (0, "start n4:1#1"),
    (0, "start n5:1#1"),
    (0, "found n1:1#1"),
    (0, "join n2:1#1 n1:1"),
    (1, "join n3:1#1 n1:1"),
    (2, "join n4:1#1 n1:1"),
    (3, "join n5:1#1 n1:1"),
    (4, "deliver 3"),
    (5, "deliver 5"),
    (6, "deliver 4"),
    (7, "deliver 5"),
    (8, "tick n1:1#1 1289198517"),
    (11, "tick n3:1#1 1026741763"),
    (12, "deliver 12"),
    (13, "deliver 1"),
    (14, "tick n4:1#1 4174899122"),
    (15, "deliver 7"),
    (16, "deliver 14"),
    (17, "deliver 13"),
    (18, "deliver 15"),
    (19, "deliver 14"),
    (20, "tick n4:1#1 0"),
    (21, "deliver 1"),
    (22, "deliver 3"),
    (23, "tick n2:1#1 816047800"),
    (28, "deliver 10"),
    (29, "deliver 16"),
];

// And of the last seed that a sweep takes.
static LAST_SEED: [Given; 30] = [
    (0, "start n1:1#1"),
    (0, "start n2:1#1"),
    (0, "start n3:1#1"),
    (0, "start n4:1#1"),
    (0, "start n5:1#1"),
    (0, "found n1:1#1"),
    (0, "join n2:1#1 n1:1"),
    (1, "join n3:1#1 n1:1"),
    (2, "join n4:1#1 n1:1"),
    (3, "join n5:1#1 n1:1"),
    (4, "tick n1:1#1 2736161330"),
    (4, "deliver 3"),
    (5, "tick n1:1#1 3354714532"),
    (6, "deliver 4"),
    (7, "down n3:1#1 n2:1#1"),
    (7, "deliver 4"),
    (8, "deliver 6"),
    (8, "tick n1:1#1 0"),
    (11, "tick n3:1#1 1661321942"),
    (12, "deliver 4"),
    (13, "deliver 11"),
    (14, "tick n5:1#1 2058702155"),
    (15, "deliver 2"),
    (16, "deliver 10"),
    (16, "tick n2:1#1 637455292"),
    (17, "deliver 12"),
    (18, "deliver 4"),
    (19, "tick n2:1#1 2877148299"),
    (20, "deliver 6"),
    (21, "tick n4:1#1 2728643280"),
];

// Each kind of event, where three run.
static THREE_RUN: [Given; 22] = [
    (7, "tick n3:1#1 2461129135"),
    (7, "deliver 1"),
    (7, "deliver 4"),
    (7, "leave n5:1#6 n1:1#1"),
    (7, "deliver 6"),
    (7, "deliver 4"),
    (7, "deliver 7"),
    (7, "deliver 7"),
    (7, "deliver 5"),
    (7, "deliver 7"),
    (7, "down n5:1#6 n1:1#1"),
    (7, "deliver 5"),
    (7, "offer n3:1#1 e10 3367344238"),
    (7, "deliver 2"),
    (7, "tick n5:1#6 140791535"),
    (7, "tick n1:1#1 941660457"),
    (7, "tick n1:1#1 3070291455"),
    (7, "deliver 3"),
    (7, "start n2:1#10"),
    (7, "start n4:1#10"),
    (7, "join n1:1#1 n3:1"),
    (7, "stop n5:1#6"),
];

// No packet was sent, and two run, of which none is stopped: words are drawn also where a tick comes in place of another event.
static TWO_RUN: [Given; 40] = [
    (0, "tick n2:1#1 0"),
    (0, "tick n2:1#1 0"),
    (0, "down n4:1#7 n4:1#7"),
    (0, "tick n2:1#1 0"),
    (0, "tick n4:1#7 0"),
    (0, "tick n4:1#7 0"),
    (0, "tick n4:1#7 0"),
    (0, "tick n4:1#7 0"),
    (0, "tick n2:1#1 1271143430"),
    (0, "tick n4:1#7 0"),
    (0, "leave n2:1#1 n4:1#7"),
    (0, "join n4:1#7 n4:1"),
    (0, "tick n2:1#1 0"),
    (0, "tick n2:1#1 0"),
    (0, "tick n2:1#1 0"),
    (0, "tick n2:1#1 0"),
    (0, "tick n4:1#7 912712525"),
    (0, "tick n2:1#1 0"),
    (0, "tick n2:1#1 484315362"),
    (0, "offer n2:1#1 e3 34917948"),
    (0, "tick n4:1#7 0"),
    (0, "tick n2:1#1 0"),
    (0, "tick n2:1#1 0"),
    (0, "tick n4:1#7 3038745038"),
    (0, "tick n4:1#7 0"),
    (0, "tick n2:1#1 0"),
    (0, "tick n2:1#1 1034429393"),
    (0, "tick n4:1#7 2110095007"),
    (0, "tick n2:1#1 1995626970"),
    (0, "leave n4:1#7 n4:1#7"),
    (0, "tick n4:1#7 0"),
    (0, "tick n4:1#7 0"),
    (0, "tick n4:1#7 242413677"),
    (0, "tick n2:1#1 0"),
    (0, "tick n4:1#7 0"),
    (0, "tick n4:1#7 0"),
    (0, "tick n2:1#1 1379852089"),
    (0, "join n4:1#7 n4:1"),
    (0, "tick n2:1#1 0"),
    (0, "tick n2:1#1 0"),
];

// Nobody runs, and one more may start.
static LAST_START: [Given; 3] = [
    (10, "start n2:1#64"),
    (10, "start n1:1#64"),
    (10, "start n2:1#64"),
];

// Nobody runs, and no more may start.
static AT_END: [Given; 2] = [(10, ""), (10, "")];

// As many were started as may be, and four run: a word chooses n5:1 for a start, and a tick comes.
static ALL_FULL: [Given; 12] = [
    (200000, "tick n3:1#62 1088979380"),
    (200000, "offer n3:1#62 e14 345240601"),
    (200000, "offer n1:1#60 e18 2189117763"),
    (200000, "tick n4:1#63 2285343915"),
    (200000, "tick n1:1#60 0"),
    (200000, "deliver 199995"),
    (200000, "tick n1:1#60 3580542965"),
    (200000, "deliver 199990"),
    (200000, "tick n4:1#63 3661233732"),
    (200000, "down n4:1#63 n2:1#61"),
    (200000, "tick n2:1#61 428678845"),
    (200000, "tick n2:1#61 608759277"),
];

fn sight(alloc: Global, names: &[&str], starts: u32) -> Result<Sight, Fail> {
    let mut running = Uniques::empty(alloc);
    'names: for name in names {
        insert(alloc, &mut running, name)?;
    }
    Ok(Sight {
        running,
        starts,
        packets: 0,
    })
}

fn insert(alloc: Global, running: &mut Uniques, name: &str) -> Result<(), Fail> {
    let who = parse_unique(alloc, name.as_bytes())?;
    Ok(running.insert(alloc, &who)?)
}

fn is_spelled(alloc: Global, event: &Event, wanted: &str) -> Result<bool, Fail> {
    let mut text = Vec::new(alloc);
    print_event(event, &mut text)?;
    Ok(text.as_slice() == wanted.as_bytes())
}

fn next_is(
    alloc: Global,
    generator: &mut Generator,
    sight: &Sight,
    wanted: &str,
) -> Result<bool, Fail> {
    match generator.next(alloc, sight)? {
        Some(event) => is_spelled(alloc, &event, wanted),
        None => Ok(wanted.is_empty()),
    }
}

// Whether a generator gives these events.
fn gives(
    alloc: Global,
    generator: &mut Generator,
    sight: &mut Sight,
    wanted: &[Given],
) -> Result<bool, Fail> {
    'events: for (packets, text) in wanted {
        sight.packets = *packets;
        if !next_is(alloc, generator, sight, text)? {
            return Ok(false);
        }
    }
    Ok(true)
}

// The same of the generator of a seed, from its first event on.
fn begins(alloc: Global, seed: u64, wanted: &[Given]) -> Result<bool, Fail> {
    let mut sight = sight(alloc, &FIVE, 5)?;
    let mut generator = Generator::new(seed);
    gives(alloc, &mut generator, &mut sight, wanted)
}

// The same after the first ten events.
fn goes_on(alloc: Global, seed: u64, sight: &mut Sight, wanted: &[Given]) -> Result<bool, Fail> {
    let mut generator = Generator::new(seed);
    'opening: for _ in 0..10 {
        generator.next(alloc, sight)?;
    }
    gives(alloc, &mut generator, sight, wanted)
}

static FIVE: [&str; 5] = ["n1:1#1", "n2:1#1", "n3:1#1", "n4:1#1", "n5:1#1"];

#[test]
fn runs_begin_as_their_words_say(rt: HostRuntime) -> Result<(), Fail> {
    assert!(rt; begins(rt.alloc(), 0, &SEED_0)?);
    assert!(rt; begins(rt.alloc(), 1, &SEED_1)?);
    assert!(rt; begins(rt.alloc(), 9_000_000_000_000_000_000, &LAST_SEED)?);
    Ok(())
}

#[test]
fn each_kind_of_event_comes(rt: HostRuntime) -> Result<(), Fail> {
    let mut three = sight(rt.alloc(), &["n1:1#1", "n3:1#1", "n5:1#6"], 9)?;
    assert!(rt; goes_on(rt.alloc(), 878, &mut three, &THREE_RUN)?);
    Ok(())
}

#[test]
fn a_word_is_drawn_where_no_packet_was_sent(rt: HostRuntime) -> Result<(), Fail> {
    let mut two = sight(rt.alloc(), &["n2:1#1", "n4:1#7"], 9)?;
    assert!(rt; goes_on(rt.alloc(), 5, &mut two, &TWO_RUN)?);
    Ok(())
}

#[test]
fn nothing_comes_where_nobody_runs_and_none_may_start(rt: HostRuntime) -> Result<(), Fail> {
    let mut last = sight(rt.alloc(), &[], 63)?;
    assert!(rt; goes_on(rt.alloc(), 3, &mut last, &LAST_START)?);
    let mut full = sight(rt.alloc(), &[], 64)?;
    assert!(rt; goes_on(rt.alloc(), 3, &mut full, &AT_END)?);
    Ok(())
}

#[test]
fn no_more_than_64_start(rt: HostRuntime) -> Result<(), Fail> {
    let names = ["n1:1#60", "n2:1#61", "n3:1#62", "n4:1#63"];
    let mut four = sight(rt.alloc(), &names, 64)?;
    assert!(rt; goes_on(rt.alloc(), 51, &mut four, &ALL_FULL)?);
    Ok(())
}
