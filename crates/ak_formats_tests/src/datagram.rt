use crate::bytes::{BAD_FIELDS, HEARTBEAT, What, changed, come_to, comes_to, has_short_beginnings};
use ak_address::{Address, Text, Unique, parse_address, parse_unique};
use ak_wire::{Envelope, Message, decode, encode, valid};
use std::alloc::{AllocError, Global};
use std::test::Fail;

// a:1#1, b:1#1, and anybody at b:1
const A: [u8; 12] = [1, 97, 0, 1, 0, 0, 0, 0, 0, 0, 0, 1];

const B: [u8; 12] = [1, 98, 0, 1, 0, 0, 0, 0, 0, 0, 0, 1];

const ANYBODY: [u8; 12] = [1, 98, 0, 1, 0, 0, 0, 0, 0, 0, 0, 0];

// 0, 1, 2^62 and one more
const ZERO: [u8; 8] = [0, 0, 0, 0, 0, 0, 0, 0];

const ONE: [u8; 8] = [0, 0, 0, 0, 0, 0, 0, 1];

const BOUND: [u8; 8] = [64, 0, 0, 0, 0, 0, 0, 0];

const ABOVE_BOUND: [u8; 8] = [64, 0, 0, 0, 0, 0, 0, 1];

// shard 999
const SHARD: [u8; 2] = [3, 231];

// A report of shard 7: its number is 1, and it is hosted.
const REPORT: [u8; 11] = [0, 7, 0, 0, 0, 0, 0, 0, 0, 1, 1];

const ENTITY: [u8; 4] = [3, b'e', b'!', b'~'];

// Whether it is valid, and is written as these bytes.
pub(crate) fn is_written(alloc: Global, envelope: &Envelope, bytes: &[u8]) -> bool {
    if !valid(envelope) {
        return false;
    }
    match encode(alloc, envelope) {
        Ok(written) => written.as_slice() == bytes,
        Err(_) => false,
    }
}

// Whether it is valid, and whether it is written as these bytes. Every envelope of these tests ends here: a function that lets
// one go is proved for each kind of message.
fn answers(alloc: Global, envelope: Envelope, bytes: &[u8]) -> (bool, bool) {
    (valid(&envelope), is_written(alloc, &envelope, bytes))
}

// The number of the fault, 9 where memory ran out, and 0 where the bytes are read; and whether what is read is valid, and is
// written as the same bytes.
fn read(alloc: Global, bytes: &[u8]) -> (u8, bool) {
    match decode(alloc, bytes) {
        Ok(envelope) => (0, answers(alloc, envelope, bytes).1),
        Err(fault) => (fault.number().unwrap_or(9), false),
    }
}

pub(crate) fn outcome(alloc: Global, bytes: &[u8]) -> u8 {
    read(alloc, bytes).0
}

fn comes_back(alloc: Global, bytes: &[u8]) -> bool {
    read(alloc, bytes).1
}

// Whether each beginning is short, and a byte more is too many.
fn has_its_length(alloc: Global, bytes: &[u8]) -> Result<bool, AllocError> {
    let mut longer = Vec::from_slice(alloc, bytes)?;
    longer.push(0)?;
    Ok(has_short_beginnings(alloc, What::Datagram, bytes) && outcome(alloc, &longer) == 8)
}

#[test]
fn a_heartbeat_has_29_bytes(rt: HostRuntime) -> Result<(), Fail> {
    let alloc = rt.alloc();
    assert!(rt; comes_back(alloc, &HEARTBEAT));
    assert!(rt; has_its_length(alloc, &HEARTBEAT)?);
    Ok(())
}

#[test]
fn each_bad_field_of_a_heartbeat_is_refused(rt: HostRuntime) -> Result<(), Fail> {
    assert!(rt; come_to(rt.alloc(), What::Datagram, &HEARTBEAT, &BAD_FIELDS)?);
    Ok(())
}

fn is_for_anybody(kind: u8) -> bool {
    matches!(kind, 1 | 23 | 24 | 25)
}

// The header of a kind, a:1#1, and b:1#1 or anybody at b:1.
fn push_head(kind: u8, out: &mut Vec<u8>) -> Result<(), AllocError> {
    out.extend_from_slice(b"AKC\x02")?;
    out.push(kind)?;
    out.extend_from_slice(&A)?;
    if is_for_anybody(kind) {
        return out.extend_from_slice(&ANYBODY);
    }
    out.extend_from_slice(&B)
}

// A process in a gossip: its count, joining, and that it has seen the gossip.
fn push_part(process: &[u8], count: &[u8], out: &mut Vec<u8>) -> Result<(), AllocError> {
    out.extend_from_slice(process)?;
    out.extend_from_slice(count)?;
    out.push(1)?;
    out.extend_from_slice(&ZERO)?;
    out.push(1)?;
    out.extend_from_slice(&ZERO)
}

fn push_gossip(out: &mut Vec<u8>) -> Result<(), AllocError> {
    out.push(2)?;
    push_part(&A, &BOUND, out)?;
    push_part(&B, &ZERO, out)
}

fn push_ballot(out: &mut Vec<u8>) -> Result<(), AllocError> {
    out.extend_from_slice(&BOUND)?;
    out.extend_from_slice(&B)
}

fn push_version(out: &mut Vec<u8>) -> Result<(), AllocError> {
    out.push(1)?;
    out.extend_from_slice(&A)?;
    out.extend_from_slice(&BOUND)
}

fn push_reports(out: &mut Vec<u8>) -> Result<(), AllocError> {
    out.extend_from_slice(&[0, 1])?;
    out.extend_from_slice(&REPORT)
}

// What a body has first: a gossip, a ballot, a process or an entity.
fn push_first(kind: u8, out: &mut Vec<u8>) -> Result<(), AllocError> {
    match kind {
        2 | 3 => push_gossip(out),
        7..=21 => push_ballot(out),
        23 | 24 => out.extend_from_slice(&B),
        22 | 25 => out.extend_from_slice(&ENTITY),
        _ => Ok(()),
    }
}

// And what it has then: a ballot, a version, a shard or a payload.
fn push_second(kind: u8, out: &mut Vec<u8>) -> Result<(), AllocError> {
    match kind {
        9 | 10 => push_ballot(out),
        8 | 12 | 13 => push_version(out),
        14..=21 => out.extend_from_slice(&SHARD),
        22 | 25 => out.extend_from_slice(&ZERO),
        _ => Ok(()),
    }
}

// And last: reports, a process or a number.
fn push_third(kind: u8, out: &mut Vec<u8>) -> Result<(), AllocError> {
    match kind {
        8 => push_reports(out),
        15 => out.extend_from_slice(&A),
        16..=21 => out.extend_from_slice(&BOUND),
        _ => Ok(()),
    }
}

fn spelling(alloc: Global, kind: u8) -> Result<Vec<u8>, AllocError> {
    let mut out = Vec::new(alloc);
    push_kind(kind, &mut out)?;
    Ok(out)
}

fn push_kind(kind: u8, out: &mut Vec<u8>) -> Result<(), AllocError> {
    push_head(kind, out)?;
    push_first(kind, out)?;
    push_second(kind, out)?;
    push_third(kind, out)
}

fn kind_comes_back(alloc: Global, kind: u8) -> Result<bool, AllocError> {
    let bytes = spelling(alloc, kind)?;
    Ok(comes_back(alloc, &bytes))
}

#[test]
fn each_kind_is_read_and_written(rt: HostRuntime) -> Result<(), Fail> {
    for kind in 1..26 {
        assert!(rt; kind_comes_back(rt.alloc(), kind)?, "{kind}");
    }
    Ok(())
}

fn kind_has_its_length(alloc: Global, kind: u8) -> Result<bool, AllocError> {
    let bytes = spelling(alloc, kind)?;
    has_its_length(alloc, &bytes)
}

#[test]
fn each_kind_has_its_length(rt: HostRuntime) -> Result<(), Fail> {
    for kind in 1..26 {
        assert!(rt; kind_has_its_length(rt.alloc(), kind)?, "{kind}");
    }
    Ok(())
}

// Whether the first version of these bytes is read, and written in the second.
fn first_is_read(alloc: Global, bytes: &[u8]) -> Result<bool, AllocError> {
    let first = changed(alloc, bytes, 3, 1)?;
    match decode(alloc, &first) {
        Ok(envelope) => Ok(answers(alloc, envelope, bytes).1),
        Err(_) => Ok(false),
    }
}

fn kind_is_read_in_the_first_version(alloc: Global, kind: u8) -> Result<bool, AllocError> {
    let bytes = spelling(alloc, kind)?;
    first_is_read(alloc, &bytes)
}

#[test]
fn each_kind_of_the_first_version_is_read(rt: HostRuntime) -> Result<(), Fail> {
    for kind in 1..26 {
        assert!(rt;
            kind_is_read_in_the_first_version(rt.alloc(), kind)?,
            "{kind}"
        );
    }
    assert!(rt; first_is_read(rt.alloc(), &HEARTBEAT)?);
    Ok(())
}

// Whether this last byte of the uid is out of its range.
fn kind_refuses_uid(alloc: Global, kind: u8) -> Result<bool, AllocError> {
    let bytes = spelling(alloc, kind)?;
    let uid = u8::from(is_for_anybody(kind));
    comes_to(alloc, What::Datagram, &bytes, &(28, uid, 7))
}

#[test]
fn the_uid_of_a_receiver_is_that_of_its_kind(rt: HostRuntime) -> Result<(), Fail> {
    for kind in 1..26 {
        assert!(rt; kind_refuses_uid(rt.alloc(), kind)?, "{kind}");
    }
    Ok(())
}

// Two processes of a gossip, the count of the second, and the fault.
type Pair = (&'static [u8], &'static [u8], &'static [u8], u8);

fn push_pair(pair: &Pair, out: &mut Vec<u8>) -> Result<(), AllocError> {
    push_head(3, out)?;
    out.push(2)?;
    push_part(pair.0, &ONE, out)?;
    push_part(pair.1, pair.2, out)
}

fn pair_comes_to(alloc: Global, pair: &Pair) -> Result<bool, AllocError> {
    let mut out = Vec::new(alloc);
    push_pair(pair, &mut out)?;
    Ok(outcome(alloc, &out) == pair.3)
}

#[test]
fn parts_ascend_and_are_in_range(rt: HostRuntime) -> Result<(), Fail> {
    let pairs: [Pair; 4] = [
        (&A, &B, &BOUND, 0),
        (&B, &A, &BOUND, 6),
        (&A, &A, &BOUND, 6),
        (&A, &B, &ABOVE_BOUND, 7),
    ];
    for pair in &pairs {
        assert!(rt; pair_comes_to(rt.alloc(), pair)?);
    }
    Ok(())
}

#[test]
fn a_range_comes_before_an_order(rt: HostRuntime) -> Result<(), Fail> {
    let pairs: [Pair; 2] = [(&B, &ANYBODY, &BOUND, 7), (&B, &A, &ABOVE_BOUND, 6)];
    for pair in &pairs {
        assert!(rt; pair_comes_to(rt.alloc(), pair)?);
    }
    Ok(())
}

// The state of a process in a gossip, its up number, whether it has seen the gossip, and the fault.
type State = (u8, u8, u8, u8);

static STATES: [State; 9] = [
    (1, 0, 1, 0),
    (2, 1, 1, 0),
    (5, 0, 1, 0),
    (6, 0, 1, 7),
    (7, 0, 0, 0),
    (8, 0, 0, 0),
    (8, 0, 1, 0),
    (8, 1, 0, 7),
    (9, 0, 0, 7),
];

fn push_state(state: &State, out: &mut Vec<u8>) -> Result<(), AllocError> {
    push_head(3, out)?;
    out.push(1)?;
    out.extend_from_slice(&A)?;
    out.extend_from_slice(&ONE)?;
    out.push(state.0)?;
    out.extend_from_slice(&[0, 0, 0, 0, 0, 0, 0, state.1])?;
    out.push(state.2)?;
    out.extend_from_slice(&ZERO)
}

fn state_comes_to(alloc: Global, state: &State) -> Result<bool, AllocError> {
    let mut out = Vec::new(alloc);
    push_state(state, &mut out)?;
    Ok(outcome(alloc, &out) == state.3 && (state.3 > 0 || comes_back(alloc, &out)))
}

#[test]
fn each_state_has_its_number(rt: HostRuntime) -> Result<(), Fail> {
    for state in &STATES {
        assert!(rt; state_comes_to(rt.alloc(), state)?, "{}", state.0);
    }
    Ok(())
}

fn heartbeat(from: Unique, to: Address) -> Envelope {
    Envelope {
        from,
        to,
        uid: 1,
        message: Message::Heartbeat,
    }
}

// Whether a heartbeat from a:1#1 to b:1#1 is written as its bytes.
fn heartbeat_is_written(alloc: Global) -> Result<bool, Fail> {
    let from = parse_unique(alloc, b"a:1#1")?;
    let to = parse_address(alloc, b"b:1")?;
    Ok(answers(alloc, heartbeat(from, to), &HEARTBEAT).1)
}

#[test]
fn a_heartbeat_is_written(rt: HostRuntime) -> Result<(), Fail> {
    assert!(rt; heartbeat_is_written(rt.alloc())?);
    Ok(())
}

// An offer to an entity.
fn offer(from: Unique, to: Address, entity: Text) -> Envelope {
    Envelope {
        from,
        to,
        uid: 0,
        message: Message::Offer(entity, 18446744073709551615),
    }
}

// The name e of so many bytes.
fn name(alloc: Global, length: usize) -> Result<Text, AllocError> {
    let name = vec![in alloc; b'e'; length]?;
    Text::from_bytes(alloc, &name)
}

// Whether an offer to an entity of so many bytes can be spelled.
fn named(alloc: Global, length: usize) -> Result<bool, Fail> {
    let from = parse_unique(alloc, b"a:1#1")?;
    let to = parse_address(alloc, b"b:1")?;
    let entity = name(alloc, length)?;
    Ok(answers(alloc, offer(from, to, entity), b"").0)
}

#[test]
fn an_entity_has_1_to_97_bytes(rt: HostRuntime) -> Result<(), Fail> {
    assert!(rt; !named(rt.alloc(), 0)?);
    assert!(rt; named(rt.alloc(), 64)?);
    assert!(rt; named(rt.alloc(), 97)?);
    assert!(rt; !named(rt.alloc(), 98)?);
    Ok(())
}

// The version of a message with a payload, its kind, how many bytes its entity has, and the fault.
type Length = (u8, u8, u8, u8);

static LENGTHS: [Length; 14] = [
    (1, 25, 0, 5),
    (1, 25, 1, 0),
    (1, 25, 64, 0),
    (1, 25, 65, 5),
    (1, 25, 97, 5),
    (1, 22, 64, 0),
    (1, 22, 65, 5),
    (2, 25, 0, 5),
    (2, 25, 65, 0),
    (2, 25, 97, 0),
    (2, 25, 98, 5),
    (2, 25, 255, 5),
    (2, 22, 97, 0),
    (2, 22, 98, 5),
];

fn push_length(length: &Length, out: &mut Vec<u8>) -> Result<(), AllocError> {
    push_head(length.1, out)?;
    out.push(length.2)?;
    for _byte in 0..length.2 {
        out.push(b'e')?;
    }
    out.extend_from_slice(&ZERO)
}

fn length_comes_to(alloc: Global, length: &Length) -> Result<bool, AllocError> {
    let mut out = Vec::new(alloc);
    push_length(length, &mut out)?;
    comes_to(alloc, What::Datagram, &out, &(3, length.0, length.3))
}

#[test]
fn each_version_has_its_longest_entity(rt: HostRuntime) -> Result<(), Fail> {
    for (index, length) in LENGTHS.iter().enumerate() {
        assert!(rt; length_comes_to(rt.alloc(), length)?, "{index}");
    }
    Ok(())
}
