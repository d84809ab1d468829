use crate::bytes::{BAD_FIELDS, HEARTBEAT, What, come_to, comes_to, has_short_beginnings, outcome};
use ak_address::{Text, Unique, parse_unique};
use ak_clock::{BOUND, Version};
use ak_field::{
    Fields, WireFault, are_parts, are_reports, ballot_len, check_header, entity_len, is_entity,
    is_short, parts_len, process_len, reports_len, version_len, write_ballot, write_entity,
    write_flag, write_header, write_number, write_parts, write_reports, write_shard, write_unique,
    write_version,
};
use ak_gossip::{Parts, parts_valid};
use ak_promise::Ballot;
use ak_shard_id::Report;
use std::alloc::{AllocError, Global};
use std::test::Fail;

// Two processes with their counts: 2^62 is the most, and one more is not.
static VERSION: [u8; 41] = [
    2, 1, 97, 0, 1, 0, 0, 0, 0, 0, 0, 0, 1, 64, 0, 0, 0, 0, 0, 0, 0, 1, 97, 0, 1, 0, 0, 0, 0, 0, 0,
    0, 2, 0, 0, 0, 0, 0, 0, 0, 1,
];

// A gossip of two parts: a:1#1 is Up, and its row names the other one, a:1#2, which is Joining.
static PARTS: [u8; 79] = [
    2, 1, 97, 0, 1, 0, 0, 0, 0, 0, 0, 0, 1, 0, 0, 0, 0, 0, 0, 0, 3, 2, 0, 0, 0, 0, 0, 0, 0, 1, 1,
    0, 0, 0, 0, 0, 0, 0, 3, 1, 1, 1, 97, 0, 1, 0, 0, 0, 0, 0, 0, 0, 2, 0, 0, 0, 0, 0, 0, 0, 0, 1,
    0, 0, 0, 0, 0, 0, 0, 0, 0, 0, 0, 0, 0, 0, 0, 0, 0,
];

// Two reports, of the shards 3 and 999.
static REPORTS: [u8; 24] = [
    0, 2, 0, 3, 0, 0, 0, 0, 0, 0, 0, 5, 1, 3, 231, 0, 0, 0, 0, 0, 0, 0, 1, 0,
];

#[test]
fn a_heartbeat_is_read_whole(rt: HostRuntime) -> Result<(), Fail> {
    assert!(rt; outcome(rt.alloc(), What::Envelope, &HEARTBEAT) == 0);
    assert!(rt; has_short_beginnings(rt.alloc(), What::Envelope, &HEARTBEAT));
    assert!(rt; come_to(rt.alloc(), What::Envelope, &HEARTBEAT, &BAD_FIELDS)?);
    Ok(())
}

#[test]
fn a_message_for_anybody_has_no_uid(rt: HostRuntime) -> Result<(), Fail> {
    assert!(rt; outcome(rt.alloc(), What::ForAnybody, &HEARTBEAT) == 7);
    assert!(rt; comes_to(rt.alloc(), What::ForAnybody, &HEARTBEAT, &(28, 0, 0))?);
    Ok(())
}

#[test]
fn a_header_is_checked_alone(rt: HostRuntime) {
    assert!(rt; check_header(&HEARTBEAT).is_none());
    let headers: [(&[u8], u8); 10] = [
        (b"AK", 1),
        (b"XX", 1),
        (b"AKX", 2),
        (b"AKC", 1),
        (b"AKC\x00", 3),
        (b"AKC\x03", 3),
        (b"AKC\x01", 1),
        (b"AKC\x02", 1),
        (b"AKC\x01\x1a", 4),
        (b"AKC\x02\x1a", 4),
    ];
    for (bytes, fault) in &headers {
        assert!(rt; check_header(bytes) == Some(*fault), "{fault}");
    }
}

fn process(alloc: Global) -> Result<Unique, Fail> {
    Ok(parse_unique(alloc, b"a:1#1")?)
}

fn push_head(unique: &Unique, out: &mut Vec<u8>) -> Result<(), AllocError> {
    write_header(4, out)?;
    write_unique(unique, out)
}

fn head(alloc: Global, unique: &Unique) -> Result<Vec<u8>, AllocError> {
    let mut out = Vec::new(alloc);
    push_head(unique, &mut out)?;
    Ok(out)
}

fn begins_a_heartbeat(alloc: Global, unique: &Unique) -> Result<bool, AllocError> {
    let written: &[u8] = b"AKC\x02\x04\x01a\0\x01\0\0\0\0\0\0\0\x01";
    Ok(head(alloc, unique)?.as_slice() == written && process_len(&unique.address) == 12)
}

#[test]
fn a_header_is_written(rt: HostRuntime) -> Result<(), Fail> {
    let unique = process(rt.alloc())?;
    assert!(rt; begins_a_heartbeat(rt.alloc(), &unique)?);
    Ok(())
}

fn ballot(alloc: Global) -> Result<Ballot, Fail> {
    let unique = process(alloc)?;
    Ok(Ballot {
        term: BOUND,
        unique,
    })
}

// Whether the ballot that is read has the bound as its term.
fn reads_ballot(alloc: Global, bytes: &[u8]) -> bool {
    match Fields::new(bytes).ballot(alloc) {
        Ok(read) => read.term == BOUND,
        Err(_) => false,
    }
}

fn ballot_comes_back(alloc: Global, ballot: &Ballot) -> Result<bool, AllocError> {
    let mut out = Vec::new(alloc);
    write_ballot(ballot, &mut out)?;
    Ok(ballot_len(ballot) == out.len() && reads_ballot(alloc, &out))
}

#[test]
fn a_ballot_is_written_and_read(rt: HostRuntime) -> Result<(), Fail> {
    let ballot = ballot(rt.alloc())?;
    assert!(rt; ballot_comes_back(rt.alloc(), &ballot)?);
    Ok(())
}

fn push_numbers(out: &mut Vec<u8>) -> Result<(), AllocError> {
    write_shard(999, out)?;
    write_number(7, out)?;
    write_flag(true, out)
}

fn reads_numbers(bytes: &[u8]) -> bool {
    let mut fields = Fields::new(bytes);
    let shard = fields.shard().ok() == Some(999);
    let number = fields.number(1, BOUND).ok() == Some(7);
    let flag = fields.flag().ok() == Some(true);
    shard && number && flag && fields.len() == 0
}

#[test]
fn numbers_are_written_and_read(rt: HostRuntime) -> Result<(), Fail> {
    let mut out = Vec::new(rt.alloc());
    push_numbers(&mut out)?;
    assert!(rt; reads_numbers(&out));
    Ok(())
}

fn version(alloc: Global) -> Result<Version, Fail> {
    match Fields::new(&VERSION).version(alloc) {
        Ok(version) => Ok(version),
        Err(_) => Err("the version is refused")?,
    }
}

// Whether it is written as these bytes.
fn version_comes_back(alloc: Global, version: &Version) -> Result<bool, AllocError> {
    if version.len() > 128 {
        return Ok(false);
    }
    let mut out = Vec::new(alloc);
    write_version(version, &mut out)?;
    let written = out.as_slice() == VERSION.as_slice();
    Ok(written && version_len(version) == VERSION.len() && is_short(version))
}

#[test]
fn a_version_is_read_and_written(rt: HostRuntime) -> Result<(), Fail> {
    let version = version(rt.alloc())?;
    assert!(rt; version_comes_back(rt.alloc(), &version)?);
    Ok(())
}

#[test]
fn a_version_has_a_first_fault(rt: HostRuntime) -> Result<(), Fail> {
    let changes = [(0, 129, 5), (20, 1, 7), (40, 0, 7), (32, 1, 6), (32, 0, 7)];
    assert!(rt; has_short_beginnings(rt.alloc(), What::Version, &VERSION));
    assert!(rt; come_to(rt.alloc(), What::Version, &VERSION, &changes)?);
    Ok(())
}

fn reports(alloc: Global) -> Result<Vec<Report>, Fail> {
    match Fields::new(&REPORTS).reports(alloc) {
        Ok(reports) => Ok(reports),
        Err(_) => Err("no reports")?,
    }
}

// Whether they are two, and are written as these bytes.
fn reports_come_back(alloc: Global, reports: &[Report]) -> Result<bool, AllocError> {
    if reports.len() != 2 || !are_reports(reports) {
        return Ok(false);
    }
    let mut out = Vec::new(alloc);
    write_reports(reports, &mut out)?;
    Ok(out.as_slice() == REPORTS.as_slice() && reports_len(reports) == REPORTS.len())
}

#[test]
fn reports_are_read_and_written(rt: HostRuntime) -> Result<(), Fail> {
    let reports = reports(rt.alloc())?;
    assert!(rt; reports_come_back(rt.alloc(), &reports)?);
    Ok(())
}

#[test]
fn reports_have_a_first_fault(rt: HostRuntime) -> Result<(), Fail> {
    let changes = [(0, 4, 5), (12, 2, 7), (14, 232, 7), (11, 0, 7)];
    assert!(rt; has_short_beginnings(rt.alloc(), What::Reports, &REPORTS));
    assert!(rt; come_to(rt.alloc(), What::Reports, &REPORTS, &changes)?);
    Ok(())
}

fn reads_cart(alloc: Global, bytes: &[u8]) -> bool {
    match Fields::new(bytes).entity(alloc, 2) {
        Ok(name) => name.bytes() == b"cart".as_slice(),
        Err(_) => false,
    }
}

// Whether it is written with its length before it, and read.
fn entity_comes_back(alloc: Global, name: &Text) -> Result<bool, AllocError> {
    if !is_entity(name.bytes()) {
        return Ok(false);
    }
    let mut out = Vec::new(alloc);
    write_entity(name, &mut out)?;
    let written = out.as_slice() == b"\x04cart".as_slice() && entity_len(name) == 5;
    Ok(written && reads_cart(alloc, &out))
}

#[test]
fn entities_are_read_and_written(rt: HostRuntime) -> Result<(), Fail> {
    let name = Text::from_bytes(rt.alloc(), b"cart")?;
    assert!(rt; entity_comes_back(rt.alloc(), &name)?);
    assert!(rt; outcome(rt.alloc(), What::Entity, b"\x01 ") == 7);
    assert!(rt; outcome(rt.alloc(), What::Entity, b"\x00") == 5);
    Ok(())
}

fn parts(alloc: Global) -> Result<Parts, Fail> {
    match Fields::new(&PARTS).parts(alloc) {
        Ok(parts) => Ok(parts),
        Err(_) => Err("no parts")?,
    }
}

// Whether they are two, and are written as these bytes.
fn parts_come_back(alloc: Global, parts: &Parts) -> Result<bool, AllocError> {
    if parts.len() != 2 || !parts_valid(parts.as_slice()) {
        return Ok(false);
    }
    let mut out = Vec::new(alloc);
    write_parts(parts.as_slice(), &mut out)?;
    let length = parts_len(parts.as_slice()) == PARTS.len() && are_parts(parts.as_slice());
    Ok(length && out.as_slice() == PARTS.as_slice())
}

#[test]
fn parts_are_read_and_written(rt: HostRuntime) -> Result<(), Fail> {
    let parts = parts(rt.alloc())?;
    assert!(rt; parts_come_back(rt.alloc(), &parts)?);
    Ok(())
}

#[test]
fn parts_have_a_first_fault(rt: HostRuntime) -> Result<(), Fail> {
    let changes = [
        (0, 129, 5),
        (0, 3, 1),
        (20, 2, 7),
        (21, 0, 7),
        (21, 1, 7),
        (21, 6, 7),
        (21, 8, 7),
        (29, 0, 7),
        (30, 2, 7),
        (38, 4, 7),
        (39, 3, 5),
        (39, 2, 6),
        (40, 2, 7),
        (52, 1, 6),
    ];
    assert!(rt; has_short_beginnings(rt.alloc(), What::Parts, &PARTS));
    assert!(rt; come_to(rt.alloc(), What::Parts, &PARTS, &changes)?);
    Ok(())
}

fn shows_as(alloc: Global, fault: &WireFault, code: &str) -> Result<bool, Fail> {
    Ok(format!(in alloc; "{fault}")?.as_str() == code)
}

#[test]
fn a_fault_shows_as_its_code(rt: HostRuntime) -> Result<(), Fail> {
    let faults = [
        (WireFault::Short, "W1"),
        (WireFault::Magic, "W2"),
        (WireFault::Version, "W3"),
        (WireFault::Kind, "W4"),
        (WireFault::Count, "W5"),
        (WireFault::Order, "W6"),
        (WireFault::Range, "W7"),
        (WireFault::Trailing, "W8"),
        (WireFault::NoMemory(AllocError), "memory"),
    ];
    for (fault, code) in &faults {
        assert!(rt; shows_as(rt.alloc(), fault, code)?, "{code}");
    }
    Ok(())
}
