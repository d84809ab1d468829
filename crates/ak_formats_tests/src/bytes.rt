// What bytes come to, whole, cut short and with a byte changed.
use crate::datagram;
use ak_field::{Fields, WireFault};
use std::alloc::{AllocError, Global};

// A heartbeat from a:1#1 to b:1#1, in its 29 bytes, in the version that is written.
pub(crate) static HEARTBEAT: [u8; 29] = [
    65, 75, 67, 2, 4, 1, 97, 0, 1, 0, 0, 0, 0, 0, 0, 0, 1, 1, 98, 0, 1, 0, 0, 0, 0, 0, 0, 0, 1,
];

// What is read.
#[derive(Clone, Copy)]
pub(crate) enum What {
    // A whole datagram.
    Datagram,
    // What stands before its body, which names its receiver, or is for anybody.
    Envelope,
    ForAnybody,
    Version,
    Reports,
    Parts,
    Entity,
}

// Reads kind, sender and receiver.
fn read_envelope(alloc: Global, bytes: &[u8], anybody: bool) -> Result<(), WireFault> {
    let mut fields = Fields::new(bytes);
    let _version_and_kind = fields.header()?;
    let _from = fields.unique(alloc)?;
    let _to = fields.receiver(alloc, anybody)?;
    Ok(())
}

// The number of the fault, 0 where there is none, and 9 where memory ran out.
fn number_of<T>(read: &Result<T, WireFault>) -> u8 {
    match read {
        Ok(_) => 0,
        Err(fault) => fault.number().unwrap_or(9),
    }
}

pub(crate) fn outcome(alloc: Global, what: What, bytes: &[u8]) -> u8 {
    match what {
        What::Datagram => datagram::outcome(alloc, bytes),
        What::Envelope => number_of(&read_envelope(alloc, bytes, false)),
        What::ForAnybody => number_of(&read_envelope(alloc, bytes, true)),
        What::Version => number_of(&Fields::new(bytes).version(alloc)),
        What::Reports => number_of(&Fields::new(bytes).reports(alloc)),
        What::Parts => number_of(&Fields::new(bytes).parts(alloc)),
        What::Entity => number_of(&Fields::new(bytes).entity(alloc, 2)),
    }
}

// Whether each beginning is short.
pub(crate) fn has_short_beginnings(alloc: Global, what: What, bytes: &[u8]) -> bool {
    'ends: for end in 0..bytes.len() {
        if outcome(alloc, what, &bytes[..end]) != 1 {
            return false;
        }
    }
    true
}

// The bytes with one of them changed.
pub(crate) fn changed(
    alloc: Global,
    bytes: &[u8],
    place: usize,
    byte: u8,
) -> Result<Vec<u8>, AllocError> {
    let mut copy = Vec::from_slice(alloc, bytes)?;
    if place < copy.len() {
        copy[place] = byte;
    }
    Ok(copy)
}

// What a change comes to: a place, the byte that stands there then, and the number of the fault.
pub(crate) type Change = (usize, u8, u8);

// Each bad field of a heartbeat, from its first byte to its last.
pub(crate) static BAD_FIELDS: [Change; 18] = [
    (0, 66, 2),
    (2, 65, 2),
    (3, 0, 3),
    (3, 3, 3),
    (4, 0, 4),
    (4, 26, 4),
    (5, 0, 5),
    (5, 65, 5),
    (6, 32, 7),
    (8, 0, 7),
    (9, 128, 7),
    (16, 0, 7),
    (17, 0, 5),
    (17, 65, 5),
    (18, 47, 7),
    (20, 0, 7),
    (21, 128, 7),
    (28, 0, 7),
];

pub(crate) fn comes_to(
    alloc: Global,
    what: What,
    bytes: &[u8],
    change: &Change,
) -> Result<bool, AllocError> {
    let other = changed(alloc, bytes, change.0, change.1)?;
    Ok(outcome(alloc, what, &other) == change.2)
}

pub(crate) fn come_to(
    alloc: Global,
    what: What,
    bytes: &[u8],
    changes: &[Change],
) -> Result<bool, AllocError> {
    'changes: for change in changes {
        if !comes_to(alloc, what, bytes, change)? {
            return Ok(false);
        }
    }
    Ok(true)
}
