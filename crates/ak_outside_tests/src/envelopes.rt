use ak_address::{Text, parse_address, parse_unique};
use ak_link::{Got, receive_envelope, send_envelope};
use ak_outside::{MemoryLink, Sent};
use ak_wire::{Envelope, Message};
use std::alloc::{AllocError, Global};
use std::test::Fail;

// A heartbeat from a:1#1 to b:1#2.
const HEARTBEAT: [u8; 29] = [
    65, 75, 67, 2, 4, 1, 97, 0, 1, 0, 0, 0, 0, 0, 0, 0, 1, 1, 98, 0, 1, 0, 0, 0, 0, 0, 0, 0, 2,
];

fn heartbeat(alloc: Global) -> Result<Envelope, Fail> {
    let from = parse_unique(alloc, b"a:1#1")?;
    let to = parse_address(alloc, b"b:1")?;
    Ok(Envelope {
        from,
        to,
        uid: 2,
        message: Message::Heartbeat,
    })
}

fn a_link(alloc: Global) -> Result<MemoryLink, AllocError> {
    let mut coming = Vec::new(alloc);
    coming.push(Some(Text::from_bytes(alloc, &HEARTBEAT)?))?;
    coming.push(None)?;
    coming.push(Some(Text::from_bytes(alloc, b"AK")?))?;
    coming.push(Some(Text::from_bytes(alloc, b"AKCK?")?))?;
    MemoryLink::new(alloc, coming, &[], &[], &[5])
}

// What a receive answers: 0 for a heartbeat, the number of a fault, 9 for quiet, 10 for failed and 11 for another answer.
fn number_of(got: Got) -> u8 {
    match got {
        Got::Envelope(envelope) => {
            if envelope.uid == 2 && matches!(envelope.message, Message::Heartbeat) {
                0
            } else {
                11
            }
        }
        Got::Bad(number) => number,
        Got::Quiet => 9,
        Got::Failed => 10,
        Got::NoMemory(_) => 11,
    }
}

fn receives(alloc: Global, link: &mut MemoryLink, wanted: &[u8]) -> bool {
    let mut buffer = [0; 64];
    'receives: for number in wanted {
        if number_of(receive_envelope(alloc, link, &mut buffer)) != *number {
            return false;
        }
    }
    true
}

#[test]
fn envelopes_are_received(rt: HostRuntime) -> Result<(), Fail> {
    let mut link = a_link(rt.alloc())?;
    assert!(rt; receives(rt.alloc(), &mut link, &[0, 9, 1, 3, 10, 9]));
    Ok(())
}

fn sends(alloc: Global, link: &mut MemoryLink, envelope: &Envelope) -> bool {
    if !ak_wire::valid(envelope) {
        return false;
    }
    match send_envelope(alloc, link, envelope) {
        Ok(sent) => sent == Sent::Sent && link.sent_at(0) == Some(HEARTBEAT.as_slice()),
        Err(_) => false,
    }
}

#[test]
fn envelopes_are_sent(rt: HostRuntime) -> Result<(), Fail> {
    let mut link = a_link(rt.alloc())?;
    let envelope = heartbeat(rt.alloc())?;
    assert!(rt; sends(rt.alloc(), &mut link, &envelope));
    Ok(())
}
