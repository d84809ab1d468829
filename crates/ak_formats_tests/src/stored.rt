// Datagrams as the release before this one wrote them, in the first version of the format: one of each kind and one
// of a control command; and what it says.
use crate::bytes::changed;
use crate::datagram::is_written;
use ak_address::{Text, Unique, print_number};
use ak_clock::Version;
use ak_gossip::{Gossip, Part};
use ak_promise::Ballot;
use ak_wire::{Envelope, Message, Reports, decode};
use std::alloc::{AllocError, Global};
use std::test::Fail;

// A datagram; and its sender, the address and the uid of its receiver, its kind, and the fields of its body. A process of a gossip is
// followed by its count, its state, its up number, whether it has seen the gossip, the number of its row and the places there.
type Stored = (&'static [u8], &'static [u8]);

static STORED: [Stored; 26] = [
    (
        &[
            65, 75, 67, 1, 1, 1, 97, 0, 1, 0, 0, 0, 0, 0, 0, 0, 1, 1, 98, 0, 1, 0, 0, 0, 0, 0, 0,
            0, 0,
        ],
        b"a:1#1 b:1 0 join",
    ),
    (
        &[
            65, 75, 67, 1, 2, 1, 97, 0, 1, 0, 0, 0, 0, 0, 0, 0, 1, 1, 98, 0, 1, 0, 0, 0, 0, 0, 0,
            0, 2, 4, 1, 97, 0, 1, 0, 0, 0, 0, 0, 0, 0, 1, 0, 0, 0, 0, 0, 0, 0, 13, 2, 0, 0, 0, 0,
            0, 0, 0, 1, 1, 0, 0, 0, 0, 0, 0, 0, 3, 1, 1, 1, 98, 0, 1, 0, 0, 0, 0, 0, 0, 0, 2, 0, 0,
            0, 0, 0, 0, 0, 0, 5, 0, 0, 0, 0, 0, 0, 0, 2, 0, 0, 0, 0, 0, 0, 0, 0, 0, 1, 99, 0, 1, 0,
            0, 0, 0, 0, 0, 0, 3, 0, 0, 0, 0, 0, 0, 0, 2, 7, 0, 0, 0, 0, 0, 0, 0, 0, 0, 0, 0, 0, 0,
            0, 0, 0, 0, 1, 100, 0, 1, 0, 0, 0, 0, 0, 0, 0, 4, 0, 0, 0, 0, 0, 0, 0, 14, 8, 0, 0, 0,
            0, 0, 0, 0, 0, 1, 0, 0, 0, 0, 0, 0, 0, 0,
        ],
        b"a:1#1 b:1 2 welcome a:1#1 13 2 1 1 3 1 b:1#2 0 5 2 0 0 c:1#3 2 7 0 0 0 d:1#4 14 8 0 1 0",
    ),
    (
        &[
            65, 75, 67, 1, 3, 1, 97, 0, 1, 0, 0, 0, 0, 0, 0, 0, 1, 1, 98, 0, 1, 0, 0, 0, 0, 0, 0,
            0, 2, 4, 1, 97, 0, 1, 0, 0, 0, 0, 0, 0, 0, 1, 0, 0, 0, 0, 0, 0, 0, 13, 2, 0, 0, 0, 0,
            0, 0, 0, 1, 1, 0, 0, 0, 0, 0, 0, 0, 3, 1, 1, 1, 98, 0, 1, 0, 0, 0, 0, 0, 0, 0, 2, 0, 0,
            0, 0, 0, 0, 0, 0, 5, 0, 0, 0, 0, 0, 0, 0, 2, 0, 0, 0, 0, 0, 0, 0, 0, 0, 1, 99, 0, 1, 0,
            0, 0, 0, 0, 0, 0, 3, 0, 0, 0, 0, 0, 0, 0, 2, 7, 0, 0, 0, 0, 0, 0, 0, 0, 0, 0, 0, 0, 0,
            0, 0, 0, 0, 1, 100, 0, 1, 0, 0, 0, 0, 0, 0, 0, 4, 0, 0, 0, 0, 0, 0, 0, 14, 8, 0, 0, 0,
            0, 0, 0, 0, 0, 1, 0, 0, 0, 0, 0, 0, 0, 0,
        ],
        b"a:1#1 b:1 2 gossip a:1#1 13 2 1 1 3 1 b:1#2 0 5 2 0 0 c:1#3 2 7 0 0 0 d:1#4 14 8 0 1 0",
    ),
    (
        &[
            65, 75, 67, 1, 4, 1, 97, 0, 1, 0, 0, 0, 0, 0, 0, 0, 1, 1, 98, 0, 1, 0, 0, 0, 0, 0, 0,
            0, 2,
        ],
        b"a:1#1 b:1 2 heartbeat",
    ),
    (
        &[
            65, 75, 67, 1, 5, 1, 97, 0, 1, 0, 0, 0, 0, 0, 0, 0, 1, 1, 98, 0, 1, 0, 0, 0, 0, 0, 0,
            0, 2,
        ],
        b"a:1#1 b:1 2 heartbeat-reply",
    ),
    (
        &[
            65, 75, 67, 1, 6, 1, 97, 0, 1, 0, 0, 0, 0, 0, 0, 0, 1, 1, 98, 0, 1, 0, 0, 0, 0, 0, 0,
            0, 2,
        ],
        b"a:1#1 b:1 2 exiting-confirmed",
    ),
    (
        &[
            65, 75, 67, 1, 7, 1, 97, 0, 1, 0, 0, 0, 0, 0, 0, 0, 1, 1, 98, 0, 1, 0, 0, 0, 0, 0, 0,
            0, 2, 0, 0, 0, 0, 0, 0, 0, 5, 1, 99, 0, 1, 0, 0, 0, 0, 0, 0, 0, 3,
        ],
        b"a:1#1 b:1 2 ask 5 c:1#3",
    ),
    (
        &[
            65, 75, 67, 1, 8, 1, 97, 0, 1, 0, 0, 0, 0, 0, 0, 0, 1, 1, 98, 0, 1, 0, 0, 0, 0, 0, 0,
            0, 2, 0, 0, 0, 0, 0, 0, 0, 5, 1, 99, 0, 1, 0, 0, 0, 0, 0, 0, 0, 3, 2, 1, 97, 0, 1, 0,
            0, 0, 0, 0, 0, 0, 1, 0, 0, 0, 0, 0, 0, 0, 7, 1, 98, 0, 1, 0, 0, 0, 0, 0, 0, 0, 2, 0, 0,
            0, 0, 0, 0, 0, 8, 0, 2, 0, 1, 0, 0, 0, 0, 0, 0, 0, 9, 0, 3, 231, 0, 0, 0, 0, 0, 0, 0,
            10, 1,
        ],
        b"a:1#1 b:1 2 granted 5 c:1#3 a:1#1 7 b:1#2 8 1 9 0 999 10 1",
    ),
    (
        &[
            65, 75, 67, 1, 9, 1, 97, 0, 1, 0, 0, 0, 0, 0, 0, 0, 1, 1, 98, 0, 1, 0, 0, 0, 0, 0, 0,
            0, 2, 0, 0, 0, 0, 0, 0, 0, 5, 1, 99, 0, 1, 0, 0, 0, 0, 0, 0, 0, 3, 0, 0, 0, 0, 0, 0, 0,
            6, 1, 100, 0, 1, 0, 0, 0, 0, 0, 0, 0, 4,
        ],
        b"a:1#1 b:1 2 busy 5 c:1#3 6 d:1#4",
    ),
    (
        &[
            65, 75, 67, 1, 10, 1, 97, 0, 1, 0, 0, 0, 0, 0, 0, 0, 1, 1, 98, 0, 1, 0, 0, 0, 0, 0, 0,
            0, 2, 0, 0, 0, 0, 0, 0, 0, 5, 1, 99, 0, 1, 0, 0, 0, 0, 0, 0, 0, 3, 0, 0, 0, 0, 0, 0, 0,
            6, 1, 100, 0, 1, 0, 0, 0, 0, 0, 0, 0, 4,
        ],
        b"a:1#1 b:1 2 old 5 c:1#3 6 d:1#4",
    ),
    (
        &[
            65, 75, 67, 1, 11, 1, 97, 0, 1, 0, 0, 0, 0, 0, 0, 0, 1, 1, 98, 0, 1, 0, 0, 0, 0, 0, 0,
            0, 2, 0, 0, 0, 0, 0, 0, 0, 5, 1, 99, 0, 1, 0, 0, 0, 0, 0, 0, 0, 3,
        ],
        b"a:1#1 b:1 2 hand-over-to-me 5 c:1#3",
    ),
    (
        &[
            65, 75, 67, 1, 12, 1, 97, 0, 1, 0, 0, 0, 0, 0, 0, 0, 1, 1, 98, 0, 1, 0, 0, 0, 0, 0, 0,
            0, 2, 0, 0, 0, 0, 0, 0, 0, 5, 1, 99, 0, 1, 0, 0, 0, 0, 0, 0, 0, 3, 2, 1, 97, 0, 1, 0,
            0, 0, 0, 0, 0, 0, 1, 0, 0, 0, 0, 0, 0, 0, 7, 1, 98, 0, 1, 0, 0, 0, 0, 0, 0, 0, 2, 0, 0,
            0, 0, 0, 0, 0, 8,
        ],
        b"a:1#1 b:1 2 hand-over-done 5 c:1#3 a:1#1 7 b:1#2 8",
    ),
    (
        &[
            65, 75, 67, 1, 13, 1, 97, 0, 1, 0, 0, 0, 0, 0, 0, 0, 1, 1, 98, 0, 1, 0, 0, 0, 0, 0, 0,
            0, 2, 0, 0, 0, 0, 0, 0, 0, 5, 1, 99, 0, 1, 0, 0, 0, 0, 0, 0, 0, 3, 2, 1, 97, 0, 1, 0,
            0, 0, 0, 0, 0, 0, 1, 0, 0, 0, 0, 0, 0, 0, 7, 1, 98, 0, 1, 0, 0, 0, 0, 0, 0, 0, 2, 0, 0,
            0, 0, 0, 0, 0, 8,
        ],
        b"a:1#1 b:1 2 release 5 c:1#3 a:1#1 7 b:1#2 8",
    ),
    (
        &[
            65, 75, 67, 1, 14, 1, 97, 0, 1, 0, 0, 0, 0, 0, 0, 0, 1, 1, 98, 0, 1, 0, 0, 0, 0, 0, 0,
            0, 2, 0, 0, 0, 0, 0, 0, 0, 5, 1, 99, 0, 1, 0, 0, 0, 0, 0, 0, 0, 3, 0, 16,
        ],
        b"a:1#1 b:1 2 get-home 5 c:1#3 16",
    ),
    (
        &[
            65, 75, 67, 1, 15, 1, 97, 0, 1, 0, 0, 0, 0, 0, 0, 0, 1, 1, 98, 0, 1, 0, 0, 0, 0, 0, 0,
            0, 2, 0, 0, 0, 0, 0, 0, 0, 5, 1, 99, 0, 1, 0, 0, 0, 0, 0, 0, 0, 3, 0, 16, 1, 100, 0, 1,
            0, 0, 0, 0, 0, 0, 0, 4,
        ],
        b"a:1#1 b:1 2 home 5 c:1#3 16 d:1#4",
    ),
    (
        &[
            65, 75, 67, 1, 16, 1, 97, 0, 1, 0, 0, 0, 0, 0, 0, 0, 1, 1, 98, 0, 1, 0, 0, 0, 0, 0, 0,
            0, 2, 0, 0, 0, 0, 0, 0, 0, 5, 1, 99, 0, 1, 0, 0, 0, 0, 0, 0, 0, 3, 0, 16, 0, 0, 0, 0,
            0, 0, 0, 11,
        ],
        b"a:1#1 b:1 2 host-shard 5 c:1#3 16 11",
    ),
    (
        &[
            65, 75, 67, 1, 17, 1, 97, 0, 1, 0, 0, 0, 0, 0, 0, 0, 1, 1, 98, 0, 1, 0, 0, 0, 0, 0, 0,
            0, 2, 0, 0, 0, 0, 0, 0, 0, 5, 1, 99, 0, 1, 0, 0, 0, 0, 0, 0, 0, 3, 0, 16, 0, 0, 0, 0,
            0, 0, 0, 11,
        ],
        b"a:1#1 b:1 2 shard-started 5 c:1#3 16 11",
    ),
    (
        &[
            65, 75, 67, 1, 18, 1, 97, 0, 1, 0, 0, 0, 0, 0, 0, 0, 1, 1, 98, 0, 1, 0, 0, 0, 0, 0, 0,
            0, 2, 0, 0, 0, 0, 0, 0, 0, 5, 1, 99, 0, 1, 0, 0, 0, 0, 0, 0, 0, 3, 0, 16, 0, 0, 0, 0,
            0, 0, 0, 11,
        ],
        b"a:1#1 b:1 2 begin-hand-off 5 c:1#3 16 11",
    ),
    (
        &[
            65, 75, 67, 1, 19, 1, 97, 0, 1, 0, 0, 0, 0, 0, 0, 0, 1, 1, 98, 0, 1, 0, 0, 0, 0, 0, 0,
            0, 2, 0, 0, 0, 0, 0, 0, 0, 5, 1, 99, 0, 1, 0, 0, 0, 0, 0, 0, 0, 3, 0, 16, 0, 0, 0, 0,
            0, 0, 0, 11,
        ],
        b"a:1#1 b:1 2 begin-hand-off-ack 5 c:1#3 16 11",
    ),
    (
        &[
            65, 75, 67, 1, 20, 1, 97, 0, 1, 0, 0, 0, 0, 0, 0, 0, 1, 1, 98, 0, 1, 0, 0, 0, 0, 0, 0,
            0, 2, 0, 0, 0, 0, 0, 0, 0, 5, 1, 99, 0, 1, 0, 0, 0, 0, 0, 0, 0, 3, 0, 16, 0, 0, 0, 0,
            0, 0, 0, 11,
        ],
        b"a:1#1 b:1 2 hand-off 5 c:1#3 16 11",
    ),
    (
        &[
            65, 75, 67, 1, 21, 1, 97, 0, 1, 0, 0, 0, 0, 0, 0, 0, 1, 1, 98, 0, 1, 0, 0, 0, 0, 0, 0,
            0, 2, 0, 0, 0, 0, 0, 0, 0, 5, 1, 99, 0, 1, 0, 0, 0, 0, 0, 0, 0, 3, 0, 16, 0, 0, 0, 0,
            0, 0, 0, 11,
        ],
        b"a:1#1 b:1 2 shard-stopped 5 c:1#3 16 11",
    ),
    (
        &[
            65, 75, 67, 1, 22, 1, 97, 0, 1, 0, 0, 0, 0, 0, 0, 0, 1, 1, 98, 0, 1, 0, 0, 0, 0, 0, 0,
            0, 2, 4, 99, 97, 114, 116, 0, 0, 0, 0, 0, 0, 0, 12,
        ],
        b"a:1#1 b:1 2 forward cart 12",
    ),
    (
        &[
            65, 75, 67, 1, 23, 1, 97, 0, 1, 0, 0, 0, 0, 0, 0, 0, 1, 1, 98, 0, 1, 0, 0, 0, 0, 0, 0,
            0, 0, 1, 100, 0, 1, 0, 0, 0, 0, 0, 0, 0, 4,
        ],
        b"a:1#1 b:1 0 leave d:1#4",
    ),
    (
        &[
            65, 75, 67, 1, 24, 1, 97, 0, 1, 0, 0, 0, 0, 0, 0, 0, 1, 1, 98, 0, 1, 0, 0, 0, 0, 0, 0,
            0, 0, 1, 100, 0, 1, 0, 0, 0, 0, 0, 0, 0, 4,
        ],
        b"a:1#1 b:1 0 down d:1#4",
    ),
    (
        &[
            65, 75, 67, 1, 25, 1, 97, 0, 1, 0, 0, 0, 0, 0, 0, 0, 1, 1, 98, 0, 1, 0, 0, 0, 0, 0, 0,
            0, 0, 4, 99, 97, 114, 116, 0, 0, 0, 0, 0, 0, 0, 12,
        ],
        b"a:1#1 b:1 0 offer cart 12",
    ),
    // What a control command sent.
    (
        &[
            65, 75, 67, 1, 25, 3, 99, 116, 108, 0, 1, 0, 0, 0, 0, 0, 0, 0, 1, 1, 97, 0, 1, 0, 0, 0,
            0, 0, 0, 0, 0, 9, 117, 115, 101, 114, 47, 99, 97, 114, 116, 0, 0, 0, 0, 0, 0, 0, 5,
        ],
        b"ctl:1#1 a:1 0 offer user/cart 5",
    ),
];

fn push_number(number: u64, out: &mut Vec<u8>) -> Result<(), AllocError> {
    out.push(b' ')?;
    print_number(number, out)
}

fn push_process(who: &Unique, out: &mut Vec<u8>) -> Result<(), AllocError> {
    out.push(b' ')?;
    who.print_into(out)
}

fn push_ballot(ballot: &Ballot, out: &mut Vec<u8>) -> Result<(), AllocError> {
    push_number(ballot.term, out)?;
    push_process(&ballot.unique, out)
}

fn push_both(ballot: &Ballot, other: &Ballot, out: &mut Vec<u8>) -> Result<(), AllocError> {
    push_ballot(ballot, out)?;
    push_ballot(other, out)
}

fn push_counted(who: &Unique, count: u64, out: &mut Vec<u8>) -> Result<(), AllocError> {
    push_process(who, out)?;
    push_number(count, out)
}

fn push_version(version: &Version, out: &mut Vec<u8>) -> Result<(), AllocError> {
    'entries: for index in 0..version.len() {
        if let Some((who, count)) = version.at(index) {
            push_counted(who, count, out)?;
        }
    }
    Ok(())
}

fn push_known(ballot: &Ballot, version: &Version, out: &mut Vec<u8>) -> Result<(), AllocError> {
    push_ballot(ballot, out)?;
    push_version(version, out)
}

fn push_reports(reports: &Reports, out: &mut Vec<u8>) -> Result<(), AllocError> {
    'reports: for report in reports.as_slice() {
        push_number(u64::from(report.shard), out)?;
        push_number(report.number, out)?;
        push_number(u64::from(report.hosted), out)?;
    }
    Ok(())
}

fn push_shard(ballot: &Ballot, shard: u32, out: &mut Vec<u8>) -> Result<(), AllocError> {
    push_ballot(ballot, out)?;
    push_number(u64::from(shard), out)
}

fn push_order(
    ballot: &Ballot,
    shard: u32,
    number: u64,
    out: &mut Vec<u8>,
) -> Result<(), AllocError> {
    push_shard(ballot, shard, out)?;
    push_number(number, out)
}

fn push_payload(entity: &Text, payload: u64, out: &mut Vec<u8>) -> Result<(), AllocError> {
    out.push(b' ')?;
    out.extend_from_slice(entity.bytes())?;
    push_number(payload, out)
}

fn push_part(part: &Part, out: &mut Vec<u8>) -> Result<(), AllocError> {
    push_counted(&part.unique, part.count, out)?;
    push_number(u64::from(part.state), out)?;
    push_number(part.up_number, out)?;
    push_number(u64::from(part.seen), out)?;
    push_number(part.row_number, out)?;
    'places: for place in part.subjects.as_slice() {
        push_number(u64::from(*place), out)?;
    }
    Ok(())
}

fn push_parts(parts: &[Part], out: &mut Vec<u8>) -> Result<(), AllocError> {
    'parts: for part in parts {
        push_part(part, out)?;
    }
    Ok(())
}

fn push_gossip(alloc: Global, gossip: &Gossip, out: &mut Vec<u8>) -> Result<(), AllocError> {
    let parts = gossip.to_parts(alloc)?;
    push_parts(parts.as_slice(), out)
}

// The fields of a body.
fn push_body(alloc: Global, message: &Message, out: &mut Vec<u8>) -> Result<(), AllocError> {
    match message {
        Message::Welcome(gossip) => push_gossip(alloc, gossip, out),
        Message::Gossip(gossip) => push_gossip(alloc, gossip, out),
        Message::Ask(ballot) => push_ballot(ballot, out),
        Message::Granted(ballot, version, reports) => {
            push_known(ballot, version, out)?;
            push_reports(reports, out)
        }
        Message::Busy(ballot, other) => push_both(ballot, other, out),
        Message::Old(ballot, other) => push_both(ballot, other, out),
        Message::HandOverToMe(ballot) => push_ballot(ballot, out),
        Message::HandOverDone(ballot, version) => push_known(ballot, version, out),
        Message::Release(ballot, version) => push_known(ballot, version, out),
        Message::GetHome(ballot, shard) => push_shard(ballot, *shard, out),
        Message::Home(ballot, shard, who) => {
            push_shard(ballot, *shard, out)?;
            push_process(who, out)
        }
        Message::HostShard(ballot, shard, number) => push_order(ballot, *shard, *number, out),
        Message::ShardStarted(ballot, shard, number) => push_order(ballot, *shard, *number, out),
        Message::BeginHandOff(ballot, shard, number) => push_order(ballot, *shard, *number, out),
        Message::BeginHandOffAck(ballot, shard, number) => push_order(ballot, *shard, *number, out),
        Message::HandOff(ballot, shard, number) => push_order(ballot, *shard, *number, out),
        Message::ShardStopped(ballot, shard, number) => push_order(ballot, *shard, *number, out),
        Message::Forward(entity, payload) => push_payload(entity, *payload, out),
        Message::Leave(who) => push_process(who, out),
        Message::Down(who) => push_process(who, out),
        Message::Offer(entity, payload) => push_payload(entity, *payload, out),
        _ => Ok(()),
    }
}

fn push_envelope(alloc: Global, envelope: &Envelope, out: &mut Vec<u8>) -> Result<(), AllocError> {
    envelope.from.print_into(out)?;
    out.push(b' ')?;
    envelope.to.print_into(out)?;
    push_number(envelope.uid, out)?;
    out.push(b' ')?;
    out.extend_from_slice(envelope.message.kind())?;
    push_body(alloc, &envelope.message, out)
}

fn says(alloc: Global, envelope: &Envelope, wanted: &[u8]) -> Result<bool, AllocError> {
    let mut told = Vec::new(alloc);
    push_envelope(alloc, envelope, &mut told)?;
    Ok(told.as_slice() == wanted)
}

// Whether it says this, and is written in the second version as these bytes.
fn is_so(
    alloc: Global,
    envelope: &Envelope,
    wanted: &[u8],
    second: &[u8],
) -> Result<bool, AllocError> {
    Ok(says(alloc, envelope, wanted)? && is_written(alloc, envelope, second))
}

// The same. Every envelope of these tests ends here.
fn ends_so(
    alloc: Global,
    envelope: Envelope,
    wanted: &[u8],
    second: &[u8],
) -> Result<bool, AllocError> {
    is_so(alloc, &envelope, wanted, second)
}

fn is_read(alloc: Global, stored: &Stored) -> Result<bool, AllocError> {
    let second = changed(alloc, stored.0, 3, 2)?;
    match decode(alloc, stored.0) {
        Ok(envelope) => ends_so(alloc, envelope, stored.1, &second),
        Err(_) => Ok(false),
    }
}

#[test]
fn what_the_last_release_sends_is_read(rt: HostRuntime) -> Result<(), Fail> {
    for (index, stored) in STORED.iter().enumerate() {
        assert!(rt; is_read(rt.alloc(), stored)?, "{index}");
    }
    Ok(())
}
