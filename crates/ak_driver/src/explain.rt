// What people are told of a line that is refused.
use crate::replay::{Code, MOST_LINES, Stop};
use ak_address::Text;
use ak_notes::{Notes, Piece, say, say_event, say_header, say_no_entity, say_of_line, word_at};
use ak_world::Reason;
use std::alloc::Global;

// Says why the replay of a schedule stops at this line, which has this number and text, after so many headers, with these types.
// Where memory ran out nothing is said.
pub(crate) fn explain<N: Notes>(
    alloc: Global,
    stop: &Stop,
    headers: u32,
    types: &[Text],
    number: u64,
    line: &[u8],
    notes: &mut N,
) {
    match stop {
        Stop::NoMemory => {}
        Stop::Refused(Code::Malformed) => say_event(alloc, notes, number, line),
        Stop::Refused(Code::BadHeader) => say_header(alloc, notes, headers, line, number),
        Stop::Refused(Code::PastLimit) => explain_limit(alloc, number, notes),
        Stop::Refused(Code::Invalid(why)) => {
            explain_reason(alloc, *why, types, number, line, notes)
        }
    }
}

fn explain_limit<N: Notes>(alloc: Global, number: u64, notes: &mut N) {
    if number > u64::from(MOST_LINES) {
        say_of_line(
            alloc,
            notes,
            number,
            b"",
            b"a schedule has at most 200000 lines",
        );
    } else {
        say_of_line(
            alloc,
            notes,
            number,
            b"",
            b"a schedule has at most 50000 events",
        );
    }
}

// Says why the world refuses the event of this line.
fn explain_reason<N: Notes>(
    alloc: Global,
    why: Reason,
    types: &[Text],
    number: u64,
    line: &[u8],
    notes: &mut N,
) {
    // The process that acts, or the packet.
    let about = word_at(line, 1);
    let what: &[u8] = match why {
        Reason::Unlisted => return explain_unlisted(alloc, number, line, notes),
        Reason::NoPacket { sent } => return explain_packet(alloc, number, about, sent, notes),
        Reason::BadEntity => {
            return say_no_entity(alloc, notes, number, word_at(line, 2), types);
        }
        Reason::UniqueUsed => b" was started before: a process that comes back has another uid",
        Reason::AddressInUse => b" starts where another process runs: that one has to stop first",
        Reason::SecondFound => b" founds a cluster, and one was founded before",
        Reason::UnknownNode => b" was never started",
        Reason::NodeStopped => b" has stopped",
        Reason::TooManyPackets => b": there are no events after 200000 packets",
        Reason::TooManyStarts => b" is one too many: a schedule starts at most 64 processes",
    };
    say_of_line(alloc, notes, number, about, what);
}

// A process starts, or an address is joined, that is not listed.
fn explain_unlisted<N: Notes>(alloc: Global, number: u64, line: &[u8], notes: &mut N) {
    let joined = word_at(line, 2);
    if joined.is_empty() {
        say_of_line(
            alloc,
            notes,
            number,
            word_at(line, 1),
            b" is not at a listed address",
        );
    } else {
        say_of_line(alloc, notes, number, joined, b" is not listed");
    }
}

fn explain_packet<N: Notes>(alloc: Global, number: u64, packet: &[u8], sent: u64, notes: &mut N) {
    say(
        alloc,
        notes,
        &[
            Piece::Text(b"line "),
            Piece::Number(number),
            Piece::Text(b": there is no packet "),
            Piece::Text(packet),
            Piece::Text(b": "),
            Piece::Number(sent),
            Piece::Text(b" were sent, from 1 on\n"),
        ],
    );
}
