// Datagrams that anybody may send, and ends that fail in the middle.
use crate::ends::{Given, Wanted, comes_to};
use ak_outside::Status;
use std::alloc::{AllocError, Global};
use std::test::Fail;

const FOUNDER: &[u8] =
    b"self = \"a:1\"\nuid = 1\nlisted = [\"a:1\", \"b:1\"]\nstrategy = \"static-quorum\"\nquorum = 1\nfound = true\ntick-ms = 100\nmargin = 2\nshards = 10\n";

const TYPED: &[u8] =
    b"self = \"a:1\"\nuid = 1\nlisted = [\"a:1\", \"b:1\"]\nstrategy = \"static-quorum\"\nquorum = 1\nfound = true\ntick-ms = 100\nmargin = 2\nshards = 10\ntypes = [\"order\", \"user\"]\n";

const NEWCOMER: &[u8] =
    b"self = \"a:1\"\nuid = 1\nlisted = [\"a:1\", \"b:1\"]\nstrategy = \"static-quorum\"\nquorum = 1\ntick-ms = 100\nmargin = 2\n";

const JOINER: &[u8] =
    b"self = \"b:1\"\nuid = 1\nlisted = [\"a:1\", \"b:1\"]\nstrategy = \"static-quorum\"\nquorum = 2\njoin = \"a:1\"\ntick-ms = 100\n";

// From x:1#1, which is no member: it asks a:1 to let it in.
const JOIN: &[u8] =
    b"AKC\x01\x01\x01x\x00\x01\x00\x00\x00\x00\x00\x00\x00\x01\x01a\x00\x01\x00\x00\x00\x00\x00\x00\x00\x00";

// It asks that a:1#1 leaves.
const LEAVE: &[u8] =
    b"AKC\x01\x17\x01x\x00\x01\x00\x00\x00\x00\x00\x00\x00\x01\x01a\x00\x01\x00\x00\x00\x00\x00\x00\x00\x00\x01a\x00\x01\x00\x00\x00\x00\x00\x00\x00\x01";

// That a:1#1 is down.
const DOWN: &[u8] =
    b"AKC\x01\x18\x01x\x00\x01\x00\x00\x00\x00\x00\x00\x00\x01\x01a\x00\x01\x00\x00\x00\x00\x00\x00\x00\x00\x01a\x00\x01\x00\x00\x00\x00\x00\x00\x00\x01";

// A heartbeat to a:1#1.
const HEARTBEAT: &[u8] =
    b"AKC\x01\x04\x01x\x00\x01\x00\x00\x00\x00\x00\x00\x00\x01\x01a\x00\x01\x00\x00\x00\x00\x00\x00\x00\x01";

// The ballot of term 1 is asked of it.
const ASK: &[u8] =
    b"AKC\x01\x07\x01x\x00\x01\x00\x00\x00\x00\x00\x00\x00\x01\x01a\x00\x01\x00\x00\x00\x00\x00\x00\x00\x01\x00\x00\x00\x00\x00\x00\x00\x01\x01x\x00\x01\x00\x00\x00\x00\x00\x00\x00\x01";

// Five for the entity e.
const OFFER: &[u8] =
    b"AKC\x01\x19\x01x\x00\x01\x00\x00\x00\x00\x00\x00\x00\x01\x01a\x00\x01\x00\x00\x00\x00\x00\x00\x00\x00\x01e\x00\x00\x00\x00\x00\x00\x00\x05";

// The same, passed on.
const FORWARD: &[u8] =
    b"AKC\x01\x16\x01x\x00\x01\x00\x00\x00\x00\x00\x00\x00\x01\x01a\x00\x01\x00\x00\x00\x00\x00\x00\x00\x01\x01e\x00\x00\x00\x00\x00\x00\x00\x05";

// In the second version: five for the type order, without an id.
const OFFER_OF_NO_ID: &[u8] =
    b"AKC\x02\x19\x01x\x00\x01\x00\x00\x00\x00\x00\x00\x00\x01\x01a\x00\x01\x00\x00\x00\x00\x00\x00\x00\x00\x06order/\x00\x00\x00\x00\x00\x00\x00\x05";

// For order/e.
const TYPED_OFFER: &[u8] =
    b"AKC\x02\x19\x01x\x00\x01\x00\x00\x00\x00\x00\x00\x00\x01\x01a\x00\x01\x00\x00\x00\x00\x00\x00\x00\x00\x07order/e\x00\x00\x00\x00\x00\x00\x00\x05";

// And in the first version, passed on, for user/e.
const TYPED_FORWARD: &[u8] =
    b"AKC\x01\x16\x01x\x00\x01\x00\x00\x00\x00\x00\x00\x00\x01\x01a\x00\x01\x00\x00\x00\x00\x00\x00\x00\x01\x06user/e\x00\x00\x00\x00\x00\x00\x00\x05";

// Five for an id of 64 bytes.
const LONGEST_ID: &[u8] =
    b"AKC\x02\x19\x01x\x00\x01\x00\x00\x00\x00\x00\x00\x00\x01\x01a\x00\x01\x00\x00\x00\x00\x00\x00\x00\x00@eeeeeeeeeeeeeeeeeeeeeeeeeeeeeeeeeeeeeeeeeeeeeeeeeeeeeeeeeeeeeeee\x00\x00\x00\x00\x00\x00\x00\x05";

// For 65 bytes.
const LONG_OFFER: &[u8] =
    b"AKC\x02\x19\x01x\x00\x01\x00\x00\x00\x00\x00\x00\x00\x01\x01a\x00\x01\x00\x00\x00\x00\x00\x00\x00\x00Aeeeeeeeeeeeeeeeeeeeeeeeeeeeeeeeeeeeeeeeeeeeeeeeeeeeeeeeeeeeeeeeee\x00\x00\x00\x00\x00\x00\x00\x05";

// The same, passed on.
const LONG_FORWARD: &[u8] =
    b"AKC\x02\x16\x01x\x00\x01\x00\x00\x00\x00\x00\x00\x00\x01\x01a\x00\x01\x00\x00\x00\x00\x00\x00\x00\x01Aeeeeeeeeeeeeeeeeeeeeeeeeeeeeeeeeeeeeeeeeeeeeeeeeeeeeeeeeeeeeeeeee\x00\x00\x00\x00\x00\x00\x00\x05";

// And in the first version, in which an entity has 64 bytes at most.
const LONG_IN_FIRST: &[u8] =
    b"AKC\x01\x19\x01x\x00\x01\x00\x00\x00\x00\x00\x00\x00\x01\x01a\x00\x01\x00\x00\x00\x00\x00\x00\x00\x00Aeeeeeeeeeeeeeeeeeeeeeeeeeeeeeeeeeeeeeeeeeeeeeeeeeeeeeeeeeeeeeeeee\x00\x00\x00\x00\x00\x00\x00\x05";

// The heartbeat without its last byte.
const CUT: &[u8] =
    b"AKC\x01\x04\x01x\x00\x01\x00\x00\x00\x00\x00\x00\x00\x01\x01a\x00\x01\x00\x00\x00\x00\x00\x00\x00";

// With another first byte.
const OTHER_MAGIC: &[u8] =
    b"BKC\x01\x04\x01x\x00\x01\x00\x00\x00\x00\x00\x00\x00\x01\x01a\x00\x01\x00\x00\x00\x00\x00\x00\x00\x01";

// Of a version that there is not.
const OTHER_VERSION: &[u8] =
    b"AKC\x03\x04\x01x\x00\x01\x00\x00\x00\x00\x00\x00\x00\x01\x01a\x00\x01\x00\x00\x00\x00\x00\x00\x00\x01";

// Of a kind that there is not.
const UNKNOWN_KIND: &[u8] =
    b"AKC\x01\x1a\x01x\x00\x01\x00\x00\x00\x00\x00\x00\x00\x01\x01a\x00\x01\x00\x00\x00\x00\x00\x00\x00\x01";

// From a host of no byte.
const EMPTY_HOST: &[u8] =
    b"AKC\x01\x04\x00x\x00\x01\x00\x00\x00\x00\x00\x00\x00\x01\x01a\x00\x01\x00\x00\x00\x00\x00\x00\x00\x01";

// A gossip whose second process comes before its first.
const BACKWARDS: &[u8] =
    b"AKC\x01\x03\x01x\x00\x01\x00\x00\x00\x00\x00\x00\x00\x01\x01a\x00\x01\x00\x00\x00\x00\x00\x00\x00\x01\x02\x01b\x00\x01\x00\x00\x00\x00\x00\x00\x00\x01\x00\x00\x00\x00\x00\x00\x00\x01\x01\x00\x00\x00\x00\x00\x00\x00\x00\x00\x00\x00\x00\x00\x00\x00\x00\x00\x01a\x00\x01\x00\x00\x00\x00\x00\x00\x00\x01\x00\x00\x00\x00\x00\x00\x00\x01\x01\x00\x00\x00\x00\x00\x00\x00\x00\x00\x00\x00\x00\x00\x00\x00\x00\x00";

// A heartbeat to uid 0.
const TO_NOBODY: &[u8] =
    b"AKC\x01\x04\x01x\x00\x01\x00\x00\x00\x00\x00\x00\x00\x01\x01a\x00\x01\x00\x00\x00\x00\x00\x00\x00\x00";

// The heartbeat and a byte more.
const BYTE_MORE: &[u8] =
    b"AKC\x01\x04\x01x\x00\x01\x00\x00\x00\x00\x00\x00\x00\x01\x01a\x00\x01\x00\x00\x00\x00\x00\x00\x00\x01\x00";

// To a:1#9.
const TO_ANOTHER_UID: &[u8] =
    b"AKC\x01\x04\x01x\x00\x01\x00\x00\x00\x00\x00\x00\x00\x01\x01a\x00\x01\x00\x00\x00\x00\x00\x00\x00\x09";

// To b:1#1.
const TO_ANOTHER_ADDRESS: &[u8] =
    b"AKC\x01\x04\x01x\x00\x01\x00\x00\x00\x00\x00\x00\x00\x01\x01b\x00\x01\x00\x00\x00\x00\x00\x00\x00\x01";

// Less than a header.
const THREE_BYTES: &[u8] = b"AKC";

// b:1#1 asks to be let in.
const JOIN_OF_B: &[u8] =
    b"AKC\x01\x01\x01b\x00\x01\x00\x00\x00\x00\x00\x00\x00\x01\x01a\x00\x01\x00\x00\x00\x00\x00\x00\x00\x00";

// The ballot of term 1 of a:1#1 is released, which a:1#1 alone may say.
const RELEASE: &[u8] =
    b"AKC\x01\x0d\x01x\x00\x01\x00\x00\x00\x00\x00\x00\x00\x01\x01a\x00\x01\x00\x00\x00\x00\x00\x00\x00\x01\x00\x00\x00\x00\x00\x00\x00\x01\x01a\x00\x01\x00\x00\x00\x00\x00\x00\x00\x01\x00";

// The ballot of the greatest term is asked.
const GREATEST_ASK: &[u8] =
    b"AKC\x01\x07\x01x\x00\x01\x00\x00\x00\x00\x00\x00\x00\x01\x01a\x00\x01\x00\x00\x00\x00\x00\x00\x00\x01@\x00\x00\x00\x00\x00\x00\x00\x01x\x00\x01\x00\x00\x00\x00\x00\x00\x00\x01";

// And said to have come after that of a:1#1.
const OLD: &[u8] =
    b"AKC\x01\x0a\x01x\x00\x01\x00\x00\x00\x00\x00\x00\x00\x01\x01a\x00\x01\x00\x00\x00\x00\x00\x00\x00\x01\x00\x00\x00\x00\x00\x00\x00\x01\x01a\x00\x01\x00\x00\x00\x00\x00\x00\x00\x01@\x00\x00\x00\x00\x00\x00\x00\x01x\x00\x01\x00\x00\x00\x00\x00\x00\x00\x01";

// By that ballot shard 3 is to be hosted, with the greatest number.
const HOST_3: &[u8] =
    b"AKC\x01\x10\x01x\x00\x01\x00\x00\x00\x00\x00\x00\x00\x01\x01a\x00\x01\x00\x00\x00\x00\x00\x00\x00\x01@\x00\x00\x00\x00\x00\x00\x00\x01x\x00\x01\x00\x00\x00\x00\x00\x00\x00\x01\x00\x03@\x00\x00\x00\x00\x00\x00\x00";

// Shard 999, of which there is none.
const HOST_999: &[u8] =
    b"AKC\x01\x10\x01x\x00\x01\x00\x00\x00\x00\x00\x00\x00\x01\x01a\x00\x01\x00\x00\x00\x00\x00\x00\x00\x01@\x00\x00\x00\x00\x00\x00\x00\x01x\x00\x01\x00\x00\x00\x00\x00\x00\x00\x01\x03\xe7\x00\x00\x00\x00\x00\x00\x00\x01";

// Shard 3 is to be handed off.
const HAND_OFF_3: &[u8] =
    b"AKC\x01\x14\x01x\x00\x01\x00\x00\x00\x00\x00\x00\x00\x01\x01a\x00\x01\x00\x00\x00\x00\x00\x00\x00\x01@\x00\x00\x00\x00\x00\x00\x00\x01x\x00\x01\x00\x00\x00\x00\x00\x00\x00\x01\x00\x03@\x00\x00\x00\x00\x00\x00\x00";

// A configuration, how many ticks, the packets that come (an empty one is a quiet), the readings of the clock, the bind, the send and
// the receive that fail, if any; and the status, what is printed, how many sends were asked and how many taken.
struct Case {
    config: &'static [u8],
    ticks: u64,
    packets: &'static [&'static [u8]],
    readings: &'static [u64],
    bind: &'static [u64],
    send: &'static [u64],
    receive: &'static [u64],
    status: Status,
    text: &'static [u8],
    asked: u64,
    taken: usize,
}

static CASES: [Case; 11] = [
    Case {
        config: FOUNDER,
        ticks: 1,
        packets: &[
            CUT,
            OTHER_MAGIC,
            OTHER_VERSION,
            UNKNOWN_KIND,
            EMPTY_HOST,
            BACKWARDS,
            TO_NOBODY,
            BYTE_MORE,
            b"",
        ],
        readings: &[0, 0, 0, 0, 0, 0, 0, 0, 0, 100],
        bind: &[],
        send: &[],
        receive: &[],
        status: Status::Done,
        text: b"1 found a:1#1\n  update 1 joined a:1#1\n  view a:1#1=1 | a:1#1 joining | -\n2 bad W1\n3 bad W2\n4 bad W3\n5 bad W4\n6 bad W5\n7 bad W6\n8 bad W7\n9 bad W8\n10 tick\n  update 2 up a:1#1 1\n  view a:1#1=2 | a:1#1 up 1 | -\n  settled a:1#1=2\nsteps 10\npackets 0\n",
        asked: 0,
        taken: 0,
    },
    Case {
        config: NEWCOMER,
        ticks: 1,
        packets: &[JOIN, LEAVE, DOWN, HEARTBEAT, ASK, OFFER, b""],
        readings: &[0, 0, 0, 0, 0, 0, 0, 100],
        bind: &[],
        send: &[],
        receive: &[],
        status: Status::Done,
        text: b"1 packet\n  at a:1#1 join from x:1#1\n  refused N3\n2 packet\n  at a:1#1 leave from x:1#1\n  refused N3\n3 packet\n  at a:1#1 down from x:1#1\n  refused N3\n4 packet\n  at a:1#1 heartbeat from x:1#1\n5 packet\n  at a:1#1 ask from x:1#1\n6 packet\n  at a:1#1 offer from x:1#1\n  buffer e 5\n7 tick\nsteps 7\npackets 0\n",
        asked: 0,
        taken: 0,
    },
    Case {
        config: FOUNDER,
        ticks: 1,
        packets: &[
            DOWN,
            HEARTBEAT,
            TO_ANOTHER_UID,
            TO_ANOTHER_ADDRESS,
            THREE_BYTES,
            JOIN_OF_B,
            b"",
        ],
        readings: &[0, 0, 0, 0, 0, 0, 0, 100],
        bind: &[],
        send: &[],
        receive: &[],
        status: Status::Done,
        text: b"1 found a:1#1\n  update 1 joined a:1#1\n  view a:1#1=1 | a:1#1 joining | -\n2 packet\n  at a:1#1 down from x:1#1\n  update 2 down a:1#1\n  view a:1#1=2 | a:1#1 down | -\n  stopped\n3 packet\n  at a:1#1 heartbeat from x:1#1\n4 packet\n  at a:1#1 heartbeat from x:1#1\n5 packet\n  at a:1#1 heartbeat from x:1#1\n6 bad W1\n7 packet\n  at a:1#1 join from b:1#1\n8 tick\nsteps 8\npackets 0\n",
        asked: 0,
        taken: 0,
    },
    Case {
        config: FOUNDER,
        ticks: 1,
        packets: &[HEARTBEAT, HEARTBEAT, HEARTBEAT],
        readings: &[0, 0, 0, 0],
        bind: &[],
        send: &[],
        receive: &[3],
        status: Status::Link,
        text: b"1 found a:1#1\n  update 1 joined a:1#1\n  view a:1#1=1 | a:1#1 joining | -\n2 packet\n  at a:1#1 heartbeat from x:1#1\n  send 1 heartbeat-reply to x:1#1\n3 packet\n  at a:1#1 heartbeat from x:1#1\n  send 2 heartbeat-reply to x:1#1\nerror 8 link\n",
        asked: 2,
        taken: 2,
    },
    Case {
        config: FOUNDER,
        ticks: 1,
        packets: &[HEARTBEAT, HEARTBEAT, HEARTBEAT, b""],
        readings: &[0, 0, 0, 0, 100],
        bind: &[],
        send: &[2],
        receive: &[],
        status: Status::Done,
        text: b"1 found a:1#1\n  update 1 joined a:1#1\n  view a:1#1=1 | a:1#1 joining | -\n2 packet\n  at a:1#1 heartbeat from x:1#1\n  send 1 heartbeat-reply to x:1#1\n3 packet\n  at a:1#1 heartbeat from x:1#1\n  send 2 heartbeat-reply to x:1#1\n  lost 2\n4 packet\n  at a:1#1 heartbeat from x:1#1\n  send 3 heartbeat-reply to x:1#1\n5 tick\n  update 2 up a:1#1 1\n  view a:1#1=2 | a:1#1 up 1 | -\n  settled a:1#1=2\nsteps 5\npackets 3\n",
        asked: 3,
        taken: 2,
    },
    Case {
        config: JOINER,
        ticks: 1,
        packets: &[b""],
        readings: &[0, 100],
        bind: &[1],
        send: &[],
        receive: &[],
        status: Status::Link,
        text: b"error 8 link\n",
        asked: 0,
        taken: 0,
    },
    Case {
        config: JOINER,
        ticks: 1,
        packets: &[b""],
        readings: &[0, 100],
        bind: &[],
        send: &[],
        receive: &[1],
        status: Status::Link,
        text: b"1 join b:1#1 a:1\n  send 1 join to a:1\nerror 8 link\n",
        asked: 1,
        taken: 1,
    },
    Case {
        config: JOINER,
        ticks: 1,
        packets: &[b""],
        readings: &[0, 100],
        bind: &[],
        send: &[1],
        receive: &[],
        status: Status::Done,
        text: b"1 join b:1#1 a:1\n  send 1 join to a:1\n  lost 1\n2 tick\n  send 2 join to a:1\nsteps 2\npackets 2\n",
        asked: 2,
        taken: 1,
    },
    Case {
        config: FOUNDER,
        ticks: 5,
        packets: &[
            b"",
            b"",
            RELEASE,
            b"",
            GREATEST_ASK,
            OLD,
            b"",
            HOST_3,
            HOST_999,
            HAND_OFF_3,
            HOST_3,
            b"",
        ],
        readings: &[
            0, 100, 200, 200, 300, 300, 300, 400, 400, 400, 400, 400, 500,
        ],
        bind: &[],
        send: &[],
        receive: &[],
        status: Status::Done,
        text: b"1 found a:1#1\n  update 1 joined a:1#1\n  view a:1#1=1 | a:1#1 joining | -\n2 tick\n  update 2 up a:1#1 1\n  view a:1#1=2 | a:1#1 up 1 | -\n  settled a:1#1=2\n3 tick\n  active 1\n4 packet\n  at a:1#1 release from x:1#1\n5 tick\n6 packet\n  at a:1#1 ask from x:1#1\n  send 1 granted to x:1#1\n7 packet\n  at a:1#1 old from x:1#1\n8 tick\n9 packet\n  at a:1#1 host-shard from x:1#1\n  host 3 4611686018427387904\n  send 2 shard-started to x:1#1\n10 packet\n  at a:1#1 host-shard from x:1#1\n11 packet\n  at a:1#1 hand-off from x:1#1\n  gone 3\n  send 3 shard-stopped to x:1#1\n12 packet\n  at a:1#1 host-shard from x:1#1\n13 tick\nsteps 13\npackets 3\n",
        asked: 3,
        taken: 3,
    },
    // What is no entity is passed over: with types, and without.
    Case {
        config: TYPED,
        ticks: 2,
        packets: &[
            b"",
            OFFER,
            FORWARD,
            OFFER_OF_NO_ID,
            TYPED_OFFER,
            TYPED_FORWARD,
            b"",
        ],
        readings: &[0, 100, 100, 100, 100, 100, 100, 200],
        bind: &[],
        send: &[],
        receive: &[],
        status: Status::Done,
        text: b"1 found a:1#1\n  update 1 joined a:1#1\n  view a:1#1=1 | a:1#1 joining | -\n2 tick\n  update 2 up a:1#1 1\n  view a:1#1=2 | a:1#1 up 1 | -\n  settled a:1#1=2\n3 packet\n  at a:1#1 offer from x:1#1\n4 packet\n  at a:1#1 forward from x:1#1\n5 packet\n  at a:1#1 offer from x:1#1\n6 packet\n  at a:1#1 offer from x:1#1\n  buffer order/e 5\n7 packet\n  at a:1#1 forward from x:1#1\n  buffer user/e 5\n8 tick\n  send 1 get-home to a:1#1\n  send 2 get-home to a:1#1\n  active 1\nsteps 8\npackets 2\n",
        asked: 2,
        taken: 2,
    },
    Case {
        config: FOUNDER,
        ticks: 2,
        packets: &[
            b"",
            LONG_OFFER,
            LONG_FORWARD,
            LONGEST_ID,
            LONG_IN_FIRST,
            b"",
        ],
        readings: &[0, 100, 100, 100, 100, 100, 200],
        bind: &[],
        send: &[],
        receive: &[],
        status: Status::Done,
        text: b"1 found a:1#1\n  update 1 joined a:1#1\n  view a:1#1=1 | a:1#1 joining | -\n2 tick\n  update 2 up a:1#1 1\n  view a:1#1=2 | a:1#1 up 1 | -\n  settled a:1#1=2\n3 packet\n  at a:1#1 offer from x:1#1\n4 packet\n  at a:1#1 forward from x:1#1\n5 packet\n  at a:1#1 offer from x:1#1\n  buffer eeeeeeeeeeeeeeeeeeeeeeeeeeeeeeeeeeeeeeeeeeeeeeeeeeeeeeeeeeeeeeee 5\n6 bad W5\n7 tick\n  send 1 get-home to a:1#1\n  active 1\nsteps 7\npackets 1\n",
        asked: 1,
        taken: 1,
    },
];

fn holds(alloc: Global, case: &Case) -> Result<bool, AllocError> {
    let given = Given {
        config: case.config,
        ticks: case.ticks,
        packets: case.packets,
        readings: case.readings,
        loads: &[],
        binds: case.bind,
        sends: case.send,
        receives: case.receive,
        writes: &[],
    };
    let wanted = Wanted {
        status: case.status,
        text: case.text,
        asked: case.asked,
        taken: case.taken,
    };
    comes_to(alloc, b"f", &given, &wanted)
}

#[test]
fn each_case_has_its_text(rt: HostRuntime) -> Result<(), Fail> {
    for (index, case) in CASES.iter().enumerate() {
        assert!(rt; holds(rt.alloc(), case)?, "{index}");
    }
    Ok(())
}

// The release without the version that it names.
const RELEASE_HEAD: &[u8] =
    b"AKC\x01\x0d\x01x\x00\x01\x00\x00\x00\x00\x00\x00\x00\x01\x01a\x00\x01\x00\x00\x00\x00\x00\x00\x00\x01\x00\x00\x00\x00\x00\x00\x00\x01\x01a\x00\x01\x00\x00\x00\x00\x00\x00\x00\x01";

// The ballot of term 2 of x:1#1 is asked.
const LATER_ASK: &[u8] =
    b"AKC\x01\x07\x01x\x00\x01\x00\x00\x00\x00\x00\x00\x00\x01\x01a\x00\x01\x00\x00\x00\x00\x00\x00\x00\x01\x00\x00\x00\x00\x00\x00\x00\x02\x01x\x00\x01\x00\x00\x00\x00\x00\x00\x00\x01";

// One entry of the process kXX:1#1.
fn push_counted(index: u8, out: &mut Vec<u8>) -> Result<(), AllocError> {
    out.extend_from_slice(b"\x03k")?;
    out.push(b'a'.wrapping_add(index / 16))?;
    out.push(b'a'.wrapping_add(index % 16))?;
    out.extend_from_slice(b"\x00\x01\x00\x00\x00\x00\x00\x00\x00\x01")?;
    out.extend_from_slice(b"\x00\x00\x00\x00\x00\x00\x00\x01")
}

// The release with a version of so many processes.
fn release(alloc: Global, many: u8) -> Result<Vec<u8>, AllocError> {
    let mut out = Vec::from_slice(alloc, RELEASE_HEAD)?;
    out.push(many)?;
    for index in 0..many {
        push_counted(index, &mut out)?;
    }
    Ok(out)
}

const GRANTED: &[u8] =
    b"1 found a:1#1\n  update 1 joined a:1#1\n  view a:1#1=1 | a:1#1 joining | -\n2 tick\n  update 2 up a:1#1 1\n  view a:1#1=2 | a:1#1 up 1 | -\n  settled a:1#1=2\n3 tick\n  active 1\n4 packet\n  at a:1#1 release from x:1#1\n5 packet\n  at a:1#1 ask from x:1#1\n  send 1 granted to x:1#1\n6 tick\nsteps 6\npackets 1\n";

const NOT_GRANTED: &[u8] =
    b"1 found a:1#1\n  update 1 joined a:1#1\n  view a:1#1=1 | a:1#1 joining | -\n2 tick\n  update 2 up a:1#1 1\n  view a:1#1=2 | a:1#1 up 1 | -\n  settled a:1#1=2\n3 tick\n  active 1\n4 packet\n  at a:1#1 release from x:1#1\n5 packet\n  at a:1#1 ask from x:1#1\n6 tick\nsteps 6\npackets 0\n";

// What comes of a release of so many processes and an ask after it.
fn grants_so(alloc: Global, many: u8, text: &[u8], sent: u64) -> Result<bool, AllocError> {
    let release = release(alloc, many)?;
    let given = Given {
        config: FOUNDER,
        ticks: 3,
        packets: &[b"", b"", &release, LATER_ASK, b""],
        readings: &[0, 100, 200, 200, 200, 300],
        loads: &[],
        binds: &[],
        sends: &[],
        receives: &[],
        writes: &[],
    };
    let wanted = Wanted {
        status: Status::Done,
        text,
        asked: sent,
        taken: sent as usize,
    };
    comes_to(alloc, b"f", &given, &wanted)
}

// With the node itself 127 others are as many as a grant can name.
#[test]
fn a_floor_of_129_processes_grants_nothing(rt: HostRuntime) -> Result<(), Fail> {
    assert!(rt; grants_so(rt.alloc(), 127, GRANTED, 1)?);
    assert!(rt; grants_so(rt.alloc(), 128, NOT_GRANTED, 0)?);
    Ok(())
}
