// Why there is no configuration, and what is odd about one.
use crate::notes::Notes;
use crate::sentence::{Piece, say};
use ak_address::{Address, Text};
use ak_settings::{Settings, Strategy};
use std::alloc::Global;

/// Says what is to be said of something that has a name.
pub fn say_of<'a, N: Notes>(
    alloc: Global,
    notes: &mut N,
    before: &'a [u8],
    name: &'a Text,
    after: &'a [u8],
) {
    say(
        alloc,
        notes,
        &[
            Piece::Text(before),
            Piece::Text(b"\""),
            Piece::Text(name.bytes()),
            Piece::Text(b"\""),
            Piece::Text(after),
            Piece::Text(b"\n"),
        ],
    );
}

/// Warns where the quorum is above the number of addresses that have the role.
pub fn warn_of_quorum<N: Notes>(alloc: Global, notes: &mut N, settings: &Settings) {
    let Strategy::StaticQuorum(quorum) = settings.strategy else {
        return;
    };
    let role = settings.role.len();
    if u64::from(quorum) <= role as u64 {
        return;
    }
    say(
        alloc,
        notes,
        &[
            Piece::Text(b"warning: the quorum is "),
            Piece::Number(u64::from(quorum)),
            Piece::Text(b", and "),
            Piece::Number(role as u64),
            Piece::Text(how_counted(role < settings.listed.len())),
            Piece::Text(b": such a cluster can never be founded\n"),
        ],
    );
}

// What the addresses are that a quorum is counted over: those that have the role, where not all have it.
fn how_counted(some: bool) -> &'static [u8] {
    if some {
        b" addresses have the role"
    } else {
        b" addresses are listed"
    }
}

/// Warns of an address whose name was not found.
pub fn warn_of_name<N: Notes>(alloc: Global, notes: &mut N, at: &Address) {
    say(
        alloc,
        notes,
        &[
            Piece::Text(b"warning: the name of "),
            Piece::Address(at),
            Piece::Text(
                b" was not found: packets to it are lost until the node is started again\n",
            ),
        ],
    );
}
