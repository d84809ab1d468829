// Why a line of a schedule is refused, where that is seen from the line alone.
use crate::notes::Notes;
use crate::sentence::{Piece, say};
use ak_schedule::{MOST_BYTES, next_word};
use std::alloc::Global;

// How a header or an event is called, how it is written, and what its values are.
struct Form {
    name: &'static [u8],
    values: &'static [u8],
    example: &'static [u8],
}

static HEADERS: [Form; 9] = [
    Form {
        name: b"listed",
        values: b"1 to 32 different addresses",
        example: b"listed a:1 b:1 c:1",
    },
    Form {
        name: b"strategy",
        values: b"static-quorum with 1 to 32 addresses, keep-majority, keep-oldest with on or off, or down-all",
        example: b"strategy static-quorum 3",
    },
    Form {
        name: b"margin",
        values: b"1 to 1000000 ticks",
        example: b"margin 20",
    },
    Form {
        name: b"deadline",
        values: b"1 to 1000000 ticks",
        example: b"deadline 5",
    },
    Form {
        name: b"stable",
        values: b"1 to 1000000 ticks",
        example: b"stable 20",
    },
    Form {
        name: b"shards",
        values: b"1 to 1000",
        example: b"shards 100",
    },
    Form {
        name: b"buffer",
        values: b"1 to 100000 messages",
        example: b"buffer 1000",
    },
    Form {
        name: b"threshold",
        values: b"1 to 1000 shards",
        example: b"threshold 1",
    },
    Form {
        name: b"limit",
        values: b"1 to 1000 shards",
        example: b"limit 3",
    },
];

// The optional headers, in their order.
static OPTIONAL: [Form; 3] = [
    Form {
        name: b"weakly",
        values: b"0 to 1000000 ticks",
        example: b"weakly 20",
    },
    Form {
        name: b"role",
        values: b"1 to 32 different listed addresses",
        example: b"role a:1 b:1 c:1",
    },
    Form {
        name: b"types",
        values: b"1 to 8 different names, and at most 1000 shards of all of them",
        example: b"types order user",
    },
];

static EVENTS: [Form; 9] = [
    Form {
        name: b"start",
        values: b"a process",
        example: b"start a:1#1",
    },
    Form {
        name: b"found",
        values: b"a process",
        example: b"found a:1#1",
    },
    Form {
        name: b"join",
        values: b"a process and an address",
        example: b"join b:1#1 a:1",
    },
    Form {
        name: b"deliver",
        values: b"the number of a packet",
        example: b"deliver 1",
    },
    Form {
        name: b"tick",
        values: b"a process and a number below 4294967296",
        example: b"tick a:1#1 0",
    },
    Form {
        name: b"leave",
        values: b"the process that is asked and the one that leaves",
        example: b"leave a:1#1 b:1#1",
    },
    Form {
        name: b"down",
        values: b"the process that is asked and the one that is down",
        example: b"down a:1#1 b:1#1",
    },
    Form {
        name: b"stop",
        values: b"a process",
        example: b"stop b:1#1",
    },
    Form {
        name: b"offer",
        values: b"a process, an entity and a number below 9223372036854775808",
        example: b"offer a:1#1 cart 7",
    },
];

/// Says which header was wanted in this line, which has this number and comes after so many headers, or that the line is too long.
/// Past the ninth it says how the optional header is written that the line's first word names.
pub fn say_header<N: Notes>(alloc: Global, notes: &mut N, headers: u32, line: &[u8], number: u64) {
    if line.len() > MOST_BYTES {
        return say_too_long(alloc, notes, number);
    }
    if let Some(form) = HEADERS.get(headers as usize) {
        return say_wanted(
            alloc,
            notes,
            number,
            b"the header ",
            form,
            b" was wanted, as in: ",
        );
    }
    if let Some(form) = form_of(&OPTIONAL, line) {
        say_wanted(
            alloc,
            notes,
            number,
            b"the optional header ",
            form,
            b" stands once at most, in the order weakly, role, types, as in: ",
        );
    }
}

/// The word of a line of this index, from 0 on; empty where it has fewer.
pub fn word_at(line: &[u8], index: usize) -> &[u8] {
    let mut rest = line;
    'words: for _before in 0..index {
        let Some((_, after_it)) = next_word(rest) else {
            return &[];
        };
        rest = after_it;
    }
    match next_word(rest) {
        Some((word, _)) => word,
        None => &[],
    }
}

/// Says why this line is no event: by the event that its first word names, or the optional header, or by all events there are.
pub fn say_event<N: Notes>(alloc: Global, notes: &mut N, line: u64, text: &[u8]) {
    if text.len() > MOST_BYTES {
        return say_too_long(alloc, notes, line);
    }
    if let Some(form) = form_of(&EVENTS, text) {
        return say_wanted(
            alloc,
            notes,
            line,
            b"the event ",
            form,
            b" is written as in: ",
        );
    }
    match form_of(&OPTIONAL, text) {
        Some(form) => say_wanted(
            alloc,
            notes,
            line,
            b"the optional header ",
            form,
            b" stands before the first event, as in: ",
        ),
        None => say_of_line(
            alloc,
            notes,
            line,
            b"an event was wanted: ",
            b"start, found, join, deliver, tick, leave, down, stop or offer, as in: start a:1#1",
        ),
    }
}

fn say_too_long<N: Notes>(alloc: Global, notes: &mut N, line: u64) {
    say_of_line(alloc, notes, line, b"it", b" has more than 4096 bytes");
}

/// Says of a line what is to be said about something in it.
pub fn say_of_line<'a, N: Notes>(
    alloc: Global,
    notes: &mut N,
    line: u64,
    about: &'a [u8],
    what: &'a [u8],
) {
    say(
        alloc,
        notes,
        &[
            Piece::Text(b"line "),
            Piece::Number(line),
            Piece::Text(b": "),
            Piece::Text(about),
            Piece::Text(what),
            Piece::Text(b"\n"),
        ],
    );
}

// The one of these forms whose name the line's first word is.
fn form_of<'a>(forms: &'a [Form], text: &[u8]) -> Option<&'a Form> {
    let word = word_at(text, 0);
    forms.iter().find(|form| form.name == word)
}

fn say_wanted<'a, N: Notes>(
    alloc: Global,
    notes: &mut N,
    line: u64,
    what: &'a [u8],
    form: &'a Form,
    how: &'a [u8],
) {
    say(
        alloc,
        notes,
        &[
            Piece::Text(b"line "),
            Piece::Number(line),
            Piece::Text(b": "),
            Piece::Text(what),
            Piece::Text(b"\""),
            Piece::Text(form.name),
            Piece::Text(b"\""),
            Piece::Text(how),
            Piece::Text(form.example),
            Piece::Text(b" ("),
            Piece::Text(form.values),
            Piece::Text(b")\n"),
        ],
    );
}
