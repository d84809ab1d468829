// What a node is asked, read as a line of a schedule.
ghost use Rattle.std.specs.Prelude.{◌≡◌, ◌<◌, ◌≤◌, ◌++◌, ◌↔◌, length, IsTrue, MatchOption, codes};
ghost use Rattle.ak_address.specs.Unique.{UniqueModel};
ghost use Rattle.ak_schedule.specs.Reading.{Reads};
ghost use Rattle.ak_options.specs.Requests.{SpellsRequest, IsRequestName, IsLineOf, event_at};

use crate::command::Request;
use ak_schedule::{Event, LineFault, MOST_BYTES, next_word, read_line};
use arrayvec::ArrayVec;
use std::alloc::Global;

// The process that a text is read for, and how many bytes it adds to the text, with the space before it.
const PROCESS: &[u8] = b" a:1#1 ";

const MOST_TEXT: usize = 4090;

/// What the text asks of a node. Refused as `Malformed` exactly where it asks nothing, whether or not memory would be found; only
/// memory can fail besides.
pub(crate) fn read_request(alloc: Global, text: &[u8]) -> Result<Request, LineFault>
    ensures { Reads (SpellsRequest text.now) result }
{
    let Some(line) = line_of(text) else {
        return Err(LineFault::Malformed);
    };
    match read_line(alloc, line.as_slice()) {
        Ok(event) => match request_of(event) {
            Some(request) => Ok(request),
            None => Err(LineFault::Malformed),
        },
        Err(fault) => Err(fault),
    }
}

// The text as a line in which `a:1#1` comes after the first word. None only where it asks nothing. Takes no memory.
fn line_of(text: &[u8]) -> Option<ArrayVec<u8, MOST_BYTES>>
    ensures { MatchOption result ((request : Request) → SpellsRequest text.now request → ⊥) (λ line. IsLineOf text.now line.items) }
{
    if text.len() > MOST_TEXT {
        return None;
    }
    let Some((first, rest)) = next_word(text) else {
        return None;
    };
    if !is_request_name(first) {
        return None;
    }
    with_process(first, rest)
}

fn is_request_name(name: &[u8]) -> bool
    ensures { IsTrue result ↔ IsRequestName name.now }
{
    is_text(name, b"leave") || is_text(name, b"down") || is_text(name, b"offer")
}

pub(crate) fn is_text(word: &[u8], text: &[u8]) -> bool
    ensures { IsTrue result ↔ (word.now ≡ text.now) }
{
    word == text
}

// A word, the process and what stands after the word. None exactly where a line has no room for them.
fn with_process(first: &[u8], rest: &[u8]) -> Option<ArrayVec<u8, MOST_BYTES>>
    ensures { MatchOption result
        (MOST_BYTES < length (first.now ++ codes " a:1#1 " ++ rest.now))
        (λ line. (line.items ≡ first.now ++ codes " a:1#1 " ++ rest.now) × (length line.items ≤ MOST_BYTES)) }
{
    let mut line = ArrayVec::new();
    line.try_extend_from_slice(first).ok()?;
    line.try_extend_from_slice(PROCESS).ok()?;
    line.try_extend_from_slice(rest).ok()?;
    Some(line)
}

// What an event asks of its process. None exactly where it asks nothing.
fn request_of(event: Event) -> Option<Request>
    ensures { MatchOption result
        ((process : UniqueModel) (request : Request) → event ≡ event_at process request → ⊥)
        (λ request. (process : UniqueModel) × (event ≡ event_at process request)) }
{
    match event {
        Event::Leave(_, member) => Some(Request::Leave(member)),
        Event::Down(_, member) => Some(Request::Down(member)),
        Event::Offer(_, entity, payload) => Some(Request::Offer(entity, payload)),
        _ => None,
    }
}
