// A command line, as the command that it asks for.
ghost use Rattle.std.specs.Prelude.{◌↔◌, ◌∷◌, Ok, codes, IsTrue};
ghost use Rattle.ak_address.specs.Spelling.{SomeAddress};
ghost use Rattle.ak_options.specs.Answers.{Answers, AnswersCtl};
ghost use Rattle.ak_options.specs.CommandLine.{IsCommandName};

use crate::command::{Command, Request};
use crate::options::{are_options, number_or, only_number, only_value};
use crate::request::{is_text, read_request};
use ak_address::{Address, AddressFault, Text, is_address, parse_address};
use ak_schedule::LineFault;
use std::alloc::{AllocError, Global};

static SWEEP_OPTIONS: [&[u8]; 4] = [b"--first", b"--count", b"--events", b"--workers"];

static NODE_OPTIONS: [&[u8]; 2] = [b"--config", b"--ticks"];

static CTL_OPTIONS: [&[u8]; 2] = [b"--to", b"--say"];

/// The command that the words after the program's name ask for, whole. None exactly where they ask for none: the first word is no
/// command's, the others are no pairs of an option's name and its value, an option is not the command's, stands in several
/// pairs, or is required (as all but `--workers` are) and stands in none, or its value is not in its range. The pairs may come in
/// any order, and a value may begin as an option's name does. The commands, their options and ranges are this project's choice.
///
/// Memory runs out only where the words ask for a command that holds texts: whatever is refused is refused without memory.
pub fn read_command(alloc: Global, words: &[Text]) -> Result<Option<Command>, AllocError>
    ensures { Answers words.now result }
{
    let Some((name, options)) = words.split_first() else {
        return Ok(None);
    };
    let name = name.bytes();
    if is_text(name, b"replay") {
        return Ok(replay(options));
    }
    if is_text(name, b"sweep") {
        return Ok(sweep(options));
    }
    if is_text(name, b"node") {
        return node(alloc, options);
    }
    if is_text(name, b"ctl") {
        return ctl(alloc, options);
    }
    Ok(None)
}

/// Whether a word is the name of a command. Takes no memory.
pub fn is_command_name(word: &[u8]) -> bool
    ensures { IsTrue result ↔ IsCommandName word.now }
{
    is_text(word, b"replay")
        || is_text(word, b"sweep")
        || is_text(word, b"node")
        || is_text(word, b"ctl")
}

fn replay(options: &[Text]) -> Option<Command>
    ensures { Answers (codes "replay" ∷ options.now) (Ok result) }
{
    if options.is_empty() {
        return Some(Command::Replay);
    }
    None
}

fn sweep(options: &[Text]) -> Option<Command>
    ensures { Answers (codes "sweep" ∷ options.now) (Ok result) }
{
    if !are_options(options, &SWEEP_OPTIONS) {
        return None;
    }
    let first = only_number(options, b"--first", 0, 9_000_000_000_000_000_000)?;
    let count = only_number(options, b"--count", 1, 100_000)?;
    let events = only_number(options, b"--events", 1, 2_000)?;
    let workers = number_or(options, b"--workers", 1, 64, 1)?;
    Some(Command::Sweep {
        first,
        count,
        events,
        workers: workers as u32,
    })
}

fn node(alloc: Global, options: &[Text]) -> Result<Option<Command>, AllocError>
    ensures { Answers (codes "node" ∷ options.now) result }
{
    if !are_options(options, &NODE_OPTIONS) {
        return Ok(None);
    }
    let Some(config) = only_value(options, b"--config") else {
        return Ok(None);
    };
    let Some(ticks) = only_number(options, b"--ticks", 0, 1_000_000_000) else {
        return Ok(None);
    };
    let config = Text::from_bytes(alloc, config)?;
    Ok(Some(Command::Node { config, ticks }))
}

fn ctl(alloc: Global, options: &[Text]) -> Result<Option<Command>, AllocError>
    ensures { Answers (codes "ctl" ∷ options.now) result }
{
    if !are_options(options, &CTL_OPTIONS) {
        return Ok(None);
    }
    let Some(to) = only_value(options, b"--to") else {
        return Ok(None);
    };
    let Some(say) = only_value(options, b"--say") else {
        return Ok(None);
    };
    if !is_address(to) {
        return Ok(None);
    }
    match address_and_request(alloc, to, say)? {
        Some((to, say)) => Ok(Some(Command::Ctl { to, say })),
        None => Ok(None),
    }
}

// The address and what is asked there. What asks nothing is refused without memory.
fn address_and_request(
    alloc: Global,
    address: &[u8],
    text: &[u8],
) -> Result<Option<(Address, Request)>, AllocError>
    requires { SomeAddress address.now }
    ensures { AnswersCtl address.now text.now result }
{
    let say = match read_request(alloc, text) {
        Ok(say) => say,
        Err(LineFault::NoMemory(error)) => return Err(error),
        Err(LineFault::Malformed) => return Ok(None),
        Err(LineFault::BadHeader) => return Ok(None),
    };
    match parse_address(alloc, address) {
        Ok(to) => Ok(Some((to, say))),
        Err(AddressFault::NoMemory(error)) => Err(error),
        Err(AddressFault::BadHost) => Ok(None),
        Err(AddressFault::BadPort) => Ok(None),
        Err(AddressFault::BadUid) => Ok(None),
    }
}
