// What a node decides, in words.
use crate::Fault;
use ak_address::Unique;
use ak_member::{Effect, Effects, Status};
use ak_outside::{Sink, write_all};
use std::alloc::{AllocError, Global};

/// Tells what a node has put into what it knows.
pub(crate) fn tell_update<W: Sink>(
    alloc: Global,
    me: &Unique,
    effects: &Effects,
    output: &mut W,
) -> Result<(), Fault> {
    let mut text = Vec::new(alloc);
    'effects: for effect in effects.as_slice() {
        print_effect(me, effect, &mut text)?;
    }
    write(&text, output)
}

/// Tells that a node is lost.
pub(crate) fn tell_loss<W: Sink>(alloc: Global, who: &Unique, output: &mut W) -> Result<(), Fault> {
    let mut text = Vec::new(alloc);
    who.print_into(&mut text)?;
    text.extend_from_slice(b" is lost\n")?;
    write(&text, output)
}

fn write<W: Sink>(text: &[u8], output: &mut W) -> Result<(), Fault> {
    if write_all(output, text) {
        Ok(())
    } else {
        Err(Fault)
    }
}

fn print_effect(me: &Unique, effect: &Effect, text: &mut Vec<u8>) -> Result<(), AllocError> {
    match effect {
        Effect::Joined(who) => print_line(me, b" lets ", Some(who), b" join", text),
        Effect::Rise(who, status, _number) => print_line(
            me,
            b" makes ",
            Some(who),
            rise_text(*status),
            text,
        ),
        Effect::Removed(who, _confirmed) => print_line(me, b" removes ", Some(who), b"", text),
        Effect::Observed(silent) => match silent.at(0) {
            Some(who) => print_line(me, b" does not hear ", Some(who), b"", text),
            None => print_line(me, b" hears everybody again", None, b"", text),
        },
    }
}

fn rise_text(status: Status) -> &'static [u8] {
    match status {
        Status::Joining => b" joining",
        Status::WeaklyUp => b" weakly up",
        Status::Up => b" up",
        Status::Leaving => b" leaving",
        Status::Exiting => b" exiting",
        Status::Down => b" down",
    }
}

fn print_line(
    me: &Unique,
    before: &[u8],
    who: Option<&Unique>,
    after: &[u8],
    text: &mut Vec<u8>,
) -> Result<(), AllocError> {
    me.print_into(text)?;
    text.extend_from_slice(before)?;
    if let Some(who) = who {
        who.print_into(text)?;
    }
    text.extend_from_slice(after)?;
    text.extend_from_slice(b"\n")
}
