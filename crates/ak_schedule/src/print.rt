ghost use Rattle.std.specs.Prelude.{◌≡◌, ◌++◌, OnOk, OnErr, codes, decimal, take, vec_len};
ghost use Rattle.ak_address.specs.Spelling.{address_text, unique_text};
ghost use Rattle.ak_schedule.specs.Schedule.{event_text};

use crate::event::Event;
use ak_address::{Address, Unique, print_number};
use std::alloc::AllocError;

/// Appends the event in its canonical spelling: one space between words, no leading zeros. Where memory
/// runs out `out` is as it was.
pub fn print_event(event: &Event, out: &mut Vec<u8>) -> Result<(), AllocError>
    ensures ok { OnOk result (out.new.items ≡ out.old.items ++ event_text event.now) }
    ensures err { OnErr result (out.new.items ≡ out.old.items) }
{
    let start = out.len();
    let printed = append_event(event, out);
    if printed.is_err() {
        out.truncate(start);
    }
    printed
}

// Where memory runs out some of it may stand after what `out` had. So for each function below.
fn append_event(event: &Event, out: &mut Vec<u8>) -> Result<(), AllocError>
    ensures ok { OnOk result (out.new.items ≡ out.old.items ++ event_text event.now) }
    ensures err { OnErr result (take (vec_len out.old) out.new.items ≡ out.old.items) }
{
    match event {
        Event::Start(who) => return append_one(b"start ", who, out),
        Event::Found(who) => return append_one(b"found ", who, out),
        Event::Join(who, target) => return append_join(who, target, out),
        Event::Tick(who, word) => return append_tick(who, *word, out),
        Event::Deliver(packet) => return append_deliver(*packet, out),
        Event::Leave(who, member) => return append_two(b"leave ", who, member, out),
        Event::Down(who, member) => return append_two(b"down ", who, member, out),
        Event::Offer(who, entity, payload) => return append_offer(
            who,
            entity.name().bytes(),
            *payload,
            out,
        ),
        Event::Stop(who) => return append_one(b"stop ", who, out),
    }
}

fn append_one(name: &[u8], who: &Unique, out: &mut Vec<u8>) -> Result<(), AllocError>
    ensures ok { OnOk result (out.new.items ≡ out.old.items ++ (name.now ++ unique_text who.now)) }
    ensures err { OnErr result (take (vec_len out.old) out.new.items ≡ out.old.items) }
{
    out.extend_from_slice(name)?;
    who.print_into(out)
}

fn append_two(
    name: &[u8],
    who: &Unique,
    member: &Unique,
    out: &mut Vec<u8>,
) -> Result<(), AllocError>
    ensures ok { OnOk result (out.new.items ≡ out.old.items ++ (name.now ++ unique_text who.now ++ codes " " ++ unique_text member.now)) }
    ensures err { OnErr result (take (vec_len out.old) out.new.items ≡ out.old.items) }
{
    append_one(name, who, out)?;
    out.push(b' ')?;
    member.print_into(out)
}

fn append_join(who: &Unique, target: &Address, out: &mut Vec<u8>) -> Result<(), AllocError>
    ensures ok { OnOk result (out.new.items ≡ out.old.items ++ (codes "join " ++ unique_text who.now ++ codes " " ++ address_text target.now)) }
    ensures err { OnErr result (take (vec_len out.old) out.new.items ≡ out.old.items) }
{
    append_one(b"join ", who, out)?;
    out.push(b' ')?;
    target.print_into(out)
}

fn append_tick(who: &Unique, word: u32, out: &mut Vec<u8>) -> Result<(), AllocError>
    ensures ok { OnOk result (out.new.items ≡ out.old.items ++ (codes "tick " ++ unique_text who.now ++ codes " " ++ decimal word)) }
    ensures err { OnErr result (take (vec_len out.old) out.new.items ≡ out.old.items) }
{
    append_one(b"tick ", who, out)?;
    out.push(b' ')?;
    print_number(u64::from(word), out)
}

fn append_deliver(packet: u64, out: &mut Vec<u8>) -> Result<(), AllocError>
    ensures ok { OnOk result (out.new.items ≡ out.old.items ++ (codes "deliver " ++ decimal packet)) }
    ensures err { OnErr result (take (vec_len out.old) out.new.items ≡ out.old.items) }
{
    out.extend_from_slice(b"deliver ")?;
    print_number(packet, out)
}

fn append_offer(
    who: &Unique,
    entity: &[u8],
    payload: u64,
    out: &mut Vec<u8>,
) -> Result<(), AllocError>
    ensures ok { OnOk result (out.new.items ≡ out.old.items ++ (codes "offer " ++ unique_text who.now ++ codes " " ++ entity.now ++ codes " " ++ decimal payload)) }
    ensures err { OnErr result (take (vec_len out.old) out.new.items ≡ out.old.items) }
{
    append_one(b"offer ", who, out)?;
    out.push(b' ')?;
    out.extend_from_slice(entity)?;
    out.push(b' ')?;
    print_number(payload, out)
}
