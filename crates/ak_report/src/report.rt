ghost use Rattle.std.specs.Prelude.{◌≡◌, ◌+◌, ◌<◌, ◌^◌, ◌++◌, ◌∷◌, [], map, length, slice_get, option_map, option_to_list, codes, OnOk, OnErr};
ghost use Rattle.std.specs.FinMap as finmap;
ghost use Rattle.ak_address.specs.Uniques.{in_order};
ghost use Rattle.ak_member.specs.Standing.{member_pairs, tombstone_pairs, members_of, tombstones_of};
ghost use Rattle.std.specs.Fmt.{decimal};
ghost use Rattle.ak_report.specs.ActionText as text;
ghost use Rattle.ak_wire.specs.Wire.{kind_text, sent};

use ak_address::{Text, Unique, Uniques, print_number, print_wide_number};
use ak_clock::Version;
use ak_gossip::Gossip;
use ak_member::{Effect, Members, Standing, Status};
use ak_wire::{Action, Actions, Envelope, Message};
use std::alloc::{AllocError, Global};

// Each printer below may leave a part of its text where memory ends, and so may `append_actions`; `print_actions` prints into a text
// of its own first.

/// Appends these bytes. An error leaves the text as it was; only memory can fail.
#[inline(always)]
pub fn print_bytes(bytes: &[u8], out: &mut Vec<u8>) -> Result<(), AllocError>
    ensures ok { OnOk result (out.new.items ≡ out.old.items ++ bytes.now) }
    ensures err { OnErr result (out.new.items ≡ out.old.items) }
{
    out.extend_from_slice(bytes)
}

fn print_separator(index: usize, out: &mut Vec<u8>) -> Result<(), AllocError>
    ensures { OnOk result (out.new.items ≡ out.old.items ++ text.separator index) }
{
    if index == 0 {
        return Ok(());
    }
    print_bytes(b", ", out)
}

// A process and how many of its updates are seen.
fn print_seen(who: &Unique, count: u64, out: &mut Vec<u8>) -> Result<(), AllocError>
    ensures { OnOk result (out.new.items ≡ out.old.items ++ text.count_text (who.now, count)) }
{
    who.print_into(out)?;
    out.push(b'=')?;
    print_number(count, out)
}

fn print_version(version: &Version, out: &mut Vec<u8>) -> Result<(), AllocError>
    ensures { OnOk result (out.new.items ≡ out.old.items ++ text.version_text version.now) }
{
    let count = version.len();
    if count == 0 {
        return print_bytes(b"-", out);
    }
    'counts: for index in 0..count {
        if let Some((who, count)) = version.at(index) {
            print_separator(index, out)?;
            print_seen(who, count, out)?;
        }
    }
    Ok(())
}

fn status_name(status: Status) -> &'static [u8]
    ensures { result.now ≡ text.status_name status }
{
    match status {
        Status::Joining => b"joining",
        Status::WeaklyUp => b"weakly-up",
        Status::Up => b"up",
        Status::Leaving => b"leaving",
        Status::Exiting => b"exiting",
        Status::Down => b"down",
    }
}

// A number other than 0, after what it is of.
fn print_after(number: u64, out: &mut Vec<u8>) -> Result<(), AllocError>
    ensures { OnOk result (out.new.items ≡ out.old.items ++ text.number_text number) }
{
    if number == 0 {
        return Ok(());
    }
    out.push(b' ')?;
    print_number(number, out)
}

fn print_member(
    who: &Unique,
    status: Status,
    number: u64,
    out: &mut Vec<u8>,
) -> Result<(), AllocError>
    ensures { OnOk result (out.new.items ≡ out.old.items ++ text.member_text (who.now, (status, number))) }
{
    who.print_into(out)?;
    out.push(b' ')?;
    print_bytes(status_name(status), out)?;
    print_after(number, out)
}

fn print_tombstone(who: &Unique, confirmed: bool, out: &mut Vec<u8>) -> Result<(), AllocError>
    ensures { OnOk result (out.new.items ≡ out.old.items ++ text.tombstone_text (who.now, confirmed)) }
{
    who.print_into(out)?;
    if confirmed {
        return print_bytes(b" confirmed", out);
    }
    Ok(())
}

// The member at a pair, where there is one: the pairs are of all that are known, tombstones too.
fn member_pair(members: &Members, pair: usize) -> Option<(&Unique, Status, u64)>
    ensures { option_to_list (option_map (λ m. (m.0.now, (m.1, m.2))) result) ≡ member_pairs (option_to_list (slice_get (finmap.entries members.now) pair)) }
{
    match members.pair(pair) {
        Some((who, Standing::Member(status, number))) => Some((who, status, number)),
        Some((_, Standing::Buried(_))) => None,
        None => None,
    }
}

// The tombstone at a pair, where there is one, and whether it is confirmed.
fn tombstone_pair(members: &Members, pair: usize) -> Option<(&Unique, bool)>
    ensures { option_to_list (option_map (λ t. (t.0.now, t.1)) result) ≡ tombstone_pairs (option_to_list (slice_get (finmap.entries members.now) pair)) }
{
    match members.pair(pair) {
        Some((who, Standing::Buried(confirmed))) => Some((who, confirmed)),
        Some((_, Standing::Member(_, _))) => None,
        None => None,
    }
}

fn print_members(members: &Members, out: &mut Vec<u8>) -> Result<(), AllocError>
    ensures { OnOk result (out.new.items ≡ out.old.items ++ text.listed_text (map text.member_text (members_of members.now))) }
{
    let mut printed = 0;
    'pairs: for pair in 0..members.uniques() {
        if let Some((who, status, number)) = member_pair(members, pair) {
            print_separator(printed, out)?;
            print_member(who, status, number, out)?;
            printed += 1;
        }
    }
    print_none(printed, out)
}

fn print_tombstones(members: &Members, out: &mut Vec<u8>) -> Result<(), AllocError>
    ensures { OnOk result (out.new.items ≡ out.old.items ++ text.listed_text (map text.tombstone_text (tombstones_of members.now))) }
{
    let mut printed = 0;
    'pairs: for pair in 0..members.uniques() {
        if let Some((who, confirmed)) = tombstone_pair(members, pair) {
            print_separator(printed, out)?;
            print_tombstone(who, confirmed, out)?;
            printed += 1;
        }
    }
    print_none(printed, out)
}

// What stands where nothing was printed.
fn print_none(printed: usize, out: &mut Vec<u8>) -> Result<(), AllocError>
    ensures { OnOk result (out.new.items ≡ out.old.items ++ text.none_text printed) }
{
    if printed == 0 {
        return print_bytes(b"-", out);
    }
    Ok(())
}

fn print_view(gossip: &Gossip, out: &mut Vec<u8>) -> Result<(), AllocError>
    ensures { OnOk result (out.new.items ≡ out.old.items ++ text.begun (text.view_text gossip.now)) }
{
    print_bytes(b"  view ", out)?;
    print_version(gossip.version(), out)?;
    print_bytes(b" | ", out)?;
    print_members(gossip.members(), out)?;
    print_bytes(b" | ", out)?;
    print_tombstones(gossip.members(), out)
}

// Each process after a space.
fn print_spaced(who: &Uniques, out: &mut Vec<u8>) -> Result<(), AllocError>
    ensures { OnOk result (out.new.items ≡ out.old.items ++ text.spaced_text (in_order who.now)) }
{
    'processes: for index in 0..who.len() {
        if let Some(one) = who.at(index) {
            print_bytes(b" ", out)?;
            one.print_into(out)?;
        }
    }
    Ok(())
}

fn print_subjects(subjects: &Uniques, out: &mut Vec<u8>) -> Result<(), AllocError>
    ensures { OnOk result (out.new.items ≡ out.old.items ++ text.subjects_text (in_order subjects.now)) }
{
    if subjects.len() == 0 {
        return print_bytes(b" none", out);
    }
    print_spaced(subjects, out)
}

fn print_rise(
    who: &Unique,
    status: Status,
    number: u64,
    out: &mut Vec<u8>,
) -> Result<(), AllocError>
    ensures { OnOk result (out.new.items ≡ out.old.items ++ text.effect_text (Effect.Rise who.now status number)) }
{
    print_bytes(status_name(status), out)?;
    out.push(b' ')?;
    who.print_into(out)?;
    print_after(number, out)
}

fn print_removed(who: &Unique, confirmed: bool, out: &mut Vec<u8>) -> Result<(), AllocError>
    ensures { OnOk result (out.new.items ≡ out.old.items ++ text.effect_text (Effect.Removed who.now confirmed)) }
{
    if confirmed {
        print_bytes(b"removed-confirmed ", out)?;
        return who.print_into(out);
    }
    print_bytes(b"removed ", out)?;
    who.print_into(out)
}

fn print_effect(effect: &Effect, out: &mut Vec<u8>) -> Result<(), AllocError>
    ensures { OnOk result (out.new.items ≡ out.old.items ++ text.effect_text effect.now) }
{
    match effect {
        Effect::Joined(who) => {
            print_bytes(b"joined ", out)?;
            who.print_into(out)
        }
        Effect::Rise(who, status, number) => print_rise(who, *status, *number, out),
        Effect::Removed(who, confirmed) => print_removed(who, *confirmed, out),
        Effect::Observed(subjects) => {
            print_bytes(b"observed", out)?;
            print_subjects(subjects, out)
        }
    }
}

fn print_effects(effects: &[Effect], out: &mut Vec<u8>) -> Result<(), AllocError>
    ensures { OnOk result (out.new.items ≡ out.old.items ++ text.listed_text (map text.effect_text effects.now)) }
{
    if effects.len() == 0 {
        return print_bytes(b"-", out);
    }
    'effects: for (index, effect) in effects.iter().enumerate() {
        print_separator(index, out)?;
        print_effect(effect, out)?;
    }
    Ok(())
}

fn print_receiver(envelope: &Envelope, out: &mut Vec<u8>) -> Result<(), AllocError>
    ensures { OnOk result (out.new.items ≡ out.old.items ++ text.receiver_text envelope.now) }
{
    envelope.to.print_into(out)?;
    if envelope.uid == 0 {
        return Ok(());
    }
    out.push(b'#')?;
    print_number(envelope.uid, out)
}

// What a packet is, between the words around it: most lines tell of a packet, and take one piece for it.
fn kind_to(message: &Message) -> &'static [u8]
    ensures { result.now ≡ codes " " ++ kind_text message.now ++ codes " to " }
{
    match message {
        Message::Join => b" join to ",
        Message::Welcome(_) => b" welcome to ",
        Message::Gossip(_) => b" gossip to ",
        Message::Heartbeat => b" heartbeat to ",
        Message::HeartbeatReply => b" heartbeat-reply to ",
        Message::ExitingConfirmed => b" exiting-confirmed to ",
        Message::Ask(_) => b" ask to ",
        Message::Granted(_, _, _) => b" granted to ",
        Message::Busy(_, _) => b" busy to ",
        Message::Old(_, _) => b" old to ",
        Message::HandOverToMe(_) => b" hand-over-to-me to ",
        Message::HandOverDone(_, _) => b" hand-over-done to ",
        Message::Release(_, _) => b" release to ",
        Message::GetHome(_, _) => b" get-home to ",
        Message::Home(_, _, _) => b" home to ",
        Message::HostShard(_, _, _) => b" host-shard to ",
        Message::ShardStarted(_, _, _) => b" shard-started to ",
        Message::BeginHandOff(_, _, _) => b" begin-hand-off to ",
        Message::BeginHandOffAck(_, _, _) => b" begin-hand-off-ack to ",
        Message::HandOff(_, _, _) => b" hand-off to ",
        Message::ShardStopped(_, _, _) => b" shard-stopped to ",
        Message::Forward(_, _) => b" forward to ",
        Message::Leave(_) => b" leave to ",
        Message::Down(_) => b" down to ",
        Message::Offer(_, _) => b" offer to ",
    }
}

fn print_send(number: u128, envelope: &Envelope, out: &mut Vec<u8>) -> Result<(), AllocError>
    ensures { OnOk result (out.new.items ≡ out.old.items ++ text.begun (text.send_text number envelope.now)) }
{
    print_bytes(b"  send ", out)?;
    print_wide_number(number, out)?;
    print_bytes(kind_to(&envelope.message), out)?;
    print_receiver(envelope, out)
}

fn print_update(number: u64, effects: &[Effect], out: &mut Vec<u8>) -> Result<(), AllocError>
    ensures { OnOk result (out.new.items ≡ out.old.items ++ text.begun (codes "update " ++ decimal number ++ codes " " ++ text.listed_text (map text.effect_text effects.now))) }
{
    print_numbered(b"  update ", number, out)?;
    out.push(b' ')?;
    print_effects(effects, out)
}

// A number after what it is of.
fn print_numbered(name: &[u8], number: u64, out: &mut Vec<u8>) -> Result<(), AllocError>
    ensures { OnOk result (out.new.items ≡ out.old.items ++ (name.now ++ decimal number)) }
{
    print_bytes(name, out)?;
    print_number(number, out)
}

fn print_host(shard: u32, number: u64, out: &mut Vec<u8>) -> Result<(), AllocError>
    ensures { OnOk result (out.new.items ≡ out.old.items ++ text.begun (codes "host " ++ decimal shard ++ codes " " ++ decimal number)) }
{
    print_numbered(b"  host ", u64::from(shard), out)?;
    print_numbered(b" ", number, out)
}

fn print_entity(entity: &Text, out: &mut Vec<u8>) -> Result<(), AllocError>
    ensures { OnOk result (out.new.items ≡ out.old.items ++ text.begun (codes "entity " ++ entity.now)) }
{
    print_bytes(b"  entity ", out)?;
    print_bytes(entity.bytes(), out)
}

// What becomes of a payload for an entity.
fn print_payload(
    name: &[u8],
    entity: &Text,
    payload: u64,
    out: &mut Vec<u8>,
) -> Result<(), AllocError>
    ensures { OnOk result (out.new.items ≡ out.old.items ++ (name.now ++ entity.now ++ codes " " ++ decimal payload)) }
{
    print_bytes(name, out)?;
    print_bytes(entity.bytes(), out)?;
    print_numbered(b" ", payload, out)
}

// What an action prints, with the number of the packet that it may send, after the two spaces with which an item begins: they
// stand in the first piece of each.
fn print_action(
    gossip: &Gossip,
    number: u128,
    action: &Action,
    out: &mut Vec<u8>,
) -> Result<(), AllocError>
    ensures { OnOk result (out.new.items ≡ out.old.items ++ text.begun (text.action_text gossip.now number action.now)) }
{
    match action {
        Action::Send(envelope) => print_send(number, envelope.get(), out),
        Action::Update(update, effects) => print_update(*update, effects.as_slice(), out),
        Action::View => print_view(gossip, out),
        Action::Settled => {
            print_bytes(b"  settled ", out)?;
            print_version(gossip.version(), out)
        }
        Action::Active(term) => print_numbered(b"  active ", *term, out),
        Action::Ended(term) => print_numbered(b"  ended ", *term, out),
        Action::Host(shard, number) => print_host(*shard, *number, out),
        Action::Gone(shard) => print_numbered(b"  gone ", u64::from(*shard), out),
        Action::Entity(entity) => print_entity(entity, out),
        Action::Deliver(entity, payload) => print_payload(b"  deliver ", entity, *payload, out),
        Action::Forward(entity, payload) => print_payload(b"  forward ", entity, *payload, out),
        Action::Buffer(entity, payload) => print_payload(b"  buffer ", entity, *payload, out),
        Action::Drop(entity, payload) => print_payload(b"  drop ", entity, *payload, out),
        Action::MarginEnd(who) => {
            print_bytes(b"  margin-end ", out)?;
            who.print_into(out)
        }
        Action::Refused(why) => print_numbered(b"  refused N", u64::from(*why), out),
        Action::Dead => print_bytes(b"  dead", out),
        Action::Stopped => print_bytes(b"  stopped", out),
    }
}

// The number of the packet after an action.
fn next_packet(action: &Action, number: u128) -> u128
    requires { number + length (sent (action.now ∷ [])) < 2 ^ 128 }
    ensures { result ≡ text.next_packet action.now number }
{
    match action {
        Action::Send(_) => number + 1,
        _ => number,
    }
}

// So many bytes are set aside for an item; most have fewer.
const ITEM_BYTES: usize = 64;

/// Appends the items of actions, each on a line after two spaces. The gossip is the acting node's after the step, and
/// the packets that are sent are numbered from `first_packet` on. An error leaves the text as it was; only memory can
/// fail.
pub fn print_actions(
    alloc: Global,
    gossip: &Gossip,
    first_packet: u128,
    actions: &Actions,
    out: &mut Vec<u8>,
) -> Result<(), AllocError>
    requires { first_packet < 2 ^ 127 }
    ensures ok { OnOk result (out.new.items ≡ out.old.items ++ text.actions_text gossip.now first_packet actions.now) }
    ensures err { OnErr result (out.new.items ≡ out.old.items) }
{
    // Aside first, so that nothing of the items stands in the text where memory ends among them.
    let mut items = Vec::with_capacity(alloc, actions.len().saturating_mul(ITEM_BYTES))?;
    append_actions(gossip, first_packet, actions, &mut items)?;
    print_bytes(&items, out)
}

/// Appends the items of actions as `print_actions` does, for whoever prints into a text of its own: where memory runs out, a
/// part of the items may stand at its end.
pub fn append_actions(
    gossip: &Gossip,
    first_packet: u128,
    actions: &Actions,
    out: &mut Vec<u8>,
) -> Result<(), AllocError>
    requires { first_packet < 2 ^ 127 }
    ensures { OnOk result (out.new.items ≡ out.old.items ++ text.actions_text gossip.now first_packet actions.now) }
{
    let mut number = first_packet;
    'actions: for action in actions.as_slice() {
        // Printed before it counts: a send is printed with its own number.
        append_action(gossip, number, action, out)?;
        number = next_packet(action, number);
    }
    Ok(())
}

/// Appends the item of one action, on a line after two spaces, as `append_actions` does for each: for whoever does something between
/// two items. A packet that the action sends has this number. Where memory runs out, a part of the item may stand at the end.
pub fn append_action(
    gossip: &Gossip,
    number: u128,
    action: &Action,
    out: &mut Vec<u8>,
) -> Result<(), AllocError>
    ensures { OnOk result (out.new.items ≡ out.old.items ++ text.item (text.action_text gossip.now number action.now)) }
{
    print_action(gossip, number, action, out)?;
    out.push(b'\n')?;
    Ok(())
}
