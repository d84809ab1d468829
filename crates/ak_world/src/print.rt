//! The text of a step, and of the end of a replay (this project's format).

ghost use Rattle.std.specs.Prelude.{◌≡◌, ℕ, List, ◌++◌, ◌∷◌, [], slice_get, codes, OnOk, OnErr};
ghost use Rattle.std.specs.Fmt.{decimal};
ghost use Rattle.std.specs.Option.{option_and_then, option_copied, option_map};
ghost use Rattle.ak_schedule.specs.Schedule.{event_text};
ghost use Rattle.ak_report.specs.ActionText.{actions_text};
ghost use Rattle.ak_wire.specs.Wire.{kind_text};
ghost use Rattle.ak_world.specs.StepText as text;
ghost use Rattle.ak_world.specs.WorldContracts.{doubled_of};

use crate::double::Double;
use crate::margin::Margin;
use crate::world::{Step, World};
use ak_address::{Unique, print_number};
use ak_gossip::Gossip;
use ak_node::Node;
use ak_packet::Packet;
use ak_report::{append_actions, print_bytes};
use ak_schedule::{Event, print_event};
use ak_wire::{Envelope, Message};
use std::alloc::{AllocError, Global};

// What a packet is, between the words around it: most lines tell of a packet, and take one piece for it.
fn kind_from(message: &Message) -> &'static [u8]
    ensures { result.now ≡ codes " " ++ kind_text message.now ++ codes " from " }
{
    match message {
        Message::Join => b" join from ",
        Message::Welcome(_) => b" welcome from ",
        Message::Gossip(_) => b" gossip from ",
        Message::Heartbeat => b" heartbeat from ",
        Message::HeartbeatReply => b" heartbeat-reply from ",
        Message::ExitingConfirmed => b" exiting-confirmed from ",
        Message::Ask(_) => b" ask from ",
        Message::Granted(_, _, _) => b" granted from ",
        Message::Busy(_, _) => b" busy from ",
        Message::Old(_, _) => b" old from ",
        Message::HandOverToMe(_) => b" hand-over-to-me from ",
        Message::HandOverDone(_, _) => b" hand-over-done from ",
        Message::Release(_, _) => b" release from ",
        Message::GetHome(_, _) => b" get-home from ",
        Message::Home(_, _, _) => b" home from ",
        Message::HostShard(_, _, _) => b" host-shard from ",
        Message::ShardStarted(_, _, _) => b" shard-started from ",
        Message::BeginHandOff(_, _, _) => b" begin-hand-off from ",
        Message::BeginHandOffAck(_, _, _) => b" begin-hand-off-ack from ",
        Message::HandOff(_, _, _) => b" hand-off from ",
        Message::ShardStopped(_, _, _) => b" shard-stopped from ",
        Message::Forward(_, _) => b" forward from ",
        Message::Leave(_) => b" leave from ",
        Message::Down(_) => b" down from ",
        Message::Offer(_, _) => b" offer from ",
    }
}

// To whom a packet was given, what it is and from whom, after the end of the line before.
fn print_packet(who: &Unique, envelope: &Envelope, out: &mut Vec<u8>) -> Result<(), AllocError>
    ensures { OnOk result (out.new.items ≡ out.old.items ++ (10 ∷ text.packet_text who.now envelope.now)) }
{
    print_bytes(b"\n  at ", out)?;
    who.print_into(out)?;
    print_bytes(kind_from(&envelope.message), out)?;
    envelope.from.print_into(out)?;
    out.push(b'\n')?;
    Ok(())
}

// What a delivered packet was, or that it reached nobody, after the end of the line before.
fn print_arrival(
    arrived: Option<&Packet>,
    node: Option<&Node>,
    out: &mut Vec<u8>,
) -> Result<(), AllocError>
    ensures { OnOk result (out.new.items
        ≡ out.old.items ++ (10 ∷ text.arrival_text (option_map (λ n. n.now.state) node.entry) (option_copied arrived.entry))) }
{
    if let Some(node) = node {
        if let Some(packet) = arrived {
            return print_packet(node.me(), packet.envelope(), out);
        }
    }
    print_bytes(b"\n  dead\n", out)
}

// Its number and the event. Most events are deliveries, whose line takes a piece less.
fn print_head(number: u64, event: &Event, out: &mut Vec<u8>) -> Result<(), AllocError>
    ensures { OnOk result (out.new.items ≡ out.old.items ++ (decimal number ++ codes " " ++ event_text event.now)) }
{
    print_number(number, out)?;
    if let Event::Deliver(packet) = event {
        print_bytes(b" deliver ", out)?;
        return print_number(*packet, out);
    }
    out.push(b' ')?;
    print_event(event, out)
}

// So many bytes are set aside for the text of a step; most have fewer.
const STEP_BYTES: usize = 512;

/// Appends the text of a step: its number and event, what arrived, and an item for each action. The event is the last
/// that the world accepted, and the step the one that it gave: what arrived is the packet in the step. An error leaves the text as it
/// was; only memory can fail.
pub fn print_step(
    alloc: Global,
    world: &World,
    step_number: u64,
    event: &Event,
    step: &Step,
    out: &mut Vec<u8>,
) -> Result<(), AllocError>
    ensures ok { OnOk result (out.new.items
        ≡ out.old.items ++ text.text_with step.now.arrived step.now.first_packet step_number event.now (record { world = world.now.state; node = step.now.node; actions = step.now.actions })) }
    ensures err { OnErr result (out.new.items ≡ out.old.items) }
{
    let mut text = Vec::with_capacity(alloc, STEP_BYTES)?;
    append_step(alloc, world, step_number, event, step, &mut text)?;
    print_bytes(&text, out)
}

/// Appends the text of a step as `print_step` does, at once: an error may leave a part of it. For whoever prints many steps,
/// each into a text that is emptied before. Only memory can fail.
pub fn append_step(
    alloc: Global,
    world: &World,
    step_number: u64,
    event: &Event,
    step: &Step,
    out: &mut Vec<u8>,
) -> Result<(), AllocError>
    ensures { OnOk result (out.new.items
        ≡ out.old.items ++ text.text_with step.now.arrived step.now.first_packet step_number event.now (record { world = world.now.state; node = step.now.node; actions = step.now.actions })) }
{
    let node = acting(world, step);
    print_head(step_number, event, out)?;
    print_delivery(event, step.arrived.as_ref(), node, out)?;
    print_done(alloc, node, step, out)
}

// The end of the line of the event, and what arrived, where it is a delivery.
fn print_delivery(
    event: &Event,
    arrived: Option<&Packet>,
    node: Option<&Node>,
    out: &mut Vec<u8>,
) -> Result<(), AllocError>
    ensures { OnOk result (out.new.items
        ≡ out.old.items ++ (10 ∷ text.delivery_text event.now (option_copied arrived.entry) (option_map (λ n. n.now.state) node.entry))) }
{
    match event {
        Event::Deliver(_) => print_arrival(arrived, node, out),
        _ => {
            out.push(b'\n')?;
            Ok(())
        }
    }
}

// An item for each action. A step in which no node acts shows nothing that is known.
fn print_done(
    alloc: Global,
    node: Option<&Node>,
    step: &Step,
    out: &mut Vec<u8>,
) -> Result<(), AllocError>
    ensures { OnOk result (out.new.items
        ≡ out.old.items ++ actions_text (text.shown (option_map (λ n. n.now.state) node.entry)) step.now.first_packet step.now.actions) }
{
    let first = u128::from(step.first_packet);
    match node {
        Some(node) => append_actions(node.gossip(), first, &step.actions, out),
        None => append_actions(&Gossip::empty(alloc), first, &step.actions, out),
    }
}

// The node that acted.
fn acting<'a>(world: &'a World, step: &Step) -> Option<&'a Node>
    ensures { option_map (λ n. n.now.state) result ≡ option_and_then (slice_get world.now.state.nodes) step.now.node }
{
    match step.node {
        Some(number) => world.node(number),
        None => None,
    }
}

fn print_count(name: &[u8], count: u64, out: &mut Vec<u8>) -> Result<(), AllocError>
    ensures { OnOk result (out.new.items ≡ out.old.items ++ (name.now ++ decimal count ++ 10 ∷ [])) }
{
    print_bytes(name, out)?;
    print_number(count, out)?;
    print_bytes(b"\n", out)
}

// The process of a start number.
fn print_name(world: &World, number: u32, out: &mut Vec<u8>) -> Result<(), AllocError>
    ensures { OnOk result (out.new.items ≡ out.old.items ++ text.name_text (slice_get world.now.state.nodes number)) }
{
    match world.node(number) {
        Some(node) => node.me().print_into(out),
        None => Ok(()),
    }
}

// Whether the removal margin was kept, or where it was broken first.
fn print_margin(world: &World, margin: Margin, out: &mut Vec<u8>) -> Result<(), AllocError>
    ensures { OnOk result (out.new.items ≡ out.old.items ++ text.margin_text margin world.now.state.nodes) }
{
    match margin {
        Margin::Kept => print_bytes(b"margin kept\n", out),
        Margin::Broken { step, node, member } => {
            print_bytes(b"margin broken step ", out)?;
            print_number(step, out)?;
            print_bytes(b" node ", out)?;
            print_name(world, node, out)?;
            print_bytes(b" member ", out)?;
            print_name(world, member, out)?;
            print_bytes(b"\n", out)
        }
    }
}

// The first double, or that there is none.
fn print_double(world: &World, double: Option<&Double>, out: &mut Vec<u8>) -> Result<(), AllocError>
    ensures { OnOk result (out.new.items ≡ out.old.items ++ text.double_text (option_map doubled_of (option_copied double.entry)) world.now.state.nodes) }
{
    let Some(double) = double else {
        return print_bytes(b"doubles none\n", out);
    };
    print_bytes(b"double ", out)?;
    print_bytes(double.entity.bytes(), out)?;
    print_bytes(b" ", out)?;
    print_name(world, double.first, out)?;
    print_bytes(b" ", out)?;
    print_name(world, double.second, out)?;
    print_bytes(b" step ", out)?;
    print_number(double.step, out)?;
    print_bytes(b"\n", out)
}

/// Appends the summary of a replay of so many steps. Its margin and its first double are those of the events that the world
/// accepted. An error leaves the text as it was; only memory can fail.
pub fn print_summary(
    alloc: Global,
    world: &World,
    steps: u64,
    out: &mut Vec<u8>,
) -> Result<(), AllocError>
    ensures ok { OnOk result ((added : List ℕ) × text.IsSummary world.now.settings world.now.events steps world.now.state added × (out.new.items ≡ out.old.items ++ added)) }
    ensures err { OnErr result (out.new.items ≡ out.old.items) }
{
    let mut text = Vec::new(alloc);
    print_count(b"steps ", steps, &mut text)?;
    print_count(b"packets ", world.packets(), &mut text)?;
    print_count(b"history ", world.history().len() as u64, &mut text)?;
    print_margin(world, world.margin(), &mut text)?;
    print_double(world, world.first_double(), &mut text)?;
    print_bytes(&text, out)
}
