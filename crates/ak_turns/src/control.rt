// The control command.
ghost use Rattle.std.specs.Prelude.{◌≡◌, ◌≤◌, IfOk};
ghost use Rattle.ak_wire.specs.Datagram.{IsBody, IsValid};
ghost use Rattle.ak_turns.specs.Control.{control_packet, message_of, answer_line, Asks, AsksAndAnswers, Controls, ControlCause, WritesLine};
ghost use Rattle.ak_turns.specs.Outside.{sink, wire};

use ak_address::{Address, Text, Unique};
use ak_link::send_envelope;
use ak_options::Request;
use ak_outside::{Bound, Link, Sent, Sink, Status, written};
use ak_wire::{Envelope, Message};
use std::alloc::{AllocError, Global};

// What a node is asked, as a message.
fn message(alloc: Global, say: Request) -> Result<Message, AllocError>
    ensures value { IfOk result (λ message. message ≡ message_of say) }
    ensures valid { IfOk result IsBody }
{
    match say {
        Request::Leave(who) => Ok(Message::Leave(who)),
        Request::Down(who) => Ok(Message::Down(who)),
        Request::Offer(entity, payload) => {
            let name = entity.name().copy(alloc)?;
            Ok(Message::Offer(name, payload))
        }
    }
}

// The packet that asks a node this. It comes from the process `ctl:1#1`, and is for whichever process is at the address.
fn packet(alloc: Global, to: Address, say: Request) -> Result<Envelope, AllocError>
    ensures value { IfOk result (λ envelope. envelope ≡ control_packet to say) }
    ensures valid { IfOk result IsValid }
{
    let host = Text::from_bytes(alloc, b"ctl")?;
    let from = Unique {
        address: Address { host, port: 1 },
        uid: 1,
    };
    Ok(Envelope {
        from,
        to,
        uid: 0,
        message: message(alloc, say)?,
    })
}

// Sends the packet that asks this, in one send.
fn ask<L: Link>(alloc: Global, to: Address, say: Request, link: &mut L) -> Result<Sent, AllocError>
    ensures faults { L.faults link.new ≡ L.faults link.old }
    ensures asks { Asks result to say (wire (L.bound link.old) (L.sends link.old) (L.losses link.old) (L.coming link.old)) (wire (L.bound link.new) (L.sends link.new) (L.losses link.new) (L.coming link.new)) }
{
    let envelope = packet(alloc, to, say)?;
    send_envelope(alloc, link, &envelope)
}

// Writes how the link answered.
fn answer<W: Sink>(sent: Sent, output: &mut W) -> Status
    ensures count { W.faults output.old ≤ W.faults output.new }
    ensures written { WritesLine Status.Done (answer_line sent) result (sink (W.written output.old) (W.faults output.old)) (sink (W.written output.new) (W.faults output.new)) }
{
    match sent {
        Sent::Sent => written(output, b"sent\n", Status::Done),
        Sent::Failed => written(output, b"lost\n", Status::Done),
    }
}

// Asks, and writes how the link answered.
fn ask_and_answer<W: Sink, L: Link>(
    alloc: Global,
    to: Address,
    say: Request,
    output: &mut W,
    link: &mut L,
) -> Status
    ensures written { W.faults output.old ≤ W.faults output.new }
    ensures link { L.faults link.new ≡ L.faults link.old }
    ensures asks { AsksAndAnswers result to say (sink (W.written output.old) (W.faults output.old)) (sink (W.written output.new) (W.faults output.new)) (wire (L.bound link.old) (L.sends link.old) (L.losses link.old) (L.coming link.old)) (wire (L.bound link.new) (L.sends link.new) (L.losses link.new) (L.coming link.new)) }
{
    match ask(alloc, to, say, link) {
        Ok(sent) => answer(sent, output),
        Err(_) => written(output, b"error 7 memory\n", Status::Memory),
    }
}

/// Asks the node at an address one thing: has the link look it up, takes any free port, sends one packet, and writes `sent`, or
/// `lost` where the send failed, as it does where the address is not found. That the packet arrives is not said.
///
/// Answers `Done` after that line; `Link` where no port could be had, after a line that says so; `Memory` after a line that
/// says so; and `Write` where the sink failed.
pub fn run_ctl<W: Sink, L: Link>(
    alloc: Global,
    to: Address,
    say: Request,
    output: &mut W,
    link: &mut L,
) -> Status
    ensures written { W.faults output.old ≤ W.faults output.new }
    ensures link { L.faults link.old ≤ L.faults link.new }
    ensures cause { ControlCause result (W.faults output.old) (W.faults output.new) (L.faults link.old) (L.faults link.new) }
    ensures controls { Controls result to say (sink (W.written output.old) (W.faults output.old)) (sink (W.written output.new) (W.faults output.new)) (wire (L.bound link.old) (L.sends link.old) (L.losses link.old) (L.coming link.old)) (wire (L.bound link.new) (L.sends link.new) (L.losses link.new) (L.coming link.new)) }
{
    let _known = link.look_up(&to);
    match link.bind(None) {
        Bound::Ready => ask_and_answer(alloc, to, say, output, link),
        Bound::Failed => written(output, b"error 8 link\n", Status::Link),
    }
}
