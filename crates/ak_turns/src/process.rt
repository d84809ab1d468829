// A node, and the steps that it takes on the network.
ghost use Rattle.std.specs.Prelude.{◌≡◌, ◌≤◌, ◌<◌, ◌+◌, ◌*◌, ◌^◌, ◌++◌, ◌∷◌, [], length, codes, OnOk, IfOk, IfSome};
ghost use Rattle.std.specs.Fmt.{decimal};
ghost use Rattle.ak_wire.specs.Datagram.{IsValid};
ghost use Rattle.ak_wire.specs.Wire.{envelope_of, sent};
ghost use Rattle.ak_node.specs.NodeContracts.{Does};
ghost use Rattle.ak_node.specs.Sends.{AreValid};
ghost use Rattle.ak_turns.specs.Outside.{sink, wire};
ghost use Rattle.ak_turns.specs.Steps as spec;
ghost use Rattle.ak_turns.specs.declared.happening.Happening.TheVariants.{Packet};
ghost use Rattle.ak_turns.specs.TurnsContracts.{SendsOne, TellsOne, TellsAll, TellsStep, TakesStep, IsCounted, progress_of};

use crate::end::End;
use crate::happening::Happening;
use ak_address::{Unique, print_number, print_wide_number};
use ak_gossip::Gossip;
use ak_link::send_envelope;
use ak_node::{Node, NodeEvent};
use ak_outside::{Link, Sent, Sink, write_all};
use ak_report::{append_action, print_bytes};
use ak_wire::{Action, Actions, Envelope};
use std::alloc::{AllocError, Global};

/// A node on the network: how many steps were numbered, and how many sends were asked.
#[derive(Drop)]
pub(crate) struct Process {
    node: Node,
    steps: u64,
    asked: u128,
}

// What came, in the words of its line.
fn print_happening(me: &Unique, happening: &Happening, out: &mut Vec<u8>) -> Result<(), AllocError>
    ensures { OnOk result (out.new.items ≡ out.old.items ++ spec.happening_text me.now happening.now) }
{
    match happening {
        Happening::Found => {
            print_bytes(b"found ", out)?;
            me.print_into(out)
        }
        Happening::Join(target) => {
            print_bytes(b"join ", out)?;
            me.print_into(out)?;
            out.push(b' ')?;
            target.print_into(out)
        }
        Happening::Tick(_) => print_bytes(b"tick", out),
        Happening::Packet(_) => print_bytes(b"packet", out),
        Happening::Bad(fault) => {
            print_bytes(b"bad W", out)?;
            print_number(u64::from(*fault), out)
        }
    }
}

// The line of a step: its number, and what came.
fn print_head(
    number: u64,
    me: &Unique,
    happening: &Happening,
    out: &mut Vec<u8>,
) -> Result<(), AllocError>
    ensures { OnOk result (out.new.items ≡ out.old.items ++ (decimal number ++ codes " " ++ spec.happening_text me.now happening.now ++ 10 ∷ [])) }
{
    print_number(number, out)?;
    out.push(b' ')?;
    print_happening(me, happening, out)?;
    print_bytes(b"\n", out)
}

// To whom a packet came, what it is and from whom.
fn print_packet(me: &Unique, envelope: &Envelope, out: &mut Vec<u8>) -> Result<(), AllocError>
    ensures { OnOk result (out.new.items ≡ out.old.items ++ spec.packet_text me.now envelope.now) }
{
    print_bytes(b"  at ", out)?;
    me.print_into(out)?;
    out.push(b' ')?;
    print_bytes(envelope.message.kind(), out)?;
    print_bytes(b" from ", out)?;
    envelope.from.print_into(out)?;
    print_bytes(b"\n", out)
}

// The node tells that the packet which it was given is dead.
fn tell_dead(actions: &Actions) -> bool
    ensures { result ≡ spec.tell_dead actions.now }
{
    matches!(actions.at(0), Some(Action::Dead))
}

// Gives the node a packet, and prints what it was; of a dead one the node's own action says that it is dead.
fn receive(
    alloc: Global,
    node: &mut Node,
    envelope: &Envelope,
    out: &mut Vec<u8>,
) -> Result<Actions, AllocError>
    requires steps { node.old.state.steps < 2 ^ 62 }
    requires comes { IsValid envelope.now }
    ensures text { OnOk result (out.new.items ≡ out.old.items ++ spec.arrival_text node.old.state (Packet envelope.now)) }
    ensures does { IfOk result (λ actions. Does (spec.outcome (Packet envelope.now) node.old.state) node.new.state actions) }
    ensures valid { IfOk result (λ actions. AreValid actions) }
{
    let actions = node.receive(alloc, envelope)?;
    // Whether it is for this process the node has asked already, and its first action answers.
    if tell_dead(&actions) {
        return Ok(actions);
    }
    print_packet(node.me(), envelope, out)?;
    Ok(actions)
}

// Gives the node the event of what came, where it gives one, and prints what a packet was.
fn give(
    alloc: Global,
    node: &mut Node,
    happening: &Happening,
    out: &mut Vec<u8>,
) -> Result<Actions, AllocError>
    requires steps { node.old.state.steps < 2 ^ 62 }
    requires comes { spec.IsCome happening.now }
    ensures text { OnOk result (out.new.items ≡ out.old.items ++ spec.arrival_text node.old.state happening.now) }
    ensures does { IfOk result (λ actions. Does (spec.outcome happening.now node.old.state) node.new.state actions) }
    ensures valid { IfOk result (λ actions. AreValid actions) }
{
    match happening {
        Happening::Found => node.step(alloc, NodeEvent::Found),
        Happening::Join(target) => {
            let target = target.copy(alloc)?;
            node.step(alloc, NodeEvent::Join(target))
        }
        Happening::Tick(word) => node.step(alloc, NodeEvent::Tick(*word)),
        Happening::Packet(envelope) => receive(alloc, node, envelope, out),
        Happening::Bad(_) => Ok(Actions::empty(alloc)),
    }
}

fn print_lost(number: u128, out: &mut Vec<u8>) -> Result<(), AllocError>
    ensures { OnOk result (out.new.items ≡ out.old.items ++ (codes "  lost " ++ decimal number ++ 10 ∷ [])) }
{
    print_bytes(b"  lost ", out)?;
    print_wide_number(number, out)?;
    print_bytes(b"\n", out)
}

// Sends a packet, and prints that it is lost where the send failed.
fn send<L: Link>(
    alloc: Global,
    number: u128,
    envelope: &Envelope,
    link: &mut L,
    out: &mut Vec<u8>,
) -> Result<(), AllocError>
    requires { IsValid envelope.now }
    ensures faults { L.faults link.new ≡ L.faults link.old }
    ensures sends { SendsOne result number envelope.now out.old.items out.new.items (wire (L.bound link.old) (L.sends link.old) (L.losses link.old) (L.coming link.old)) (wire (L.bound link.new) (L.sends link.new) (L.losses link.new) (L.coming link.new)) }
{
    match send_envelope(alloc, link, envelope)? {
        Sent::Sent => Ok(()),
        Sent::Failed => print_lost(number, out),
    }
}

// Prints an action, and sends its packet at once. The number of the send after it.
fn tell_one<L: Link>(
    alloc: Global,
    gossip: &Gossip,
    number: u128,
    action: &Action,
    link: &mut L,
    out: &mut Vec<u8>,
) -> Result<u128, AllocError>
    requires valid { IfSome (envelope_of action.now) IsValid }
    requires number { number < 2 ^ 127 }
    ensures faults { L.faults link.new ≡ L.faults link.old }
    ensures tells { TellsOne result gossip.now number action.now out.old.items out.new.items (wire (L.bound link.old) (L.sends link.old) (L.losses link.old) (L.coming link.old)) (wire (L.bound link.new) (L.sends link.new) (L.losses link.new) (L.coming link.new)) }
{
    // Printed before it is sent, so that the line on a lost send stands after its own action.
    append_action(gossip, number, action, out)?;
    match action {
        Action::Send(packet) => {
            send(alloc, number, packet.get(), link, out)?;
            Ok(number + 1)
        }
        _ => Ok(number),
    }
}

// Prints each action, and sends its packet at once, in order. The number of the send after them.
fn tell_all<L: Link>(
    alloc: Global,
    gossip: &Gossip,
    first: u128,
    actions: &[Action],
    link: &mut L,
    out: &mut Vec<u8>,
) -> Result<u128, AllocError>
    requires valid { AreValid actions.now }
    requires number { first + length (sent actions.now) < 2 ^ 127 }
    ensures faults { L.faults link.new ≡ L.faults link.old }
    ensures tells { TellsAll result gossip.now first actions.now out.old.items out.new.items (wire (L.bound link.old) (L.sends link.old) (L.losses link.old) (L.coming link.old)) (wire (L.bound link.new) (L.sends link.new) (L.losses link.new) (L.coming link.new)) }
{
    let mut number = first;
    'actions: for action in actions {
        number = tell_one(alloc, gossip, number, action, link, out)?;
    }
    Ok(number)
}

impl Process {
    /// The node of a configuration, before its first step.
    pub(crate) fn start(node: Node) -> Process
        ensures { result ≡ record { node = node; steps = 0; asked = 0 } }
    {
        Process {
            node,
            steps: 0,
            asked: 0,
        }
    }

    pub(crate) fn steps(&self) -> u64
        ensures { result ≡ self.now.steps }
    {
        self.steps
    }

    pub(crate) fn asked(&self) -> u128
        ensures { result ≡ self.now.asked }
    {
        self.asked
    }

    // One step: it is printed, and its packets are sent.
    fn tell<L: Link>(
        &mut self,
        alloc: Global,
        happening: &Happening,
        link: &mut L,
        out: &mut Vec<u8>,
    ) -> Result<(), AllocError>
        requires counted { IsCounted (progress_of self.old) }
        requires steps { self.old.steps < 2 ^ 61 }
        requires comes { spec.IsCome happening.now }
        ensures counted { OnOk result (IsCounted (progress_of self.new)) }
        ensures faults { L.faults link.new ≡ L.faults link.old }
        ensures step { TellsStep result happening.now (progress_of self.old) (progress_of self.new) out.old.items out.new.items (wire (L.bound link.old) (L.sends link.old) (L.losses link.old) (L.coming link.old)) (wire (L.bound link.new) (L.sends link.new) (L.losses link.new) (L.coming link.new)) }
    {
        print_head(self.steps + 1, self.node.me(), happening, out)?;
        let actions = give(alloc, &mut self.node, happening, out)?;
        let number = self.asked + 1;
        let after = tell_all(
            alloc,
            self.node.gossip(),
            number,
            actions.as_slice(),
            link,
            out,
        )?;
        // Counted last: a step that memory cut off is not written, and has no number.
        self.steps += 1;
        self.asked = after - 1;
        Ok(())
    }

    /// Takes one step: the node is given what came, its packets are sent at once and in order, and its text is written.
    pub(crate) fn take<L: Link, W: Sink>(
        &mut self,
        alloc: Global,
        happening: &Happening,
        link: &mut L,
        output: &mut W,
    ) -> Result<(), End>
        requires counted { IsCounted (progress_of self.old) }
        requires steps { self.old.steps < 2 ^ 61 }
        requires comes { spec.IsCome happening.now }
        ensures counted { OnOk result (IsCounted (progress_of self.new)) }
        ensures count { W.faults output.old ≤ W.faults output.new }
        ensures faults { L.faults link.new ≡ L.faults link.old }
        ensures step { TakesStep result happening.now (progress_of self.old) (progress_of self.new) (sink (W.written output.old) (W.faults output.old)) (sink (W.written output.new) (W.faults output.new)) (wire (L.bound link.old) (L.sends link.old) (L.losses link.old) (L.coming link.old)) (wire (L.bound link.new) (L.sends link.new) (L.losses link.new) (L.coming link.new)) }
    {
        // Printed aside and then written: where memory ends in a step, whole steps stand in the output.
        let mut text = Vec::new(alloc);
        self.tell(alloc, happening, link, &mut text)?;
        if write_all(output, &text) {
            Ok(())
        } else {
            Err(End::Write)
        }
    }
}
