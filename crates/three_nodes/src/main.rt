//! Three nodes in one program form a cluster, with a fourth that does not count toward its quorum; one of the three is lost, and the
//! others remove it; when one more is lost, the two that are left give up, since one of them counts alone. It shows how the core is
//! called: an event goes in, actions come out, and what is sent is carried as bytes to whom it is for (docs/USING.md).
#![tactic(auto)]

mod words;

ghost use Rattle.std.specs.Prelude.{◌<◌, ◌^◌};
ghost use Rattle.ak_node.specs.Sends.{ComesValid, IsOffered};
ghost use Rattle.ak_wire.specs.Datagram.{IsValid};

use ak_address::{Address, Unique, parse_unique};
use ak_node::{Action, Actions, Node, NodeEvent, is_for};
use ak_outside::{Sink, StdSink};
use ak_settings::{Settings, Strategy};
use ak_wire::{Envelope, decode, encode, valid};
use std::alloc::{AllocError, AllocFailed, Global};
use std::process::ExitCode;
use words::{tell_loss, tell_update};

static PROCESSES: [&[u8]; 4] = [b"a:1#1", b"b:1#1", b"c:1#1", b"d:1#1"];

// The addresses of the first so many have the role: a quorum is counted over them. The last process is a member like any other, and
// does not count toward it.
const VOTERS: usize = 3;

// Each running node ticks once a round. Before each of these rounds a node is lost.
const ROUNDS: u32 = 40;

const LOSS: u32 = 10;

const SECOND_LOSS: u32 = 25;

// A node takes at most so many events, and so many packets are carried in a round.
const MOST_STEPS: u64 = 1_000_000;

const MOST_PACKETS: usize = 1_000;

// Memory ran out, or standard output failed, or a text above is not written as it has to be.
struct Fault;

impl From<AllocError> for Fault {
    fn from(_error: AllocError) -> Fault {
        Fault
    }
}

impl<T: Drop> From<AllocFailed<T>> for Fault {
    fn from(_error: AllocFailed<T>) -> Fault {
        Fault
    }
}

// The addresses of the processes.
fn listed(alloc: Global) -> Result<Vec<Address>, Fault> {
    let mut listed = Vec::new(alloc);
    'processes: for process in &PROCESSES {
        let Unique { address, uid: _ } = parse_unique(alloc, process).map_err(|_| Fault)?;
        listed.push(address)?;
    }
    Ok(listed)
}

// A side with two of the three addresses that have the role goes on. A removed process counts as stopped after 5 ticks, one that is
// silent for 3 is unreachable, and a side is decided upon after 4 in which nothing changed.
fn settings(alloc: Global) -> Result<Settings, Fault> {
    match Settings::of_membership(alloc, listed(alloc)?, Strategy::StaticQuorum(2), 5, 3, 4)? {
        Some(mut settings) => {
            // Every listed address has the role until somebody says another thing.
            settings.role.truncate(VOTERS);
            // Nothing is put into a shard here, so there are few.
            settings.shards = 10;
            Ok(settings)
        }
        None => Err(Fault),
    }
}

fn start(alloc: Global, settings: &Settings, process: &[u8]) -> Result<Node, Fault> {
    let me = parse_unique(alloc, process).map_err(|_| Fault)?;
    Ok(Node::start(alloc, me, settings)?)
}

// What a node does: its decisions are told, and what it sends is put into the post.
fn take<W: Sink>(
    alloc: Global,
    node: &Node,
    actions: &Actions,
    post: &mut Vec<Vec<u8>>,
    output: &mut W,
) -> Result<(), Fault> {
    'actions: for action in actions.as_slice() {
        match action {
            Action::Send(packet) => put(alloc, packet.get(), post)?,
            Action::Update(_number, effects) => tell_update(alloc, node.me(), effects, output)?,
            _ => {}
        }
    }
    Ok(())
}

fn put(alloc: Global, packet: &Envelope, post: &mut Vec<Vec<u8>>) -> Result<(), Fault> {
    if valid(packet) {
        post.push(encode(alloc, packet)?)?;
    }
    Ok(())
}

// A node that still runs is given an event.
fn step<W: Sink>(
    alloc: Global,
    node: &mut Node,
    event: NodeEvent,
    post: &mut Vec<Vec<u8>>,
    output: &mut W,
) -> Result<(), Fault>
    requires few { node.old.state.steps < 2 ^ 62 }
    requires comes { ComesValid event }
    requires offered { IsOffered node.old.state.membership.settings event }
{
    let actions = node.step(alloc, event)?;
    take(alloc, node, &actions, post, output)
}

fn found<W: Sink>(
    alloc: Global,
    node: &mut Node,
    post: &mut Vec<Vec<u8>>,
    output: &mut W,
) -> Result<(), Fault> {
    if node.steps() >= MOST_STEPS {
        return Err(Fault);
    }
    step(alloc, node, NodeEvent::Found, post, output)
}

fn join<W: Sink>(
    alloc: Global,
    node: &mut Node,
    target: &Address,
    post: &mut Vec<Vec<u8>>,
    output: &mut W,
) -> Result<(), Fault> {
    if node.steps() >= MOST_STEPS {
        return Err(Fault);
    }
    let target = target.copy(alloc)?;
    step(alloc, node, NodeEvent::Join(target), post, output)
}

fn tick<W: Sink>(
    alloc: Global,
    node: &mut Node,
    word: u32,
    post: &mut Vec<Vec<u8>>,
    output: &mut W,
) -> Result<(), Fault> {
    if node.steps() >= MOST_STEPS {
        return Err(Fault);
    }
    step(alloc, node, NodeEvent::Tick(word), post, output)
}

fn receive<W: Sink>(
    alloc: Global,
    node: &mut Node,
    packet: &Envelope,
    post: &mut Vec<Vec<u8>>,
    output: &mut W,
) -> Result<(), Fault>
    requires { IsValid packet.now }
{
    if node.steps() >= MOST_STEPS {
        return Err(Fault);
    }
    let actions = node.receive(alloc, packet)?;
    take(alloc, node, &actions, post, output)
}

// A packet comes to the node that it is for.
fn give<W: Sink>(
    alloc: Global,
    nodes: &mut [Node],
    packet: &Envelope,
    post: &mut Vec<Vec<u8>>,
    output: &mut W,
) -> Result<(), Fault>
    requires { IsValid packet.now }
{
    'nodes: for node in nodes {
        if is_for(node.me(), packet) {
            receive(alloc, node, packet, post, output)?;
        }
    }
    Ok(())
}

fn deliver<W: Sink>(
    alloc: Global,
    nodes: &mut [Node],
    bytes: &[u8],
    post: &mut Vec<Vec<u8>>,
    output: &mut W,
) -> Result<(), Fault> {
    match decode(alloc, bytes) {
        Ok(packet) => give(alloc, nodes, &packet, post, output),
        Err(_) => Err(Fault),
    }
}

// Everything in the post is delivered, and what is sent because of it.
fn deliver_all<W: Sink>(
    alloc: Global,
    nodes: &mut [Node],
    post: &mut Vec<Vec<u8>>,
    output: &mut W,
) -> Result<(), Fault> {
    'packets: for _carried in 0..MOST_PACKETS {
        let Some(bytes) = post.pop() else {
            return Ok(());
        };
        deliver(alloc, nodes, &bytes, post, output)?;
    }
    Ok(())
}

// The first node founds the cluster, and the others join it there.
fn found_and_join<W: Sink>(
    alloc: Global,
    nodes: &mut [Node],
    post: &mut Vec<Vec<u8>>,
    output: &mut W,
) -> Result<(), Fault> {
    let Some((first, others)) = nodes.split_first_mut() else {
        return Ok(());
    };
    found(alloc, first, post, output)?;
    'others: for node in others {
        join(alloc, node, &first.me().address, post, output)?;
    }
    Ok(())
}

fn round<W: Sink>(
    alloc: Global,
    nodes: &mut [Node],
    word: u32,
    post: &mut Vec<Vec<u8>>,
    output: &mut W,
) -> Result<(), Fault> {
    'nodes: for node in &mut *nodes {
        tick(alloc, node, word, post, output)?;
    }
    deliver_all(alloc, nodes, post, output)
}

// The second node is gone: nothing reaches it any more, and it sends nothing.
fn lose<W: Sink>(alloc: Global, nodes: &mut Vec<Node>, output: &mut W) -> Result<(), Fault> {
    if nodes.len() < 2 {
        return Ok(());
    }
    let lost = nodes.remove(1);
    tell_loss(alloc, lost.me(), output)
}

fn play<W: Sink>(
    alloc: Global,
    nodes: &mut Vec<Node>,
    post: &mut Vec<Vec<u8>>,
    output: &mut W,
) -> Result<(), Fault> {
    found_and_join(alloc, nodes, post, output)?;
    'rounds: for word in 0..ROUNDS {
        if word == LOSS || word == SECOND_LOSS {
            lose(alloc, nodes, output)?;
        }
        round(alloc, nodes, word, post, output)?;
    }
    Ok(())
}

fn start_all(alloc: Global, settings: &Settings, nodes: &mut Vec<Node>) -> Result<(), Fault> {
    'processes: for process in &PROCESSES {
        nodes.push(start(alloc, settings, process)?)?;
    }
    Ok(())
}

// Whoever owns something that has to be let go leaves the rest to a function that borrows it: so each proof is short.
fn with_post<W: Sink>(alloc: Global, nodes: &mut Vec<Node>, output: &mut W) -> Result<(), Fault> {
    let mut post = Vec::new(alloc);
    play(alloc, nodes, &mut post, output)
}

fn with_nodes<W: Sink>(
    alloc: Global,
    nodes: &mut Vec<Node>,
    settings: &Settings,
    output: &mut W,
) -> Result<(), Fault> {
    start_all(alloc, settings, nodes)?;
    with_post(alloc, nodes, output)
}

fn with_settings<W: Sink>(alloc: Global, settings: &Settings, output: &mut W) -> Result<(), Fault> {
    let mut nodes = Vec::new(alloc);
    with_nodes(alloc, &mut nodes, settings, output)
}

fn run<W: Sink>(alloc: Global, output: &mut W) -> Result<(), Fault> {
    match settings(alloc) {
        Ok(settings) => with_settings(alloc, &settings, output),
        Err(fault) => Err(fault),
    }
}

fn main(rt: HostRuntime) -> ExitCode {
    match run(rt.alloc(), &mut StdSink::new(&rt)) {
        Ok(()) => ExitCode::SUCCESS,
        Err(Fault) => ExitCode::FAILURE,
    }
}
