// The turns of a node.
ghost use Rattle.std.specs.Prelude.{◌≡◌, ◌≤◌, ◌<◌, ◌^◌, length, IfOk, IfSome, OnOk};
ghost use Rattle.ak_turns.specs.Outside.{sink, wire};
ghost use Rattle.ak_turns.specs.NodeRun.{start_of};
ghost use Rattle.ak_turns.specs.Turns.{founds, joins, tick_by, most_bytes};
ghost use Rattle.ak_turns.specs.Steps.{IsCome};
ghost use Rattle.ak_turns.specs.TurnsContracts.{TakesSome, LinkCause, HearsAs, Begins, RunsTurns, IsCounted, progress_of};

use crate::end::End;
use crate::happening::Happening;
use crate::process::Process;
use crate::timer::Timer;
use ak_config::Config;
use ak_link::{Got, receive_envelope};
use ak_outside::{Clock, Link, Sink};
use std::alloc::{AllocError, Global};

/// So many bytes of a packet are heard.
pub const MOST_BYTES: usize = 65_536;

/// So many turns in a row may make no tick.
pub const MOST_IDLE: u64 = 10_000_000;

// What is heard in a turn: a packet, or that one is bad; none where it is quiet.
fn hear<L: Link>(alloc: Global, link: &mut L, buffer: &mut [u8]) -> Result<Option<Happening>, End>
    requires { length buffer.old ≡ most_bytes }
    ensures count { L.faults link.old ≤ L.faults link.new }
    ensures come { IfOk result (λ happening. IfSome happening IsCome) }
    ensures cause { LinkCause result (L.faults link.old) (L.faults link.new) }
    ensures hears { HearsAs result (wire (L.bound link.old) (L.sends link.old) (L.losses link.old) (L.coming link.old)) (wire (L.bound link.new) (L.sends link.new) (L.losses link.new) (L.coming link.new)) }
{
    match receive_envelope(alloc, link, buffer) {
        Got::Envelope(envelope) => Ok(Some(Happening::Packet(envelope))),
        Got::Bad(fault) => Ok(Some(Happening::Bad(fault))),
        Got::Quiet => Ok(None),
        Got::Failed => Err(End::Link),
        Got::NoMemory(error) => Err(error.into()),
    }
}

// The tick that a reading makes, where it makes one.
fn tick(word: Option<u32>) -> Option<Happening>
    ensures value { result ≡ tick_by word }
    ensures come { IfSome result IsCome }
{
    match word {
        Some(word) => Some(Happening::Tick(word)),
        None => None,
    }
}

// That the node founds the cluster, where its configuration says so.
fn founding(config: &Config) -> Option<Happening>
    ensures value { result ≡ founds config.now.found }
    ensures come { IfSome result IsCome }
{
    if config.found {
        return Some(Happening::Found);
    }
    None
}

// That it joins through an address, where its configuration says so.
fn joining(alloc: Global, config: &Config) -> Result<Option<Happening>, AllocError>
    ensures value { IfOk result (λ happening. happening ≡ joins config.now.join) }
    ensures come { IfOk result (λ happening. IfSome happening IsCome) }
{
    match &config.join {
        Some(target) => Ok(Some(Happening::Join(target.copy(alloc)?))),
        None => Ok(None),
    }
}

// Takes a step, where something came.
fn take_some<L: Link, W: Sink>(
    alloc: Global,
    process: &mut Process,
    happening: Option<Happening>,
    link: &mut L,
    output: &mut W,
) -> Result<(), End>
    requires counted { IsCounted (progress_of process.old) }
    requires steps { process.old.steps < 2 ^ 61 }
    requires comes { IfSome happening IsCome }
    ensures counted { OnOk result (IsCounted (progress_of process.new)) }
    ensures count { W.faults output.old ≤ W.faults output.new }
    ensures faults { L.faults link.new ≡ L.faults link.old }
    ensures step { TakesSome happening result (progress_of process.old) (progress_of process.new) (sink (W.written output.old) (W.faults output.old)) (sink (W.written output.new) (W.faults output.new)) (wire (L.bound link.old) (L.sends link.old) (L.losses link.old) (L.coming link.old)) (wire (L.bound link.new) (L.sends link.new) (L.losses link.new) (L.coming link.new)) }
{
    match &happening {
        Some(happening) => process.take(alloc, happening, link, output),
        None => Ok(()),
    }
}

// Founds the cluster and joins it, where the configuration says so.
fn begin<L: Link, W: Sink>(
    alloc: Global,
    config: &Config,
    process: &mut Process,
    link: &mut L,
    output: &mut W,
) -> Result<(), End>
    requires start { progress_of process.old ≡ start_of config.now }
    ensures counted { OnOk result (IsCounted (progress_of process.new)) }
    ensures few { OnOk result (process.new.steps ≤ 2) }
    ensures count { W.faults output.old ≤ W.faults output.new }
    ensures faults { L.faults link.new ≡ L.faults link.old }
    ensures begins { Begins result config.now (progress_of process.new) (sink (W.written output.old) (W.faults output.old)) (sink (W.written output.new) (W.faults output.new)) (wire (L.bound link.old) (L.sends link.old) (L.losses link.old) (L.coming link.old)) (wire (L.bound link.new) (L.sends link.new) (L.losses link.new) (L.coming link.new)) }
{
    // It founds first: who is a member then asks nobody to let it join.
    take_some(alloc, process, founding(config), link, output)?;
    let join = joining(alloc, config)?;
    take_some(alloc, process, join, link, output)
}

// Takes turns until the ticks are done. A turn receives once, and then reads the clock.
pub(crate) fn take_turns<L: Link, C: Clock, W: Sink>(
    alloc: Global,
    config: &Config,
    ticks: u64,
    process: &mut Process,
    link: &mut L,
    clock: &mut C,
    output: &mut W,
) -> Result<(), End>
    requires start { progress_of process.old ≡ start_of config.now }
    requires few { ticks ≤ 1_000_000_000 }
    ensures count { W.faults output.old ≤ W.faults output.new }
    ensures link { L.faults link.old ≤ L.faults link.new }
    ensures cause { LinkCause result (L.faults link.old) (L.faults link.new) }
    ensures runs { RunsTurns result config.now ticks (progress_of process.new) (sink (W.written output.old) (W.faults output.old)) (sink (W.written output.new) (W.faults output.new)) (wire (L.bound link.old) (L.sends link.old) (L.losses link.old) (L.coming link.old)) (wire (L.bound link.new) (L.sends link.new) (L.losses link.new) (L.coming link.new)) (C.readings clock.old) }
{
    let mut buffer = vec![in alloc; 0; MOST_BYTES]?;
    begin(alloc, config, process, link, output)?;
    let mut timer = Timer::start(config.tick_ms, config.seed, clock.now());
    'turns: while timer.ticks() < ticks {
        // The clock is read after the receive, which may wait: a reading before it would be an old one.
        let heard = hear(alloc, link, &mut buffer)?;
        take_some(alloc, process, heard, link, output)?;
        let word = timer.read(clock.now());
        take_some(alloc, process, tick(word), link, output)?;
        // Asked after the tick: one that is due in the last turn still counts.
        if timer.idle() == MOST_IDLE {
            return Err(End::Turns);
        }
    }
    Ok(())
}
