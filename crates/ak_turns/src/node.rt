// A node on the network, from its configuration to its end.
ghost use Rattle.std.specs.Prelude.{◌≡◌, ◌≤◌, ◌++◌, [], IfOk, OnOk};
ghost use Rattle.ak_turns.specs.NodeRun.{start_of, summary};
ghost use Rattle.ak_turns.specs.NodePromise.{LoadsAs, LoadCause, refusal_line, fault_text, Refuses, RefusesConfig, EndsAs, RunsBound, RunsConfig, RunsNode, NodeCause, ConfigCause};
ghost use Rattle.ak_turns.specs.Outside.{sink, wire};
ghost use Rattle.ak_turns.specs.TurnsContracts.{progress_of};

use crate::end::End;
use crate::explain::explain;
use crate::process::Process;
use crate::turns::take_turns;
use ak_address::{Address, Text, contains_address, print_number, print_wide_number};
use ak_config::{Config, ConfigFault, read_config};
use ak_node::Node;
use ak_notes::{Notes, warn_of_name, warn_of_quorum};
use ak_outside::{Bound, Clock, Folder, Link, Loaded, Looked, Sink, Status, written};
use ak_report::print_bytes;
use std::alloc::{AllocError, Global};

// A configuration may have this many bytes.
const MOST_CONFIG: usize = 65_536;

/// Why there is no configuration.
#[derive(Drop)]
pub(crate) enum Unloaded {
    Refused(ConfigFault),
    NoFile,
    TooLarge,
    Failed,
    NoMemory,
}

impl From<AllocError> for Unloaded {
    ghost use Rattle.ak_turns.specs.declared.node.Unloaded.TheVariants.{NoMemory};

    ghost from_gives = { λ _ why. why ≡ NoMemory };

    fn from(_error: AllocError) -> Unloaded {
        Unloaded::NoMemory
    }
}

// The configuration that the file of this name is.
fn load<F: Folder>(alloc: Global, name: &Text, folder: &mut F) -> Result<Config, Unloaded>
    ensures count { F.faults folder.old ≤ F.faults folder.new }
    ensures cause { LoadCause result (F.faults folder.old) (F.faults folder.new) }
    ensures loads { LoadsAs result (F.files folder.old) name.now }
{
    match folder.load(alloc, name, MOST_CONFIG) {
        Loaded::Bytes(bytes) => match read_config(alloc, bytes.bytes()) {
            Ok(config) => Ok(config),
            Err(ConfigFault::NoMemory(error)) => Err(error.into()),
            Err(fault) => Err(Unloaded::Refused(fault)),
        },
        Loaded::TooLarge => Err(Unloaded::TooLarge),
        Loaded::NoFile => Err(Unloaded::NoFile),
        Loaded::Failed => Err(Unloaded::Failed),
        Loaded::NoMemory(error) => Err(error.into()),
    }
}

// The code of a fault, and its key.
fn print_fault(fault: &ConfigFault, out: &mut Vec<u8>) -> Result<(), AllocError>
    ensures { OnOk result (out.new.items ≡ out.old.items ++ fault_text fault.now) }
{
    match fault {
        ConfigFault::NotToml => print_bytes(b"C1", out),
        ConfigFault::Missing(key) => print_keyed(b"C2 ", key, out),
        ConfigFault::Unknown(key) => print_keyed(b"C3 ", key, out),
        ConfigFault::WrongType(key) => print_keyed(b"C4 ", key, out),
        ConfigFault::Range(key) => print_keyed(b"C5 ", key, out),
        ConfigFault::BadAddress(key) => print_keyed(b"C6 ", key, out),
        ConfigFault::SelfUnlisted(key) => print_keyed(b"C7 ", key, out),
        ConfigFault::Repeated(key) => print_keyed(b"C8 ", key, out),
        ConfigFault::NoMemory(_) => print_bytes(b"memory", out),
    }
}

fn print_keyed(code: &[u8], key: &Text, out: &mut Vec<u8>) -> Result<(), AllocError>
    ensures { OnOk result (out.new.items ≡ out.old.items ++ (code.now ++ key.now)) }
{
    print_bytes(code, out)?;
    print_bytes(key.bytes(), out)
}

// The line on a configuration that is refused.
fn refusal(alloc: Global, fault: &ConfigFault) -> Result<Vec<u8>, AllocError>
    ensures { IfOk result (λ line. line.items ≡ refusal_line (fault_text fault.now)) }
{
    let mut line = Vec::new(alloc);
    print_bytes(b"error 3 ", &mut line)?;
    print_fault(fault, &mut line)?;
    print_bytes(b"\n", &mut line)?;
    Ok(line)
}

fn refuse_config<W: Sink>(alloc: Global, fault: &ConfigFault, output: &mut W) -> Status
    ensures count { W.faults output.old ≤ W.faults output.new }
    ensures refuses { RefusesConfig result (fault_text fault.now) (sink (W.written output.old) (W.faults output.old)) (sink (W.written output.new) (W.faults output.new)) }
{
    match refusal(alloc, fault) {
        Ok(line) => written(output, &line, Status::Configuration),
        Err(_) => written(output, b"error 7 memory\n", Status::Memory),
    }
}

// Writes the line on why there is no configuration.
fn refuse<W: Sink>(alloc: Global, why: &Unloaded, output: &mut W) -> Status
    ensures count { W.faults output.old ≤ W.faults output.new }
    ensures refuses { Refuses why.now result (sink (W.written output.old) (W.faults output.old)) (sink (W.written output.new) (W.faults output.new)) }
{
    match why {
        Unloaded::Refused(fault) => refuse_config(alloc, fault, output),
        Unloaded::NoFile => written(output, b"error 3 C9\n", Status::Configuration),
        Unloaded::TooLarge => written(output, b"error 3 C10\n", Status::Configuration),
        Unloaded::Failed => written(output, b"error 5 read\n", Status::Read),
        Unloaded::NoMemory => written(output, b"error 7 memory\n", Status::Memory),
    }
}

// How many steps were numbered, and sends asked.
fn print_summary(alloc: Global, process: &Process) -> Result<Vec<u8>, AllocError>
    ensures { IfOk result (λ text. text.items ≡ summary (progress_of process.now)) }
{
    let mut text = Vec::new(alloc);
    print_bytes(b"steps ", &mut text)?;
    print_number(process.steps(), &mut text)?;
    print_bytes(b"\npackets ", &mut text)?;
    print_wide_number(process.asked(), &mut text)?;
    print_bytes(b"\n", &mut text)?;
    Ok(text)
}

// Writes what is written last.
fn ended<W: Sink>(alloc: Global, end: Result<(), End>, process: &Process, output: &mut W) -> Status
    ensures count { W.faults output.old ≤ W.faults output.new }
    ensures ends { EndsAs end (progress_of process.now) result (sink (W.written output.old) (W.faults output.old)) (sink (W.written output.new) (W.faults output.new)) }
{
    match end {
        Ok(()) => match print_summary(alloc, process) {
            Ok(text) => written(output, &text, Status::Done),
            Err(_) => written(output, b"error 7 memory\n", Status::Memory),
        },
        Err(End::Memory) => written(output, b"error 7 memory\n", Status::Memory),
        Err(End::Write) => Status::Write,
        Err(End::Link) => written(output, b"error 8 link\n", Status::Link),
        Err(End::Turns) => written(output, b"error 9 turns\n", Status::Turns),
    }
}

// The node of a configuration, before its first step.
fn start(alloc: Global, config: &Config) -> Result<Process, AllocError>
    ensures { IfOk result (λ process. progress_of process ≡ start_of config.now) }
{
    let me = config.me.copy(alloc)?;
    let node = Node::start(alloc, me, &config.settings)?;
    Ok(Process::start(node))
}

// Runs a node that has its address.
fn run_process<W: Sink, L: Link, C: Clock>(
    alloc: Global,
    config: &Config,
    ticks: u64,
    process: &mut Process,
    output: &mut W,
    link: &mut L,
    clock: &mut C,
) -> Status
    requires few { ticks ≤ 1_000_000_000 }
    requires start { progress_of process.old ≡ start_of config.now }
    ensures written { W.faults output.old ≤ W.faults output.new }
    ensures link { L.faults link.old ≤ L.faults link.new }
    ensures cause { ConfigCause result (W.faults output.old) (W.faults output.new) (L.faults link.old) (L.faults link.new) }
    ensures runs { RunsBound config.now ticks result (sink (W.written output.old) (W.faults output.old)) (sink (W.written output.new) (W.faults output.new)) (wire (L.bound link.old) (L.sends link.old) (L.losses link.old) (L.coming link.old)) (wire (L.bound link.new) (L.sends link.new) (L.losses link.new) (L.coming link.new)) (C.readings clock.old) }
{
    let end = take_turns(alloc, config, ticks, process, link, clock, output);
    ended(alloc, end, process, output)
}

// Starts the node of a configuration, once it has its address, and runs it.
fn run_bound<W: Sink, L: Link, C: Clock>(
    alloc: Global,
    config: &Config,
    ticks: u64,
    output: &mut W,
    link: &mut L,
    clock: &mut C,
) -> Status
    requires { ticks ≤ 1_000_000_000 }
    ensures written { W.faults output.old ≤ W.faults output.new }
    ensures link { L.faults link.old ≤ L.faults link.new }
    ensures cause { ConfigCause result (W.faults output.old) (W.faults output.new) (L.faults link.old) (L.faults link.new) }
    ensures runs { RunsBound config.now ticks result (sink (W.written output.old) (W.faults output.old)) (sink (W.written output.new) (W.faults output.new)) (wire (L.bound link.old) (L.sends link.old) (L.losses link.old) (L.coming link.old)) (wire (L.bound link.new) (L.sends link.new) (L.losses link.new) (L.coming link.new)) (C.readings clock.old) }
{
    match start(alloc, config) {
        Ok(mut process) => { run_process(alloc, config, ticks, &mut process, output, link, clock) }
        Err(_) => written(output, b"error 7 memory\n", Status::Memory),
    }
}

// Runs the node of a configuration.
fn run_config<W: Sink, L: Link, C: Clock>(
    alloc: Global,
    config: &Config,
    ticks: u64,
    output: &mut W,
    link: &mut L,
    clock: &mut C,
) -> Status
    requires { ticks ≤ 1_000_000_000 }
    ensures written { W.faults output.old ≤ W.faults output.new }
    ensures link { L.faults link.old ≤ L.faults link.new }
    ensures cause { ConfigCause result (W.faults output.old) (W.faults output.new) (L.faults link.old) (L.faults link.new) }
    ensures runs { RunsConfig config.now ticks result (sink (W.written output.old) (W.faults output.old)) (sink (W.written output.new) (W.faults output.new)) (wire (L.bound link.old) (L.sends link.old) (L.losses link.old) (L.coming link.old)) (wire (L.bound link.new) (L.sends link.new) (L.losses link.new) (L.coming link.new)) (C.readings clock.old) }
{
    // The address first: a node that cannot have it takes no step, and prints none.
    match link.bind(Some(&config.me.address)) {
        Bound::Ready => run_bound(alloc, config, ticks, output, link, clock),
        Bound::Failed => written(output, b"error 8 link\n", Status::Link),
    }
}

// Has the link look an address up, and says so where it is not found.
fn look_up<L: Link, N: Notes>(alloc: Global, at: &Address, link: &mut L, notes: &mut N)
    ensures faults { L.faults link.new ≡ L.faults link.old }
    ensures wire { wire (L.bound link.new) (L.sends link.new) (L.losses link.new) (L.coming link.new) ≡ wire (L.bound link.old) (L.sends link.old) (L.losses link.old) (L.coming link.old) }
{
    if link.look_up(at) == Looked::Unknown {
        warn_of_name(alloc, notes, at);
    }
}

// Has the link look up the addresses to which a node of this configuration may have to send.
fn look_up_all<L: Link, N: Notes>(alloc: Global, config: &Config, link: &mut L, notes: &mut N)
    ensures faults { L.faults link.new ≡ L.faults link.old }
    ensures wire { wire (L.bound link.new) (L.sends link.new) (L.losses link.new) (L.coming link.new) ≡ wire (L.bound link.old) (L.sends link.old) (L.losses link.old) (L.coming link.old) }
{
    'listed: for at in &config.settings.listed {
        look_up(alloc, at, link, notes);
    }
    if let Some(target) = &config.join {
        if !contains_address(&config.settings.listed, target) {
            look_up(alloc, target, link, notes);
        }
    }
}

/// Runs one node until it has made so many ticks: it loads the configuration of this name, has the link look up each listed address
/// and the one that it joins through, takes its own, starts, founds and joins where the configuration says so, and takes turns. In
/// a turn it receives once, and takes the step of what came; then it reads the clock, and ticks where it is due. Each packet is sent
/// at once, and each step is written when it is taken.
///
/// Answers `Done` after its ticks; `Configuration` where there is none or it is refused; `Read` where the folder failed; `Link`
/// where the address could not be taken, or a receive failed; `Turns` after 10,000,000 turns in a row that made no tick; `Write`
/// where the sink failed, and nothing else is written then; and `Memory`, after whole steps. A send that fails is none of these: it
/// is printed as lost.
///
/// The notes are told what is wrong with the configuration, and are warned of a quorum that cannot be reached and of each address
/// that is not found.
///
/// Nothing is said of members or entities: a network may give anything.
pub fn run_node<F: Folder, W: Sink, L: Link, C: Clock, N: Notes>(
    alloc: Global,
    config: &Text,
    ticks: u64,
    folder: &mut F,
    output: &mut W,
    link: &mut L,
    clock: &mut C,
    notes: &mut N,
) -> Status
    requires { ticks ≤ 1_000_000_000 }
    ensures read { F.faults folder.old ≤ F.faults folder.new }
    ensures written { W.faults output.old ≤ W.faults output.new }
    ensures link { L.faults link.old ≤ L.faults link.new }
    ensures cause { NodeCause result (F.faults folder.old) (F.faults folder.new) (W.faults output.old) (W.faults output.new) (L.faults link.old) (L.faults link.new) }
    ensures runs { RunsNode (F.files folder.old) config.now ticks result (sink (W.written output.old) (W.faults output.old)) (sink (W.written output.new) (W.faults output.new)) (wire (L.bound link.old) (L.sends link.old) (L.losses link.old) (L.coming link.old)) (wire (L.bound link.new) (L.sends link.new) (L.losses link.new) (L.coming link.new)) (C.readings clock.old) }
{
    match load(alloc, config, folder) {
        Ok(config) => {
            warn_of_quorum(alloc, notes, &config.settings);
            // Before the bind: what comes while a name server is waited for would be old.
            look_up_all(alloc, &config, link, notes);
            run_config(alloc, &config, ticks, output, link, clock)
        }
        Err(why) => {
            explain(alloc, config, &why, notes);
            refuse(alloc, &why, output)
        }
    }
}
