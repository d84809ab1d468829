//! The program `akka`: what its words ask for, over any command line, source and sink, and the exit status.
#![tactic(auto)]

mod explain;
mod laws;
mod replay;
mod words;

ghost use Rattle.std.specs.Prelude.{◌≡◌, ◌≤◌, ℕ, List, Some, IfSome};
ghost use Rattle.std.specs.Process.{exit_status};
ghost use Rattle.ak_outside.specs.Codes.{exit_code};
ghost use Rattle.ak_outside.specs.Outside.{Rose};
ghost use Rattle.ak_driver.specs.Headline.{KeepsEntitiesApart};
ghost use Rattle.ak_driver.specs.ReplayPromise.{Promises, EndsSource, IsCompleted};
ghost use Rattle.ak_driver.specs.StatusContracts.{AsksReplay, AsksSweep, AsksNode, AsksControl, AsksOther, NoNode, NoControl, ReplayCause, Swept, RanNode, Asked, RefusesWords, usage_line};
ghost use Rattle.ak_outside.specs.Endings.{Written};
ghost use Rattle.ak_turns.specs.Outside.{sink, wire};
ghost use Rattle.ak_address.specs.Unique.{AddressModel};
ghost use Rattle.ak_options.specs.declared.command.Request.{Request};
ghost use Rattle.ak_driver.specs.WordsContracts.{words_of};

use ak_address::Text;
use ak_notes::{NoNotes, Notes, say_status};
use ak_options::{Command, read_command};
pub use ak_outside::Status;
use ak_outside::{Arguments, Clock, Folder, Link, Sink, Source, written};
use ak_sweeps::run_sweep;
use ak_turns::{run_ctl, run_node};
pub use laws::{
    failed_reads_print_first_steps, replays_are_determined, replays_reach_runs,
    the_headlines_premise_is_weaker, worked_schedules,
};
use replay::replay_with_notes;
pub use replay::run_replay;
use std::alloc::Global;
use std::process::ExitCode;
use std::thread::Threads;
pub use words::collect_words;
use words::names_command;

// Does what the words after the program's name ask for. Words that ask for nothing are refused, and where there is no memory for a
// text in them the line on memory is written.
fn run_words<R: Threads + Sync, F: Folder, S: Source, W: Sink, L: Link, C: Clock, N: Notes>(
    rt: &R,
    alloc: Global,
    words: &[Text],
    folder: &mut F,
    input: &mut S,
    output: &mut W,
    link: &mut L,
    clock: &mut C,
    notes: &mut N,
) -> Status
    ensures loaded { F.faults folder.old ≤ F.faults folder.new }
    ensures read { S.faults input.old ≤ S.faults input.new }
    ensures written { W.faults output.old ≤ W.faults output.new }
    ensures linked { L.faults link.old ≤ L.faults link.new }
    ensures replay { AsksReplay words.now → ReplayCause result (S.faults input.old) (S.faults input.new) (W.faults output.old) (W.faults output.new) }
    ensures promise { AsksReplay words.now → Promises (S.remaining input.old) (S.remaining input.new) result (W.written output.old) (W.written output.new) }
    ensures end { AsksReplay words.now → IfSome (S.remaining input.old) (λ all. EndsSource result (S.remaining input.new)) }
    ensures headline { AsksReplay words.now → IfSome (S.remaining input.old) (λ bytes. KeepsEntitiesApart bytes result (W.written output.old) (W.written output.new)) }
    ensures complete { AsksReplay words.now → (bytes : List ℕ) → S.remaining input.old ≡ Some bytes → (Rose (S.faults input.old) (S.faults input.new) → ⊥) → (Rose (W.faults output.old) (W.faults output.new) → ⊥)
        → IsCompleted bytes result (W.written output.old) (W.written output.new) }
    ensures sweep { (first count events workers : ℕ) → AsksSweep words.now first count events workers → Swept first count events result (W.faults output.old) (W.faults output.new) (W.written output.old) (W.written output.new) }
    ensures node { (config : List ℕ) (ticks : ℕ) → AsksNode words.now config ticks → RanNode (F.files folder.old) config ticks result (F.faults folder.old) (F.faults folder.new) (sink (W.written output.old) (W.faults output.old)) (sink (W.written output.new) (W.faults output.new)) (wire (L.bound link.old) (L.sends link.old) (L.losses link.old) (L.coming link.old)) (wire (L.bound link.new) (L.sends link.new) (L.losses link.new) (L.coming link.new)) (L.faults link.old) (L.faults link.new) (C.readings clock.old) }
    ensures control { (to : AddressModel) (say : Request) → AsksControl words.now to say → Asked to say result (sink (W.written output.old) (W.faults output.old)) (sink (W.written output.new) (W.faults output.new)) (wire (L.bound link.old) (L.sends link.old) (L.losses link.old) (L.coming link.old)) (wire (L.bound link.new) (L.sends link.new) (L.losses link.new) (L.coming link.new)) (L.faults link.old) (L.faults link.new) }
    ensures usage { AsksOther words.now → Written Status.Usage usage_line result (W.faults output.old) (W.faults output.new) (W.written output.old) (W.written output.new) }
    ensures unread { (AsksReplay words.now → ⊥) → input.new ≡ input.old }
    ensures folder { NoNode words.now → folder.new ≡ folder.old }
    ensures link { NoNode words.now → NoControl words.now → link.new ≡ link.old }
    ensures clock { NoNode words.now → clock.new ≡ clock.old }
{
    match read_command(alloc, words) {
        Ok(Some(Command::Replay)) => replay_with_notes(alloc, input, output, notes),
        Ok(
            Some(
                Command::Sweep {
                    first,
                    count,
                    events,
                    workers,
                },
            ),
        ) => run_sweep(rt, alloc, first, count, events, workers, output, notes),
        Ok(Some(Command::Node { config, ticks })) => {
            run_node(alloc, &config, ticks, folder, output, link, clock, notes)
        }
        Ok(Some(Command::Ctl { to, say })) => run_ctl(alloc, to, say, output, link),
        Ok(None) => refuse(output),
        Err(_) => written(output, b"error 7 memory\n", Status::Memory),
    }
}

// The line on usage.
fn refuse<W: Sink>(output: &mut W) -> Status
    ensures count { W.faults output.old ≤ W.faults output.new }
    ensures usage { Written Status.Usage usage_line result (W.faults output.old) (W.faults output.new) (W.written output.old) (W.written output.new) }
{
    written(output, b"error 2 usage\n", Status::Usage)
}

/// Does what the words after the program's name ask for: `replay` alone replays the schedule in the input; `sweep` with its options
/// runs generated schedules, and prints the same text by however many workers; `node` runs a node on the network, and `ctl` asks
/// one. Any other words answer `Usage` after one line that says so, or `Write` where the sink failed. Where the first word is the
/// name of a command and there is no memory for the words the answer is `Memory` after one line that says so, or `Write`; that
/// another word, or none, asks for nothing is found without memory. Nothing but a replay reads, nothing but a node loads, and nothing but a node and what asks one uses the link.
///
/// Where neither the input nor the output fails, a schedule whose lines are all accepted gives its whole text, with `Done` where
/// no entity was active on two nodes at once and `Double` where one was, and one with a refused line gives `Schedule` and its
/// whole text, unless memory ends.
///
/// Under a static quorum, with fewer listed addresses than twice its size and the margin kept, no entity is ever active on two
/// nodes at once in a replayed schedule: a replay whose run kept the margin says `doubles none` after `margin kept`, and does not
/// answer `Double`. It is enough that fewer addresses have the role than twice its size. Of a node on a network nothing is said of
/// members or entities, since a network may give anything.
pub fn run<R: Threads + Sync, A: Arguments, F: Folder, S: Source, W: Sink, L: Link, C: Clock>(
    rt: &R,
    alloc: Global,
    arguments: &A,
    folder: &mut F,
    input: &mut S,
    output: &mut W,
    link: &mut L,
    clock: &mut C,
) -> Status
    ensures loaded { F.faults folder.old ≤ F.faults folder.new }
    ensures read { S.faults input.old ≤ S.faults input.new }
    ensures written { W.faults output.old ≤ W.faults output.new }
    ensures linked { L.faults link.old ≤ L.faults link.new }
    ensures replay { IfSome (A.arguments arguments.now) (λ all. AsksReplay (words_of all) → ReplayCause result (S.faults input.old) (S.faults input.new) (W.faults output.old) (W.faults output.new)) }
    ensures promise { IfSome (A.arguments arguments.now) (λ all. AsksReplay (words_of all) → Promises (S.remaining input.old) (S.remaining input.new) result (W.written output.old) (W.written output.new)) }
    ensures end { IfSome (A.arguments arguments.now) (λ all. AsksReplay (words_of all) → IfSome (S.remaining input.old) (λ bytes. EndsSource result (S.remaining input.new))) }
    ensures headline { IfSome (A.arguments arguments.now) (λ all. AsksReplay (words_of all) → IfSome (S.remaining input.old) (λ bytes. KeepsEntitiesApart bytes result (W.written output.old) (W.written output.new))) }
    ensures complete { IfSome (A.arguments arguments.now) (λ all. AsksReplay (words_of all) → (bytes : List ℕ) → S.remaining input.old ≡ Some bytes → (Rose (S.faults input.old) (S.faults input.new) → ⊥) → (Rose (W.faults output.old) (W.faults output.new) → ⊥)
        → IsCompleted bytes result (W.written output.old) (W.written output.new)) }
    ensures sweep { IfSome (A.arguments arguments.now) (λ all. (first count events workers : ℕ) → AsksSweep (words_of all) first count events workers → Swept first count events result (W.faults output.old) (W.faults output.new) (W.written output.old) (W.written output.new)) }
    ensures node { IfSome (A.arguments arguments.now) (λ all. (config : List ℕ) (ticks : ℕ) → AsksNode (words_of all) config ticks → RanNode (F.files folder.old) config ticks result (F.faults folder.old) (F.faults folder.new) (sink (W.written output.old) (W.faults output.old)) (sink (W.written output.new) (W.faults output.new)) (wire (L.bound link.old) (L.sends link.old) (L.losses link.old) (L.coming link.old)) (wire (L.bound link.new) (L.sends link.new) (L.losses link.new) (L.coming link.new)) (L.faults link.old) (L.faults link.new) (C.readings clock.old)) }
    ensures control { IfSome (A.arguments arguments.now) (λ all. (to : AddressModel) (say : Request) → AsksControl (words_of all) to say → Asked to say result (sink (W.written output.old) (W.faults output.old)) (sink (W.written output.new) (W.faults output.new)) (wire (L.bound link.old) (L.sends link.old) (L.losses link.old) (L.coming link.old)) (wire (L.bound link.new) (L.sends link.new) (L.losses link.new) (L.coming link.new)) (L.faults link.old) (L.faults link.new)) }
    ensures usage { IfSome (A.arguments arguments.now) (λ all. AsksOther (words_of all) → RefusesWords (words_of all) result (W.faults output.old) (W.faults output.new) (W.written output.old) (W.written output.new)) }
    ensures unread { IfSome (A.arguments arguments.now) (λ all. (AsksReplay (words_of all) → ⊥) → input.new ≡ input.old) }
    ensures folder { IfSome (A.arguments arguments.now) (λ all. NoNode (words_of all) → folder.new ≡ folder.old) }
    ensures link { IfSome (A.arguments arguments.now) (λ all. NoNode (words_of all) → NoControl (words_of all) → link.new ≡ link.old) }
    ensures clock { IfSome (A.arguments arguments.now) (λ all. NoNode (words_of all) → clock.new ≡ clock.old) }
{
    run_with_notes(
        rt,
        alloc,
        arguments,
        folder,
        input,
        output,
        link,
        clock,
        &mut NoNotes,
    )
}

/// The same, and people are told what they may want to know: how the program is used, why a line or a configuration is refused,
/// how far a sweep is, and what the status means. What they are told is in no clause; every clause of `run` holds whatever the notes
/// do.
pub fn run_with_notes<
    R: Threads + Sync,
    A: Arguments,
    F: Folder,
    S: Source,
    W: Sink,
    L: Link,
    C: Clock,
    N: Notes,
>(
    rt: &R,
    alloc: Global,
    arguments: &A,
    folder: &mut F,
    input: &mut S,
    output: &mut W,
    link: &mut L,
    clock: &mut C,
    notes: &mut N,
) -> Status
    ensures loaded { F.faults folder.old ≤ F.faults folder.new }
    ensures read { S.faults input.old ≤ S.faults input.new }
    ensures written { W.faults output.old ≤ W.faults output.new }
    ensures linked { L.faults link.old ≤ L.faults link.new }
    ensures replay { IfSome (A.arguments arguments.now) (λ all. AsksReplay (words_of all) → ReplayCause result (S.faults input.old) (S.faults input.new) (W.faults output.old) (W.faults output.new)) }
    ensures promise { IfSome (A.arguments arguments.now) (λ all. AsksReplay (words_of all) → Promises (S.remaining input.old) (S.remaining input.new) result (W.written output.old) (W.written output.new)) }
    ensures end { IfSome (A.arguments arguments.now) (λ all. AsksReplay (words_of all) → IfSome (S.remaining input.old) (λ bytes. EndsSource result (S.remaining input.new))) }
    ensures headline { IfSome (A.arguments arguments.now) (λ all. AsksReplay (words_of all) → IfSome (S.remaining input.old) (λ bytes. KeepsEntitiesApart bytes result (W.written output.old) (W.written output.new))) }
    ensures complete { IfSome (A.arguments arguments.now) (λ all. AsksReplay (words_of all) → (bytes : List ℕ) → S.remaining input.old ≡ Some bytes → (Rose (S.faults input.old) (S.faults input.new) → ⊥) → (Rose (W.faults output.old) (W.faults output.new) → ⊥)
        → IsCompleted bytes result (W.written output.old) (W.written output.new)) }
    ensures sweep { IfSome (A.arguments arguments.now) (λ all. (first count events workers : ℕ) → AsksSweep (words_of all) first count events workers → Swept first count events result (W.faults output.old) (W.faults output.new) (W.written output.old) (W.written output.new)) }
    ensures node { IfSome (A.arguments arguments.now) (λ all. (config : List ℕ) (ticks : ℕ) → AsksNode (words_of all) config ticks → RanNode (F.files folder.old) config ticks result (F.faults folder.old) (F.faults folder.new) (sink (W.written output.old) (W.faults output.old)) (sink (W.written output.new) (W.faults output.new)) (wire (L.bound link.old) (L.sends link.old) (L.losses link.old) (L.coming link.old)) (wire (L.bound link.new) (L.sends link.new) (L.losses link.new) (L.coming link.new)) (L.faults link.old) (L.faults link.new) (C.readings clock.old)) }
    ensures control { IfSome (A.arguments arguments.now) (λ all. (to : AddressModel) (say : Request) → AsksControl (words_of all) to say → Asked to say result (sink (W.written output.old) (W.faults output.old)) (sink (W.written output.new) (W.faults output.new)) (wire (L.bound link.old) (L.sends link.old) (L.losses link.old) (L.coming link.old)) (wire (L.bound link.new) (L.sends link.new) (L.losses link.new) (L.coming link.new)) (L.faults link.old) (L.faults link.new)) }
    ensures usage { IfSome (A.arguments arguments.now) (λ all. AsksOther (words_of all) → RefusesWords (words_of all) result (W.faults output.old) (W.faults output.new) (W.written output.old) (W.written output.new)) }
    ensures unread { IfSome (A.arguments arguments.now) (λ all. (AsksReplay (words_of all) → ⊥) → input.new ≡ input.old) }
    ensures folder { IfSome (A.arguments arguments.now) (λ all. NoNode (words_of all) → folder.new ≡ folder.old) }
    ensures link { IfSome (A.arguments arguments.now) (λ all. NoNode (words_of all) → NoControl (words_of all) → link.new ≡ link.old) }
    ensures clock { IfSome (A.arguments arguments.now) (λ all. NoNode (words_of all) → clock.new ≡ clock.old) }
{
    if !names_command(arguments) {
        say_status(notes, Status::Usage);
        return refuse(output);
    }
    match collect_words(alloc, arguments) {
        Ok(words) => {
            let status = run_words(rt, alloc, &words, folder, input, output, link, clock, notes);
            say_status(notes, status);
            status
        }
        Err(_) => {
            say_status(notes, Status::Memory);
            written(output, b"error 7 memory\n", Status::Memory)
        }
    }
}

/// The exit status of the process, 0 to 9 in the order of the statuses.
pub fn exit(status: Status) -> ExitCode
    ensures { exit_status result ≡ exit_code status }
{
    ExitCode::from(status.code())
}
