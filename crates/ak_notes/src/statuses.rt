// How it is used, and a sentence for each status.
use crate::notes::Notes;
use ak_outside::Status;

// Every command, its options, and one example each.
const USAGE: &[u8] = b"usage: akka replay < SCHEDULE
       akka sweep --first SEED --count SEEDS --events MOST [--workers WORKERS]
       akka node --config FILE --ticks TICKS
       akka ctl --to HOST:PORT --say \"leave PROCESS\" | \"down PROCESS\" | \"offer ENTITY PAYLOAD\"
for example:
       akka replay < schedules/joining/first_join.schedule
       akka sweep --first 0 --count 1000 --events 2000 --workers 4
       akka node --config examples/three_nodes/a.toml --ticks 1000
       akka ctl --to 127.0.0.1:2551 --say \"leave 127.0.0.1:2552#1\"
What is read, what is printed and what each exit status means is in docs/FORMATS.md.
";

/// Says what a status means, where no more is known of it: of `Done` nothing, and nothing of `Configuration` and `Schedule`, which
/// have sentences of their own.
pub fn say_status<N: Notes>(notes: &mut N, status: Status) {
    match status {
        Status::Done | Status::Configuration | Status::Schedule | Status::Read => {}
        Status::Double => notes.say(
            b"an entity was active on two nodes at once: see the last line of the output\n",
        ),
        Status::Usage => notes.say(USAGE),
        Status::Write => notes.say(b"standard output could not be written\n"),
        Status::Memory => notes.say(b"memory ran out\n"),
        Status::Link => notes.say(
            b"the address could not be taken, as where another program has it or its name is not found, or a receive failed\n",
        ),
        Status::Turns => notes.say(
            b"the clock stands still: 10000000 turns in a row made no tick\n",
        ),
    }
}
