//! `akka`: the command line, the files, the standard streams, a socket and a clock, handed to `ak_driver::run_with_notes`.
#![tactic(auto)]

use ak_driver::{exit, run_with_notes};
use ak_link::UdpLink;
use ak_notes::StdNotes;
use ak_outside::{StdArguments, StdClock, StdFolder, StdSink, StdSource};
use std::process::ExitCode;

fn main(rt: HostRuntime) -> ExitCode {
    exit(run_with_notes(
        &rt,
        rt.alloc(),
        &StdArguments::new(&rt),
        &mut StdFolder::new(&rt),
        &mut StdSource::new(&rt),
        &mut StdSink::new(&rt),
        &mut UdpLink::new(&rt, rt.alloc()),
        &mut StdClock::new(&rt),
        &mut StdNotes::new(&rt, rt.stderr()),
    ))
}
