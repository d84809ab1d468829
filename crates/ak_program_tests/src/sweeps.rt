use ak_notes::NoNotes;
use ak_outside::{MemorySink, Status};
use ak_sweeps::run_sweep;
use std::test::Fail;

// Of no seed, and then of one event of the last seed.
const SMALL: &[u8] =
    b"seeds 0 kept 0 doubles 0\nseed 9000000000000000000 steps 1 packets 0 history 0 margin kept doubles none\nseeds 1 kept 1 doubles 0\n";

// A sink that fails at its first write took nothing.
#[test]
fn a_failed_write_ends_a_sweep(rt: HostRuntime) -> Result<(), Fail> {
    let mut output = MemorySink::new(rt.alloc(), &[1])?;
    let answer = run_sweep(&rt, rt.alloc(), 1, 2, 10, 2, &mut output, &mut NoNotes);
    assert!(rt; answer == Status::Write);
    assert!(rt; output.bytes().is_empty());
    assert!(rt; output.faults() == 1);
    Ok(())
}

// Of no seed there are the totals alone; of one event each line has one step.
#[test]
fn small_sweeps(rt: HostRuntime) -> Result<(), Fail> {
    let mut output = MemorySink::new(rt.alloc(), &[])?;
    let none = run_sweep(&rt, rt.alloc(), 0, 0, 1, 1, &mut output, &mut NoNotes);
    assert!(rt; none == Status::Done);
    let one = run_sweep(
        &rt,
        rt.alloc(),
        9_000_000_000_000_000_000,
        1,
        1,
        64,
        &mut output,
        &mut NoNotes,
    );
    assert!(rt; one == Status::Done);
    assert!(rt; output.bytes() == SMALL);
    Ok(())
}
