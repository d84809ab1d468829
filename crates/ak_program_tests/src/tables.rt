use ak_outside::{MemorySink, Status};
use ak_sweep::Line;
use ak_sweeps::write_lines;
use std::alloc::Global;
use std::test::Fail;

// A margin that was broken, with a double and without; and the greatest numbers.
static LINES: [Line; 3] = [
    Line {
        seed: 7,
        steps: 2000,
        packets: 1234,
        history: 56,
        kept: false,
        double: true,
    },
    Line {
        seed: 8,
        steps: 1,
        packets: 0,
        history: 0,
        kept: true,
        double: false,
    },
    Line {
        seed: u64::MAX,
        steps: u64::MAX,
        packets: u64::MAX,
        history: u64::MAX,
        kept: false,
        double: false,
    },
];

const TEXT: &[u8] =
    b"seed 7 steps 2000 packets 1234 history 56 margin broken doubles found\nseed 8 steps 1 packets 0 history 0 margin kept doubles none\nseed 18446744073709551615 steps 18446744073709551615 packets 18446744073709551615 history 18446744073709551615 margin broken doubles none\nseeds 3 kept 1 doubles 1\n";

// What is written of these lines has this status and this text.
fn ends_so(alloc: Global, lines: &[Line], status: Status, text: &[u8]) -> Result<bool, Fail> {
    let mut output = MemorySink::new(alloc, &[])?;
    let answer = write_lines(alloc, lines, &mut output);
    Ok(answer == status && output.bytes() == text)
}

// A line that says that there was a double makes the status so.
#[test]
fn a_double_is_told(rt: HostRuntime) -> Result<(), Fail> {
    assert!(rt; ends_so(rt.alloc(), &LINES, Status::Double, TEXT)?);
    Ok(())
}

#[test]
fn no_double_is_told(rt: HostRuntime) -> Result<(), Fail> {
    let text =
        b"seed 8 steps 1 packets 0 history 0 margin kept doubles none\nseeds 1 kept 1 doubles 0\n";
    assert!(rt; ends_so(rt.alloc(), &LINES[1..2], Status::Done, text)?);
    Ok(())
}
