use ak_address::{Address, Text, parse_address};
use ak_options::{Command, read_command};
use ak_outside::{MemoryLink, MemorySink, Status};
use ak_turns::run_ctl;
use std::alloc::{AllocError, Global};
use std::test::Fail;

// What words ask for, whether the bind or the send fails, and what is wanted.
fn words(alloc: Global, say: &[u8]) -> Result<Vec<Text>, AllocError> {
    let mut all = Vec::new(alloc);
    all.push(Text::from_bytes(alloc, b"ctl")?)?;
    all.push(Text::from_bytes(alloc, b"--to")?)?;
    all.push(Text::from_bytes(alloc, b"a:1")?)?;
    all.push(Text::from_bytes(alloc, b"--say")?)?;
    all.push(Text::from_bytes(alloc, say)?)?;
    Ok(all)
}

fn is_first(link: &MemoryLink, to: &Address, packet: &[u8]) -> bool {
    match (link.sent_at(0), link.sent_to(0)) {
        (Some(bytes), Some(at)) => bytes == packet && at.is(to),
        _ => false,
    }
}

// Whether a control command that asks this writes this text, with one packet taken or none.
fn says(
    alloc: Global,
    say: &[u8],
    link: &mut MemoryLink,
    text: &[u8],
) -> Result<Option<Status>, AllocError> {
    let mut output = MemorySink::new(alloc, &[])?;
    match read_command(alloc, &words(alloc, say)?)? {
        Some(Command::Ctl { to, say }) => {
            let status = run_ctl(alloc, to, say, &mut output, link);
            if output.bytes() == text {
                return Ok(Some(status));
            }
            Ok(None)
        }
        _ => Ok(None),
    }
}

const LEAVE: &[u8] =
    b"AKC\x02\x17\x03ctl\x00\x01\x00\x00\x00\x00\x00\x00\x00\x01\x01a\x00\x01\x00\x00\x00\x00\x00\x00\x00\x00\x01b\x00\x01\x00\x00\x00\x00\x00\x00\x00\x01";

#[test]
fn a_leave_is_sent(rt: HostRuntime) -> Result<(), Fail> {
    let alloc = rt.alloc();
    let to = parse_address(alloc, b"a:1")?;
    let mut link = MemoryLink::new(alloc, Vec::new(alloc), &[], &[], &[])?;
    let status = says(alloc, b"leave b:1#1", &mut link, b"sent\n")?;
    assert!(rt; status == Some(Status::Done));
    assert!(rt; link.bound_at().is_none() && link.asked() == 1 && is_first(&link, &to, LEAVE));
    Ok(())
}

// In the second version, in 49 bytes.
const OFFER: &[u8] =
    b"AKC\x02\x19\x03ctl\x00\x01\x00\x00\x00\x00\x00\x00\x00\x01\x01a\x00\x01\x00\x00\x00\x00\x00\x00\x00\x00\x09user/cart\x00\x00\x00\x00\x00\x00\x00\x05";

#[test]
fn an_offer_is_sent(rt: HostRuntime) -> Result<(), Fail> {
    let alloc = rt.alloc();
    let to = parse_address(alloc, b"a:1")?;
    let mut link = MemoryLink::new(alloc, Vec::new(alloc), &[], &[], &[])?;
    let status = says(alloc, b"offer user/cart 5", &mut link, b"sent\n")?;
    assert!(rt; status == Some(Status::Done) && is_first(&link, &to, OFFER));
    Ok(())
}

#[test]
fn a_send_is_lost(rt: HostRuntime) -> Result<(), Fail> {
    let alloc = rt.alloc();
    let mut link = MemoryLink::new(alloc, Vec::new(alloc), &[], &[1], &[])?;
    let status = says(alloc, b"down b:1#1", &mut link, b"lost\n")?;
    assert!(rt; status == Some(Status::Done));
    assert!(rt; link.asked() == 1 && link.sent_len() == 0 && link.losses() == 1);
    Ok(())
}

#[test]
fn no_port_is_had(rt: HostRuntime) -> Result<(), Fail> {
    let alloc = rt.alloc();
    let mut link = MemoryLink::new(alloc, Vec::new(alloc), &[1], &[], &[])?;
    let status = says(alloc, b"down b:1#1", &mut link, b"error 8 link\n")?;
    assert!(rt; status == Some(Status::Link));
    assert!(rt; link.asked() == 0 && link.faults() == 1);
    Ok(())
}
