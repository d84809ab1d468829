use ak_address::{AddressFault, parse_address, parse_unique};
use std::alloc::{AllocError, Global};
use std::test::Fail;

// What a unique reads as, printed, or the code of its fault.
fn unique_or_fault(alloc: Global, text: &str) -> Result<Vec<u8>, Fail> {
    let mut out = Vec::new(alloc);
    match parse_unique(alloc, text.as_bytes()) {
        Ok(unique) => unique.print_into(&mut out)?,
        Err(fault) => {
            let code = format!(in alloc; "{fault}")?;
            out.extend_from_slice(code.as_bytes())?;
        }
    }
    Ok(out)
}

fn address_or_fault(alloc: Global, text: &str) -> Result<Vec<u8>, Fail> {
    let mut out = Vec::new(alloc);
    match parse_address(alloc, text.as_bytes()) {
        Ok(address) => address.print_into(&mut out)?,
        Err(fault) => {
            let code = format!(in alloc; "{fault}")?;
            out.extend_from_slice(code.as_bytes())?;
        }
    }
    Ok(out)
}

fn reads_unique_as(alloc: Global, text: &str, wanted: &str) -> Result<bool, Fail> {
    Ok(unique_or_fault(alloc, text)?.as_slice() == wanted.as_bytes())
}

fn reads_address_as(alloc: Global, text: &str, wanted: &str) -> Result<bool, Fail> {
    Ok(address_or_fault(alloc, text)?.as_slice() == wanted.as_bytes())
}

// A text, and what it reads as as a unique.
static UNIQUES: [(&str, &str); 13] = [
    ("a:1#7", "a:1#7"),
    (
        "Host_1.a-b:065535#09223372036854775807",
        "Host_1.a-b:65535#9223372036854775807",
    ),
    ("", "A1"),
    (":1#1", "A1"),
    ("a b:1#1", "A1"),
    ("a", "A2"),
    ("a:0#1", "A2"),
    ("a:65536#1", "A2"),
    ("a:1", "A3"),
    ("a:1#0", "A3"),
    ("a:1#9223372036854775808", "A3"),
    ("a:1#000000000000000000001", "A3"),
    ("a:1#99999999999999999999", "A3"),
];

// A text, and what it reads as as an address.
static ADDRESSES: [(&str, &str); 4] = [
    ("node-1.shop.local:2551", "node-1.shop.local:2551"),
    ("a:1#7", "A2"),
    ("a", "A2"),
    ("a#7", "A1"),
];

#[test]
fn uniques_and_addresses_are_read_and_printed(rt: HostRuntime) -> Result<(), Fail> {
    for (text, wanted) in &UNIQUES {
        assert!(rt; reads_unique_as(rt.alloc(), text, wanted)?, "{text}");
    }
    for (text, wanted) in &ADDRESSES {
        assert!(rt; reads_address_as(rt.alloc(), text, wanted)?, "{text}");
    }
    Ok(())
}

fn shows_as(alloc: Global, fault: &AddressFault, code: &str) -> Result<bool, Fail> {
    Ok(format!(in alloc; "{fault}")?.as_str() == code)
}

#[test]
fn a_fault_shows_as_its_code(rt: HostRuntime) -> Result<(), Fail> {
    let faults = [
        (AddressFault::BadHost, "A1"),
        (AddressFault::BadPort, "A2"),
        (AddressFault::BadUid, "A3"),
        (AddressFault::NoMemory(AllocError), "memory"),
    ];
    for (fault, code) in &faults {
        assert!(rt; shows_as(rt.alloc(), fault, code)?, "{code}");
    }
    Ok(())
}
