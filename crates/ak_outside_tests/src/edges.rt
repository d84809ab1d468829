use ak_address::{Address, Text, parse_address};
use ak_outside::{
    Bound, Clock, Folder, Heard, Link, Loaded, MemoryClock, MemoryFile, MemoryFolder, MemoryLink,
    Sent, StdClock, StdFolder,
};
use std::alloc::{AllocError, Global};
use std::fs;
use std::rt::Files;
use std::test::Fail;

fn some_files(alloc: Global) -> Result<Vec<MemoryFile>, AllocError> {
    let name = Text::from_bytes(alloc, b"F")?;
    let bytes = Text::from_bytes(alloc, b"abc")?;
    let mut files = Vec::new(alloc);
    files.push(MemoryFile { name, bytes })?;
    Ok(files)
}

// The first so many loads are ready, the next one fails, and the one after it is ready again.
fn fails_once(alloc: Global, folder: &mut MemoryFolder, name: &Text, ready: u64) -> bool {
    'loads: for _ in 0..ready {
        if !matches!(folder.load(alloc, name, 3), Loaded::Bytes(_)) {
            return false;
        }
    }
    let failed = matches!(folder.load(alloc, name, 3), Loaded::Failed);
    failed && folder.faults() == 1 && matches!(folder.load(alloc, name, 2), Loaded::TooLarge)
}

fn fails_at_each_load(alloc: Global, name: &Text) -> Result<bool, AllocError> {
    'calls: for ready in 0..10 {
        let mut folder = MemoryFolder::new(alloc, some_files(alloc)?, &[ready + 1])?;
        if !fails_once(alloc, &mut folder, name, ready) {
            return Ok(false);
        }
    }
    Ok(true)
}

#[test]
fn folders_fail_at_listed_loads(rt: HostRuntime) -> Result<(), Fail> {
    let name = Text::from_bytes(rt.alloc(), b"F")?;
    assert!(rt; fails_at_each_load(rt.alloc(), &name)?);
    Ok(())
}

fn binds_fail_once(link: &mut MemoryLink, at: &Address, ready: u64) -> bool {
    'binds: for _ in 0..ready {
        if link.bind(Some(at)) != Bound::Ready {
            return false;
        }
    }
    link.bind(Some(at)) == Bound::Failed && link.faults() == 1 && link.losses() == 0
}

fn sends_fail_once(link: &mut MemoryLink, to: &Address, ready: u64) -> bool {
    'sends: for _ in 0..ready {
        if link.send(to, b"xy") != Sent::Sent {
            return false;
        }
    }
    let lost = link.send(to, b"xy") == Sent::Failed && link.losses() == 1 && link.faults() == 1;
    lost && link.send(to, b"z") == Sent::Sent && link.sent_at(link.sent_len() - 1) == Some(b"z")
}

fn receives_fail_once(link: &mut MemoryLink, ready: u64) -> bool {
    let mut buffer = [0; 2];
    'receives: for _ in 0..ready {
        if link.receive(&mut buffer) != Heard::Quiet {
            return false;
        }
    }
    let failed = link.receive(&mut buffer) == Heard::Failed && link.faults() == 2;
    failed && link.receive(&mut buffer) == Heard::Packet(2) && buffer == *b"pa"
}

fn fails_at(alloc: Global, at: &Address, ready: u64) -> Result<bool, AllocError> {
    let mut coming = Vec::new(alloc);
    'quiets: for _ in 0..ready {
        coming.push(None)?;
    }
    coming.push(Some(Text::from_bytes(alloc, b"packet")?))?;
    let calls = [ready.saturating_add(1)];
    let mut link = MemoryLink::new(alloc, coming, &calls, &calls, &calls)?;
    let failed = binds_fail_once(&mut link, at, ready) && sends_fail_once(&mut link, at, ready);
    Ok(failed && receives_fail_once(&mut link, ready) && link.starved() == 0)
}

#[test]
fn links_fail_at_listed_calls(rt: HostRuntime) -> Result<(), Fail> {
    let at = parse_address(rt.alloc(), b"a:1")?;
    'calls: for ready in 0..10 {
        assert!(rt; fails_at(rt.alloc(), &at, ready)?);
    }
    Ok(())
}

fn reads(clock: &mut MemoryClock, wanted: &[u64]) -> bool {
    'readings: for reading in wanted {
        if clock.now() != *reading {
            return false;
        }
    }
    true
}

#[test]
fn clocks_read(rt: HostRuntime) -> Result<(), Fail> {
    let mut clock = MemoryClock::new(rt.alloc(), &[5, 3])?;
    assert!(rt; reads(&mut clock, &[5, 3, 3]));
    let mut empty = MemoryClock::new(rt.alloc(), &[])?;
    assert!(rt; reads(&mut empty, &[0, 0]));
    let mut system = StdClock::new(&rt);
    let first = system.now();
    assert!(rt; first > 0 && first <= system.now());
    Ok(())
}

const STORED: &str = "/tmp/ak_outside_tests.stored";

fn is_stored<R: Files>(alloc: Global, folder: &mut StdFolder<'_, R>, name: &Text) -> bool {
    let whole = match folder.load(alloc, name, 3) {
        Loaded::Bytes(bytes) => bytes.bytes() == b"abc".as_slice(),
        _ => false,
    };
    whole && matches!(folder.load(alloc, name, 2), Loaded::TooLarge)
}

fn has_no_file<R: Files>(alloc: Global, folder: &mut StdFolder<'_, R>, name: &Text) -> bool {
    matches!(folder.load(alloc, name, 3), Loaded::NoFile) && folder.faults() == 0
}

#[test]
fn the_systems_files_are_loaded(rt: HostRuntime) -> Result<(), Fail> {
    fs::write(&rt, STORED, "abc")?;
    let mut folder = StdFolder::new(&rt);
    let name = Text::from_bytes(rt.alloc(), STORED.as_bytes())?;
    assert!(rt; is_stored(rt.alloc(), &mut folder, &name));
    fs::remove_file(&rt, STORED)?;
    assert!(rt; has_no_file(rt.alloc(), &mut folder, &name));
    let bytes = Text::from_bytes(rt.alloc(), b"\xff")?;
    assert!(rt; has_no_file(rt.alloc(), &mut folder, &bytes));
    let root = Text::from_bytes(rt.alloc(), b"/tmp")?;
    assert!(rt; matches!(folder.load(rt.alloc(), &root, 3), Loaded::Failed));
    assert!(rt; folder.faults() == 1);
    Ok(())
}
