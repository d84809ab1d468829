use crate::build::{all_up, is_of, process};
use ak_address::Unique;
use ak_detector::{Detector, watch_ring};
use ak_member::Members;
use std::alloc::Global;
use std::test::Fail;

const DEADLINE: u32 = 2;

// What happens to the detector of b.
#[derive(Clone, Copy)]
enum Turn {
    Ticks(u32),
    Heard(u8),
    // It watches by a view with these members.
    Watch(&'static [u8]),
}

fn ring_is(alloc: Global, me: &Unique, members: &Members, ring: &[u8]) -> Result<bool, Fail> {
    let found = watch_ring(alloc, me, members)?;
    Ok(is_of(&found, ring))
}

fn has_ring(alloc: Global, me: u8, members: &[u8], ring: &[u8]) -> Result<bool, Fail> {
    let me = process(alloc, me)?;
    let members = all_up(alloc, members)?;
    ring_is(alloc, &me, &members, ring)
}

fn watch(alloc: Global, detector: &mut Detector, members: &[u8]) -> Result<(), Fail> {
    let me = process(alloc, b'b')?;
    let members = all_up(alloc, members)?;
    Ok(detector.watch(alloc, &me, &members, DEADLINE)?)
}

fn take(alloc: Global, detector: &mut Detector, turn: Turn) -> Result<(), Fail> {
    match turn {
        Turn::Ticks(count) => {
            for _ in 0..count {
                detector.tick(DEADLINE);
            }
            Ok(())
        }
        Turn::Heard(letter) => {
            let who = process(alloc, letter)?;
            detector.heard(&who);
            Ok(())
        }
        Turn::Watch(members) => watch(alloc, detector, members),
    }
}

// Whether these are watched, and those silent.
fn sees(alloc: Global, detector: &Detector, watched: &[u8], silent: &[u8]) -> Result<bool, Fail> {
    let them = detector.silent(alloc, DEADLINE)?;
    Ok(is_of(detector.watched(), watched) && is_of(&them, silent))
}

#[test]
fn the_next_five_are_watched(rt: HostRuntime) -> Result<(), Fail> {
    for (me, members, ring) in [
        (b'b', b"abcdefg".as_slice(), b"cdefg".as_slice()),
        (b'f', b"abcdefg".as_slice(), b"abcdg".as_slice()),
        (b'b', b"abc".as_slice(), b"ac".as_slice()),
        (b'h', b"abc".as_slice(), b"abc".as_slice()),
    ] {
        assert!(rt; has_ring(rt.alloc(), me, members, ring)?);
    }
    Ok(())
}

#[test]
fn silent_members_stay_watched(rt: HostRuntime) -> Result<(), Fail> {
    let mut detector = Detector::new(rt.alloc());
    for (turn, watched, silent) in [
        (Turn::Watch(b"ab"), b"a".as_slice(), b"".as_slice()),
        (Turn::Ticks(2), b"a".as_slice(), b"".as_slice()),
        (Turn::Ticks(1), b"a".as_slice(), b"a".as_slice()),
        (
            Turn::Watch(b"abcdefg"),
            b"acdefg".as_slice(),
            b"a".as_slice(),
        ),
        (Turn::Heard(b'a'), b"acdefg".as_slice(), b"".as_slice()),
        (Turn::Watch(b"abcdefg"), b"cdefg".as_slice(), b"".as_slice()),
        (Turn::Ticks(5), b"cdefg".as_slice(), b"cdefg".as_slice()),
        (Turn::Watch(b"bc"), b"c".as_slice(), b"c".as_slice()),
    ] {
        take(rt.alloc(), &mut detector, turn)?;
        assert!(rt; sees(rt.alloc(), &detector, watched, silent)?);
    }
    Ok(())
}

fn watches_by(alloc: Global, detector: &Detector, members: &[u8]) -> Result<bool, Fail> {
    let me = process(alloc, b'b')?;
    let members = all_up(alloc, members)?;
    Ok(detector.watches_already(&me, &members))
}

// Whether b, which watched by some members, watches by others already.
fn goes_on(alloc: Global, members: &[u8], others: &[u8]) -> Result<bool, Fail> {
    let mut detector = Detector::new(alloc);
    watch(alloc, &mut detector, members)?;
    watches_by(alloc, &detector, others)
}

#[test]
fn who_watches_its_ring_goes_on(rt: HostRuntime) -> Result<(), Fail> {
    for (members, others, on) in [
        (b"abc".as_slice(), b"abc".as_slice(), true),
        (b"abcdefg".as_slice(), b"bcdefgh".as_slice(), true),
        (b"abc".as_slice(), b"abcd".as_slice(), false),
        (b"abcd".as_slice(), b"abc".as_slice(), false),
        (b"abc".as_slice(), b"abd".as_slice(), false),
        (b"bc".as_slice(), b"ab".as_slice(), false),
    ] {
        assert!(rt; goes_on(rt.alloc(), members, others)? == on);
    }
    Ok(())
}
