use crate::parts::{Line, counted, crowd, gossip, plain, process, seen};
use ak_address::{Unique, Uniques};
use ak_clock::BOUND;
use ak_gossip::{Gossip, GossipFault, Received};
use ak_member::{Effect, Effects, Standing, Status};
use std::alloc::{AllocError, Global};
use std::test::Fail;

// A Joining member whose version counts so many entries.
fn joining(uid: u32, count: u64) -> Line {
    counted(uid, count)
}

// An Up member with this number.
fn up(uid: u32, count: u64, number: u64) -> Line {
    let line = plain(uid, 2, number);
    Line { count, ..line }
}

// A tombstone.
fn buried(uid: u32, count: u64) -> Line {
    let line = plain(uid, 6, 0);
    Line { count, ..line }
}

// What receiving answers at the process.
fn received(
    alloc: Global,
    own: &mut Gossip,
    me: u32,
    incoming: &Gossip,
) -> Result<Received, GossipFault> {
    let me = process(alloc, me)?;
    own.receive(alloc, &me, incoming)
}

// The same of the gossips of these lines.
fn answer(
    alloc: Global,
    own: &[Line],
    me: u32,
    incoming: &[Line],
) -> Result<Received, GossipFault> {
    let mut own = gossip(alloc, own)?;
    receive(alloc, &mut own, me, incoming)
}

fn receive(
    alloc: Global,
    own: &mut Gossip,
    me: u32,
    incoming: &[Line],
) -> Result<Received, GossipFault> {
    let incoming = gossip(alloc, incoming)?;
    received(alloc, own, me, &incoming)
}

// What is known after receiving.
fn after(alloc: Global, own: &[Line], me: u32, incoming: &[Line]) -> Result<Gossip, GossipFault> {
    let mut own = copy_of(alloc, own)?;
    receive(alloc, &mut own, me, incoming)?;
    Ok(own)
}

fn copy_of(alloc: Global, lines: &[Line]) -> Result<Gossip, AllocError> {
    let gossip = gossip(alloc, lines)?;
    gossip.copy(alloc)
}

// The uid and the count at an index of the version, zeros past the end.
fn count_at(gossip: &Gossip, index: usize) -> (u64, u64) {
    match gossip.version().at(index) {
        Some((who, count)) => (who.uid, count),
        None => (0, 0),
    }
}

// The uid and the standing at an index of the processes.
fn stands(gossip: &Gossip, index: usize) -> Option<(u64, Standing)> {
    match gossip.members().pair(index) {
        Some((who, standing)) => Some((who.uid, standing)),
        None => None,
    }
}

// The uid at an index of those that have seen it, zero past the end.
fn saw(gossip: &Gossip, index: usize) -> u64 {
    match gossip.seen().at(index) {
        Some(who) => who.uid,
        None => 0,
    }
}

// The observer's uid and the number of its row at an index; zeros past the end.
fn observes(gossip: &Gossip, index: usize) -> (u64, u64) {
    match gossip.rows().at(index) {
        Some((observer, row)) => (observer.uid, row.number),
        None => (0, 0),
    }
}

fn is_up(gossip: &Gossip, index: usize, uid: u64, number: u64) -> bool {
    stands(gossip, index) == Some((uid, Standing::Member(Status::Up, number)))
}

fn is_buried(gossip: &Gossip, index: usize, uid: u64) -> bool {
    stands(gossip, index) == Some((uid, Standing::Buried(false)))
}

// The first knows that the second was removed, and hears that it came up elsewhere.
#[test]
fn merge_with_tombstone(rt: HostRuntime) -> Result<(), Fail> {
    let own = [up(1, 5, 1), buried(2, 1)];
    let incoming = [up(1, 2, 1), up(2, 2, 2)];
    let gossip = after(rt.alloc(), &own, 1, &incoming).map_err(|_| "the gossip is refused")?;
    assert!(rt; count_at(&gossip, 0) == (1, 5) && count_at(&gossip, 1) == (2, 2));
    assert!(rt; is_up(&gossip, 0, 1, 1) && is_buried(&gossip, 1, 2));
    assert!(rt; saw(&gossip, 0) == 1 && saw(&gossip, 1) == 0);
    Ok(())
}

fn base() -> [Line; 2] {
    [joining(1, 2), joining(2, 0)]
}

fn risen() -> [Line; 2] {
    [up(1, 3, 1), joining(2, 0)]
}

fn other() -> [Line; 2] {
    [joining(1, 2), up(2, 1, 2)]
}

#[test]
fn gossips_are_received(rt: HostRuntime) {
    let alloc = rt.alloc();
    assert!(rt; answer(alloc, &base(), 1, &base()) == Ok(Received::Same));
    assert!(rt; answer(alloc, &base(), 2, &risen()) == Ok(Received::Newer));
    assert!(rt; answer(alloc, &risen(), 1, &base()) == Ok(Received::Older));
    assert!(rt; answer(alloc, &risen(), 1, &other()) == Ok(Received::Merged));
}

#[test]
fn foreign_counts_are_refused(rt: HostRuntime) {
    let foreign = GossipFault::ForeignCount { own: 2, theirs: 3 };
    assert!(rt; answer(rt.alloc(), &base(), 1, &risen()) == Err(foreign));
}

// What is answered at the gossip of 64 others, and how many are known then.
fn tell_crowd(
    alloc: Global,
    own: &mut Gossip,
    me: u32,
) -> Result<(Result<Received, GossipFault>, u32), AllocError> {
    let other = crowd(alloc, 101, 64)?;
    let answer = received(alloc, own, me, &other);
    Ok((answer, own.uniques()))
}

// The same of so many.
fn crowd_told(
    alloc: Global,
    many: u32,
    me: u32,
) -> Result<(Result<Received, GossipFault>, u32), AllocError> {
    let mut own = crowd(alloc, 1, many)?;
    tell_crowd(alloc, &mut own, me)
}

#[test]
fn at_most_128_are_accepted(rt: HostRuntime) -> Result<(), Fail> {
    let merged = Ok(Received::Merged);
    assert!(rt; crowd_told(rt.alloc(), 64, 1)? == (merged, 128));
    let excess = Err(GossipFault::TooManyUniques { union: 129 });
    assert!(rt; crowd_told(rt.alloc(), 65, 1)? == (excess, 65));
    let foreign = Err(GossipFault::ForeignCount { own: 0, theirs: 3 });
    assert!(rt; crowd_told(rt.alloc(), 65, 101)? == (foreign, 65));
    Ok(())
}

#[test]
fn who_has_seen_it_is_joined(rt: HostRuntime) -> Result<(), Fail> {
    let own = [seen(1, 1), plain(2, 1, 0), plain(3, 1, 0)];
    let incoming = [plain(1, 1, 0), seen(2, 1), plain(3, 1, 0)];
    let gossip = after(rt.alloc(), &own, 3, &incoming).map_err(|_| "the gossip is refused")?;
    assert!(rt; saw(&gossip, 0) == 1 && saw(&gossip, 1) == 2 && saw(&gossip, 2) == 3);
    Ok(())
}

// The author's entry that finds the process unreachable; nothing where it may not be made.
fn find(
    alloc: Global,
    gossip: &mut Gossip,
    author: &Unique,
    who: &Unique,
) -> Result<(), AllocError> {
    let mut subjects = Uniques::empty(alloc);
    subjects.insert(alloc, who)?;
    let mut effects = Effects::empty(alloc);
    effects.push(Effect::Observed(subjects))?;
    gossip.invariant();
    if gossip.members().get(author).is_none() || gossip.members().get(who).is_none() {
        return Ok(());
    }
    if gossip.version().count(author) < BOUND {
        gossip.update(alloc, author, &effects)?;
    }
    Ok(())
}

// The author finds the second process unreachable.
fn find_second(alloc: Global, gossip: &mut Gossip, author: &Unique) -> Result<(), AllocError> {
    let two = process(alloc, 2)?;
    find(alloc, gossip, author, &two)
}

// The first process finds the second one unreachable.
fn first_finds_second(alloc: Global, gossip: &mut Gossip) -> Result<(), AllocError> {
    let one = process(alloc, 1)?;
    find_second(alloc, gossip, &one)
}

// The gossip of three, of whom the first found the second unreachable.
fn with_a_finding(alloc: Global) -> Result<Gossip, AllocError> {
    let mut gossip = gossip(alloc, &[seen(1, 1), plain(2, 1, 0), plain(3, 1, 0)])?;
    first_finds_second(alloc, &mut gossip)?;
    Ok(gossip)
}

#[test]
fn findings_are_rows(rt: HostRuntime) -> Result<(), Fail> {
    let gossip = with_a_finding(rt.alloc())?;
    assert!(rt; count_at(&gossip, 0) == (1, 4));
    assert!(rt; observes(&gossip, 0) == (1, 4) && observes(&gossip, 1) == (0, 0));
    Ok(())
}

// Who has seen an equal version and is no member here does not join the seen set.
#[test]
fn strangers_do_not_join_the_seen(rt: HostRuntime) -> Result<(), Fail> {
    let own = [counted(1, 1)];
    let stranger = Line {
        seen: true,
        ..counted(2, 0)
    };
    let incoming = [counted(1, 1), stranger];
    assert!(rt; answer(rt.alloc(), &own, 1, &incoming) == Ok(Received::Same));
    let gossip = after(rt.alloc(), &own, 1, &incoming).map_err(|_| "the gossip is refused")?;
    assert!(rt; saw(&gossip, 0) == 1 && saw(&gossip, 1) == 0 && gossip.uniques() == 1);
    Ok(())
}
