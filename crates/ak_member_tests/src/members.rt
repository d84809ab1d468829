use crate::build::{addresses_of, members_of};
use ak_address::{Address, Unique, Uniques, parse_unique};
use ak_member::{Effect, Effects, Member, Members, Standing, Status};
use std::alloc::Global;
use std::test::Fail;

const JOINING: Standing = Standing::Member(Status::Joining, 0);

fn up(number: u64) -> Standing {
    Standing::Member(Status::Up, number)
}

fn down(number: u64) -> Standing {
    Standing::Member(Status::Down, number)
}

fn copy_of(alloc: Global, pairs: &[(&str, Standing)]) -> Result<Members, Fail> {
    let members = members_of(alloc, pairs)?;
    Ok(members.copy(alloc)?)
}

fn merge_in(alloc: Global, both: &mut Members, pairs: &[(&str, Standing)]) -> Result<(), Fail> {
    let other = members_of(alloc, pairs)?;
    Ok(both.merge(alloc, &other)?)
}

// A copy of the members of the own pairs, merged with those of the others.
fn merged(
    alloc: Global,
    own: &[(&str, Standing)],
    other: &[(&str, Standing)],
) -> Result<Members, Fail> {
    let mut both = copy_of(alloc, own)?;
    merge_in(alloc, &mut both, other)?;
    Ok(both)
}

// A process by the first letter of its host, and its uid.
fn name(who: &Unique) -> (u8, u64) {
    let letter = who.address.host.bytes().first().copied();
    (letter.unwrap_or(0), who.uid)
}

// Who stands at a row, and what is known of it.
fn pair(members: &Members, pair: usize) -> Option<((u8, u64), Standing)> {
    match members.pair(pair) {
        Some((who, standing)) => Some((name(who), standing)),
        None => None,
    }
}

fn stands(members: &Members, index: usize, who: (u8, u64), standing: Standing) -> bool {
    pair(members, index) == Some((who, standing))
}

// Whether a is Up with number 1, and b stays buried.
fn keep_the_tombstone(both: &Members) -> bool {
    let up = stands(both, 0, (b'a', 1), up(1));
    let buried = stands(both, 1, (b'b', 1), Standing::Buried(false));
    up && buried && both.len() == 1 && both.buried_len() == 1 && both.uniques() == 2
}

#[test]
fn members_merge_with_tombstones(rt: HostRuntime) -> Result<(), Fail> {
    let own = [("a:1#1", up(1)), ("b:1#1", Standing::Buried(false))];
    let other = [("a:1#1", up(1)), ("b:1#1", up(2))];
    assert!(rt; keep_the_tombstone(&merged(rt.alloc(), &own, &other)?));
    Ok(())
}

// Whether the two standings of one process merge to the wanted one.
fn merge_to(alloc: Global, own: Standing, other: Standing, wanted: Standing) -> Result<bool, Fail> {
    let both = merged(alloc, &[("a:1#1", own)], &[("a:1#1", other)])?;
    Ok(stands(&both, 0, (b'a', 1), wanted))
}

#[test]
fn standings_of_one_process_merge(rt: HostRuntime) -> Result<(), Fail> {
    let confirmed = Standing::Buried(true);
    let unconfirmed = Standing::Buried(false);
    let cases = [
        (up(3), up(2), up(2)),
        (JOINING, up(2), up(2)),
        (up(2), JOINING, up(2)),
        (up(2), down(0), down(2)),
        (down(2), up(2), down(2)),
        (confirmed, unconfirmed, confirmed),
        (unconfirmed, confirmed, confirmed),
        (unconfirmed, up(1), unconfirmed),
        (up(1), confirmed, confirmed),
    ];
    for (own, other, wanted) in &cases {
        assert!(rt;
            merge_to(rt.alloc(), *own, *other, *wanted)?,
            "{own:?} and {other:?}"
        );
    }
    Ok(())
}

// Views by the letters of their processes, in the order in which these came: the own one, in which they are Up, and the other, in
// which they are Down. The first or the last process, or one between, is missing at either, or no process is of both.
static VIEWS: [(&[u8], &[u8]); 10] = [
    (b"abcd", b"abcd"),
    (b"dbca", b"abcd"),
    (b"bcd", b"abcd"),
    (b"acd", b"dcab"),
    (b"abc", b"abcd"),
    (b"abcd", b"bcd"),
    (b"abcd", b"abd"),
    (b"dcba", b"abc"),
    (b"ca", b"bd"),
    (b"bd", b"dac"),
];

fn process(alloc: Global, letter: u8) -> Result<Unique, Fail> {
    Ok(parse_unique(alloc, &[letter, b':', b'1', b'#', b'1'])?)
}

fn raise(alloc: Global, members: &mut Members, letter: u8, status: Status) -> Result<(), Fail> {
    let who = process(alloc, letter)?;
    Ok(members.raise(alloc, &who, status, 1)?)
}

fn view_of(alloc: Global, letters: &[u8], status: Status) -> Result<Members, Fail> {
    let mut members = Members::empty(alloc);
    'letters: for letter in letters {
        raise(alloc, &mut members, *letter, status)?;
    }
    Ok(members)
}

fn merge_views(alloc: Global, own: &[u8], other: &[u8]) -> Result<Members, Fail> {
    let mut both = view_of(alloc, own, Status::Up)?;
    let down = view_of(alloc, other, Status::Down)?;
    both.merge(alloc, &down)?;
    Ok(both)
}

// What is known of the process of the letter is what the other knows, or else what was known here, or nothing.
fn is_of_both(both: &Members, who: &Unique, letter: u8, own: &[u8], other: &[u8]) -> bool {
    let status = both.get(who).map(|member| member.status);
    if other.contains(&letter) {
        return status == Some(Status::Down);
    }
    if own.contains(&letter) {
        return status == Some(Status::Up);
    }
    status.is_none()
}

fn are_of_both(alloc: Global, both: &Members, own: &[u8], other: &[u8]) -> Result<bool, Fail> {
    'letters: for letter in b"abcde" {
        let who = process(alloc, *letter)?;
        if !is_of_both(both, &who, *letter, own, other) {
            return Ok(false);
        }
    }
    Ok(true)
}

#[test]
fn views_merge_wherever_their_processes_stand(rt: HostRuntime) -> Result<(), Fail> {
    for (own, other) in &VIEWS {
        let both = merge_views(rt.alloc(), own, other)?;
        assert!(rt; are_of_both(rt.alloc(), &both, own, other)?);
    }
    Ok(())
}

// Whether b is the oldest, and the three members that are Up or Leaving stand in this order by age.
fn stand_by_age(alloc: Global, members: &Members) -> Result<bool, Fail> {
    if members.uniques() >= 100 {
        return Ok(false);
    }
    let oldest = members.oldest().map(name) == Some((b'b', 1));
    let indices = members.by_age(alloc)?;
    Ok(oldest && indices.as_slice() == [1, 2, 0].as_slice())
}

// Three members are Up or Leaving, two of them at one address, and the others are not.
fn some_counted(alloc: Global) -> Result<Members, Fail> {
    let pairs = [
        ("a:1#1", up(3)),
        ("b:1#1", Standing::Member(Status::Leaving, 1)),
        ("b:1#2", up(1)),
        ("c:1#1", JOINING),
        ("d:1#1", down(2)),
        ("e:1#1", Standing::Buried(false)),
    ];
    members_of(alloc, &pairs)
}

#[test]
fn up_and_leaving_members_have_an_age(rt: HostRuntime) -> Result<(), Fail> {
    let members = some_counted(rt.alloc())?;
    assert!(rt; stand_by_age(rt.alloc(), &members)?);
    Ok(())
}

// A role, and how many addresses with it are counted.
static ROLES: [(&[&str], u32); 8] = [
    (&["a:1", "b:1", "c:1", "d:1", "e:1"], 2),
    (&["e:1", "b:1", "x:1", "a:1"], 2),
    (&["a:1", "c:1"], 1),
    (&["b:1"], 1),
    (&["c:1", "d:1", "e:1"], 0),
    (&["x:1"], 0),
    // Other ports of their hosts.
    (&["a:2", "b:11"], 0),
    (&[], 0),
];

fn counted(members: &Members, role: &[Address]) -> u32 {
    if members.uniques() >= 100 {
        return 100;
    }
    members.counted(role)
}

fn count_so(alloc: Global, members: &Members, role: &[&str], wanted: u32) -> Result<bool, Fail> {
    let role = addresses_of(alloc, role)?;
    Ok(counted(members, &role) == wanted)
}

#[test]
fn addresses_with_the_role_are_counted(rt: HostRuntime) -> Result<(), Fail> {
    let members = some_counted(rt.alloc())?;
    for (role, wanted) in &ROLES {
        assert!(rt; count_so(rt.alloc(), &members, role, *wanted)?, "{role:?}");
    }
    Ok(())
}

fn joined(alloc: Global, who: &[u8]) -> Result<Effect, Fail> {
    Ok(Effect::Joined(parse_unique(alloc, who)?))
}

fn risen(alloc: Global, who: &[u8], number: u64) -> Result<Effect, Fail> {
    Ok(Effect::Rise(parse_unique(alloc, who)?, Status::Up, number))
}

fn removed(alloc: Global, who: &[u8]) -> Result<Effect, Fail> {
    Ok(Effect::Removed(parse_unique(alloc, who)?, true))
}

// The effects that make b a member with number 2, bury a, and find nobody unreachable.
fn push_all(alloc: Global, effects: &mut Effects) -> Result<(), Fail> {
    effects.push(joined(alloc, b"b:1#1")?)?;
    effects.push(risen(alloc, b"b:1#1", 2)?)?;
    effects.push(removed(alloc, b"a:1#1")?)?;
    effects.push(Effect::Observed(Uniques::empty(alloc)))?;
    Ok(())
}

// A copy of these effects.
fn effects(alloc: Global) -> Result<Effects, Fail> {
    let mut effects = Effects::empty(alloc);
    push_all(alloc, &mut effects)?;
    Ok(effects.copy(alloc)?)
}

fn are_four(effects: &Effects) -> bool {
    let found = matches!(effects.at(3), Some(Effect::Observed(_)));
    effects.len() == 4 && effects.as_slice().len() == 4 && found
}

// Whether a is buried after the effects, and b is Up.
fn are_applied(alloc: Global, effects: &Effects) -> Result<bool, Fail> {
    let members = members_of(alloc, &[("a:1#1", up(1))])?;
    Ok(bury_and_raise(&members.after(alloc, effects)?))
}

fn bury_and_raise(members: &Members) -> bool {
    let buried = stands(members, 0, (b'a', 1), Standing::Buried(true));
    buried && stands(members, 1, (b'b', 1), up(2))
}

#[test]
fn effects_are_applied_in_order(rt: HostRuntime) -> Result<(), Fail> {
    let effects = effects(rt.alloc())?;
    assert!(rt; are_four(&effects));
    assert!(rt; are_applied(rt.alloc(), &effects)?);
    Ok(())
}

// Whether two views know the same, and so the other way round.
fn are_same(
    alloc: Global,
    own: &[(&str, Standing)],
    other: &[(&str, Standing)],
) -> Result<bool, Fail> {
    let own = members_of(alloc, own)?;
    let other = members_of(alloc, other)?;
    Ok(own.is(&other) && other.is(&own))
}

#[test]
fn views_are_the_same_in_whichever_order_processes_came(rt: HostRuntime) -> Result<(), Fail> {
    let pairs = [("a:1#1", up(1)), ("b:1#1", Standing::Buried(false))];
    let turned = [("b:1#1", Standing::Buried(false)), ("a:1#1", up(1))];
    let confirmed = [("a:1#1", up(1)), ("b:1#1", Standing::Buried(true))];
    assert!(rt; are_same(rt.alloc(), &pairs, &pairs)?);
    assert!(rt; are_same(rt.alloc(), &pairs, &turned)?);
    assert!(rt; !are_same(rt.alloc(), &pairs, &confirmed)?);
    assert!(rt; !are_same(rt.alloc(), &pairs, &[("a:1#1", up(1))])?);
    Ok(())
}
