ghost use Rattle.std.specs.Prelude.{◌≡◌, ◌≢◌, ◌↔◌, ◌-◌, ◌≤◌, [], true, false, IfOk, OnErr, IsTrue, MatchOption, length, min, take, drop, slice_get, option_copied, option_to_list};
ghost use Rattle.std.specs.List.{fold};
ghost use Rattle.std.specs.FinMap as map;
ghost use Rattle.ak_address.specs.Uniques.{no_one, with_one, in_order};
ghost use Rattle.ak_detector.specs.Detector.{watch_ring};
ghost use Rattle.ak_detector.specs.Sides.{Agrees, BeginWith, Differs, names_of, run, side_pairs};

use ak_address::{Unique, Uniques};
use ak_member::{Members, Standing};
use std::alloc::{AllocError, Global};

// A node watches this many members: each is watched by as many, so that it is noticed where some of these are gone too, and what a
// node sends does not grow with the cluster.
const MOST_WATCHED: usize = 5;

/// Whom a node watches: the next five members after it in the order of processes, in which the first comes after the
/// last, or all others where there are fewer; the node need not be a member (Akka's Cluster Specification, "Failure
/// Detector"; that there are five is this project's choice). Only memory can fail, and only where there is another member.
pub fn watch_ring(alloc: Global, me: &Unique, members: &Members) -> Result<Uniques, AllocError>
    ensures ok { IfOk result (λ ring. ring ≡ watch_ring me.now members.now) }
    ensures memory { OnErr result (watch_ring me.now members.now ≢ no_one) }
{
    let mut ring = Uniques::empty(alloc);
    let end = members.uniques();
    let (before, after) = sides(me, members, end);
    let left = add_run(alloc, members, after, end, MOST_WATCHED, &mut ring)?;
    add_run(alloc, members, 0, before, left, &mut ring)?;
    Ok(ring)
}

// Whether these are whom the node watches: in their order, those before the node come first, and then those after it. Takes no
// memory.
pub(crate) fn is_ring(me: &Unique, members: &Members, watched: &Uniques) -> bool
    ensures { IsTrue result ↔ watched.now ≡ watch_ring me.now members.now }
{
    let end = members.uniques();
    let (before, after) = sides(me, members, end);
    let last = count_run(members, after, end, MOST_WATCHED);
    let first = count_run(members, 0, before, MOST_WATCHED - last);
    if watched.len() != first + last {
        return false;
    }
    if !is_run(members, 0, before, watched, first, first) {
        return false;
    }
    is_run(members, after, end, watched, first + last, last)
}

// How many pairs out of so many stand before the node, and from which one on they stand after it.
fn sides(me: &Unique, members: &Members, end: usize) -> (usize, usize)
    requires { end ≡ map.len members.now }
    ensures before { side_pairs false me.now (map.entries members.now) ≡ names_of (take result.0 (map.entries members.now)) }
    ensures after { side_pairs true me.now (map.entries members.now) ≡ names_of (drop result.1 (map.entries members.now)) }
{
    match members.place(me) {
        Ok(place) => (place, place + 1),
        Err(place) => (place, place),
    }
}

// The member at a pair, where there is one.
fn member_at<'a>(members: &'a Members, pair: usize) -> Option<&'a Unique>
    ensures { option_to_list (option_copied result) ≡ names_of (option_to_list (slice_get (map.entries members.now) pair)) }
{
    match members.pair(pair) {
        Some((who, Standing::Member(_, _))) => Some(who),
        Some((_, Standing::Buried(_))) => None,
        None => None,
    }
}

// Adds the first of the members of a run of pairs, as many as are left to add; how many are left then.
fn add_run(
    alloc: Global,
    members: &Members,
    from: usize,
    to: usize,
    most: usize,
    ring: &mut Uniques,
) -> Result<usize, AllocError>
    ensures ok { IfOk result (λ n. (n ≡ most - length (names_of (run from to (map.entries members.now)))) × (ring.new ≡ fold with_one ring.old (take most (names_of (run from to (map.entries members.now)))))) }
    ensures memory { OnErr result (names_of (run from to (map.entries members.now)) ≢ []) }
{
    let mut left = most;
    'pairs: for pair in from..to {
        if left == 0 {
            return Ok(0);
        }
        left = add_next(alloc, member_at(members, pair), left, ring)?;
    }
    Ok(left)
}

// Adds the process, if there is one and one is left to add; how many are left then.
fn add_next(
    alloc: Global,
    who: Option<&Unique>,
    left: usize,
    ring: &mut Uniques,
) -> Result<usize, AllocError>
    ensures ok { IfOk result (λ n. (n ≡ left - length (option_to_list (option_copied who.entry))) × (ring.new ≡ fold with_one ring.old (take left (option_to_list (option_copied who.entry))))) }
    ensures memory { OnErr result (option_to_list (option_copied who.entry) ≢ []) }
{
    match who {
        Some(who) => {
            if left == 0 {
                return Ok(0);
            }
            ring.insert(alloc, who)?;
            Ok(left - 1)
        }
        None => Ok(left),
    }
}

// How many members a run of pairs has, counted up to the most.
fn count_run(members: &Members, from: usize, to: usize, most: usize) -> usize
    ensures { result ≡ min most (length (names_of (run from to (map.entries members.now)))) }
{
    let mut left = most;
    'pairs: for pair in from..to {
        if left == 0 {
            return most;
        }
        left = left_after(member_at(members, pair), left);
    }
    most - left
}

// How many are left to count after this one, if there is one.
fn left_after(who: Option<&Unique>, left: usize) -> usize
    ensures { result ≡ left - length (option_to_list (option_copied who.entry)) }
{
    match who {
        Some(_) => left.saturating_sub(1),
        None => left,
    }
}

// A run of pairs has so many members, and its first are those of the set that stand before the end, as many.
fn is_run(
    members: &Members,
    from: usize,
    to: usize,
    watched: &Uniques,
    end: usize,
    most: usize,
) -> bool
    requires { most ≤ end }
    ensures { IsTrue result ↔ BeginWith most (names_of (run from to (map.entries members.now))) (drop (end - most) (in_order watched.now)) }
{
    let mut left = most;
    'pairs: for pair in from..to {
        if left == 0 {
            return true;
        }
        match next_left(member_at(members, pair), watched, end - left, left) {
            Some(next) => {
                left = next;
            }
            None => return false,
        }
    }
    left == 0
}

// How many are left to find after this one, if there is one; none where the set has another one at the index.
fn next_left(who: Option<&Unique>, watched: &Uniques, index: usize, left: usize) -> Option<usize>
    ensures { MatchOption result (Differs (option_copied who.entry) (slice_get (in_order watched.now) index)) (λ next. Agrees left next (option_copied who.entry) (slice_get (in_order watched.now) index)) }
{
    match who {
        Some(who) => {
            if is_at(watched, index, who) {
                return Some(left.saturating_sub(1));
            }
            None
        }
        None => Some(left),
    }
}

// The process stands at the index of the set.
fn is_at(set: &Uniques, index: usize, who: &Unique) -> bool
    ensures { IsTrue result ↔ slice_get (in_order set.now) index ≡ Some who.now }
{
    match set.at(index) {
        Some(other) => other.is(who),
        None => false,
    }
}
