use crate::build::{members_of, stand_letter};
use crate::decision::{Case, OTHERS, OWN, goes_so};
use ak_member::{Members, Standing, Status};
use ak_settings::Strategy;
use std::alloc::Global;
use std::test::Fail;

// An oldest that is alone gives way.
const ON: Strategy = Strategy::KeepOldest(true);

const OFF: Strategy = Strategy::KeepOldest(false);

const ALL: &[u8] = b"abcde";

// With this up number an Up member, with 0 a Joining one.
fn numbered(number: u64) -> Standing {
    if number == 0 {
        return Standing::Member(Status::Joining, 0);
    }
    Standing::Member(Status::Up, number)
}

// The members a, b and so on with these numbers, five at most.
fn members_with(alloc: Global, numbers: &[u64]) -> Result<Members, Fail> {
    let mut members = Members::empty(alloc);
    'letters: for (&letter, &number) in ALL.iter().zip(numbers.iter()) {
        stand_letter(alloc, &mut members, letter, numbered(number))?;
    }
    Ok(members)
}

fn goes_with(alloc: Global, numbers: &[u64], case: &Case) -> Result<bool, Fail> {
    let members = members_with(alloc, numbers)?;
    goes_so(alloc, &members, case)
}

// What is decided among the Up members a to e, in the order in which they came Up.
static IN_ORDER: [Case; 8] = [
    (ON, ALL, b'a', b"bcde", OWN, b"a"),
    (ON, ALL, b'b', b"a", OTHERS, b"a"),
    (OFF, ALL, b'a', b"bcde", OTHERS, b"bcde"),
    (OFF, ALL, b'b', b"a", OWN, b"bcde"),
    (ON, ALL, b'c', b"ab", OWN, b"cde"),
    (OFF, ALL, b'c', b"ab", OWN, b"cde"),
    (ON, ALL, b'b', b"cde", OTHERS, b"cde"),
    (OFF, ALL, b'b', b"cde", OTHERS, b"cde"),
];

#[test]
fn the_side_of_the_oldest_goes_on(rt: HostRuntime) -> Result<(), Fail> {
    for (index, case) in IN_ORDER.iter().enumerate() {
        assert!(rt; goes_with(rt.alloc(), &[1, 2, 3, 4, 5], case)?, "{index}");
    }
    Ok(())
}

// The numbers of a, b and so on, and what is decided among them.
static BY_NUMBER: [(&[u64], Case); 10] = [
    // d came Up first.
    (&[5, 2, 3, 1, 4], (OFF, ALL, b'a', b"de", OWN, b"abc")),
    (&[5, 2, 3, 1, 4], (OFF, ALL, b'd', b"abc", OTHERS, b"abc")),
    (&[5, 2, 3, 1, 4], (ON, ALL, b'd', b"abce", OWN, b"d")),
    // At equal numbers it is the first process.
    (&[7, 2, 2, 9, 9], (OFF, ALL, b'b', b"c", OTHERS, b"c")),
    (&[7, 2, 2, 9, 9], (OFF, ALL, b'c', b"b", OWN, b"acde")),
    // Of two, each is alone, and the oldest gives way.
    (&[1, 2], (ON, ALL, b'a', b"b", OWN, b"a")),
    (&[1, 2], (ON, ALL, b'b', b"a", OTHERS, b"a")),
    // Who is Joining is neither the oldest, nor somebody to whom it gives way.
    (&[1, 0], (ON, ALL, b'a', b"b", OTHERS, b"b")),
    (&[0, 1], (OFF, ALL, b'a', b"b", OWN, b"a")),
    (&[0, 0], (OFF, ALL, b'a', b"b", OWN, b"a")),
];

#[test]
fn the_least_number_is_the_oldest(rt: HostRuntime) -> Result<(), Fail> {
    for (index, (numbers, case)) in BY_NUMBER.iter().enumerate() {
        assert!(rt; goes_with(rt.alloc(), numbers, case)?, "{index}");
    }
    Ok(())
}

// The same with a role.
static BY_ROLE: [(&[u64], Case); 12] = [
    // a is alone of those that have the role, though it reaches c, d and e.
    (&[1, 2, 3, 4, 5], (ON, b"ab", b'a', b"b", OWN, b"acde")),
    (&[1, 2, 3, 4, 5], (OFF, b"ab", b'a', b"b", OTHERS, b"b")),
    (
        &[1, 2, 3, 4, 5],
        (ON, b"ab", b'b', b"acde", OTHERS, b"acde"),
    ),
    (&[1, 2, 3, 4, 5], (OFF, b"ab", b'b', b"acde", OWN, b"b")),
    // The node reaches nobody that has the role, so nobody takes over from b, which is alone.
    (&[1, 2, 3, 4, 5], (ON, b"b", b'c', b"b", OWN, b"acde")),
    (&[1, 2, 3, 4, 5], (ON, b"b", b'b', b"acde", OTHERS, b"acde")),
    (&[1, 2, 3, 4, 5], (ON, b"ab", b'c', b"ab", OWN, b"cde")),
    // d is the oldest of c and d.
    (&[1, 1, 3, 2, 4], (OFF, b"cd", b'd', b"abc", OTHERS, b"abc")),
    (&[1, 1, 3, 2, 4], (ON, b"cd", b'd', b"abc", OWN, b"de")),
    (&[1, 1, 3, 2, 4], (OFF, b"cd", b'c', b"d", OWN, b"abce")),
    // Nobody has it.
    (&[1, 2], (ON, b"e", b'a', b"b", OWN, b"a")),
    (&[1, 2], (OFF, b"e", b'a', b"b", OWN, b"a")),
];

#[test]
fn the_oldest_has_the_role(rt: HostRuntime) -> Result<(), Fail> {
    for (index, (numbers, case)) in BY_ROLE.iter().enumerate() {
        assert!(rt; goes_with(rt.alloc(), numbers, case)?, "{index}");
    }
    Ok(())
}

// b, which leaves, is the oldest that counts.
static STANDINGS: [Standing; 5] = [
    Standing::Member(Status::Exiting, 1),
    Standing::Member(Status::Leaving, 2),
    Standing::Member(Status::Up, 3),
    Standing::Member(Status::WeaklyUp, 0),
    Standing::Member(Status::Down, 1),
];

static BY_STATUS: [Case; 4] = [
    (OFF, ALL, b'b', b"c", OTHERS, b"c"),
    (ON, ALL, b'b', b"c", OWN, b"abd"),
    (OFF, ALL, b'c', b"b", OWN, b"acd"),
    (ON, ALL, b'c', b"ade", OTHERS, b"ad"),
];

#[test]
fn the_oldest_is_up_or_leaving(rt: HostRuntime) -> Result<(), Fail> {
    let members = members_of(rt.alloc(), ALL, &STANDINGS)?;
    for (index, case) in BY_STATUS.iter().enumerate() {
        assert!(rt; goes_so(rt.alloc(), &members, case)?, "{index}");
    }
    Ok(())
}
