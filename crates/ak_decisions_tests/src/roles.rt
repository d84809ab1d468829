use crate::build::all_up;
use crate::decision::{Case, EVERYBODY, OTHERS, OWN, goes_so};
use ak_settings::Strategy;
use std::test::Fail;

const ONE: Strategy = Strategy::StaticQuorum(1);

const TWO: Strategy = Strategy::StaticQuorum(2);

const MAJORITY: Strategy = Strategy::KeepMajority;

const NOBODY: Strategy = Strategy::DownAll;

// What is decided among the five Up members a to e.
static CASES: [Case; 15] = [
    (TWO, b"abc", b'a', b"bc", OWN, b"ade"),
    (TWO, b"abc", b'd', b"bc", OWN, b"ade"),
    (TWO, b"abc", b'b', b"ade", OTHERS, b"ade"),
    // The order of the role tells nothing, nor does an address in it at which nobody is.
    (TWO, b"zcba", b'b', b"ade", OTHERS, b"ade"),
    // Twice the quorum has the role.
    (TWO, b"abcd", b'a', b"b", EVERYBODY, b"abcde"),
    // The lesser side has all that have the role.
    (ONE, b"e", b'a', b"e", OWN, b"abcd"),
    (ONE, b"e", b'e', b"abcd", OTHERS, b"abcd"),
    (MAJORITY, b"de", b'a', b"de", OWN, b"abc"),
    (MAJORITY, b"de", b'd', b"abc", OTHERS, b"abc"),
    // Of the two that have it one is on each side; b is the first of them.
    (MAJORITY, b"bc", b'a', b"bd", OWN, b"ace"),
    (MAJORITY, b"bc", b'b', b"ace", OTHERS, b"ace"),
    // Nobody has it.
    (ONE, b"z", b'a', b"b", OWN, b"acde"),
    (MAJORITY, b"z", b'a', b"b", OWN, b"acde"),
    (NOBODY, b"z", b'a', b"b", EVERYBODY, b"abcde"),
    (NOBODY, b"a", b'b', b"c", EVERYBODY, b"abcde"),
];

#[test]
fn members_with_the_role_decide(rt: HostRuntime) -> Result<(), Fail> {
    let members = all_up(rt.alloc(), b"abcde")?;
    for (index, case) in CASES.iter().enumerate() {
        assert!(rt; goes_so(rt.alloc(), &members, case)?, "{index}");
    }
    Ok(())
}
