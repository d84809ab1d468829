use crate::build::{Known, Seen, members_of, rows_of};
use ak_address::parse_unique;
use ak_member::{Members, Standing, Status};
use ak_reach::{Rows, is_unreachable, unreachable_members};
use std::alloc::Global;
use std::test::Fail;

// Whether the process is unreachable, and is in the set of those that are, as wanted.
fn found(
    alloc: Global,
    members: &Members,
    rows: &Rows,
    text: &str,
    wanted: bool,
) -> Result<bool, Fail> {
    let who = parse_unique(alloc, text.as_bytes())?;
    let them = unreachable_members(alloc, members, rows)?;
    Ok(is_unreachable(members, rows, &who) == wanted && them.contains(&who) == wanted)
}

static MEMBERS: [Known; 5] = [
    ("a:1#1", Standing::Member(Status::Up, 0)),
    ("b:1#1", Standing::Member(Status::Down, 0)),
    ("c:1#1", Standing::Member(Status::Leaving, 0)),
    ("d:1#1", Standing::Member(Status::Up, 0)),
    ("e:1#1", Standing::Member(Status::Exiting, 0)),
];

static ROWS: [Seen; 3] = [
    ("a:1#1", 1, "c:1#1"),
    ("b:1#1", 1, "d:1#1"),
    ("e:1#1", 1, "x:1#1"),
];

// Who is looked for, and whether it is unreachable.
static FOUND: [(&str, bool); 4] = [
    ("a:1#1", false),
    ("c:1#1", true),
    ("d:1#1", false),
    ("x:1#1", false),
];

fn all_found(alloc: Global, members: &Members, rows: &Rows) -> Result<bool, Fail> {
    'cases: for (text, wanted) in &FOUND {
        if !found(alloc, members, rows, text, *wanted)? {
            return Ok(false);
        }
    }
    Ok(true)
}

fn are_found(alloc: Global) -> Result<bool, Fail> {
    let members = members_of(alloc, &MEMBERS)?;
    let rows = rows_of(alloc, &ROWS)?;
    all_found(alloc, &members, &rows)
}

// Here a has c in its row, the Down member b has d, and the exiting one e has x, which is no member.
#[test]
fn rows_of_down_members_do_not_count(rt: HostRuntime) -> Result<(), Fail> {
    assert!(rt; are_found(rt.alloc())?);
    Ok(())
}
