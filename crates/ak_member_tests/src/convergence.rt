use crate::build::{Known, Seen, addresses_of, members_of, rows_of, set_of};
use ak_address::{Address, Uniques};
use ak_converge::{converged, settled_by};
use ak_member::{Members, Standing, Status};
use ak_reach::Rows;
use std::alloc::Global;
use std::test::Fail;

// One member of each status, and a second Up one at the address of the first.
static MEMBERS: [Known; 8] = [
    ("a:1#1", Standing::Member(Status::Up, 0)),
    ("a:1#2", Standing::Member(Status::Up, 0)),
    ("b:1#1", Standing::Member(Status::Leaving, 0)),
    ("c:1#1", Standing::Member(Status::Joining, 0)),
    ("d:1#1", Standing::Member(Status::Exiting, 0)),
    ("e:1#1", Standing::Member(Status::Down, 0)),
    ("f:1#1", Standing::Buried(true)),
    ("g:1#1", Standing::Member(Status::WeaklyUp, 0)),
];

// Their addresses.
static EVERYWHERE: [&str; 7] = ["a:1", "b:1", "c:1", "d:1", "e:1", "f:1", "g:1"];

// Whether those who have seen are enough, and whether the view is then settled by 1, by 2 and by 3 addresses with the role.
type Answers = (bool, [bool; 3]);

fn answers_over(role: &[Address], members: &Members, rows: &Rows, seen: &Uniques) -> Answers {
    if members.uniques() > 100 {
        return (false, [false; 3]);
    }
    let all = converged(members, rows, seen);
    let by_one = settled_by(1, role, members, rows, seen);
    let by_two = settled_by(2, role, members, rows, seen);
    let by_three = settled_by(3, role, members, rows, seen);
    (all, [by_one, by_two, by_three])
}

fn answers_of(
    alloc: Global,
    role: &[Address],
    rows: &Rows,
    seen: &Uniques,
) -> Result<Answers, Fail> {
    let members = members_of(alloc, &MEMBERS)?;
    Ok(answers_over(role, &members, rows, seen))
}

// The same where these addresses have the role, these have seen and there is this row.
fn answers(alloc: Global, role: &[&str], seen: &[&str], row: Seen) -> Result<Answers, Fail> {
    let role = addresses_of(alloc, role)?;
    let rows = rows_of(alloc, &[row])?;
    let seen = set_of(alloc, seen)?;
    answers_of(alloc, &role, &rows, &seen)
}

// The members that are Up or Leaving.
static COUNTED: [&str; 3] = ["a:1#1", "a:1#2", "b:1#1"];

// A row in which no member stands.
const NO_MEMBER: Seen = ("a:1#1", 1, "f:1#1");

// Who has seen, and whether they are enough.
static WHO_SAW: [([&str; 3], bool); 3] = [
    (["a:1#1", "a:1#2", "b:1#1"], true),
    (["a:1#1", "a:1#2", "c:1#1"], false),
    (["a:1#1", "b:1#1", "c:1#1"], false),
];

#[test]
fn who_must_have_seen(rt: HostRuntime) -> Result<(), Fail> {
    for (seen, wanted) in &WHO_SAW {
        let answers = answers(rt.alloc(), &EVERYWHERE, seen, NO_MEMBER)?;
        assert!(rt; answers == (*wanted, [*wanted, *wanted, false]));
    }
    Ok(())
}

// A row, and whether they agree in spite of it.
static WHO_IS_UNREACHABLE: [(Seen, bool); 7] = [
    (("a:1#1", 1, "b:1#1"), false),
    (("d:1#1", 1, "c:1#1"), false),
    (("a:1#1", 1, "g:1#1"), false),
    (("g:1#1", 1, "b:1#1"), false),
    (("e:1#1", 1, "b:1#1"), true),
    (("a:1#1", 1, "d:1#1"), true),
    (("a:1#1", 1, "e:1#1"), true),
];

#[test]
fn who_may_be_unreachable(rt: HostRuntime) -> Result<(), Fail> {
    for (row, wanted) in &WHO_IS_UNREACHABLE {
        let answers = answers(rt.alloc(), &EVERYWHERE, &COUNTED, *row)?;
        assert!(rt; answers == (*wanted, [*wanted, *wanted, false]));
    }
    Ok(())
}

// The role, and whether 1, 2 and 3 addresses with it settle the view that all counted members have seen.
static ROLES: [(&[&str], [bool; 3]); 7] = [
    (&["b:1", "a:1"], [true, true, false]),
    // Two processes at one address.
    (&["a:1"], [true, false, false]),
    (&["b:1"], [true, false, false]),
    // Of these b alone is Up or Leaving.
    (
        &["b:1", "c:1", "d:1", "e:1", "f:1", "g:1"],
        [true, false, false],
    ),
    (&["c:1", "d:1", "g:1"], [false; 3]),
    // Another port of the same host, and an address where nobody is.
    (&["a:2", "x:1"], [false; 3]),
    (&[], [false; 3]),
];

#[test]
fn addresses_with_the_role_settle_a_view(rt: HostRuntime) -> Result<(), Fail> {
    for (role, wanted) in &ROLES {
        let answers = answers(rt.alloc(), role, &COUNTED, NO_MEMBER)?;
        assert!(rt; answers == (true, *wanted), "{role:?}");
    }
    Ok(())
}

// Who has seen, and a row: b, at whose address the role is not, has not seen, or is unreachable.
static WITHOUT_ROLE: [(&[&str], Seen); 2] = [
    (&["a:1#1", "a:1#2"], NO_MEMBER),
    (&["a:1#1", "a:1#2", "b:1#1"], ("a:1#1", 1, "b:1#1")),
];

#[test]
fn members_without_the_role_must_agree(rt: HostRuntime) -> Result<(), Fail> {
    for (seen, row) in &WITHOUT_ROLE {
        let answers = answers(rt.alloc(), &["a:1"], seen, *row)?;
        assert!(rt; answers == (false, [false; 3]));
    }
    Ok(())
}
