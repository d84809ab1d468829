// What a node decides of the others, and whom it downs then.
use crate::build::{addresses_of, letter, process, set_of};
use ak_address::{Address, Unique};
use ak_downing::{Decision, decide, downs};
use ak_member::{Effect, Effects, Members, Status};
use ak_reach::Rows;
use ak_settings::Strategy;
use std::alloc::Global;
use std::test::Fail;

// A strategy, the hosts whose port 1 has the role, the node, whom it finds unreachable, what it decides, and whom it downs.
pub(crate) type Case = (
    Strategy,
    &'static [u8],
    u8,
    &'static [u8],
    Decision,
    &'static [u8],
);

// Whom a decision downs: the own side, the others, or everybody.
pub(crate) const OWN: Decision = Decision::DownReachable;

pub(crate) const OTHERS: Decision = Decision::DownUnreachable;

pub(crate) const EVERYBODY: Decision = Decision::DownAll;

// Whose status the effect raises to Down, by the first letter; 0 for another effect, and for none.
pub(crate) fn downed(effect: Option<&Effect>) -> u8 {
    match effect {
        Some(Effect::Rise(who, Status::Down, 0)) => letter(Some(who)),
        _ => 0,
    }
}

// Whether the effects raise these to Down, in this order, and are no more.
fn are_downed(effects: &Effects, letters: &[u8]) -> bool {
    for (index, &wanted) in letters.iter().enumerate() {
        if downed(effects.at(index)) != wanted {
            return false;
        }
    }
    effects.len() == letters.len()
}

fn decides_so(
    alloc: Global,
    case: &Case,
    role: &[Address],
    members: &Members,
    rows: &Rows,
    me: &Unique,
) -> Result<bool, Fail> {
    if members.uniques() >= 100 {
        return Ok(false);
    }
    let decision = decide(&case.0, role, members, rows, me);
    let effects = downs(alloc, decision, members, rows, me)?;
    Ok(decision == case.4 && are_downed(&effects, case.5))
}

// The one row that there is: this observer's.
fn row_of(alloc: Global, observer: &Unique, lost: &[u8]) -> Result<Rows, Fail> {
    let mut rows = Rows::empty(alloc);
    rows.set_row(alloc, observer, 1, &set_of(alloc, lost)?)?;
    Ok(rows)
}

// Whether the case goes so where these are the members.
pub(crate) fn goes_so(alloc: Global, members: &Members, case: &Case) -> Result<bool, Fail> {
    let role = addresses_of(alloc, case.1)?;
    let me = process(alloc, case.2)?;
    let rows = row_of(alloc, &me, case.3)?;
    decides_so(alloc, case, &role, members, &rows, &me)
}
