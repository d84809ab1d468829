ghost use Rattle.std.specs.Prelude.{◌≡◌, IsTrue, length, slice_get, option_copied, option_to_list};
ghost use Rattle.std.specs.FinMap as map;
ghost use Rattle.ak_member.specs.Standing.{is_member};
ghost use Rattle.ak_select.specs.Select.{is_reachable_other, chosen, peer};
ghost use Rattle.ak_select.specs.Walk.{is_passed_over, candidates_among};

use ak_address::{Unique, Uniques};
use ak_member::Members;
use ak_reach::{Rows, is_observed};

/// To whom the node gossips: of the other reachable members those that are not in the seen set, or all of them where each
/// is, are the candidates, and the answer is the one at the index that is the rest of the word by their number, in the
/// order of processes. None exactly where no other member is reachable (Akka's Cluster Specification, "Gossip"; that a
/// word chooses is this project's choice). Takes no memory.
pub fn peer<'a>(
    word: u32,
    members: &'a Members,
    rows: &Rows,
    seen: &Uniques,
    me: &Unique,
) -> Option<&'a Unique>
    ensures { option_copied result ≡ peer word (record { standings = members.now; rows = rows.now }) seen.now me.now }
{
    match chosen(word, members, rows, Some(seen), me) {
        Some(who) => Some(who),
        None => chosen(word, members, rows, None, me),
    }
}

// The one that the word chooses of the other reachable members, those in the set passed over.
fn chosen<'a>(
    word: u32,
    members: &'a Members,
    rows: &Rows,
    seen: Option<&Uniques>,
    me: &Unique,
) -> Option<&'a Unique>
    ensures { option_copied result ≡ chosen word (candidates_among (record { standings = members.now; rows = rows.now }) me.now (option_copied seen.entry) (map.entries members.now)) }
{
    let count = count(members, rows, seen, me);
    if count == 0 {
        return None;
    }
    candidate(word as usize % count, members, rows, seen, me)
}

fn count(members: &Members, rows: &Rows, seen: Option<&Uniques>, me: &Unique) -> usize
    ensures { result ≡ length (candidates_among (record { standings = members.now; rows = rows.now }) me.now (option_copied seen.entry) (map.entries members.now)) }
{
    let mut count = 0;
    'pairs: for pair in 0..members.uniques() {
        if candidate_at_pair(members, rows, seen, me, pair).is_some() {
            count += 1;
        }
    }
    count
}

fn candidate<'a>(
    index: usize,
    members: &'a Members,
    rows: &Rows,
    seen: Option<&Uniques>,
    me: &Unique,
) -> Option<&'a Unique>
    ensures { option_copied result ≡ slice_get (candidates_among (record { standings = members.now; rows = rows.now }) me.now (option_copied seen.entry) (map.entries members.now)) index }
{
    let mut left = index;
    'pairs: for pair in 0..members.uniques() {
        let found = candidate_at_pair(members, rows, seen, me, pair);
        if found.is_some() {
            if left == 0 {
                return found;
            }
            left -= 1;
        }
    }
    None
}

// The candidate at a pair, where there is one.
fn candidate_at_pair<'a>(
    members: &'a Members,
    rows: &Rows,
    seen: Option<&Uniques>,
    me: &Unique,
    pair: usize,
) -> Option<&'a Unique>
    ensures { option_to_list (option_copied result) ≡ candidates_among (record { standings = members.now; rows = rows.now }) me.now (option_copied seen.entry) (option_to_list (slice_get (map.entries members.now) pair)) }
{
    match members.member_at_pair(pair) {
        Some(member) => {
            // The set is asked first: the rows of observers are walked only for whoever is left.
            if !is_passed_over(seen, member.unique)
                && is_reachable_other(members, rows, me, member.unique)
            {
                return Some(member.unique);
            }
            None
        }
        None => None,
    }
}

// A member is another one, and reachable.
fn is_reachable_other(members: &Members, rows: &Rows, me: &Unique, who: &Unique) -> bool
    ensures { IsTrue (is_member members.now who.now) → result ≡ is_reachable_other (record { standings = members.now; rows = rows.now }) me.now who.now }
{
    !who.is(me) && !is_observed(members, rows, who)
}

fn is_passed_over(seen: Option<&Uniques>, who: &Unique) -> bool
    ensures { result ≡ is_passed_over (option_copied seen.entry) who.now }
{
    match seen {
        Some(seen) => seen.contains(who),
        None => false,
    }
}
