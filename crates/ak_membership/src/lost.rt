ghost use Rattle.std.specs.Prelude.{◌≡◌, slice_get, option_to_list};
ghost use Rattle.std.specs.List.{list_any};
ghost use Rattle.std.specs.FinMap as map;
ghost use Rattle.ak_downing.specs.Sides.{seen_with};
ghost use Rattle.ak_member.specs.Age.{counts};
ghost use Rattle.ak_member.specs.Standing.{member_pairs};
ghost use Rattle.ak_reach.specs.Unreachable.{unreachable_members};
ghost use Rattle.ak_membership.specs.Tick as ticks;

use ak_address::Unique;
use ak_member::Members;
use ak_reach::{Rows, is_unreachable};

// At a pair stands a member that counts.
fn counts_at(members: &Members, pair: usize) -> bool
    ensures { result ≡ list_any (λ m. counts m.1.0) (member_pairs (option_to_list (slice_get (map.entries members.now) pair))) }
{
    match members.member_at_pair(pair) {
        Some(member) => member.status.counts(),
        None => false,
    }
}

/// Whether some member counts. Takes no memory.
pub(crate) fn some_counts(members: &Members) -> bool
    ensures { result ≡ ticks.some_counts members.now }
{
    'pairs: for pair in 0..members.uniques() {
        if counts_at(members, pair) {
            return true;
        }
    }
    false
}

// At a pair stands another member, unreachable and not Down.
fn is_lost_at(members: &Members, rows: &Rows, me: &Unique, pair: usize) -> bool
    ensures { result ≡ list_any (ticks.is_lost (unreachable_members (seen_with members.now rows.now)) me.now) (member_pairs (option_to_list (slice_get (map.entries members.now) pair))) }
{
    match members.member_at_pair(pair) {
        Some(member) => {
            !member.unique.is(me)
                && is_unreachable(members, rows, member.unique)
                && !member.status.is_down()
        }
        None => false,
    }
}

/// Whether another member is unreachable and not Down. Takes no memory.
pub(crate) fn has_lost(members: &Members, rows: &Rows, me: &Unique) -> bool
    ensures { result ≡ list_any (ticks.is_lost (unreachable_members (seen_with members.now rows.now)) me.now) (member_pairs (map.entries members.now)) }
{
    'pairs: for pair in 0..members.uniques() {
        if is_lost_at(members, rows, me, pair) {
            return true;
        }
    }
    false
}
