ghost use Rattle.std.specs.Prelude.{◌≡◌, ◌<◌, ◌^◌, ℕ, length, slice_get, option_map, option_copied, option_to_list};
ghost use Rattle.std.specs.List.{filter};
ghost use Rattle.std.specs.FinMap as map;
ghost use Rattle.ak_member.specs.Standing.{member_pairs, members_of};
ghost use Rattle.ak_address.specs.Unique.{UniqueModel};
ghost use Rattle.ak_member.specs.Age.{least_pair, role_pairs};
ghost use Rattle.ak_downing.specs.Oldest.{older_of};
ghost use Rattle.ak_reach.specs.Unreachable.{unreachable_members};
ghost use Rattle.ak_downing.specs.Downing.{is_beside, counted_beside, counted_apart, reachable_addresses};
ghost use Rattle.ak_downing.specs.Sides.{seen_with};

use ak_address::{Address, AddressCount, Unique};
use ak_member::Members;
use ak_reach::{Rows, is_unreachable};

/// How many different addresses with the role have an Up or Leaving member that is reachable or is the node itself: what it
/// counts against the quorum (Akka's Split Brain Resolver, "Static Quorum"; that addresses are counted and not processes is
/// this project's choice). Takes no memory.
pub fn reachable_addresses(role: &[Address], members: &Members, rows: &Rows, me: &Unique) -> u32
    requires { map.len members.now < 2 ^ 32 }
    ensures { result ≡ reachable_addresses role.now (seen_with members.now rows.now) me.now }
{
    let mut addresses = AddressCount::none();
    'pairs: for pair in 0..members.uniques() {
        if let Some((unique, _)) = beside_at_pair(role, members, rows, me, pair) {
            addresses.add(unique);
        }
    }
    addresses.count()
}

// The process and the up number of the member at a pair, where there is one, it counts with the role, and it is on the node's side.
fn beside_at_pair<'a>(
    role: &[Address],
    members: &'a Members,
    rows: &Rows,
    me: &Unique,
    pair: usize,
) -> Option<(&'a Unique, u64)>
    ensures { option_to_list (option_map (λ r. (r.0.now, r.1)) result) ≡ filter (λ pair. is_beside (unreachable_members (seen_with members.now rows.now)) me.now pair.0) (role_pairs role.now (member_pairs (option_to_list (slice_get (map.entries members.now) pair)))) }
{
    match members.role_at_pair(role, pair) {
        Some((unique, number)) => {
            if is_beside(members, rows, me, unique) {
                return Some((unique, number));
            }
            None
        }
        None => None,
    }
}

// Whether the process is the node, or reachable.
pub(crate) fn is_beside(members: &Members, rows: &Rows, me: &Unique, who: &Unique) -> bool
    ensures { result ≡ is_beside (unreachable_members (seen_with members.now rows.now)) me.now who.now }
{
    who.is(me) || !is_unreachable(members, rows, who)
}

// How many counted members with the role are on the side of the node, and how many are not.
pub(crate) fn sizes(role: &[Address], members: &Members, rows: &Rows, me: &Unique) -> (usize, usize)
    ensures beside { result.0 ≡ length (counted_beside role.now (seen_with members.now rows.now) me.now) }
    ensures others { result.1 ≡ length (counted_apart role.now (seen_with members.now rows.now) me.now) }
{
    let mut beside = 0;
    let mut others = 0;
    'pairs: for pair in 0..members.uniques() {
        if let Some((unique, _)) = members.role_at_pair(role, pair) {
            if is_beside(members, rows, me, unique) {
                beside += 1;
            } else {
                others += 1;
            }
        }
    }
    (beside, others)
}

// The first counted member with the role.
pub(crate) fn first_counted<'a>(role: &[Address], members: &'a Members) -> Option<&'a Unique>
    ensures { option_copied result ≡ option_map (λ pair. pair.0) (slice_get (role_pairs role.now (members_of members.now)) 0) }
{
    'pairs: for pair in 0..members.uniques() {
        if let Some((unique, _)) = members.role_at_pair(role, pair) {
            return Some(unique);
        }
    }
    None
}

// The oldest counted member with the role: the first of those with the least up number.
pub(crate) fn oldest_counted<'a>(role: &[Address], members: &'a Members) -> Option<&'a Unique>
    ensures { option_copied result ≡ option_map (λ pair. pair.0) (least_pair (role_pairs role.now (members_of members.now))) }
{
    let mut oldest = None;
    'pairs: for pair in 0..members.uniques() {
        if let Some(next) = members.role_at_pair(role, pair) {
            oldest = Some(older(oldest, next));
        }
    }
    match oldest {
        Some((unique, _)) => Some(unique),
        None => None,
    }
}

// The one with the lesser number, at equal numbers the one that came before.
fn older<'a>(oldest: Option<(&'a Unique, u64)>, next: (&'a Unique, u64)) -> (&'a Unique, u64)
    ensures { ◌≡◌ {A = UniqueModel × ℕ} (result.0.now, result.1) (older_of (option_map (λ r. (r.0.now, r.1)) oldest.entry) (next.entry.0.now, next.entry.1)) }
{
    match oldest {
        Some((unique, number)) => {
            if next.1 < number {
                return next;
            }
            (unique, number)
        }
        None => next,
    }
}
