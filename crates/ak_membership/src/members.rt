ghost use Rattle.std.specs.Prelude.{◌≡◌, ◌≢◌, ◌<◌, ◌^◌, List, [], IfOk, OnErr, slice_get, option_copied, option_map, option_to_list};
ghost use Rattle.std.specs.Prelude as list;
ghost use Rattle.std.specs.FinMap as map;
ghost use Rattle.std.specs.List.{filter, list_any};
ghost use Rattle.ak_address.specs.Distinct.{distinct};
ghost use Rattle.ak_address.specs.Unique.{AddressModel};
ghost use Rattle.ak_gossip.specs.Gossip as gossip;
ghost use Rattle.ak_member.specs.Age.{has_role};
ghost use Rattle.ak_member.specs.Standing as standing;
ghost use Rattle.ak_member.specs.Standing.{member_pairs};
ghost use Rattle.ak_member.specs.declared.effect.Effect.TheVariants.{Rise};
ghost use Rattle.ak_member.specs.declared.status.Status.TheVariants as status;
ghost use Rattle.ak_downing.specs.Downing.{all_downed};
ghost use Rattle.ak_sight.specs.Counted.{roles_among};
ghost use Rattle.ak_membership.specs.Membership as rules;
ghost use Rattle.ak_membership.specs.Tick as ticks;

use ak_address::{AddressCount, Unique};
use ak_member::{Effect, Effects, Members, Status};
use ak_sight::KeptTally;
use std::alloc::{AllocError, Global};

// The process is a member or a tombstone.
pub(crate) fn is_known(members: &Members, who: &Unique) -> bool
    ensures { result ≡ gossip.is_known members.now who.now }
{
    members.get(who).is_some() || members.tombstone(who).is_some()
}

// The process is a member that is Down.
pub(crate) fn is_down(members: &Members, who: &Unique) -> bool
    ensures { result ≡ standing.is_member_with standing.is_down members.now who.now }
{
    match members.get(who) {
        Some(member) => member.status.is_down(),
        None => false,
    }
}

// The process is a member that is Joining.
pub(crate) fn is_joining(members: &Members, who: &Unique) -> bool
    ensures { result ≡ standing.is_member_with standing.is_joining members.now who.now }
{
    match members.get(who) {
        Some(member) => member.status.is_joining(),
        None => false,
    }
}

fn is_beside(who: &Unique, other: &Unique) -> bool
    ensures { result ≡ rules.is_beside who.now other.now }
{
    other.address.is(&who.address)
}

// At a pair stands a member at the address of this process.
fn is_member_beside(who: &Unique, members: &Members, pair: usize) -> bool
    ensures { result ≡ list_any (λ m. rules.is_beside who.now m.0) (member_pairs (option_to_list (slice_get (map.entries members.now) pair))) }
{
    match members.member_at_pair(pair) {
        Some(member) => is_beside(who, member.unique),
        None => false,
    }
}

// Another member is at the address of this process.
pub(crate) fn has_member_beside(who: &Unique, members: &Members) -> bool
    ensures { result ≡ rules.has_member_beside who.now members.now }
{
    'pairs: for pair in 0..members.uniques() {
        if is_member_beside(who, members, pair) {
            return true;
        }
    }
    false
}

// The member at a pair, where it is at the address of this process and not Down.
fn replaced_at<'a>(who: &Unique, members: &'a Members, pair: usize) -> Option<&'a Unique>
    ensures { list.map (λ one. Rise one status.Down 0) (option_to_list (option_copied result)) ≡ all_downed (rules.is_beside who.now) (member_pairs (option_to_list (slice_get (map.entries members.now) pair))) }
{
    match members.member_at_pair(pair) {
        Some(member) => {
            if is_beside(who, member.unique) && !member.status.is_down() {
                return Some(member.unique);
            }
            None
        }
        None => None,
    }
}

// The members at the address of this process go Down, those that are not.
pub(crate) fn downed_beside(
    alloc: Global,
    who: &Unique,
    members: &Members,
) -> Result<Effects, AllocError>
    ensures ok { IfOk result (λ effects. effects ≡ rules.replaced who.now members.now) }
    ensures memory { OnErr result (rules.replaced who.now members.now ≢ []) }
{
    let mut effects = Effects::empty(alloc);
    'pairs: for pair in 0..members.uniques() {
        if let Some(unique) = replaced_at(who, members, pair) {
            effects.push(Effect::Rise(unique.copy(alloc)?, Status::Down, 0))?;
        }
    }
    Ok(effects)
}

// The process and the number of the member at a pair, where there is a Joining one whose address has the role.
fn joining_at<'a>(tally: &KeptTally, members: &'a Members, pair: usize) -> Option<(&'a Unique, u64)>
    ensures { (role : List AddressModel) → tally.now.roles ≡ roles_among role (map.entries members.now) → option_to_list (option_map (λ r. (r.0.now, r.1)) result) ≡ filter (has_role role) (ticks.joining_pairs (member_pairs (option_to_list (slice_get (map.entries members.now) pair)))) }
{
    match members.member_at_pair(pair) {
        Some(member) => {
            if member.status.is_joining() && tally.has_role_at(pair) {
                return Some((member.unique, member.up_number));
            }
            None
        }
        None => None,
    }
}

// How many different addresses with the role the Joining members have, where the tally is one of these members.
pub(crate) fn joining_addresses(tally: &KeptTally, members: &Members) -> u32
    requires { map.len members.now < 2 ^ 32 }
    ensures { (role : List AddressModel) → tally.now.roles ≡ roles_among role (map.entries members.now) → result ≡ distinct (ticks.joining_addresses role members.now) }
{
    let mut addresses = AddressCount::none();
    'pairs: for pair in 0..members.uniques() {
        if let Some((unique, _)) = joining_at(tally, members, pair) {
            addresses.add(unique);
        }
    }
    addresses.count()
}
