ghost use Rattle.std.specs.Prelude.{◌≡◌, ◌||◌, IsTrue, Some, false};
ghost use Rattle.std.specs.FinMap as map;
ghost use Rattle.ak_address.specs.Uniques.{has};
ghost use Rattle.ak_member.specs.Standing.{is_member};
ghost use Rattle.ak_reach.specs.Unreachable.{unreachable_members};
ghost use Rattle.ak_sight.specs.Sight as sights;

use ak_address::Unique;
use ak_gossip::Gossip;
use ak_member::{Standing, Status};
use ak_reach::is_observed;

// What a view shows of a process: its status, and whether it is unreachable; none of one that is no member.
fn sight(gossip: &Gossip, who: &Unique) -> Option<(Status, bool)>
    ensures { result ≡ sights.sight gossip.now.view who.now }
{
    match gossip.members().get(who) {
        Some(member) => {
            let unreachable = is_observed(gossip.members(), gossip.rows(), who);
            Some((member.status, unreachable))
        }
        None => None,
    }
}

fn is_same_reach(one: bool, other: bool) -> bool
    ensures { result ≡ sights.is_same_reach one other }
{
    if one {
        return other;
    }
    !other
}

fn is_same_sight(one: Option<(Status, bool)>, other: Option<(Status, bool)>) -> bool
    ensures { result ≡ sights.is_same_sight one other }
{
    match one {
        Some((status, unreachable)) => match other {
            Some((other_status, other_unreachable)) => {
                status.rank() == other_status.rank()
                    && is_same_reach(unreachable, other_unreachable)
            }
            None => false,
        },
        None => match other {
            Some(_) => false,
            None => true,
        },
    }
}

fn is_otherwise(one: &Gossip, other: &Gossip, who: &Unique) -> bool
    ensures { result ≡ sights.is_otherwise one.now.view other.now.view who.now }
{
    !is_same_sight(sight(one, who), sight(other, who))
}

// At a pair stands a member that the other one shows otherwise.
fn is_otherwise_at(one: &Gossip, other: &Gossip, pair: usize) -> bool
    ensures { result ≡ sights.is_otherwise_at one.now.view other.now.view pair }
{
    match one.members().member_at_pair(pair) {
        Some(member) => is_otherwise(one, other, member.unique),
        None => false,
    }
}

// Some member of the one is shown otherwise by the other.
fn shows_otherwise(one: &Gossip, other: &Gossip) -> bool
    ensures { result ≡ sights.shows_otherwise one.now.view other.now.view }
{
    'pairs: for pair in 0..one.members().uniques() {
        if is_otherwise_at(one, other, pair) {
            return true;
        }
    }
    false
}

// Whether both views show a process alike that stands so in the one, and so in the other.
fn is_shown_alike(
    one: &Gossip,
    other: &Gossip,
    who: &Unique,
    standing: Standing,
    other_standing: Standing,
) -> bool
    ensures { map.get one.now.view.standings who.now ≡ Some standing → map.get other.now.view.standings who.now ≡ Some other_standing → result ≡ sights.is_same_sight (sights.shown one.now.view who.now standing) (sights.shown other.now.view who.now other_standing) }
{
    match standing {
        Standing::Member(status, _) => match other_standing {
            Standing::Member(other_status, _) => {
                if status.rank() == other_status.rank() {
                    return is_reached_alike(one, other, who);
                }
                false
            }
            Standing::Buried(_) => false,
        },
        Standing::Buried(_) => match other_standing {
            Standing::Member(_, _) => false,
            Standing::Buried(_) => true,
        },
    }
}

// Of a member of both.
fn is_reached_alike(one: &Gossip, other: &Gossip, who: &Unique) -> bool
    ensures { IsTrue (is_member one.now.view.standings who.now) → IsTrue (is_member other.now.view.standings who.now) → result ≡ sights.is_same_reach (has (unreachable_members one.now.view) who.now) (has (unreachable_members other.now.view) who.now) }
{
    let unreachable = is_observed(one.members(), one.rows(), who);
    is_same_reach(unreachable, is_observed(other.members(), other.rows(), who))
}

// Both views have the same process at a pair, and show it alike.
fn is_alike_at(one: &Gossip, other: &Gossip, pair: usize) -> bool
    ensures { IsTrue result → (false ≡ sights.is_otherwise_at one.now.view other.now.view pair) × (false ≡ sights.is_otherwise_at other.now.view one.now.view pair) }
{
    match one.members().pair(pair) {
        Some((who, standing)) => match other.members().pair(pair) {
            Some((other_who, other_standing)) => {
                if who.is(other_who) {
                    return is_shown_alike(one, other, who, standing, other_standing);
                }
                false
            }
            None => false,
        },
        None => false,
    }
}

// Both views have the same processes at the same pairs, and show each alike, as is usual. No answer but a yes says anything.
fn are_alike(one: &Gossip, other: &Gossip) -> bool
    ensures { IsTrue result → (false ≡ sights.shows_otherwise one.now.view other.now.view) × (false ≡ sights.shows_otherwise other.now.view one.now.view) }
{
    let pairs = one.members().uniques();
    if pairs != other.members().uniques() {
        return false;
    }
    'pairs: for pair in 0..pairs {
        if !is_alike_at(one, other, pair) {
            return false;
        }
    }
    true
}

// Two views do not show the same members, each with the same status and reachability.
fn has_moved(old: &Gossip, new: &Gossip) -> bool
    ensures { result ≡ sights.has_moved old.now.view new.now.view }
{
    if are_alike(old, new) {
        return false;
    }
    shows_otherwise(old, new) || shows_otherwise(new, old)
}

/// Whether members were shown otherwise before, or are now. Takes no memory.
pub fn moves(moved: bool, old: &Gossip, new: &Gossip) -> bool
    ensures { result ≡ (moved || sights.has_moved old.now.view new.now.view) }
{
    moved || has_moved(old, new)
}
