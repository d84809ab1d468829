//! The tally of what is known, kept when that changes.

ghost use Rattle.std.specs.Prelude.{◌≡◌, ◌≤◌, ◌<◌, ◌∷◌, ◌++◌, ◌&&◌, [], IfOk, IfSome, OnOk, OnErr, IsTrue, List, length, slice_get, option_map, if◌then◌else◌};
ghost use Rattle.std.specs.Prelude as list;
ghost use Rattle.std.specs.FinMap as map;
ghost use Rattle.ak_address.specs.Distinct.{is_among};
ghost use Rattle.ak_address.specs.Unique.{AddressModel};
ghost use Rattle.ak_converge.specs.Tally.{uses_at, uses_of, with_use};
ghost use Rattle.ak_gossip.specs.Gossip.{most_uniques};
ghost use Rattle.ak_member.specs.Age.{role_addresses};
ghost use Rattle.ak_sight.specs.Counted.{mark, nothing_kept, role_or_not, roles_among, is_counted, IsAsReceived, IsSeenMore, IsTallyOf};

use ak_address::{Address, Unique, contains_address};
use ak_converge::Tally;
use ak_gossip::{Gossip, Received};
use ak_member::{Members, Standing};
use std::alloc::{AllocError, Global};
use std::marker::Model;

/// The tally of a gossip, and of each process that is known whether its address has the role: so names are looked for once, when a
/// process becomes known (this project's choice).
#[derive(Drop)]
pub struct KeptTally {
    numbers: Tally,
    roles: Vec<bool>,
}

impl Model for KeptTally {
    ghost use Rattle.ak_sight.specs.Counted.{KeptTallyModel, coded_kept_tally};

    ghost Value = { KeptTallyModel };

    ghost coded = { coded_kept_tally };

    ghost view = { λ t. record { numbers = t.numbers; roles = t.roles.items } };
}

impl KeptTally {
    /// Of a view that knows nobody. Takes no memory.
    pub fn empty(alloc: Global) -> KeptTally
        ensures { result ≡ nothing_kept }
    {
        KeptTally {
            numbers: Tally::empty(alloc),
            roles: Vec::new(alloc),
        }
    }

    /// How far the view is from convergence, and which addresses with the role are in use. Takes no memory.
    pub fn numbers(&self) -> &Tally
        ensures { result.now ≡ self.now.numbers }
    {
        &self.numbers
    }

    /// Whether the address of the process at a pair has the role; false where there is none. Takes no memory.
    pub fn has_role_at(&self, pair: usize) -> bool
        ensures { result ≡ role_or_not (slice_get self.now.roles pair) }
    {
        match self.roles.get(pair) {
            Some(has) => *has,
            None => false,
        }
    }

    // One process more, in the order of processes, that stands so, and whose address has the role or not.
    fn note(
        &mut self,
        alloc: Global,
        who: &Unique,
        standing: Standing,
        has_role: bool,
    ) -> Result<(), AllocError>
        requires few { map.len self.old.numbers.uses < 1000 }
        requires often { uses_at self.old.numbers.uses who.now.address < 1000 }
        ensures uses { OnOk result (self.new.numbers.uses ≡ (if has_role && is_counted standing then with_use self.old.numbers.uses who.now.address else self.old.numbers.uses)) }
        ensures roles { OnOk result (self.new.roles ≡ self.old.roles ++ has_role ∷ []) }
    {
        self.roles.push(has_role)?;
        if has_role && is_counted(standing) {
            self.numbers.enter(alloc, &who.address)?;
        }
        Ok(())
    }
}

// A process that stands so is a member that counts.
fn is_counted(standing: Standing) -> bool
    ensures { result ≡ is_counted standing }
{
    match standing {
        Standing::Member(status, _) => status.counts(),
        Standing::Buried(_) => false,
    }
}

// At a pair both views have a process at one address, which counts in both or in neither.
fn counts_alike_at(one: &Members, other: &Members, pair: usize) -> bool
    ensures { IsTrue result → option_map mark (slice_get (map.entries one.now) pair) ≡ option_map mark (slice_get (map.entries other.now) pair) }
{
    match one.pair(pair) {
        Some((who, standing)) => match other.pair(pair) {
            Some((other_who, other_standing)) => {
                is_counted(standing) == is_counted(other_standing)
                    && who.address.is(&other_who.address)
            }
            None => false,
        },
        None => false,
    }
}

// Both views have processes at the same addresses at the same pairs, and the same of them count, as is usual. No answer but a yes
// says anything.
fn counts_alike(one: &Members, other: &Members) -> bool
    ensures { IsTrue result → list.map mark (map.entries other.now) ≡ list.map mark (map.entries one.now) }
{
    let pairs = one.uniques();
    if pairs != other.uniques() {
        return false;
    }
    'pairs: for pair in 0..pairs {
        if !counts_alike_at(one, other, pair) {
            return false;
        }
    }
    true
}

// The pair of a process that is known.
fn known_pair(members: &Members, who: &Unique) -> Option<usize>
    ensures { IfSome result (λ pair. option_map (λ pair. pair.0) (slice_get (map.entries members.now) pair) ≡ Some who.now) }
{
    let Ok(pair) = members.place(who) else {
        return None;
    };
    let Some((known, _)) = members.pair(pair) else {
        return None;
    };
    if known.is(who) {
        return Some(pair);
    }
    None
}

// Whether the address of a process has the role: as was kept where the process was known, and else its name is looked for.
fn has_role(role: &[Address], old: &Members, roles: &[bool], who: &Unique) -> bool
    requires { roles.now ≡ roles_among role.now (map.entries old.now) }
    ensures { result ≡ is_among role.now who.now.address }
{
    match known_pair(old, who) {
        Some(pair) => roles[pair],
        None => contains_address(role, &who.address),
    }
}

// What is kept of other members than the old ones but for the two counts of members.
fn counted_anew(
    alloc: Global,
    role: &[Address],
    old: &Members,
    roles: &[bool],
    new: &Members,
) -> Result<KeptTally, AllocError>
    requires few { map.len new.now ≤ most_uniques }
    requires roles { roles.now ≡ roles_among role.now (map.entries old.now) }
    ensures uses { IfOk result (λ tally. tally.numbers.uses ≡ uses_of (role_addresses role.now new.now)) }
    ensures roles { IfOk result (λ tally. tally.roles ≡ roles_among role.now (map.entries new.now)) }
{
    let mut tally = KeptTally::empty(alloc);
    'pairs: for pair in 0..new.uniques() {
        if let Some((who, standing)) = new.pair(pair) {
            let has_role = has_role(role, old, roles, who);
            tally.note(alloc, who, standing, has_role)?;
        }
    }
    Ok(tally)
}

// Keeps the addresses in use and the roles for the new members. After an error the tally is as it was. Where nobody becomes known
// and nobody begins or ceases to count it takes no memory.
fn keep_counted(
    alloc: Global,
    role: &[Address],
    old: &Members,
    new: &Members,
    tally: &mut KeptTally,
) -> Result<(), AllocError>
    requires few { map.len new.now ≤ most_uniques }
    requires uses { tally.old.numbers.uses ≡ uses_of (role_addresses role.now old.now) }
    requires roles { tally.old.roles ≡ roles_among role.now (map.entries old.now) }
    ensures uses { OnOk result (tally.new.numbers.uses ≡ uses_of (role_addresses role.now new.now)) }
    ensures roles { OnOk result (tally.new.roles ≡ roles_among role.now (map.entries new.now)) }
    ensures err { OnErr result (tally.new ≡ tally.old) }
{
    if counts_alike(old, new) {
        return Ok(());
    }
    let anew = counted_anew(alloc, role, old, &tally.roles, new)?;
    *tally = anew;
    Ok(())
}

/// The tally of a gossip that became another one, where these addresses have the role. After an error it is as it was; only memory
/// can fail.
pub fn keep_tally(
    alloc: Global,
    role: &[Address],
    old: &Gossip,
    new: &Gossip,
    tally: &mut KeptTally,
) -> Result<(), AllocError>
    requires { IsTallyOf role.now tally.old old.now }
    ensures ok { OnOk result (IsTallyOf role.now tally.new new.now) }
    ensures err { OnErr result (tally.new ≡ tally.old) }
{
    new.invariant();
    keep_counted(alloc, role, old.members(), new.members(), tally)?;
    tally.numbers.recount(new.members(), new.rows(), new.seen());
    Ok(())
}

// The tally of a gossip whose view stays, and which more members have seen: where all had seen it, all have.
fn keep_seen(old: &Gossip, new: &Gossip, tally: &mut KeptTally)
    requires seen { IsSeenMore old.now new.now }
    ensures { (role : List AddressModel) → IsTallyOf role tally.old old.now → IsTallyOf role tally.new new.now }
{
    if tally.numbers.missing() > 0 {
        new.invariant();
        tally.numbers.recount(new.members(), new.rows(), new.seen());
    }
}

/// The tally of a gossip that took in another one so. After an error it is as it was; only memory can fail.
pub fn keep_tally_received(
    alloc: Global,
    role: &[Address],
    received: Received,
    old: &Gossip,
    new: &Gossip,
    tally: &mut KeptTally,
) -> Result<(), AllocError>
    requires tally { IsTallyOf role.now tally.old old.now }
    requires received { IsAsReceived received old.now new.now }
    ensures ok { OnOk result (IsTallyOf role.now tally.new new.now) }
    ensures err { OnErr result (tally.new ≡ tally.old) }
{
    match received {
        Received::Same => keep_seen(old, new, tally),
        Received::Newer => keep_tally(alloc, role, old, new, tally)?,
        Received::Older => {}
        Received::Merged => keep_tally(alloc, role, old, new, tally)?,
    }
    Ok(())
}
