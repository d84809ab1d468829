ghost use Rattle.std.specs.Prelude.{◌≡◌, All, IsTrue, IfOk, OnOk, OnErr, IsOk, IsSome, length, slice_get, option_map, option_copied, option_to_list, ◌+◌, ℕ};
ghost use Rattle.std.specs.FinMap as map;
ghost use Rattle.ak_address.specs.Pairs.{index};
ghost use Rattle.ak_address.specs.Unique.{UniqueModel, unique_cmp};
ghost use Rattle.ak_member.specs.declared.status.Status.{Status};
ghost use Rattle.ak_member.specs.Age.{IsOldest};
ghost use Rattle.ak_member.specs.Standing.{nobody, merged_standings, known, member_pairs, tombstone_pairs, raised, buried, is_gone, is_up, is_exiting, is_member_with, member_of, tombstone_of, members_of, tombstones_of};
ghost use Rattle.ak_member.specs.View.{after_effect, after_effects, IsAboutKnown};

use crate::effect::{Effect, Effects};
use crate::merging::{add_all, note_all, note_known, unknown_of};
use crate::slots::Slots;
use crate::standing::Standing;
use crate::status::Status;
use ak_address::Unique;
use std::alloc::{AllocError, Global};
use std::marker::Model;

/// A member: its status, and the number with which it became Up, from 1 on, or 0 where it was never Up (Akka's Cluster
/// Specification, "Membership Lifecycle"; the number is what Akka calls a member's up number).
#[derive(Clone, Copy)]
pub struct Member<'a> {
    pub unique: &'a Unique,
    pub status: Status,
    pub up_number: u64,
}

/// A process that was removed for good (Akka's Cluster Specification, "Membership Lifecycle"); whether it is confirmed
/// that it has stopped (this project's choice).
#[derive(Clone, Copy)]
pub struct Tombstone<'a> {
    pub unique: &'a Unique,
    pub confirmed: bool,
}

/// The members and the tombstones that a node knows, in the order of processes; nobody is both. A status only rises
/// (Akka's Cluster Specification, "Membership Lifecycle"), and a tombstone stays one (in Akka it is pruned after a time;
/// that it never is is this project's choice, since an old gossip could bring the process back).
#[derive(Drop)]
pub struct Members {
    slots: Slots,
}

impl Model for Members {
    ghost use Rattle.std.specs.FinMap as map;
    ghost use Rattle.ak_address.specs.Unique.{coded_unique};
    ghost use Rattle.ak_member.specs.Slots.{standings_of};
    ghost use Rattle.ak_member.specs.Standing.{Standings};
    ghost use Rattle.ak_member.specs.contracts.standing.Standing as standing;

    ghost Value = { Standings };

    ghost coded = { map.code coded_unique standing.the_row.coded };

    ghost view = { λ m. standings_of m.slots.entries };
}

impl Members {
    /// Nobody. Takes no memory.
    pub fn empty(alloc: Global) -> Members
        ensures { result ≡ nobody }
    {
        let slots = Slots::empty(alloc);
        Members { slots }
    }

    /// Nobody, with memory for so many. Only memory can fail; memory for none takes none.
    pub fn with_capacity(alloc: Global, many: usize) -> Result<Members, AllocError>
        ensures ok { IfOk result (λ members. members ≡ nobody) }
        ensures memory { many ≡ 0 → IsOk result }
    {
        let slots = Slots::with_capacity(alloc, many)?;
        Ok(Members { slots })
    }

    /// The member that the process is; none where it is no member. Takes no memory.
    #[inline(always)]
    pub fn get(&self, who: &Unique) -> Option<Member<'_>>
        ensures { option_map (λ m. (m.unique.now, (m.status, m.up_number))) result ≡ option_map {U = UniqueModel × (Status × ℕ)} (λ m. (who.now, m)) (member_of (map.get self.now who.now)) }
    {
        match self.slots.find(who) {
            Some((unique, Standing::Member(status, up_number))) => Some(Member {
                unique,
                status: *status,
                up_number: *up_number,
            }),
            Some((_, Standing::Buried(_))) => None,
            None => None,
        }
    }

    /// Whether the process is Down or was removed: it takes no part any more (Akka's Cluster Specification, "Membership
    /// Lifecycle"). One of whom nothing is known is not gone. Takes no memory.
    pub fn is_gone(&self, who: &Unique) -> bool
        ensures { result ≡ is_gone (map.get self.now who.now) }
    {
        match self.slots.get(who) {
            Some(Standing::Member(status, _)) => status.is_down(),
            Some(Standing::Buried(_)) => true,
            None => false,
        }
    }

    /// Whether the process is a member that is Up. Takes no memory.
    pub fn is_up(&self, who: &Unique) -> bool
        ensures { result ≡ is_member_with is_up self.now who.now }
    {
        match self.get(who) {
            Some(member) => member.status.is_up(),
            None => false,
        }
    }

    /// Whether the process is a member that is Exiting. Takes no memory.
    pub fn is_exiting(&self, who: &Unique) -> bool
        ensures { result ≡ is_member_with is_exiting self.now who.now }
    {
        match self.get(who) {
            Some(member) => member.status.is_exiting(),
            None => false,
        }
    }

    /// Whether the process was removed, and then whether it is confirmed that it has stopped; none where it was not
    /// removed. Takes no memory.
    pub fn tombstone(&self, who: &Unique) -> Option<bool>
        ensures { result ≡ tombstone_of (map.get self.now who.now) }
    {
        match self.slots.get(who) {
            Some(Standing::Buried(confirmed)) => Some(*confirmed),
            Some(Standing::Member(_, _)) => None,
            None => None,
        }
    }

    /// How many processes are known, members and tombstones together.
    pub fn uniques(&self) -> usize
        ensures { result ≡ map.len self.now }
    {
        self.slots.len()
    }

    /// The index of the process among all that are known, from 0 on in the order of processes, or as an error the one at which
    /// it would stand. Takes no memory.
    pub fn place(&self, who: &Unique) -> Result<usize, usize>
        ensures { result ≡ index unique_cmp who.now (map.entries self.now) }
    {
        self.slots.place(who)
    }

    /// The process at an index among all that are known, from 0 on in the order of processes, and what is known of it;
    /// none past the end.
    pub fn pair(&self, index: usize) -> Option<(&Unique, Standing)>
        ensures { option_map (λ pair. (pair.0.now, pair.1)) result ≡ slice_get (map.entries self.now) index }
    {
        match self.slots.at(index) {
            Some((who, standing)) => Some((who, *standing)),
            None => None,
        }
    }

    /// How many members there are.
    pub fn len(&self) -> usize
        ensures { result ≡ length (members_of self.now) }
    {
        members_in(self)
    }

    /// The member at an index, from 0 on in the order of processes; none past the end.
    pub fn at(&self, index: usize) -> Option<Member<'_>>
        ensures { option_map (λ m. (m.unique.now, (m.status, m.up_number))) result ≡ slice_get (members_of self.now) index }
    {
        member_in(self, index)
    }

    /// The member at a pair, where there is one: a pair is an index among all that are known, from 0 on in the order of
    /// processes. It reads one pair alone, so whoever walks all members takes it. Takes no memory.
    pub fn member_at_pair(&self, pair: usize) -> Option<Member<'_>>
        ensures { option_to_list (option_map (λ m. (m.unique.now, (m.status, m.up_number))) result) ≡ member_pairs (option_to_list (slice_get (map.entries self.now) pair)) }
    {
        member_at(self, pair)
    }

    /// How many tombstones there are.
    pub fn buried_len(&self) -> usize
        ensures { result ≡ length (tombstones_of self.now) }
    {
        tombstones_in(self)
    }

    /// The tombstone at an index, from 0 on in the order of processes; none past the end.
    pub fn buried_at(&self, index: usize) -> Option<Tombstone<'_>>
        ensures { option_map (λ t. (t.unique.now, t.confirmed)) result ≡ slice_get (tombstones_of self.now) index }
    {
        tombstone_in(self, index)
    }

    /// The process becomes a member, or its status rises to at least this one and its number to the least that is not 0
    /// (Akka's Cluster Specification, "Membership Lifecycle"). A tombstone stays one. After an error the members are as
    /// they were; a process that is known takes no memory.
    pub fn raise(
        &mut self,
        alloc: Global,
        who: &Unique,
        status: Status,
        up_number: u64,
    ) -> Result<(), AllocError>
        ensures ok { OnOk result (self.new ≡ raised self.old who.now status up_number) }
        ensures err { OnErr result (self.new ≡ self.old) }
        ensures present { IsSome (map.get self.old who.now) → IsOk result }
    {
        self.note(alloc, who, Standing::Member(status, up_number))
    }

    /// The process becomes a tombstone, confirmed where it was confirmed before or is now (Akka's Cluster Specification,
    /// "Membership Lifecycle": a removed member does not come back). After an error the members
    /// are as they were; a process that is known takes no memory.
    pub fn bury(&mut self, alloc: Global, who: &Unique, confirmed: bool) -> Result<(), AllocError>
        ensures ok { OnOk result (self.new ≡ buried self.old who.now confirmed) }
        ensures err { OnErr result (self.new ≡ self.old) }
        ensures present { IsSome (map.get self.old who.now) → IsOk result }
    {
        self.note(alloc, who, Standing::Buried(confirmed))
    }

    /// The members after these effects, in their order. Only memory can fail, and only where an effect is about a process that
    /// is not known yet.
    pub fn after(self, alloc: Global, effects: &Effects) -> Result<Members, AllocError>
        ensures ok { IfOk result (λ members. members ≡ after_effects effects.now self) }
        ensures memory { All (IsAboutKnown self) effects.now → IsOk result }
    {
        let mut members = self;
        'effects: for effect in effects.as_slice() {
            members.take_effect(alloc, effect)?;
        }
        Ok(members)
    }

    /// Takes in what another view knows: of each process what both know of it (Akka's Cluster Specification, "Gossip":
    /// gossips that conflict are merged). After an error the members are as they were; one that knows nobody brings nothing
    /// and takes no memory.
    pub fn merge(&mut self, alloc: Global, other: &Members) -> Result<(), AllocError>
        ensures ok { OnOk result (self.new ≡ merged_standings self.old other.now) }
        ensures err { OnErr result (self.new ≡ self.old) }
        ensures memory { other.now ≡ nobody → IsOk result }
    {
        if other.slots.len() == 0 {
            return Ok(());
        }
        let new = unknown_of(alloc, &self.slots, &other.slots)?;
        self.slots.reserve(new.len())?;
        note_all(&mut self.slots, &other.slots);
        add_all(&mut self.slots, new)
    }

    /// Equal members and tombstones. Only memory can fail; a copy of nobody takes none.
    pub fn copy(&self, alloc: Global) -> Result<Members, AllocError>
        ensures ok { IfOk result (λ copy. copy ≡ self.now) }
        ensures memory { self.now ≡ nobody → IsOk result }
    {
        let slots = self.slots.copy(alloc)?;
        Ok(Members { slots })
    }

    // Both have the same processes in the same slots.
    pub(crate) fn has_slots_of(&self, other: &Members) -> bool
        ensures { IsTrue result → self.now ≡ other.now }
    {
        self.slots.has_slots_of(&other.slots)
    }

    // The first in the list by age. Takes no memory.
    pub(crate) fn first_by_age(&self) -> Option<&Unique>
        ensures { IsOldest self.now (option_copied result) }
    {
        self.slots.oldest()
    }

    // Merges the standing with what is known of the process. After an error the members are as they were; a process
    // that is known takes no memory.
    fn note(&mut self, alloc: Global, who: &Unique, standing: Standing) -> Result<(), AllocError>
        ensures ok { OnOk result (self.new ≡ known self.old who.now standing) }
        ensures err { OnErr result (self.new ≡ self.old) }
        ensures present { IsSome (map.get self.old who.now) → IsOk result }
    {
        // Nothing tells where it stands, so that any index will do.
        if note_known(&mut self.slots, 0, who, standing) {
            return Ok(());
        }
        let who = who.copy(alloc)?;
        self.slots.add(who, standing)
    }

    // What the effect makes of the members. After an error they are as they were; only an effect about a process that is not
    // known yet takes memory.
    fn take_effect(&mut self, alloc: Global, effect: &Effect) -> Result<(), AllocError>
        ensures ok { OnOk result (self.new ≡ after_effect effect.now self.old) }
        ensures memory { IsAboutKnown self.old effect.now → IsOk result }
    {
        match effect {
            Effect::Joined(who) => self.raise(alloc, who, Status::Joining, 0),
            Effect::Rise(who, status, number) => self.raise(alloc, who, *status, *number),
            Effect::Removed(who, confirmed) => self.bury(alloc, who, *confirmed),
            Effect::Observed(_) => Ok(()),
        }
    }
}

// The member at a pair of the members, where there is one.
fn member_at(members: &Members, pair: usize) -> Option<Member<'_>>
    ensures { option_to_list (option_map (λ m. (m.unique.now, (m.status, m.up_number))) result) ≡ member_pairs (option_to_list (slice_get (map.entries members.now) pair)) }
{
    match members.pair(pair) {
        Some((unique, Standing::Member(status, up_number))) => Some(Member {
            unique,
            status,
            up_number,
        }),
        Some((_, Standing::Buried(_))) => None,
        None => None,
    }
}

// The tombstone at a pair of the members, where there is one.
fn tombstone_at(members: &Members, pair: usize) -> Option<Tombstone<'_>>
    ensures { option_to_list (option_map (λ t. (t.unique.now, t.confirmed)) result) ≡ tombstone_pairs (option_to_list (slice_get (map.entries members.now) pair)) }
{
    match members.pair(pair) {
        Some((unique, Standing::Buried(confirmed))) => Some(Tombstone { unique, confirmed }),
        Some((_, Standing::Member(_, _))) => None,
        None => None,
    }
}

fn members_in(members: &Members) -> usize
    ensures { result ≡ length (member_pairs (map.entries members.now)) }
{
    let mut count = 0;
    'pairs: for pair in 0..members.uniques() {
        if member_at(members, pair).is_some() {
            count += 1;
        }
    }
    count
}

fn tombstones_in(members: &Members) -> usize
    ensures { result ≡ length (tombstone_pairs (map.entries members.now)) }
{
    let mut count = 0;
    'pairs: for pair in 0..members.uniques() {
        if tombstone_at(members, pair).is_some() {
            count += 1;
        }
    }
    count
}

fn member_in(members: &Members, index: usize) -> Option<Member<'_>>
    ensures { option_map (λ m. (m.unique.now, (m.status, m.up_number))) result ≡ slice_get (member_pairs (map.entries members.now)) index }
{
    let mut left = index;
    'pairs: for pair in 0..members.uniques() {
        let found = member_at(members, pair);
        if found.is_some() {
            if left == 0 {
                return found;
            }
            left -= 1;
        }
    }
    None
}

fn tombstone_in(members: &Members, index: usize) -> Option<Tombstone<'_>>
    ensures { option_map (λ t. (t.unique.now, t.confirmed)) result ≡ slice_get (tombstone_pairs (map.entries members.now)) index }
{
    let mut left = index;
    'pairs: for pair in 0..members.uniques() {
        let found = tombstone_at(members, pair);
        if found.is_some() {
            if left == 0 {
                return found;
            }
            left -= 1;
        }
    }
    None
}
