ghost use Rattle.std.specs.Prelude.{◌≡◌, ◌≢◌, ◌++◌, ◌∷◌, [], ◌<◌, length, map, OnOk, OnErr, IsTrue, IsSome, Some};
ghost use Rattle.ak_region.specs.Region as regions;
ghost use Rattle.ak_wire.specs.declared.envelope.Message.TheVariants.{GetHome, ShardStarted};
ghost use Rattle.ak_sharding.specs.Sharding.{to_process, flushes};
ghost use Rattle.ak_sharding.specs.Hosts as rules;

use crate::sends::{ask_home, tell_held, tell_started, tell_stopped};
use crate::sharding::Sharding;
use crate::surroundings::Around;
use ak_address::Unique;
use ak_promise::Ballot;
use ak_region::Hosting;
use ak_wire::{Action, Actions};
use std::alloc::{AllocError, Global};

impl Sharding {
    // The coordinator tells the home of a shard: a hold ends, and what waits for the shard goes.
    pub(crate) fn on_home(
        &mut self,
        alloc: Global,
        around: &Around,
        ballot: &Ballot,
        shard: u32,
        owner: &Unique,
        actions: &mut Actions,
    ) -> Result<(), AllocError>
        ensures state { OnOk result (self.new ≡ (rules.on_home around.now ballot.now shard owner.now self.old).0) }
        ensures actions { OnOk result (actions.new ≡ actions.old ++ (rules.on_home around.now ballot.now shard owner.now self.old).1) }
        ensures memory { OnErr result (IsTrue (rules.applies around.now ballot.now shard self.old)) }
    {
        if !self.has_shard(shard) || !around.is_bound(ballot) {
            return Ok(());
        }
        self.region.on_home(alloc, shard, owner)?;
        self.flushes(alloc, around.me, shard, actions)
    }

    // The order to host a shard: a newly hosted one is told, what waits for it goes, and then the coordinator is answered. It is told
    // first, since an entity is active from its start on, and starts only in a shard that is hosted.
    pub(crate) fn on_host_shard(
        &mut self,
        alloc: Global,
        around: &Around,
        from: &Unique,
        ballot: &Ballot,
        shard: u32,
        number: u64,
        actions: &mut Actions,
    ) -> Result<(), AllocError>
        ensures state { OnOk result (self.new ≡ (rules.on_host_shard around.now from.now ballot.now shard number self.old).0) }
        ensures actions { OnOk result (actions.new ≡ actions.old ++ (rules.on_host_shard around.now from.now ballot.now shard number self.old).1) }
        ensures memory { OnErr result (IsTrue (rules.applies around.now ballot.now shard self.old)) }
    {
        if !self.has_shard(shard) || !around.is_bound(ballot) {
            return Ok(());
        }
        match self.region.on_host(alloc, around.me, shard, number)? {
            Hosting::New => self.begins_to_host(
                alloc, around.me, from, ballot, shard, number, actions,
            ),
            Hosting::Again => tell_started(alloc, around.me, from, ballot, shard, number, actions),
            Hosting::Ignored => Ok(()),
        }
    }

    fn begins_to_host(
        &mut self,
        alloc: Global,
        me: &Unique,
        from: &Unique,
        ballot: &Ballot,
        shard: u32,
        number: u64,
        actions: &mut Actions,
    ) -> Result<(), AllocError>
        requires { shard < length self.old.region.slots }
        ensures state { OnOk result (self.new ≡ (flushes me.now shard self.old).0) }
        ensures actions { OnOk result (actions.new ≡ actions.old ++ (Action.Host shard number ∷ (flushes me.now shard self.old).1 ++ to_process me.now from.now (ShardStarted ballot.now shard number) ∷ [])) }
    {
        actions.push(Action::Host(shard, number))?;
        self.flushes(alloc, me, shard, actions)?;
        tell_started(alloc, me, from, ballot, shard, number, actions)
    }

    // A hand-off begins: the shard is held, and the coordinator is answered.
    pub(crate) fn on_begin_hand_off(
        &mut self,
        alloc: Global,
        around: &Around,
        from: &Unique,
        ballot: &Ballot,
        shard: u32,
        number: u64,
        actions: &mut Actions,
    ) -> Result<(), AllocError>
        ensures state { OnOk result (self.new ≡ (rules.on_begin_hand_off around.now from.now ballot.now shard number self.old).0) }
        ensures actions { OnOk result (actions.new ≡ actions.old ++ (rules.on_begin_hand_off around.now from.now ballot.now shard number self.old).1) }
        ensures memory { OnErr result (IsTrue (rules.applies around.now ballot.now shard self.old)) }
    {
        if !self.has_shard(shard) || !around.is_bound(ballot) {
            return Ok(());
        }
        self.region.on_begin(shard);
        tell_held(alloc, around.me, from, ballot, shard, number, actions)
    }

    // The order to hand a shard off: where it was hosted with at most the number, its entities end; then the coordinator is
    // answered, which may give the shard to another node: so they have ended before.
    pub(crate) fn on_hand_off(
        &mut self,
        alloc: Global,
        around: &Around,
        from: &Unique,
        ballot: &Ballot,
        shard: u32,
        number: u64,
        actions: &mut Actions,
    ) -> Result<(), AllocError>
        ensures state { OnOk result (self.new ≡ (rules.on_hand_off around.now from.now ballot.now shard number self.old).0) }
        ensures actions { OnOk result (actions.new ≡ actions.old ++ (rules.on_hand_off around.now from.now ballot.now shard number self.old).1) }
        ensures memory { OnErr result (IsTrue (rules.applies around.now ballot.now shard self.old)) }
    {
        if !self.has_shard(shard) || !around.is_bound(ballot) {
            return Ok(());
        }
        let gone = self.region.on_hand_off(shard, number);
        self.ends_shard(gone, shard, actions)?;
        tell_stopped(alloc, around.me, from, ballot, shard, number, actions)
    }

    // The entities of a shard that is gone end.
    fn ends_shard(
        &mut self,
        gone: bool,
        shard: u32,
        actions: &mut Actions,
    ) -> Result<(), AllocError>
        ensures state { OnOk result (self.new ≡ (rules.ends_shard gone shard self.old).0) }
        ensures actions { OnOk result (actions.new ≡ actions.old ++ (rules.ends_shard gone shard self.old).1) }
    {
        if gone {
            self.entities.stop_shard(shard);
            return actions.push(Action::Gone(shard));
        }
        Ok(())
    }

    /// In a tick of a node that promised a ballot: of its process the home of each shard is asked for which a message waits and
    /// which is not both hosted and free of a hold, in the order of the first messages. Adds what it does; only memory can fail,
    /// and only where there is such a shard.
    pub fn ask_homes(
        &self,
        alloc: Global,
        around: &Around,
        actions: &mut Actions,
    ) -> Result<(), AllocError>
        ensures actions { OnOk result (actions.new ≡ actions.old ++ (rules.asks_homes around.now self.now).1) }
        ensures memory { OnErr result (IsSome around.now.singleton.promise.last × regions.wanted self.now.region ≢ []) }
    {
        match around.singleton.promise().last() {
            Some(last) => self.ask_of(alloc, around, last, actions),
            None => Ok(()),
        }
    }

    fn ask_of(
        &self,
        alloc: Global,
        around: &Around,
        last: &Ballot,
        actions: &mut Actions,
    ) -> Result<(), AllocError>
        ensures actions { OnOk result (actions.new ≡ actions.old ++ rules.asks_homes_of (Some last.now) around.now self.now) }
        ensures memory { OnErr result (regions.wanted self.now.region ≢ []) }
    {
        let wanted = self.region.wanted(alloc)?;
        ask_each(alloc, around.me, last, &wanted, actions)
    }

    /// At the closing of a step of a node that goes on: homes that are no members are forgotten. Takes no memory.
    pub fn forget_strangers(&mut self, around: &Around)
        ensures { self.new ≡ (rules.forgets around.now self.old).0 }
    {
        self.region.forget(around.members);
    }
}

// Adds that the process of a ballot is asked for the homes of these shards.
fn ask_each(
    alloc: Global,
    me: &Unique,
    last: &Ballot,
    wanted: &[u32],
    actions: &mut Actions,
) -> Result<(), AllocError>
    ensures actions { OnOk result (actions.new ≡ actions.old ++ map (λ shard. to_process me.now last.now.unique (GetHome last.now shard)) wanted.now) }
    ensures memory { OnErr result (wanted.now ≢ []) }
{
    'wanted: for shard in wanted {
        ask_home(alloc, me, &last.unique, last, *shard, actions)?;
    }
    Ok(())
}
