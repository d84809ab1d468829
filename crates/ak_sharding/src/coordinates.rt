ghost use Rattle.std.specs.Prelude.{◌≡◌, ◌≢◌, ◌++◌, ◌∷◌, [], ◌<◌, ◌&&◌, length, map, option_copied, IfOk, OnOk, OnErr, IsTrue, None, Some};
ghost use Rattle.ak_coordinator.specs.Entry.{homing, NamesHome, after_get_home, is_last_ack, after_ack};
ghost use Rattle.ak_coordinator.specs.Table.{ShardTable};
ghost use Rattle.ak_coordinator.specs.Coordinator.{entry_of, with_entry, stopped_placed, after_stopped};
ghost use Rattle.ak_coordinator.specs.Tick.{orders_from};
ghost use Rattle.ak_sharding.specs.Hosts.{has_shard};
ghost use Rattle.ak_sharding.specs.Coordinates as rules;

use crate::sends::{order_hand_off, order_hold, order_host, tell_home};
use crate::sharding::Sharding;
use crate::surroundings::Around;
use ak_address::Unique;
use ak_allocation::Load;
use ak_coordinator::{Coordinator, Homing, Order, Placed};
use ak_promise::Ballot;
use ak_wire::Actions;
use std::alloc::{AllocError, Global};

impl Sharding {
    // A rule for the shard applies: it is one of the node's, which is active with the ballot.
    fn coordinates_shard(&self, around: &Around, ballot: &Ballot, shard: u32) -> bool
        ensures { result ≡ (has_shard shard self.now && rules.is_active_with around.now ballot.now) }
    {
        self.has_shard(shard) && around.is_active_with(ballot)
    }

    // A node asks for the home of a shard: where it is known it is told, and a free shard is placed first.
    pub(crate) fn on_get_home(
        &mut self,
        alloc: Global,
        around: &Around,
        from: &Unique,
        ballot: &Ballot,
        shard: u32,
        actions: &mut Actions,
    ) -> Result<(), AllocError>
        ensures state { OnOk result (self.new ≡ (rules.on_get_home around.now from.now ballot.now shard self.old).0) }
        ensures actions { OnOk result (actions.new ≡ actions.old ++ (rules.on_get_home around.now from.now ballot.now shard self.old).1) }
        ensures lost { OnErr result (self.new ≡ rules.ends_table self.old) }
        ensures memory { OnErr result (rules.Coordinates around.now ballot.now shard (rules.HomeTakesRoom around.now shard) self.old) }
    {
        if !self.coordinates_shard(around, ballot, shard) {
            return Ok(());
        }
        let Some(mut table) = self.coordinator.take() else {
            return Ok(());
        };
        gives_home(alloc, around, from, ballot, shard, &mut table, actions)?;
        self.coordinator = Some(table);
        Ok(())
    }

    // The home of a shard says that it hosts it.
    pub(crate) fn on_shard_started(
        &mut self,
        around: &Around,
        from: &Unique,
        ballot: &Ballot,
        shard: u32,
        number: u64,
    )
        ensures { self.new ≡ (rules.on_shard_started around.now from.now ballot.now shard number self.old).0 }
    {
        if !self.coordinates_shard(around, ballot, shard) {
            return;
        }
        if let Some(table) = &mut self.coordinator {
            table.on_started(from, shard, number);
        }
    }

    // A node holds a shard: after the last one that was waited for, the home hands it off.
    pub(crate) fn on_ack(
        &mut self,
        alloc: Global,
        around: &Around,
        from: &Unique,
        ballot: &Ballot,
        shard: u32,
        number: u64,
        actions: &mut Actions,
    ) -> Result<(), AllocError>
        ensures state { OnOk result (self.new ≡ (rules.on_ack around.now from.now ballot.now shard number self.old).0) }
        ensures actions { OnOk result (actions.new ≡ actions.old ++ (rules.on_ack around.now from.now ballot.now shard number self.old).1) }
        ensures lost { OnErr result (self.new ≡ rules.ends_table self.old) }
        ensures memory { OnErr result (rules.Coordinates around.now ballot.now shard (rules.AckTakesRoom from.now shard number) self.old) }
    {
        if !self.coordinates_shard(around, ballot, shard) {
            return Ok(());
        }
        let Some(mut table) = self.coordinator.take() else {
            return Ok(());
        };
        takes_ack(
            alloc, around, from, ballot, shard, number, &mut table, actions,
        )?;
        self.coordinator = Some(table);
        Ok(())
    }

    // The home of a shard hosts it no more: the shard is placed again, where it can be.
    pub(crate) fn on_shard_stopped(
        &mut self,
        alloc: Global,
        around: &Around,
        from: &Unique,
        ballot: &Ballot,
        shard: u32,
        number: u64,
        actions: &mut Actions,
    ) -> Result<(), AllocError>
        ensures state { OnOk result (self.new ≡ (rules.on_shard_stopped around.now from.now ballot.now shard number self.old).0) }
        ensures actions { OnOk result (actions.new ≡ actions.old ++ (rules.on_shard_stopped around.now from.now ballot.now shard number self.old).1) }
        ensures lost { OnErr result (self.new ≡ rules.ends_table self.old) }
        ensures memory { OnErr result (rules.Coordinates around.now ballot.now shard (rules.StopTakesRoom around.now from.now shard number) self.old) }
    {
        if !self.coordinates_shard(around, ballot, shard) {
            return Ok(());
        }
        let Some(mut table) = self.coordinator.take() else {
            return Ok(());
        };
        places_again(
            alloc, around, from, ballot, shard, number, &mut table, actions,
        )?;
        self.coordinator = Some(table);
        Ok(())
    }

    /// In a tick of a node that is active: shards whose home is finished are free, at most one begins to move, and what the
    /// table asks for is ordered (Akka's Cluster Sharding, "Shard rebalancing"). Adds what it does; only memory can fail, and only
    /// of a node that is active and has a table, where nodes are still waited for, where one more shard may move and there is a
    /// load, or where something is ordered; and then there is no table any more, and the rest is as it was.
    pub fn coordinate(
        &mut self,
        alloc: Global,
        around: &Around,
        actions: &mut Actions,
    ) -> Result<(), AllocError>
        ensures state { OnOk result (self.new ≡ (rules.coordinates around.now self.old).0) }
        ensures actions { OnOk result (actions.new ≡ actions.old ++ (rules.coordinates around.now self.old).1) }
        ensures lost { OnErr result (self.new ≡ rules.ends_table self.old) }
        ensures memory { OnErr result (IsTrue (rules.is_active around.now.singleton.phase) × ((table : ShardTable) × (self.old.table ≡ Some table) × rules.TickTakesRoom around.now table)) }
    {
        if !around.is_active() {
            return Ok(());
        }
        match around.singleton.live() {
            Some(live) => self.coordinates_with(alloc, around, live, actions),
            None => Ok(()),
        }
    }

    fn coordinates_with(
        &mut self,
        alloc: Global,
        around: &Around,
        live: &Ballot,
        actions: &mut Actions,
    ) -> Result<(), AllocError>
        ensures state { OnOk result (self.new ≡ (rules.coordinates_with around.now (Some live.now) self.old).0) }
        ensures actions { OnOk result (actions.new ≡ actions.old ++ (rules.coordinates_with around.now (Some live.now) self.old).1) }
        ensures lost { OnErr result (self.new ≡ rules.ends_table self.old) }
        ensures memory { OnErr result ((table : ShardTable) × (self.old.table ≡ Some table) × rules.TickTakesRoom around.now table) }
    {
        let Some(mut table) = self.coordinator.take() else {
            return Ok(());
        };
        ticks(alloc, around, live, &mut table, actions)?;
        self.coordinator = Some(table);
        Ok(())
    }
}

// The loads by which a free shard is placed. Where the shard has a home they decide nothing, and none is counted.
fn loads_if_free(
    alloc: Global,
    around: &Around,
    shard: u32,
    table: &Coordinator,
) -> Result<Vec<Load>, AllocError>
    requires { shard < length table.now }
    ensures answer { IfOk result (λ loads. homing loads.items (entry_of table.now shard) ≡ homing (rules.loads around.now table.now) (entry_of table.now shard)) }
    ensures after { IfOk result (λ loads. after_get_home loads.items (entry_of table.now shard) ≡ after_get_home (rules.loads around.now table.now) (entry_of table.now shard)) }
    ensures memory { OnErr result (((entry_of table.now shard).home ≡ None) × (rules.loads around.now table.now ≢ [])) }
{
    match table.home(shard) {
        Some(_) => Ok(Vec::new(alloc)),
        None => around.loads(alloc, table),
    }
}

// Answers whoever asks for the home of a shard.
fn gives_home(
    alloc: Global,
    around: &Around,
    from: &Unique,
    ballot: &Ballot,
    shard: u32,
    table: &mut Coordinator,
    actions: &mut Actions,
) -> Result<(), AllocError>
    requires { shard < length table.old }
    ensures table { OnOk result (table.new ≡ with_entry table.old shard (after_get_home (rules.loads around.now table.old) (entry_of table.old shard))) }
    ensures actions { OnOk result (actions.new ≡ actions.old ++ rules.tells_home around.now from.now ballot.now shard (homing (rules.loads around.now table.old) (entry_of table.old shard))) }
    ensures memory { OnErr result (rules.HomeTakesRoom around.now shard table.old) }
{
    let loads = loads_if_free(alloc, around, shard, table)?;
    let homing = table.on_get_home(alloc, shard, &loads)?;
    tells_home(alloc, around, from, ballot, shard, &homing, actions)
}

fn tells_home(
    alloc: Global,
    around: &Around,
    from: &Unique,
    ballot: &Ballot,
    shard: u32,
    homing: &Homing,
    actions: &mut Actions,
) -> Result<(), AllocError>
    ensures ok { OnOk result (actions.new ≡ actions.old ++ rules.tells_home around.now from.now ballot.now shard homing.now) }
    ensures memory { OnErr result (NamesHome homing.now) }
{
    match homing {
        Homing::Known(owner) => tell_home(alloc, around.me, from, ballot, shard, owner, actions),
        Homing::Placed(owner, number) => {
            order_host(alloc, around.me, owner, ballot, shard, *number, actions)?;
            tell_home(alloc, around.me, from, ballot, shard, owner, actions)
        }
        Homing::Moving => Ok(()),
        Homing::NoRegion => Ok(()),
    }
}

// Takes in that a node holds a shard.
fn takes_ack(
    alloc: Global,
    around: &Around,
    from: &Unique,
    ballot: &Ballot,
    shard: u32,
    number: u64,
    table: &mut Coordinator,
    actions: &mut Actions,
) -> Result<(), AllocError>
    requires { shard < length table.old }
    ensures table { OnOk result (table.new ≡ with_entry table.old shard (after_ack from.now number (entry_of table.old shard))) }
    ensures actions { OnOk result (actions.new ≡ actions.old ++ rules.orders_hand_off around.now ballot.now shard (is_last_ack from.now number (entry_of table.old shard)) (entry_of table.old shard).home) }
    ensures memory { OnErr result (rules.AckTakesRoom from.now shard number table.old) }
{
    let is_last = table.on_ack(from, shard, number);
    orders_hand_off(
        alloc,
        around,
        ballot,
        shard,
        is_last,
        table.home(shard),
        actions,
    )
}

fn orders_hand_off(
    alloc: Global,
    around: &Around,
    ballot: &Ballot,
    shard: u32,
    is_last: bool,
    home: Option<&Placed>,
    actions: &mut Actions,
) -> Result<(), AllocError>
    ensures ok { OnOk result (actions.new ≡ actions.old ++ rules.orders_hand_off around.now ballot.now shard is_last (option_copied home.entry)) }
    ensures memory { OnErr result (IsTrue is_last) }
{
    if !is_last {
        return Ok(());
    }
    match home {
        Some(home) => order_hand_off(
            alloc,
            around.me,
            &home.owner,
            ballot,
            shard,
            home.number,
            actions,
        ),
        None => Ok(()),
    }
}

// Takes in that the home of a shard hosts it no more.
fn places_again(
    alloc: Global,
    around: &Around,
    from: &Unique,
    ballot: &Ballot,
    shard: u32,
    number: u64,
    table: &mut Coordinator,
    actions: &mut Actions,
) -> Result<(), AllocError>
    requires { shard < length table.old }
    ensures table { OnOk result (table.new ≡ with_entry table.old shard (after_stopped from.now number (rules.loads around.now table.old) (entry_of table.old shard))) }
    ensures actions { OnOk result (actions.new ≡ actions.old ++ rules.orders_placed around.now ballot.now shard (stopped_placed from.now number (rules.loads around.now table.old) (entry_of table.old shard))) }
    ensures memory { OnErr result (rules.StopTakesRoom around.now from.now shard number table.old) }
{
    // A stop that is not awaited changes nothing, and no home is counted for it.
    if !table.awaits_stop(from, shard, number) {
        return Ok(());
    }
    let loads = around.loads(alloc, table)?;
    match table.on_stopped(alloc, from, shard, number, &loads)? {
        Some(home) => order_host(
            alloc,
            around.me,
            &home.owner,
            ballot,
            shard,
            home.number,
            actions,
        ),
        None => Ok(()),
    }
}

// The tick of a table.
fn ticks(
    alloc: Global,
    around: &Around,
    live: &Ballot,
    table: &mut Coordinator,
    actions: &mut Actions,
) -> Result<(), AllocError>
    ensures table { OnOk result (table.new ≡ rules.ticked_table around.now table.old) }
    ensures actions { OnOk result (actions.new ≡ actions.old ++ map (rules.gives_order around.now live.now) (orders_from 0 (rules.ticked_table around.now table.old))) }
    ensures memory { OnErr result (rules.TickTakesRoom around.now table.old) }
{
    let orders = table.on_tick(
        alloc,
        around.singleton.granted(),
        around.settled,
        around.settings,
    )?;
    give_each(alloc, around, live, &orders, actions)
}

fn give_each(
    alloc: Global,
    around: &Around,
    live: &Ballot,
    orders: &[Order],
    actions: &mut Actions,
) -> Result<(), AllocError>
    ensures ok { OnOk result (actions.new ≡ actions.old ++ map (rules.gives_order around.now live.now) orders.now) }
    ensures memory { OnErr result (orders.now ≢ []) }
{
    'orders: for order in orders {
        give(alloc, around, live, order, actions)?;
    }
    Ok(())
}

fn give(
    alloc: Global,
    around: &Around,
    live: &Ballot,
    order: &Order,
    actions: &mut Actions,
) -> Result<(), AllocError>
    ensures { OnOk result (actions.new ≡ actions.old ++ rules.gives_order around.now live.now order.now ∷ []) }
{
    match order {
        Order::Begin(shard, number, who) => order_hold(
            alloc, around.me, who, live, *shard, *number, actions,
        ),
        Order::HandOff(shard, number, who) => order_hand_off(
            alloc, around.me, who, live, *shard, *number, actions,
        ),
        Order::Host(shard, number, who) => order_host(
            alloc, around.me, who, live, *shard, *number, actions,
        ),
    }
}
