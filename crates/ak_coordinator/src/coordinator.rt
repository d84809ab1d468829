ghost use Rattle.std.specs.Prelude.{◌≡◌, ◌≢◌, ◌≤◌, ◌<◌, ◌⊎◌, [], length, replicate, IsTrue, Contains, IfOk, OnOk, OnErr, option_copied};
ghost use Rattle.ak_shard_id.specs.declared.report.Report.{Report};
ghost use Rattle.ak_settled.specs.Settled.{standings_of};
ghost use Rattle.ak_coordinator.specs.Entry.{unplaced, homing, NamesHome, after_get_home, after_started, is_last_ack, after_ack, freed, awaits_stop, allotted, after_allotment};
ghost use Rattle.ak_coordinator.specs.Tick.{after_tick, orders_from, IsPartlyTicked, TakesRoom};
ghost use Rattle.ak_coordinator.specs.Coordinator.{entry_of, with_entry, learnt_all, IsPartlyLearnt, SaysHosted, stopped_placed, after_stopped, loads_of};

use crate::entries::Entries;
use crate::entry::{Entry, Homing, Placed};
use crate::loads::{lightened, loads_in};
use crate::orders::{Order, orders_of};
use crate::tick::{begin_one, hurry_each, notice_each};
use ak_address::{Unique, Uniques};
use ak_allocation::Load;
use ak_settings::Settings;
use ak_settled::Settled;
use ak_shard_id::Report;
use std::alloc::{AllocError, Global};
use std::marker::Model;

/// Where each shard has its home, as the coordinator knows it (Akka's Cluster Sharding, the shard coordinator): the greatest
/// allocation number that was given or reported, the home with its number, whether it has said that it hosts the shard, and
/// how far a move has come.
#[derive(Drop)]
pub struct Coordinator {
    entries: Entries,
}

impl Model for Coordinator {
    ghost use Rattle.ak_coordinator.specs.Table.{ShardTable, coded_table, IsTable};

    ghost Value = { ShardTable };

    ghost coded = { coded_table };

    ghost view = { λ c. c.entries };

    // As many shards as settings allow: so loads fit their numbers.
    ghost invariant = { λ c. IsTable c.entries };
}

impl Coordinator {
    /// No shard is placed; there are 1 to 1000. Only memory can fail.
    pub fn new(alloc: Global, shards: u32) -> Result<Coordinator, AllocError>
        requires some { 1 ≤ shards }
        requires few { shards ≤ 1000 }
        ensures { IfOk result (λ coordinator. coordinator ≡ replicate shards unplaced) }
    {
        let entries = Entries::unplaced(alloc, shards)?;
        Ok(Coordinator { entries })
    }

    /// How many shards there are, from 1 to 1000; the calls below take those from 0 on. Takes no memory.
    pub fn shards(&self) -> u32
        ensures { result ≡ length self.now }
    {
        self.entries.len() as u32
    }

    /// The home of the shard; none where it is free. Takes no memory.
    pub fn home(&self, shard: u32) -> Option<&Placed>
        requires { shard < length self.now }
        ensures { option_copied result ≡ (entry_of self.now shard).home }
    {
        self.entries.at(shard as usize).home.as_ref()
    }

    /// Takes in what a node reports: the greater number stays; a node that hosts a shard is its home, with that number, and
    /// has started, where the shard has no home, and also, while the coordinator still asks, where its number is greater than
    /// the home's, or equal and the node is the later process. Only memory can fail, and only where a shard is reported as hosted:
    /// then the first reports were taken in, and none from one of them on.
    pub fn learn(
        &mut self,
        alloc: Global,
        from: &Unique,
        reports: &[Report],
        asking: bool,
    ) -> Result<(), AllocError>
        requires { (report : Report) → Contains reports.now report → report.shard < length self.old }
        ensures ok { OnOk result (self.new ≡ learnt_all asking from.now reports.now self.old) }
        ensures lost { OnErr result (IsPartlyLearnt asking from.now reports.now self.old self.new) }
        ensures memory { OnErr result (SaysHosted reports.now) }
    {
        learn_each(alloc, &mut self.entries, from, reports, asking)
    }

    /// What a node that asks for the home of the shard is told: the home, where it is known and the shard does not move;
    /// that the shard moves; or where a free shard is placed now: at the least load, with the last number plus one. A free
    /// shard stays free exactly where there is no load, or that number would pass 4611686018427387904. Only memory can fail, only
    /// where a home is named, and then nothing has changed.
    pub fn on_get_home(
        &mut self,
        alloc: Global,
        shard: u32,
        loads: &[Load],
    ) -> Result<Homing, AllocError>
        requires { shard < length self.old }
        ensures answer { IfOk result (λ answer. answer ≡ homing loads.now (entry_of self.old shard)) }
        ensures after { OnOk result (self.new ≡ with_entry self.old shard (after_get_home loads.now (entry_of self.old shard))) }
        ensures err { OnErr result (NamesHome (homing loads.now (entry_of self.old shard)) × (self.new ≡ self.old)) }
    {
        self.entries.at_mut(shard as usize).get_home(alloc, loads)
    }

    /// The home says that it hosts the shard, with its number; from any other nothing is taken. Takes no memory.
    pub fn on_started(&mut self, from: &Unique, shard: u32, number: u64)
        requires { shard < length self.old }
        ensures { self.new ≡ with_entry self.old shard (after_started from.now number (entry_of self.old shard)) }
    {
        self.entries.at_mut(shard as usize).start(from, number);
    }

    /// A node holds the shard: where it moves with that number in its first stage, the node is waited for no more, and the
    /// second stage begins where nobody else is. Whether it begins now. Takes no memory.
    pub fn on_ack(&mut self, from: &Unique, shard: u32, number: u64) -> bool
        requires { shard < length self.old }
        ensures last { result ≡ is_last_ack from.now number (entry_of self.old shard) }
        ensures after { self.new ≡ with_entry self.old shard (after_ack from.now number (entry_of self.old shard)) }
    {
        self.entries.at_mut(shard as usize).ack(from, number)
    }

    /// Whether the shard waits for the node to say, with that number, that it does not host it any more. Takes no memory.
    pub fn awaits_stop(&self, from: &Unique, shard: u32, number: u64) -> bool
        requires { shard < length self.now }
        ensures { result ≡ awaits_stop from.now number (entry_of self.now shard) }
    {
        self.entries.at(shard as usize).awaits_stop(from, number)
    }

    /// A node does not host the shard any more. Where the shard moves with that number from this node, it is free now, and is
    /// placed at the least of these loads, of which the node's has one shard less, with the last number plus one. The answer
    /// is the new home; none exactly where the stop was not awaited, or there is no load, or that number would pass
    /// 4611686018427387904. Only memory can fail, where the stop was awaited and there is a load, and then nothing has changed,
    /// or the shard is free.
    pub fn on_stopped(
        &mut self,
        alloc: Global,
        from: &Unique,
        shard: u32,
        number: u64,
        loads: &[Load],
    ) -> Result<Option<Placed>, AllocError>
        requires { shard < length self.old }
        ensures placed { IfOk result (λ placed. placed ≡ stopped_placed from.now number loads.now (entry_of self.old shard)) }
        ensures after { OnOk result (self.new ≡ with_entry self.old shard (after_stopped from.now number loads.now (entry_of self.old shard))) }
        ensures awaited { OnErr result (IsTrue (awaits_stop from.now number (entry_of self.old shard))) }
        ensures memory { OnErr result (loads.now ≢ []) }
        ensures lost { OnErr result ((self.new ≡ self.old) ⊎ (self.new ≡ with_entry self.old shard (freed (entry_of self.old shard)))) }
    {
        if !self.awaits_stop(from, shard, number) {
            return Ok(None);
        }
        let loads = lightened(alloc, loads, from)?;
        stop(alloc, self.entries.at_mut(shard as usize), &loads)
    }

    /// How many shards have their home at each Up member of the settled view that has granted, in the order of processes;
    /// nobody where there is no settled view. Only memory can fail, and only where there is such a member.
    pub fn loads(
        &self,
        alloc: Global,
        granted: &Uniques,
        settled: &Settled,
    ) -> Result<Vec<Load>, AllocError>
        ensures ok { IfOk result (λ loads. loads.items ≡ loads_of self.now granted.now (standings_of settled.now.view)) }
        ensures memory { OnErr result (loads_of self.now granted.now (standings_of settled.now.view) ≢ []) }
    {
        loads_in(alloc, &self.entries, granted, settled.members())
    }

    /// One tick. A shard whose home is finished is free, and finished nodes are waited for no more. Where fewer shards move
    /// than may, at most one begins: the first one that does not move and whose home is Exiting in the settled view, else the
    /// first one that does not move of the node that has to give one away; it waits for every node that has granted and is
    /// not finished. Then for each shard in ascending order: every node that is waited for is told that the hand-off begins;
    /// where nobody is left, the home is told to hand it off; and a home that has not started is told to host it. Only memory
    /// can fail, and only where nodes are still waited for, where one more shard may move and there is a load, or where
    /// something is ordered: then the first of the shards were looked at for finished nodes, and nothing more was done; or all
    /// was done, and only the orders are missing.
    pub fn on_tick(
        &mut self,
        alloc: Global,
        granted: &Uniques,
        settled: &Settled,
        settings: &Settings,
    ) -> Result<Vec<Order>, AllocError>
        ensures after { OnOk result (self.new ≡ after_tick granted.now settled.now.view settings.now.margin settings.now.threshold settings.now.limit self.old) }
        ensures orders { IfOk result (λ orders. orders.items ≡ orders_from 0 (after_tick granted.now settled.now.view settings.now.margin settings.now.threshold settings.now.limit self.old)) }
        ensures lost { OnErr result (IsPartlyTicked granted.now settled.now.view settings.now.margin settings.now.threshold settings.now.limit self.old self.new) }
        ensures memory { OnErr result (TakesRoom granted.now settled.now.view settings.now.margin settings.now.threshold settings.now.limit self.old) }
    {
        notice_each(alloc, &mut self.entries, settled, settings.margin)?;
        begin_one(alloc, &mut self.entries, granted, settled, settings)?;
        hurry_each(&mut self.entries);
        orders_of(alloc, &self.entries)
    }
}

fn learn_each(
    alloc: Global,
    entries: &mut Entries,
    from: &Unique,
    reports: &[Report],
    asking: bool,
) -> Result<(), AllocError>
    requires { (report : Report) → Contains reports.now report → report.shard < length entries.old }
    ensures many { length entries.new ≡ length entries.old }
    ensures ok { OnOk result (entries.new ≡ learnt_all asking from.now reports.now entries.old) }
    ensures lost { OnErr result (IsPartlyLearnt asking from.now reports.now entries.old entries.new) }
    ensures memory { OnErr result (SaysHosted reports.now) }
{
    'reports: for report in reports {
        let shard = report.shard as usize;
        entries.at_mut(shard).learn(alloc, from, report, asking)?;
    }
    Ok(())
}

// The shard has left its home: it is free, and is placed where it can be.
fn stop(alloc: Global, entry: &mut Entry, loads: &[Load]) -> Result<Option<Placed>, AllocError>
    ensures placed { IfOk result (λ placed. placed ≡ allotted loads.now (freed entry.old)) }
    ensures after { IfOk result (λ placed. entry.new ≡ after_allotment placed (freed entry.old)) }
    ensures lost { OnErr result (entry.new ≡ freed entry.old) }
    ensures memory { OnErr result (loads.now ≢ []) }
{
    entry.free(alloc);
    entry.allocate(alloc, loads)
}
