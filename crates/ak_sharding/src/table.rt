ghost use Rattle.std.specs.Prelude.{◌≡◌, length, IfOk, OnOk, OnErr, IsTrue, IsSome};
ghost use Rattle.ak_coordinator.specs.Coordinator.{SaysHosted};
ghost use Rattle.ak_sharding.specs.Coordinates as rules;

use crate::sharding::Sharding;
use crate::surroundings::Around;
use ak_address::Unique;
use ak_coordinator::Coordinator;
use ak_shard_id::Report;
use ak_singleton::{Phase, TickRule};
use std::alloc::{AllocError, Global};

impl Sharding {
    // A table that is made of the node's own reports.
    fn own_table(&self, alloc: Global, me: &Unique) -> Result<Coordinator, AllocError>
        ensures { IfOk result (λ table. table ≡ rules.own_table me.now self.now) }
    {
        self.region.invariant();
        let mut table = Coordinator::new(alloc, self.region.shards())?;
        let reports = self.region.reports(alloc)?;
        table.learn(alloc, me, &reports, true)?;
        Ok(table)
    }

    #[tactic(auto, using(crate::proofs::TableLengths::own_table_length))]
    fn begin_table(&mut self, alloc: Global, me: &Unique) -> Result<(), AllocError>
        ensures ok { OnOk result (self.new ≡ rules.begins_table me.now self.old) }
        ensures err { OnErr result (self.new ≡ self.old) }
    {
        let table = self.own_table(alloc, me)?;
        self.coordinator = Some(table);
        Ok(())
    }

    fn end_table(&mut self)
        ensures { self.new ≡ rules.ends_table self.old }
    {
        self.coordinator = None;
    }

    /// What a tick does for the singleton is done with the table: an asking begins with one that is made of the node's own reports,
    /// and where an asking ends there is none. Only memory can fail, and only where an asking begins, and then nothing has changed.
    pub fn follow_tick(
        &mut self,
        alloc: Global,
        rule: TickRule,
        me: &Unique,
    ) -> Result<(), AllocError>
        ensures ok { OnOk result (self.new ≡ rules.tabled_by rule me.now self.old) }
        ensures err { OnErr result (self.new ≡ self.old) }
        ensures memory { OnErr result (rule ≡ TickRule.Opens) }
    {
        match rule {
            TickRule::Rests => Ok(()),
            TickRule::Opens => self.begin_table(alloc, me),
            TickRule::HandsOver => Ok(()),
            TickRule::Closes => {
                self.end_table();
                Ok(())
            }
            TickRule::Asks => Ok(()),
        }
    }

    /// Where the ballot of an asking was outdone, the table is made anew of the node's own reports; else nothing changes, and no
    /// memory is taken. Only memory can fail, and then nothing has changed.
    pub fn begin_if(&mut self, alloc: Global, outdone: bool, me: &Unique) -> Result<(), AllocError>
        ensures ok { OnOk result (self.new ≡ rules.begins_if outdone me.now self.old) }
        ensures err { OnErr result (self.new ≡ self.old) }
        ensures memory { OnErr result (IsTrue outdone) }
    {
        if outdone {
            return self.begin_table(alloc, me);
        }
        Ok(())
    }

    /// Where a grant is the first of its process, its reports are learnt, as they are while the node asks or is active. Only
    /// memory can fail, and only where a table learns that some shard is hosted, and then there is no table any more.
    #[tactic(auto, using(crate::proofs::TableLengths::learnt_length))]
    pub fn learn_if(
        &mut self,
        alloc: Global,
        first: bool,
        around: &Around,
        from: &Unique,
        told: &[Report],
    ) -> Result<(), AllocError>
        requires { IsTrue (rules.are_of_shards (length self.old.region.slots) told.now) }
        ensures ok { OnOk result (self.new ≡ rules.learns_if first around.now from.now told.now self.old) }
        ensures lost { OnErr result (self.new ≡ rules.ends_table self.old) }
        ensures memory { OnErr result (IsTrue first × IsSome self.old.table × SaysHosted told.now) }
    {
        if !first {
            return Ok(());
        }
        let Some(mut table) = self.coordinator.take() else {
            return Ok(());
        };
        table.learn(alloc, from, told, around.is_asking())?;
        self.coordinator = Some(table);
        Ok(())
    }

    /// The end of a phase: whoever asked or was active has no table any more. Takes no memory.
    pub fn end_phase(&mut self, phase: Phase)
        ensures { self.new ≡ rules.ended_table phase self.old }
    {
        match phase {
            Phase::Younger => return,
            Phase::Asking => self.end_table(),
            Phase::Active => self.end_table(),
            Phase::Ended => return,
        }
    }
}
