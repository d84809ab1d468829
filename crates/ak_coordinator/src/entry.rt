ghost use Rattle.std.specs.Prelude.{◌≡◌, ◌≢◌, IfOk, OnOk, OnErr, is_some, IsSome, IsTrue};
ghost use Rattle.ak_address.specs.Uniques.{no_one};
ghost use Rattle.ak_coordinator.specs.Entry.{unplaced, moves, is_home, is_at, claims, learnt, beats, allotted, after_allotment, homing, NamesHome, after_get_home, after_started, is_awaited, is_last_ack, after_ack, freed, awaits_stop};
ghost use Rattle.ak_coordinator.specs.Tick.{has_finished_home, noticed, leaves_exiting, leaves_node, begun, hurried};

use crate::tick::unfinished;
use ak_address::{Unique, Uniques};
use ak_allocation::{Load, choose};
use ak_clock::BOUND;
use ak_member::Members;
use ak_settled::Settled;
use ak_shard_id::Report;
use std::alloc::{AllocError, Global};
use std::marker::Model;

/// The home of a shard: the node, and the allocation number with which it hosts the shard.
#[derive(Debug, Drop)]
pub struct Placed {
    pub owner: Unique,
    pub number: u64,
}

impl Model for Placed {
    ghost use Rattle.ak_coordinator.specs.Table.{Home, coded_home};

    ghost Value = { Home };

    ghost coded = { coded_home };

    ghost view = { λ p. record { owner = p.owner; number = p.number } };
}

/// What a node that asks for the home of a shard is told.
#[derive(Debug, Drop)]
pub enum Homing {
    /// The home is known.
    Known(Unique),
    /// The shard was free, and is placed at this node with this allocation number.
    Placed(Unique, u64),
    /// The shard moves.
    Moving,
    /// The shard is free, and there is no node for it, or no number above its last one.
    NoRegion,
}

// How far a shard has moved: not at all, waiting until every node holds it, or handed off by its home.
#[derive(Clone, Copy, Debug, PartialEq, Eq)]
pub(crate) enum Stage {
    Still,
    Holding,
    Leaving,
}

// One shard: the greatest allocation number that was given or reported, its home, whether the home has said that it hosts the
// shard, how far it has moved, and the nodes that are waited for.
#[derive(Drop)]
pub(crate) struct Entry {
    pub(crate) last: u64,
    pub(crate) home: Option<Placed>,
    pub(crate) started: bool,
    pub(crate) stage: Stage,
    pub(crate) waits: Uniques,
}

impl Model for Entry {
    ghost use Rattle.ak_coordinator.specs.Table.{ShardEntry, coded_entry, IsEntry};

    ghost Value = { ShardEntry };

    ghost coded = { coded_entry };

    ghost view = { λ e. record { last = e.last; home = e.home; started = e.started; stage = e.stage; waits = e.waits } };

    // No home has a number above the last one, so that the next placing has a new one; and only a home can hand a shard off.
    ghost invariant = { λ e. IsEntry (record { last = e.last; home = e.home; started = e.started; stage = e.stage; waits = e.waits }) };
}

impl Entry {
    // A shard that was never placed.
    pub(crate) fn unplaced(alloc: Global) -> Entry
        ensures { result ≡ unplaced }
    {
        let waits = Uniques::empty(alloc);
        Entry {
            last: 0,
            home: None,
            started: false,
            stage: Stage::Still,
            waits,
        }
    }

    pub(crate) fn moves(&self) -> bool
        ensures { result ≡ moves self.now }
    {
        match self.stage {
            Stage::Still => false,
            Stage::Holding => true,
            Stage::Leaving => true,
        }
    }

    // Whether the node is the shard's home, with that number.
    pub(crate) fn is_home(&self, who: &Unique, number: u64) -> bool
        ensures { result ≡ is_home who.now number self.now.home }
    {
        match &self.home {
            Some(home) => home.number == number && home.owner.is(who),
            None => false,
        }
    }

    // Whether the node is the shard's home.
    pub(crate) fn is_at(&self, who: &Unique) -> bool
        ensures { result ≡ is_at who.now self.now }
    {
        match &self.home {
            Some(home) => home.owner.is(who),
            None => false,
        }
    }

    // Whether a report with this number makes the node the home.
    fn is_claimed(&self, from: &Unique, number: u64, asking: bool) -> bool
        ensures { result ≡ claims asking from.now number self.now.home }
    {
        match &self.home {
            Some(home) => asking && is_beaten(home, from, number),
            None => true,
        }
    }

    // Takes in what a node reports of the shard.
    pub(crate) fn learn(
        &mut self,
        alloc: Global,
        from: &Unique,
        report: &Report,
        asking: bool,
    ) -> Result<(), AllocError>
        ensures ok { OnOk result (self.new ≡ learnt asking from.now report.now self.old) }
        ensures err { OnErr result (self.new ≡ self.old) }
        ensures memory { OnErr result (IsTrue report.now.hosted) }
    {
        let number = report.number;
        if report.hosted && self.is_claimed(from, number, asking) {
            let owner = from.copy(alloc)?;
            self.home = Some(Placed { owner, number });
            self.started = true;
        }
        self.last = self.last.max(number);
        Ok(())
    }

    // The shard is free from now on.
    pub(crate) fn free(&mut self, alloc: Global)
        ensures { self.new ≡ freed self.old }
    {
        self.home = None;
        self.started = false;
        self.stage = Stage::Still;
        self.waits = Uniques::empty(alloc);
    }

    // Gives a free shard to the least load, with the next number, where there is one.
    pub(crate) fn allocate(
        &mut self,
        alloc: Global,
        loads: &[Load],
    ) -> Result<Option<Placed>, AllocError>
        ensures placed { IfOk result (λ placed. placed ≡ allotted loads.now self.old) }
        ensures after { IfOk result (λ placed. self.new ≡ after_allotment placed self.old) }
        ensures err { OnErr result (IsTrue (is_some (allotted loads.now self.old)) × (self.new ≡ self.old)) }
    {
        // Past the bound no number could be sent.
        if self.last >= BOUND {
            return Ok(None);
        }
        let Some(index) = choose(loads) else {
            return Ok(None);
        };
        let number = self.last + 1;
        let owner = loads[index].unique.copy(alloc)?;
        let home = loads[index].unique.copy(alloc)?;
        self.last = number;
        self.home = Some(Placed {
            owner: home,
            number,
        });
        self.started = false;
        self.stage = Stage::Still;
        self.waits = Uniques::empty(alloc);
        Ok(Some(Placed { owner, number }))
    }

    // What a node that asks for the home is told.
    pub(crate) fn get_home(&mut self, alloc: Global, loads: &[Load]) -> Result<Homing, AllocError>
        ensures answer { IfOk result (λ answer. answer ≡ homing loads.now self.old) }
        ensures after { OnOk result (self.new ≡ after_get_home loads.now self.old) }
        ensures err { OnErr result (NamesHome (homing loads.now self.old) × (self.new ≡ self.old)) }
    {
        let moves = self.moves();
        if let Some(home) = &self.home {
            if moves {
                return Ok(Homing::Moving);
            }
            let owner = home.owner.copy(alloc)?;
            return Ok(Homing::Known(owner));
        }
        match self.allocate(alloc, loads)? {
            Some(placed) => Ok(Homing::Placed(placed.owner, placed.number)),
            None => Ok(Homing::NoRegion),
        }
    }

    // The home says that it hosts the shard.
    pub(crate) fn start(&mut self, from: &Unique, number: u64)
        ensures { self.new ≡ after_started from.now number self.old }
    {
        if self.is_home(from, number) {
            self.started = true;
        }
    }

    // Whether the node is waited for, with that number.
    fn is_awaited(&self, from: &Unique, number: u64) -> bool
        ensures { result ≡ is_awaited from.now number self.now }
    {
        match (&self.home, self.stage) {
            (Some(home), Stage::Holding) => home.number == number && self.waits.contains(from),
            _ => false,
        }
    }

    // The node holds the shard; whether it was the last one that was waited for.
    pub(crate) fn ack(&mut self, from: &Unique, number: u64) -> bool
        ensures last { result ≡ is_last_ack from.now number self.old }
        ensures after { self.new ≡ after_ack from.now number self.old }
    {
        if !self.is_awaited(from, number) {
            return false;
        }
        self.waits.remove(from);
        if self.waits.len() > 0 {
            return false;
        }
        self.stage = Stage::Leaving;
        true
    }

    // Whether the home is finished.
    fn has_finished_home(&self, settled: &Settled, margin: u32) -> bool
        ensures { result ≡ has_finished_home margin settled.now.view self.now.home }
    {
        match &self.home {
            Some(home) => settled.finished(&home.owner, margin),
            None => false,
        }
    }

    // A shard whose home is finished is free, and finished nodes are waited for no more. Takes memory only where others still
    // are.
    #[tactic(auto, using(crate::proofs::TickLemmas::nothing_noticed))]
    pub(crate) fn notice(
        &mut self,
        alloc: Global,
        settled: &Settled,
        margin: u32,
    ) -> Result<(), AllocError>
        ensures ok { OnOk result (self.new ≡ noticed margin settled.now.view self.old) }
        ensures err { OnErr result (self.new ≡ self.old) }
        ensures memory { OnErr result ((noticed margin settled.now.view self.old).waits ≢ no_one) }
    {
        if self.has_finished_home(settled, margin) {
            self.free(alloc);
            return Ok(());
        }
        // Mostly a shard does not move, and nobody is waited for.
        if self.waits.len() == 0 {
            return Ok(());
        }
        let waits = unfinished(alloc, settled, margin, &self.waits)?;
        self.waits = waits;
        Ok(())
    }

    // Whether the shard does not move, and its home is Exiting.
    pub(crate) fn leaves_exiting(&self, members: &Members) -> bool
        ensures { result ≡ leaves_exiting members.now self.now }
    {
        match &self.home {
            Some(home) => !self.moves() && members.is_exiting(&home.owner),
            None => false,
        }
    }

    // Whether the shard does not move, and its home is the node.
    pub(crate) fn leaves_node(&self, who: &Unique) -> bool
        ensures { result ≡ leaves_node who.now self.now }
    {
        match &self.home {
            Some(home) => !self.moves() && home.owner.is(who),
            None => false,
        }
    }

    // The shard begins to move, and these nodes are waited for.
    pub(crate) fn begin(&mut self, waits: Uniques)
        requires { IsSome self.old.home }
        ensures { self.new ≡ begun waits self.old }
    {
        self.stage = Stage::Holding;
        self.waits = waits;
    }

    // Where nobody is waited for any more, the home hands the shard off.
    pub(crate) fn hurry(&mut self)
        ensures { self.new ≡ hurried self.old }
    {
        match self.stage {
            Stage::Still => {}
            Stage::Holding => {
                if self.waits.len() == 0 {
                    self.stage = Stage::Leaving;
                }
            }
            Stage::Leaving => {}
        }
    }

    // Whether the node has to say that it does not host the shard any more, with that number.
    pub(crate) fn awaits_stop(&self, from: &Unique, number: u64) -> bool
        ensures { result ≡ awaits_stop from.now number self.now }
    {
        self.moves() && self.is_home(from, number)
    }
}

// Whether a report with this number beats the home: a greater number, or the same of a later process.
fn is_beaten(home: &Placed, from: &Unique, number: u64) -> bool
    ensures { result ≡ beats from.now number home.now }
{
    home.number < number || (home.number == number && home.owner.compare(from).is_lt())
}
