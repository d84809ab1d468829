ghost use Rattle.std.specs.Prelude.{◌≡◌, ◌≢◌, ◌<◌, [], length, IfOk, OnErr, option_copied, option_map};
ghost use Rattle.std.specs.FinMap as finmap;
ghost use Rattle.ak_region.specs.Region as regions;
ghost use Rattle.ak_sharding.specs.Sharding.{new_sharding, forgotten};
ghost use Rattle.ak_sharding.specs.Ranges.{InRange};
ghost use Rattle.ak_sharding.specs.Hosts as hosts;
ghost use Rattle.ak_sharding.specs.Coordinates.{are_of_shards};

use ak_address::Text;
use ak_coordinator::Coordinator;
use ak_entity::Entities;
use ak_region::Region;
use ak_settings::Settings;
use ak_shard_id::Report;
use std::alloc::{AllocError, Global};
use std::marker::Model;

/// What a node keeps of the shards: its region, the entities that are active at it, and, while it asks or is active, the table
/// of a coordinator, which has an entry for each shard of the region. A call that ran out of memory leaves some sharding.
#[derive(Drop)]
pub struct Sharding {
    pub(crate) region: Region,
    pub(crate) entities: Entities,
    pub(crate) coordinator: Option<Coordinator>,
}

impl Model for Sharding {
    ghost use Rattle.ak_sharding.specs.Sharding.{ShardingModel};
    ghost use Rattle.ak_sharding.specs.ShardingView.{coded_sharding, HasTable};

    ghost Value = { ShardingModel };

    ghost coded = { coded_sharding };

    ghost view = { λ s. record { region = s.region; entities = s.entities; table = s.coordinator } };

    // The table is one of the region's shards, so that a shard that is one of the node's has its entry.
    ghost invariant = { λ s. HasTable (record { region = s.region; entities = s.entities; table = s.coordinator }) };
}

impl Sharding {
    /// At the start of a node: nothing was told of any shard, and no entity is active. Only memory can fail.
    pub fn new(alloc: Global, settings: &Settings) -> Result<Sharding, AllocError>
        ensures { IfOk result (λ sharding. sharding ≡ new_sharding settings.now) }
    {
        settings.invariant();
        let region = Region::new(alloc, settings)?;
        Ok(Sharding {
            region,
            entities: Entities::empty(alloc),
            coordinator: None,
        })
    }

    /// Forgets everything, as where memory ran out: nothing was told of any shard, and no entity is active. What it keeps is in
    /// the ranges of packets then. Takes no memory.
    #[tactic(auto, using(crate::proofs::ShardRanges::told_nothing_in))]
    pub fn forget(&mut self, alloc: Global)
        ensures after { self.new ≡ forgotten self.old }
        ensures range { InRange self.new }
    {
        self.region.invariant();
        self.region.restart();
        self.entities = Entities::empty(alloc);
        self.coordinator = None;
    }

    // The shard is one of the node's.
    pub(crate) fn has_shard(&self, shard: u32) -> bool
        ensures { result ≡ hosts.has_shard shard self.now }
    {
        shard < self.region.shards()
    }

    /// Whether each report is of one of the node's shards: only such reports can be learnt. Takes no memory.
    pub fn has_shards(&self, told: &[Report]) -> bool
        ensures { result ≡ are_of_shards (length self.now.region.slots) told.now }
    {
        let shards = self.region.shards();
        told.iter().all(|report| report.shard < shards)
    }

    /// The number with which the node hosts the shard; none where it does not, or where there is no such shard. Takes no memory.
    pub fn hosts(&self, shard: u32) -> Option<u64>
        ensures { result ≡ (regions.slot_of self.now.region shard).hosted }
    {
        if !self.has_shard(shard) {
            return None;
        }
        self.region.hosts(shard)
    }

    /// Whether the node hosts any shard. Takes no memory.
    pub fn hosts_any(&self) -> bool
        ensures { result ≡ regions.hosts_any self.now.region }
    {
        self.region.hosts_any()
    }

    /// What a new coordinator is told of the shards: for each that the node was told a number of, the greatest one, and whether
    /// the node hosts it, in the order of shards. Only memory can fail, and only where there is such a shard.
    pub fn reports(&self, alloc: Global) -> Result<Vec<Report>, AllocError>
        ensures found { IfOk result (λ found. found.items ≡ regions.reports self.now.region) }
        ensures memory { OnErr result (regions.reports self.now.region ≢ []) }
    {
        self.region.reports(alloc)
    }

    /// The payloads that were delivered to the entity since it was started, the first one first; none exactly where it is not
    /// active. Takes no memory.
    pub fn log(&self, entity: &Text) -> Option<&[u64]>
        ensures { option_copied result ≡ option_map (λ active. active.log) (finmap.get self.now.entities entity.now) }
    {
        self.entities.log(entity)
    }
}
