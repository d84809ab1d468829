ghost use Rattle.std.specs.Prelude.{◌≡◌, ◌<◌, ◌^◌, length, replicate, IfOk};
ghost use Rattle.std.specs.Borrow.{sem};
ghost use Rattle.ak_coordinator.specs.Entry.{unplaced};
ghost use Rattle.ak_coordinator.specs.Coordinator.{entry_of};
ghost use Rattle.ak_coordinator.specs.Lending.{LendsEntry};

use crate::entry::Entry;
use indexmap::IndexMap;
use std::alloc::{AllocError, Global};
use std::marker::Model;

// What is known of each shard, by shard. Contracts see the list of it, from shard 0 on.
#[derive(Drop)]
pub(crate) struct Entries {
    by_shard: IndexMap<u32, Entry>,
}

impl Model for Entries {
    ghost use Rattle.indexmap.specs.IndexMap.{values};
    ghost use Rattle.ak_coordinator.specs.Table.{ShardTable, coded_table};
    ghost use Rattle.ak_coordinator.specs.ByShard.{AreByShard};

    ghost Value = { ShardTable };

    ghost coded = { coded_table };

    ghost view = { λ e. values e.by_shard };

    // The index of a shard is the shard itself, so that no look-up takes a hash.
    ghost invariant = { λ e. AreByShard e.by_shard };
}

impl Entries {
    // No shard is placed. There is room for all at once, and no shard comes or goes later.
    pub(crate) fn unplaced(alloc: Global, shards: u32) -> Result<Entries, AllocError>
        ensures { IfOk result (λ entries. entries ≡ replicate shards unplaced) }
    {
        let mut by_shard = IndexMap::with_capacity(alloc, shards as usize)?;
        'shards: for shard in 0..shards {
            by_shard.insert(shard, Entry::unplaced(alloc))?;
        }
        Ok(Entries { by_shard })
    }

    // How many shards there are.
    pub(crate) fn len(&self) -> usize
        ensures value { result ≡ length self.now }
        ensures small { result < 2 ^ 63 }
    {
        self.by_shard.len()
    }

    // What is known of the shard.
    pub(crate) fn at(&self, shard: usize) -> &Entry
        requires { shard < length self.now }
        ensures { result.now ≡ entry_of self.now shard }
    {
        &self.by_shard[shard]
    }

    // What is known of the shard, to be changed.
    pub(crate) fn at_mut(&mut self, shard: usize) -> &mut Entry
        requires { shard < length self.old }
        ensures* writes_back { sem 𝓛 (LendsEntry self.entry shard result) }
        ensures value { result.now ≡ entry_of self.old shard }
    {
        &mut self.by_shard[shard]
    }
}
