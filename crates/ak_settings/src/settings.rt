ghost use Rattle.std.specs.Prelude.{◌≡◌, ◌↔◌, ◌≤◌, IsTrue, IfOk, Contains, MatchOption};
ghost use Rattle.ak_settings.specs.Settings as model;
ghost use Rattle.ak_settings.specs.Settings.{IsSettings, is_entity_in, is_listed, number_of_shards, settling_size};

use crate::ranges::{MOST_BUFFER, MOST_SHARDS, are_ticks, is_listing, is_strategy};
use ak_address::{Address, Text, contains_address};
use ak_shard_id::{entity_ok, many_shards};
use std::alloc::{AllocError, Global};
use std::marker::Model;

/// How the resolver decides which side of a partition goes on (Akka's Split Brain Resolver, "Strategies").
#[derive(Clone, Copy, Debug, PartialEq, Eq)]
pub enum Strategy {
    /// The side with at least this many different addresses goes on, 1 to 32.
    StaticQuorum(u32),
    /// The side with more members that count goes on.
    KeepMajority,
    /// The side of the oldest member goes on; with the flag, where it is alone there and others are not, the other side does.
    KeepOldest(bool),
    /// No side goes on.
    DownAll,
}

/// The settings of a run. That each is in its range is an invariant of the type; the ranges are this
/// project's choice.
#[derive(Debug, Drop)]
pub struct Settings {
    /// The addresses at which processes may start, and through which they may join, 1 to 32 different ones.
    pub listed: Vec<Address>,
    /// Which side of a partition goes on.
    pub strategy: Strategy,
    /// How many ticks after the removal of an unconfirmed member was noted it counts as stopped, 1 to 1,000,000.
    pub margin: u32,
    /// For how many ticks a watched member may be silent before it is reported as unreachable, 1 to 1,000,000.
    pub deadline: u32,
    /// For how many ticks statuses and the unreachable members have to stay the same before a strategy decides, 1 to
    /// 1,000,000.
    pub stable: u32,
    /// Into how many shards entities are divided, 1 to 1,000.
    pub shards: u32,
    /// How many messages a region keeps while it does not know where their shard is, 1 to 100,000.
    pub buffer: u32,
    /// A shard is moved away from the most loaded region where that has more than this many shards more than the least
    /// loaded, 1 to 1,000.
    pub threshold: u32,
    /// How many shards may move at the same time, 1 to 1,000.
    pub limit: u32,
    /// After how many ticks of a view that does not settle its leader lets Joining members in as WeaklyUp, 0 to 1,000,000; 0 is
    /// never.
    pub weakly: u32,
    /// The addresses over which a quorum is counted, 1 to 32 different ones of the listed.
    pub role: Vec<Address>,
    /// The types that entities have, at most 8 different names of 1 to 32 letters, digits, `-` and `_`; none: entities have no
    /// types. Each type has `shards` shards, and all of them at most 1,000.
    pub types: Vec<Text>,
}

impl Model for Settings {
    ghost use Rattle.ak_settings.specs.Settings.{SettingsModel, coded_settings, IsSettings};

    ghost Value = { SettingsModel };

    ghost coded = { coded_settings };

    ghost view = { λ s. record { listed = s.listed.items; strategy = s.strategy; margin = s.margin; deadline = s.deadline; stable = s.stable; shards = s.shards; buffer = s.buffer; threshold = s.threshold; limit = s.limit; weakly = s.weakly; role = s.role.items; types = s.types.items } };

    ghost invariant = { λ s. IsSettings (record { listed = s.listed.items; strategy = s.strategy; margin = s.margin; deadline = s.deadline; stable = s.stable; shards = s.shards; buffer = s.buffer; threshold = s.threshold; limit = s.limit; weakly = s.weakly; role = s.role.items; types = s.types.items }) };
}

/// Into how many shards entities are divided where nobody chooses: as many as there may be.
pub const DEFAULT_SHARDS: u32 = MOST_SHARDS;

/// How many messages a region keeps where nobody chooses: as many as it may.
pub const DEFAULT_BUFFER: u32 = MOST_BUFFER;

/// How many shards more than the least loaded region one may have where nobody chooses.
pub const DEFAULT_THRESHOLD: u32 = 1;

/// How many shards may move at the same time where nobody chooses.
pub const DEFAULT_LIMIT: u32 = 3;

impl Settings {
    /// Settings for who wants membership, a resolver or a singleton, and no shards: of shards they say what a configuration
    /// says that does not name them (1,000 shards, room for 100,000 messages, threshold 1, limit 3, no types). None exactly where the
    /// addresses, the strategy or one of the three numbers of ticks is out of its range. Every listed address has the role, which
    /// takes a copy of them: only memory can fail.
    pub fn of_membership(
        alloc: Global,
        listed: Vec<Address>,
        strategy: Strategy,
        margin: u32,
        deadline: u32,
        stable: u32,
    ) -> Result<Option<Settings>, AllocError>
        ensures { let asked = model.of_membership listed.items strategy margin deadline stable in
            IfOk result (λ made. MatchOption made (IsSettings asked → ⊥) (λ settings. (settings ≡ asked) × IsSettings asked)) }
    {
        if !is_listing(&listed) {
            return Ok(None);
        }
        if !is_strategy(strategy) {
            return Ok(None);
        }
        if !are_ticks(margin, deadline, stable) {
            return Ok(None);
        }
        let role = copy_addresses(alloc, &listed)?;
        Ok(Some(Settings {
            listed,
            strategy,
            margin,
            deadline,
            stable,
            shards: DEFAULT_SHARDS,
            buffer: DEFAULT_BUFFER,
            threshold: DEFAULT_THRESHOLD,
            limit: DEFAULT_LIMIT,
            weakly: 0,
            role,
            types: Vec::new(alloc),
        }))
    }

    /// Tells a proof that each setting is in its range. It does nothing.
    pub fn invariant(&self)
        ensures { IsSettings self.now }
    {
        let _margin = self.margin;
    }

    /// How many addresses a settled view counts at least: the quorum, or 1 under another strategy.
    /// Takes no memory.
    pub fn settling(&self) -> u32
        ensures { result ≡ settling_size self.now.strategy }
    {
        match self.strategy {
            Strategy::StaticQuorum(quorum) => return quorum,
            Strategy::KeepMajority => return 1,
            Strategy::KeepOldest(_) => return 1,
            Strategy::DownAll => return 1,
        }
    }

    /// True exactly where the address is listed. Takes no memory.
    pub fn is_listed(&self, at: &Address) -> bool
        ensures value { result ≡ is_listed self.now.listed at.now }
        ensures meaning { IsTrue result ↔ Contains self.now.listed at.now }
    {
        contains_address(&self.listed, at)
    }

    /// True exactly where the address has the role. Takes no memory.
    pub fn has_role(&self, at: &Address) -> bool
        ensures value { result ≡ is_listed self.now.role at.now }
        ensures meaning { IsTrue result ↔ Contains self.now.role at.now }
    {
        contains_address(&self.role, at)
    }

    /// How many shards there are, from 1 to 1,000: those of each type, or, without types, `shards`. Takes no memory.
    #[tactic(auto, using(ak_shard_id::proofs::DivisionLaws::some_shards))]
    pub fn number_of_shards(&self) -> u32
        ensures is { result ≡ number_of_shards self.now }
        ensures some { 1 ≤ result }
        ensures few { result ≤ MOST_SHARDS }
    {
        many_shards(&self.types, self.shards)
    }

    /// True exactly where the text is an entity: an id of 1 to 64 bytes from `!` to `~`, and with types a type, `/` and an id. Takes
    /// no memory.
    pub fn entity_ok(&self, entity: &[u8]) -> bool
        ensures { result ≡ is_entity_in self.now entity.now }
    {
        entity_ok(&self.types, entity)
    }

    /// Equal settings. Only memory can fail.
    pub fn copy(&self, alloc: Global) -> Result<Settings, AllocError>
        ensures { IfOk result (λ copy. copy ≡ self.now) }
    {
        let listed = copy_addresses(alloc, &self.listed)?;
        let role = copy_addresses(alloc, &self.role)?;
        let types = copy_texts(alloc, &self.types)?;
        Ok(Settings {
            listed,
            strategy: self.strategy,
            margin: self.margin,
            deadline: self.deadline,
            stable: self.stable,
            shards: self.shards,
            buffer: self.buffer,
            threshold: self.threshold,
            limit: self.limit,
            weakly: self.weakly,
            role,
            types,
        })
    }
}

/// Equal texts. Only memory can fail.
pub fn copy_texts(alloc: Global, texts: &[Text]) -> Result<Vec<Text>, AllocError>
    ensures { IfOk result (λ copies. copies.items ≡ texts.now) }
{
    let mut copies = Vec::new(alloc);
    'texts: for each in texts {
        let copy = each.copy(alloc)?;
        copies.push(copy)?;
    }
    Ok(copies)
}

/// Equal addresses. Only memory can fail.
pub fn copy_addresses(alloc: Global, listed: &[Address]) -> Result<Vec<Address>, AllocError>
    ensures { IfOk result (λ copies. copies.items ≡ listed.now) }
{
    let mut copies = Vec::new(alloc);
    'addresses: for each in listed {
        let copy = each.copy(alloc)?;
        copies.push(copy)?;
    }
    Ok(copies)
}
