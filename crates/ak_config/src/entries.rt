// What a configuration says at each of its keys.
ghost use Rattle.std.specs.Prelude.{◌≡◌, IfOk, IfSome};
ghost use Rattle.toml.specs.View.{table_view};
ghost use Rattle.ak_settings.specs.Settings.{IsStrategy};
ghost use Rattle.ak_config.specs.Configuration as read;
ghost use Rattle.ak_config.specs.ConfigContracts.{Gives, GivesAs, AreLimits, AreEntries, IsRunning, entries_view};

use crate::fault::ConfigFault;
use crate::listing::{listing_at, role_at};
use crate::types::types_at;
use crate::values::{
    address_at, flag_at, integer_at, name, required, required_address, required_integer, text_in,
};
use ak_address::{Address, Text, Unique};
use ak_settings::{DEFAULT_BUFFER, DEFAULT_LIMIT, DEFAULT_SHARDS, DEFAULT_THRESHOLD, Strategy};
use std::alloc::Global;
use toml::Table;

// The settings that are numbers.
#[derive(Debug, Drop)]
pub(crate) struct Limits {
    pub(crate) margin: u32,
    pub(crate) deadline: u32,
    pub(crate) stable: u32,
    pub(crate) shards: u32,
    pub(crate) buffer: u32,
    pub(crate) threshold: u32,
    pub(crate) limit: u32,
}

// How the node runs.
#[derive(Debug, Drop)]
pub(crate) struct Running {
    pub(crate) tick_ms: u64,
    pub(crate) seed: u64,
    pub(crate) found: bool,
    pub(crate) join: Option<Address>,
    pub(crate) weakly: u32,
}

// All entries.
#[derive(Debug, Drop)]
pub(crate) struct Entries {
    pub(crate) me: Unique,
    pub(crate) listed: Vec<Address>,
    pub(crate) strategy: Strategy,
    pub(crate) limits: Limits,
    pub(crate) running: Running,
    pub(crate) role: Vec<Address>,
    pub(crate) types: Vec<Text>,
}

const MOST_UID: u64 = 9223372036854775807;

const MOST_TICKS: u64 = 1_000_000;

/// Reads each key by itself, in the order of the keys.
#[tactic(auto, using(crate::proofs::Steps::fails_first), unfolding(crate::specs::Configuration::entries_at))]
pub(crate) fn entries_at(alloc: Global, table: &Table) -> Result<Entries, ConfigFault>
    ensures gives { GivesAs entries_view result (read.entries_at (table_view table.now)) }
    ensures ranges { IfOk result (λ entries. AreEntries (entries_view entries)) }
{
    let me = process_at(alloc, table)?;
    let listed = listing_at(alloc, table, "listed")?;
    let strategy = strategy_at(alloc, table)?;
    let limits = limits_at(alloc, table)?;
    let running = running_at(alloc, table)?;
    let role = role_at(alloc, table, &listed)?;
    let types = types_at(alloc, table, limits.shards)?;
    Ok(Entries {
        me,
        listed,
        strategy,
        limits,
        running,
        role,
        types,
    })
}

#[tactic(auto, using(crate::proofs::Steps::fails_first), unfolding(crate::specs::Configuration::process_at))]
fn process_at(alloc: Global, table: &Table) -> Result<Unique, ConfigFault>
    ensures { Gives result (read.process_at (table_view table.now)) }
{
    let address = required_address(alloc, table, "self")?;
    let uid = required_integer(alloc, table, "uid", 1, MOST_UID)?;
    Ok(Unique { address, uid })
}

#[tactic(auto, using(crate::proofs::Steps::fails_first), unfolding(crate::specs::Configuration::strategy_at))]
fn strategy_at(alloc: Global, table: &Table) -> Result<Strategy, ConfigFault>
    ensures gives { Gives result (read.strategy_at (table_view table.now)) }
    ensures range { IfOk result IsStrategy }
{
    let value = required(alloc, table, "strategy")?;
    let name = text_in(alloc, "strategy", value)?;
    let strategy = strategy_named(alloc, name, table)?;
    let alone = flag_at(alloc, table, "down-if-alone", true)?;
    Ok(with_flag(alone, strategy))
}

fn with_flag(alone: bool, strategy: Strategy) -> Strategy
    requires { IsStrategy strategy }
    ensures value { result ≡ read.with_flag alone strategy }
    ensures range { IsStrategy result }
{
    match strategy {
        Strategy::StaticQuorum(quorum) => return Strategy::StaticQuorum(quorum),
        Strategy::KeepMajority => return Strategy::KeepMajority,
        Strategy::KeepOldest(_) => return Strategy::KeepOldest(alone),
        Strategy::DownAll => return Strategy::DownAll,
    }
}

#[tactic(auto, using(crate::proofs::Steps::fails_first), unfolding(crate::specs::Configuration::strategy_named))]
fn strategy_named(alloc: Global, text: &str, table: &Table) -> Result<Strategy, ConfigFault>
    ensures gives { Gives result (read.strategy_named text.now (table_view table.now)) }
    ensures range { IfOk result IsStrategy }
{
    if text == "static-quorum" {
        let quorum = required_integer(alloc, table, "quorum", 1, 32)?;
        return Ok(Strategy::StaticQuorum(quorum as u32));
    }
    let Some(strategy) = bare_strategy(text) else {
        return Err(ConfigFault::Range(name(alloc, "strategy")?));
    };
    integer_at(alloc, table, "quorum", 1, 32, 1)?;
    Ok(strategy)
}

fn bare_strategy(text: &str) -> Option<Strategy>
    ensures value { result ≡ read.bare_strategy text.now }
    ensures range { IfSome result IsStrategy }
{
    if text == "keep-majority" {
        return Some(Strategy::KeepMajority);
    }
    if text == "keep-oldest" {
        return Some(Strategy::KeepOldest(true));
    }
    if text == "down-all" {
        return Some(Strategy::DownAll);
    }
    None
}

#[tactic(auto, using(crate::proofs::Steps::fails_first), unfolding(crate::specs::Configuration::limits_at))]
fn limits_at(alloc: Global, table: &Table) -> Result<Limits, ConfigFault>
    ensures gives { Gives result (read.limits_at (table_view table.now)) }
    ensures ranges { IfOk result AreLimits }
{
    let margin = integer_at(alloc, table, "margin", 1, MOST_TICKS, 20)?;
    let deadline = integer_at(alloc, table, "deadline", 1, MOST_TICKS, 5)?;
    let stable = integer_at(alloc, table, "stable", 1, MOST_TICKS, 20)?;
    let default = u64::from(DEFAULT_SHARDS);
    let shards = integer_at(alloc, table, "shards", 1, 1000, default)?;
    let default = u64::from(DEFAULT_BUFFER);
    let buffer = integer_at(alloc, table, "buffer", 1, 100_000, default)?;
    let default = u64::from(DEFAULT_THRESHOLD);
    let threshold = integer_at(alloc, table, "threshold", 1, 1000, default)?;
    let default = u64::from(DEFAULT_LIMIT);
    let limit = integer_at(alloc, table, "limit", 1, 1000, default)?;
    Ok(Limits {
        margin: margin as u32,
        deadline: deadline as u32,
        stable: stable as u32,
        shards: shards as u32,
        buffer: buffer as u32,
        threshold: threshold as u32,
        limit: limit as u32,
    })
}

#[tactic(auto, using(crate::proofs::Steps::fails_first), unfolding(crate::specs::Configuration::running_at))]
fn running_at(alloc: Global, table: &Table) -> Result<Running, ConfigFault>
    ensures gives { Gives result (read.running_at (table_view table.now)) }
    ensures ranges { IfOk result IsRunning }
{
    let tick_ms = integer_at(alloc, table, "tick-ms", 1, 1_000_000, 1000)?;
    let seed = integer_at(alloc, table, "seed", 0, MOST_UID, 1)?;
    let found = flag_at(alloc, table, "found", false)?;
    let join = address_at(alloc, table, "join")?;
    let weakly = integer_at(alloc, table, "weakly", 0, MOST_TICKS, 0)?;
    Ok(Running {
        tick_ms,
        seed,
        found,
        join,
        weakly: weakly as u32,
    })
}
