// A configuration, and how it is read.
ghost use Rattle.std.specs.Prelude.{◌≡◌, true, IfOk};
ghost use Rattle.toml.specs.View.{table_view};
ghost use Rattle.ak_settings.specs.Settings.{all_different, all_texts_differ};
ghost use Rattle.ak_config.specs.Configuration as spec;
ghost use Rattle.ak_config.specs.ConfigContracts.{Gives, GivesAs, AreEntries, IsConfig, entries_view};

use crate::entries::{Entries, Limits, Running, entries_at};
use crate::fault::ConfigFault;
use crate::keys::known_keys;
use crate::values::name;
use ak_address::{Address, Unique, contains_address};
use ak_settings::{Settings, all_different, all_texts_differ};
use std::alloc::{AllocError, Global};
use toml::Table;

/// What a node is told before it starts. The keys, their ranges and their defaults are this project's choice.
#[derive(Debug, Drop)]
pub struct Config {
    /// The process: its address, which is listed, and its uid.
    pub me: Unique,
    /// The settings of its cluster.
    pub settings: Settings,
    /// How many milliseconds lie between two ticks, 1 to 1,000,000.
    pub tick_ms: u64,
    /// From what the words of its ticks are drawn, 0 to 2^63 - 1.
    pub seed: u64,
    /// Whether it founds the cluster.
    pub found: bool,
    /// The address through which it joins, where there is one.
    pub join: Option<Address>,
}

/// The configuration that these bytes are. Where they are none it answers the first fault, in this order: that they are no TOML
/// document; the least key that a configuration may not have; then key by key, in the order self, uid, listed, strategy, quorum,
/// down-if-alone, margin, deadline, stable, shards, buffer, threshold, limit, tick-ms, seed, found, join, weakly, role, types,
/// that it is missing, of another type, out of its range or no address; that an address is listed twice; that one has the role
/// twice; that a type stands twice; that the node's own address is not listed. That memory ran out says nothing of the bytes.
#[tactic(auto, using(crate::proofs::Steps::fails_first), unfolding(crate::specs::Configuration::read, crate::specs::Configuration::configuration))]
pub fn read_config(alloc: Global, bytes: &[u8]) -> Result<Config, ConfigFault>
    ensures gives { Gives result (spec.read bytes.now) }
    ensures ranges { IfOk result IsConfig }
{
    let table = document(alloc, bytes)?;
    known_keys(alloc, &table)?;
    let entries = entries_at(alloc, &table)?;
    agreed(alloc, entries)
}

// The table that the bytes are.
#[tactic(auto, unfolding(crate::specs::Configuration::document))]
fn document(alloc: Global, bytes: &[u8]) -> Result<Table, ConfigFault>
    ensures { GivesAs (λ table. table_view table) result (spec.document bytes.now) }
{
    match toml::table_from_slice(alloc, bytes) {
        Ok(table) => Ok(table),
        Err(fault) => {
            if fault.is_memory() {
                return Err(ConfigFault::NoMemory(AllocError));
            }
            Err(ConfigFault::NotToml)
        }
    }
}

// What is asked of all entries together.
#[tactic(auto, unfolding(crate::specs::Configuration::agreed))]
fn agreed(alloc: Global, entries: Entries) -> Result<Config, ConfigFault>
    requires { AreEntries (entries_view entries) }
    ensures gives { Gives result (spec.agreed (entries_view entries)) }
    ensures ranges { IfOk result IsConfig }
{
    if !all_different(&entries.listed) {
        return Err(ConfigFault::Repeated(name(alloc, "listed")?));
    }
    if !all_different(&entries.role) {
        return Err(ConfigFault::Repeated(name(alloc, "role")?));
    }
    if !all_texts_differ(&entries.types) {
        return Err(ConfigFault::Repeated(name(alloc, "types")?));
    }
    if !contains_address(&entries.listed, &entries.me.address) {
        return Err(ConfigFault::SelfUnlisted(name(alloc, "self")?));
    }
    Ok(config_of(entries))
}

fn config_of(entries: Entries) -> Config
    requires ranges { AreEntries (entries_view entries) }
    requires listed { all_different entries.listed.items ≡ true }
    requires role { all_different entries.role.items ≡ true }
    requires types { all_texts_differ entries.types.items ≡ true }
    ensures { result ≡ spec.config_of (entries_view entries) }
{
    let Entries {
        me,
        listed,
        strategy,
        limits,
        running,
        role,
        types,
    } = entries;
    let Limits {
        margin,
        deadline,
        stable,
        shards,
        buffer,
        threshold,
        limit,
    } = limits;
    let Running {
        tick_ms,
        seed,
        found,
        join,
        weakly,
    } = running;
    let settings = Settings {
        listed,
        strategy,
        margin,
        deadline,
        stable,
        shards,
        buffer,
        threshold,
        limit,
        weakly,
        role,
        types,
    };
    Config {
        me,
        settings,
        tick_ms,
        seed,
        found,
        join,
    }
}
