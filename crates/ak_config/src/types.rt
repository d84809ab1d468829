// The types of entities that a configuration names.
ghost use Rattle.std.specs.Prelude.{◌≡◌, ◌≤◌, ◌&&◌, nat_le, IfOk, IsTrue, length};
ghost use Rattle.toml.specs.View.{view, table_view, items_view};
ghost use Rattle.ak_settings.specs.Settings.{MayBeTypes};
ghost use Rattle.ak_settings.specs.Settings as settings;
ghost use Rattle.ak_config.specs.Configuration as read;
ghost use Rattle.ak_config.specs.ConfigContracts.{GivesAs};

use crate::fault::ConfigFault;
use crate::values::{name, text_in, value_at};
use ak_address::Text;
use ak_settings::may_be_types;
use std::alloc::Global;
use toml::{Table, Value};

/// The names of the types, each of which has so many shards; none where the key is not there.
#[tactic(auto, unfolding(crate::specs::Configuration::types_at))]
pub(crate) fn types_at(alloc: Global, table: &Table, shards: u32) -> Result<Vec<Text>, ConfigFault>
    ensures gives { GivesAs (λ types. types.items) result (read.types_at shards (table_view table.now)) }
    ensures range { IfOk result (λ types. MayBeTypes shards types.items) }
{
    match value_at(table, "types") {
        Some(value) => types_of(alloc, shards, value),
        None => Ok(Vec::new(alloc)),
    }
}

#[tactic(auto, using(crate::proofs::Steps::fails_first), unfolding(crate::specs::Configuration::types_of))]
fn types_of(alloc: Global, shards: u32, value: &Value) -> Result<Vec<Text>, ConfigFault>
    ensures gives { GivesAs (λ types. types.items) result (read.types_of shards (view value.now)) }
    ensures range { IfOk result (λ types. MayBeTypes shards types.items) }
{
    match value.as_array() {
        Some(items) => types_in(alloc, shards, items),
        None => Err(ConfigFault::WrongType(name(alloc, "types")?)),
    }
}

#[tactic(auto, using(crate::proofs::Steps::fails_first), unfolding(crate::specs::Configuration::types_in))]
fn types_in(alloc: Global, shards: u32, items: &[Value]) -> Result<Vec<Text>, ConfigFault>
    ensures gives { GivesAs (λ types. types.items) result (read.types_in shards (items_view items.now)) }
    ensures range { IfOk result (λ types. MayBeTypes shards types.items) }
{
    let names = texts_in(alloc, "types", items)?;
    if !are_some_types(shards, &names) {
        return Err(ConfigFault::Range(name(alloc, "types")?));
    }
    Ok(names)
}

fn are_some_types(shards: u32, names: &[Text]) -> bool
    ensures value { result ≡ (nat_le 1 (length names.now) && settings.may_be_types shards names.now) }
    ensures range { IsTrue result → MayBeTypes shards names.now }
{
    names.len() >= 1 && may_be_types(shards, names)
}

fn texts_in(alloc: Global, key: &str, items: &[Value]) -> Result<Vec<Text>, ConfigFault>
    ensures { GivesAs (λ texts. texts.items) result (read.texts_in key.now (items_view items.now)) }
{
    let mut texts = Vec::new(alloc);
    'items: for item in items {
        let text = text_in(alloc, key, item)?;
        texts.push(Text::from_bytes(alloc, text.as_bytes())?)?;
    }
    Ok(texts)
}
