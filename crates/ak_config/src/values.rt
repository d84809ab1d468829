// One value of a configuration by itself: that it is there, of the wanted type, and in its range.
ghost use Rattle.std.specs.Prelude.{◌≡◌, ◌≤◌, IfOk, IfSome, option_map};
ghost use Rattle.toml.specs.Data.{get_member};
ghost use Rattle.toml.specs.View.{view, table_view};
ghost use Rattle.ak_address.specs.Unique.{IsAddress};
ghost use Rattle.ak_config.specs.Configuration as read;
ghost use Rattle.ak_config.specs.Address.{spelled_address};
ghost use Rattle.ak_config.specs.ConfigContracts.{Gives, GivesAs};

use crate::fault::ConfigFault;
use ak_address::{Address, AddressFault, Text, parse_address};
use std::alloc::{AllocError, Global};
use toml::{Table, Value};

/// The value at a key, where there is one.
pub(crate) fn value_at<'a>(table: &'a Table, key: &str) -> Option<&'a Value>
    ensures { option_map (λ v. view v.now) result ≡ get_member key.now (table_view table.now) }
{
    match table.get(key) {
        Some(value) => Some(value),
        None => None,
    }
}

/// The value at a key that must be there.
#[tactic(auto, unfolding(crate::specs::Configuration::required))]
pub(crate) fn required<'a>(
    alloc: Global,
    table: &'a Table,
    key: &str,
) -> Result<&'a Value, ConfigFault>
    ensures { GivesAs (λ v. view v.now) result (read.required key.now (table_view table.now)) }
{
    match value_at(table, key) {
        Some(value) => Ok(value),
        None => Err(ConfigFault::Missing(name(alloc, key)?)),
    }
}

/// The name of a key, as a fault has it.
pub(crate) fn name(alloc: Global, key: &str) -> Result<Text, AllocError>
    ensures { IfOk result (λ text. text ≡ key.now) }
{
    Text::from_bytes(alloc, key.as_bytes())
}

/// An integer from `least` to `most`.
#[tactic(auto, unfolding(crate::specs::Configuration::integer_in))]
pub(crate) fn integer_in(
    alloc: Global,
    key: &str,
    least: u64,
    most: u64,
    value: &Value,
) -> Result<u64, ConfigFault>
    ensures gives { Gives result (read.integer_in key.now least most (view value.now)) }
    ensures within { IfOk result (λ n. (least ≤ n) × (n ≤ most)) }
{
    let Some(number) = value.as_integer() else {
        return Err(ConfigFault::WrongType(name(alloc, key)?));
    };
    match number_within(least, most, number) {
        Some(number) => Ok(number),
        None => Err(ConfigFault::Range(name(alloc, key)?)),
    }
}

fn number_within(least: u64, most: u64, number: i64) -> Option<u64>
    ensures value { result ≡ read.number_within least most number }
    ensures within { IfSome result (λ n. (least ≤ n) × (n ≤ most)) }
{
    if number < 0 {
        return None;
    }
    let number = number as u64;
    if number >= least && number <= most {
        Some(number)
    } else {
        None
    }
}

/// An integer from `least` to `most` that must be there.
#[tactic(auto, using(crate::proofs::Steps::fails_first), unfolding(crate::specs::Configuration::required_integer))]
pub(crate) fn required_integer(
    alloc: Global,
    table: &Table,
    key: &str,
    least: u64,
    most: u64,
) -> Result<u64, ConfigFault>
    ensures gives { Gives result (read.required_integer key.now least most (table_view table.now)) }
    ensures within { IfOk result (λ n. (least ≤ n) × (n ≤ most)) }
{
    let value = required(alloc, table, key)?;
    integer_in(alloc, key, least, most, value)
}

/// An integer from `least` to `most`, or its default where the key is not there.
#[tactic(auto, unfolding(crate::specs::Configuration::integer_at))]
pub(crate) fn integer_at(
    alloc: Global,
    table: &Table,
    key: &str,
    least: u64,
    most: u64,
    default: u64,
) -> Result<u64, ConfigFault>
    requires least { least ≤ default }
    requires most { default ≤ most }
    ensures gives { Gives result (read.integer_at key.now least most default (table_view table.now)) }
    ensures within { IfOk result (λ n. (least ≤ n) × (n ≤ most)) }
{
    match value_at(table, key) {
        Some(value) => integer_in(alloc, key, least, most, value),
        None => Ok(default),
    }
}

/// True or false, or its default where the key is not there.
#[tactic(auto, unfolding(crate::specs::Configuration::flag_at))]
pub(crate) fn flag_at(
    alloc: Global,
    table: &Table,
    key: &str,
    default: bool,
) -> Result<bool, ConfigFault>
    ensures { Gives result (read.flag_at key.now default (table_view table.now)) }
{
    let Some(value) = value_at(table, key) else {
        return Ok(default);
    };
    match value.as_bool() {
        Some(flag) => Ok(flag),
        None => Err(ConfigFault::WrongType(name(alloc, key)?)),
    }
}

/// A text.
#[tactic(auto, unfolding(crate::specs::Configuration::text_in))]
pub(crate) fn text_in<'a>(
    alloc: Global,
    key: &str,
    value: &'a Value,
) -> Result<&'a str, ConfigFault>
    ensures { GivesAs (λ text. text.now) result (read.text_in key.now (view value.now)) }
{
    match value.as_str() {
        Some(text) => Ok(text),
        None => Err(ConfigFault::WrongType(name(alloc, key)?)),
    }
}

/// An address.
#[tactic(auto, using(crate::proofs::Steps::fails_first), unfolding(crate::specs::Configuration::address_in))]
pub(crate) fn address_in(alloc: Global, key: &str, value: &Value) -> Result<Address, ConfigFault>
    ensures gives { Gives result (read.address_in key.now (view value.now)) }
    ensures range { IfOk result IsAddress }
{
    let text = text_in(alloc, key, value)?;
    match spelled_address(alloc, text.as_bytes())? {
        Some(address) => Ok(address),
        None => Err(ConfigFault::BadAddress(name(alloc, key)?)),
    }
}

// The address that the bytes spell, where they spell one.
fn spelled_address(alloc: Global, bytes: &[u8]) -> Result<Option<Address>, ConfigFault>
    ensures gives { Gives result (Ok (spelled_address bytes.now)) }
    ensures range { IfOk result (λ found. IfSome found IsAddress) }
{
    match parse_address(alloc, bytes) {
        Ok(address) => Ok(Some(address)),
        Err(AddressFault::BadHost) => Ok(None),
        Err(AddressFault::BadPort) => Ok(None),
        Err(AddressFault::BadUid) => Ok(None),
        Err(AddressFault::NoMemory(error)) => Err(error.into()),
    }
}

/// An address that must be there.
#[tactic(auto, using(crate::proofs::Steps::fails_first), unfolding(crate::specs::Configuration::required_address))]
pub(crate) fn required_address(
    alloc: Global,
    table: &Table,
    key: &str,
) -> Result<Address, ConfigFault>
    ensures gives { Gives result (read.required_address key.now (table_view table.now)) }
    ensures range { IfOk result IsAddress }
{
    let value = required(alloc, table, key)?;
    address_in(alloc, key, value)
}

/// An address, where the key is there.
#[tactic(auto, using(crate::proofs::Steps::fails_first), unfolding(crate::specs::Configuration::address_at))]
pub(crate) fn address_at(
    alloc: Global,
    table: &Table,
    key: &str,
) -> Result<Option<Address>, ConfigFault>
    ensures { Gives result (read.address_at key.now (table_view table.now)) }
{
    match value_at(table, key) {
        Some(value) => Ok(Some(address_in(alloc, key, value)?)),
        None => Ok(None),
    }
}
