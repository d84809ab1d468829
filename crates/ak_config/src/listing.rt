// The addresses that a configuration lists, and those that have the role.
ghost use Rattle.std.specs.Prelude.{◌≡◌, ◌≤◌, ◌&&◌, nat_le, IfOk, IsTrue, Some, length, option_map};
ghost use Rattle.std.specs.List.{AllByRecursion};
ghost use Rattle.toml.specs.View.{view, table_view, items_view};
ghost use Rattle.ak_address.specs.Unique.{IsAddress};
ghost use Rattle.ak_config.specs.Configuration as read;
ghost use Rattle.ak_config.specs.ConfigContracts.{Gives, GivesAs, IsList, MayStand};

use crate::fault::ConfigFault;
use crate::values::{address_in, name, required, value_at};
use ak_address::{Address, contains_address};
use ak_settings::copy_addresses;
use std::alloc::Global;
use toml::{Table, Value};

const MOST_LISTED: usize = 32;

/// The addresses at a key that must be there.
#[tactic(auto, using(crate::proofs::Steps::fails_first), unfolding(crate::specs::Configuration::listing_at))]
pub(crate) fn listing_at(
    alloc: Global,
    table: &Table,
    key: &str,
) -> Result<Vec<Address>, ConfigFault>
    ensures gives { GivesAs (λ listed. listed.items) result (read.listing_at key.now (table_view table.now)) }
    ensures list { IfOk result (λ listed. IsList listed.items) }
{
    let value = required(alloc, table, key)?;
    listing_of(alloc, key, None, value)
}

/// The addresses that have the role, each of them listed: all that are listed, where the key is not there.
#[tactic(auto, unfolding(crate::specs::Configuration::role_at))]
pub(crate) fn role_at(
    alloc: Global,
    table: &Table,
    listed: &[Address],
) -> Result<Vec<Address>, ConfigFault>
    requires { IsList listed.now }
    ensures gives { GivesAs (λ role. role.items) result (read.role_at listed.now (table_view table.now)) }
    ensures list { IfOk result (λ role. IsList role.items) }
    ensures among { IfOk result (λ role. MayStand (Some listed.now) role.items) }
{
    match value_at(table, "role") {
        Some(value) => listing_of(alloc, "role", Some(listed), value),
        None => Ok(copy_addresses(alloc, listed)?),
    }
}

// A list of addresses, each of them one of these, where some are given.
#[tactic(auto, using(crate::proofs::Steps::fails_first), unfolding(crate::specs::Configuration::listing_of))]
fn listing_of(
    alloc: Global,
    key: &str,
    among: Option<&[Address]>,
    value: &Value,
) -> Result<Vec<Address>, ConfigFault>
    ensures gives { GivesAs (λ listed. listed.items) result (read.listing_of key.now (option_map (λ some. some.now) among.entry) (view value.now)) }
    ensures list { IfOk result (λ listed. IsList listed.items) }
    ensures among { IfOk result (λ listed. MayStand (option_map (λ some. some.now) among.entry) listed.items) }
{
    match value.as_array() {
        Some(items) => listing_in(alloc, key, among, items),
        None => Err(ConfigFault::WrongType(name(alloc, key)?)),
    }
}

#[tactic(auto, using(crate::proofs::Steps::fails_first), unfolding(crate::specs::Configuration::listing_in))]
fn listing_in(
    alloc: Global,
    key: &str,
    among: Option<&[Address]>,
    items: &[Value],
) -> Result<Vec<Address>, ConfigFault>
    ensures gives { GivesAs (λ listed. listed.items) result (read.listing_in key.now (option_map (λ some. some.now) among.entry) (items_view items.now)) }
    ensures list { IfOk result (λ listed. IsList listed.items) }
    ensures among { IfOk result (λ listed. MayStand (option_map (λ some. some.now) among.entry) listed.items) }
{
    if !are_texts(items) {
        return Err(ConfigFault::WrongType(name(alloc, key)?));
    }
    if !is_few(items.len()) {
        return Err(ConfigFault::Range(name(alloc, key)?));
    }
    addresses_in(alloc, key, among, items)
}

// From 1 to 32.
fn is_few(count: usize) -> bool
    ensures value { result ≡ (nat_le 1 count && nat_le count 32) }
    ensures range { IsTrue result → (1 ≤ count) × (count ≤ 32) }
{
    count >= 1 && count <= MOST_LISTED
}

fn are_texts(items: &[Value]) -> bool
    ensures { result ≡ read.are_texts (items_view items.now) }
{
    'items: for item in items {
        if item.as_str().is_none() {
            return false;
        }
    }
    true
}

fn addresses_in(
    alloc: Global,
    key: &str,
    among: Option<&[Address]>,
    items: &[Value],
) -> Result<Vec<Address>, ConfigFault>
    ensures gives { GivesAs (λ listed. listed.items) result (read.addresses_in key.now (option_map (λ some. some.now) among.entry) (items_view items.now)) }
    ensures count { IfOk result (λ listed. length listed.items ≡ length items.now) }
    ensures ranges { IfOk result (λ listed. AllByRecursion IsAddress listed.items) }
    ensures among { IfOk result (λ listed. MayStand (option_map (λ some. some.now) among.entry) listed.items) }
{
    let mut listed = Vec::new(alloc);
    'items: for item in items {
        let address = address_among(alloc, key, among, item)?;
        listed.push(address)?;
    }
    Ok(listed)
}

// An address that may stand there.
#[tactic(auto, using(crate::proofs::Steps::fails_first), unfolding(crate::specs::Configuration::address_among))]
fn address_among(
    alloc: Global,
    key: &str,
    among: Option<&[Address]>,
    value: &Value,
) -> Result<Address, ConfigFault>
    ensures gives { Gives result (read.address_among key.now (option_map (λ some. some.now) among.entry) (view value.now)) }
    ensures range { IfOk result IsAddress }
    ensures among { IfOk result (λ address. IsTrue (read.may_stand (option_map (λ some. some.now) among.entry) address)) }
{
    let address = address_in(alloc, key, value)?;
    if !may_stand(among, &address) {
        return Err(ConfigFault::Range(name(alloc, key)?));
    }
    Ok(address)
}

fn may_stand(among: Option<&[Address]>, address: &Address) -> bool
    ensures { result ≡ read.may_stand (option_map (λ some. some.now) among.entry) address.now }
{
    match among {
        Some(listed) => contains_address(listed, address),
        None => true,
    }
}
