ghost use Rattle.std.specs.Prelude.{◌≡◌, ℕ, ◌≤◌, ◌<◌, ◌*◌, length, option_map};
ghost use Rattle.std.specs.List.{list_all};
ghost use Rattle.ak_shard_id.specs.Shard.{shard_of};
ghost use Rattle.ak_shard_id.specs.Division as model;
ghost use Rattle.ak_shard_id.specs.Division.{IsDivision, many_shards, typed};

use crate::shard::shard_of;
use ak_address::Text;
use std::marker::Model;

const MOST_NAME_BYTES: usize = 32;

const MOST_ID_BYTES: usize = 64;

/// How entities are divided into shards: the names of their types, none where there are no types, and how many shards each type
/// has. That there are 1 to 1000 shards is an invariant of the type.
#[derive(Debug, Drop)]
pub struct Division {
    types: Vec<Text>,
    each: u32,
}

impl Model for Division {
    ghost use Rattle.ak_shard_id.specs.Division as model;
    ghost use Rattle.ak_shard_id.specs.Division.{coded_division, IsDivision};

    ghost Value = { model.DivisionModel };

    ghost coded = { coded_division };

    ghost view = { λ d. record { types = d.types.items; each = d.each } };

    ghost invariant = { λ d. IsDivision (record { types = d.types.items; each = d.each }) };
}

impl Division {
    /// A division by these types, each of which has so many shards. Takes no memory.
    pub fn of(types: Vec<Text>, each: u32) -> Division
        requires { IsDivision (record { types = types.items; each = each }) }
        ensures { result ≡ record { types = types.items; each = each } }
    {
        Division { types, each }
    }

    /// Tells a proof that there are 1 to 1000 shards. It does nothing.
    pub fn invariant(&self)
        ensures { IsDivision self.now }
    {
        let _each = self.each;
    }

    /// How many shards there are, from 1 to 1000. Takes no memory.
    #[tactic(auto, using(crate::proofs::DivisionLaws::some_shards, crate::proofs::DivisionLaws::few_shards))]
    pub fn shards(&self) -> u32
        ensures is { result ≡ many_shards self.now }
        ensures some { 1 ≤ result }
        ensures few { result ≤ 1000 }
    {
        many_shards(&self.types, self.each)
    }

    /// The shard of an entity. Takes no memory.
    pub fn shard_in(&self, entity: &[u8]) -> u32
        ensures is { result ≡ model.shard_in self.now entity.now }
        ensures below { result < many_shards self.now }
    {
        shard_in(&self.types, self.each, entity)
    }
}

/// Whether a type can be called so: by 1 to 32 letters, digits, `-` and `_`. Takes no memory.
pub fn is_type_name(name: &[u8]) -> bool
    ensures { result ≡ model.is_type_name name.now }
{
    !name.is_empty() && name.len() <= MOST_NAME_BYTES && are_name_bytes(name)
}

fn are_name_bytes(bytes: &[u8]) -> bool
    ensures { result ≡ list_all model.is_name_byte bytes.now }
{
    bytes.iter().all(|b| matches!(*b, b'0'..=b'9' | b'A'..=b'Z' | b'a'..=b'z' | b'-' | b'_'))
}

/// How many shards there are, where each type has so many; without types there are as many. Takes no memory.
pub fn many_shards(types: &[Text], each: u32) -> u32
    requires few { length types.now ≤ 8 }
    requires within { length types.now * each ≤ 1000 }
    requires one { each ≤ 1000 }
    ensures { result ≡ many_shards (record { types = types.now; each = each }) }
{
    if types.is_empty() {
        return each;
    }
    types.len() as u32 * each
}

/// True exactly where the text is an entity: an id, which is 1 to 64 bytes from `!` to `~`; or, where there are types, one of
/// their names, `/` and an id. Takes no memory.
pub fn entity_ok(types: &[Text], entity: &[u8]) -> bool
    ensures { (each : ℕ) → result ≡ model.entity_ok (record { types = types.now; each = each }) entity.now }
{
    if types.is_empty() {
        return is_id(entity);
    }
    match typed(types, entity) {
        Some((_, id)) => is_id(id),
        None => false,
    }
}

/// The shard of an entity: that of its id among those of its type, which come after the shards of the types before it (Akka's
/// Cluster Sharding: each type has shards of its own; that they are numbered in one row is this project's choice). A text that is
/// no entity has one of the shards too. Takes no memory.
#[tactic(auto, using(crate::proofs::DivisionLaws::shard_within))]
pub fn shard_in(types: &[Text], each: u32, entity: &[u8]) -> u32
    requires one { 1 ≤ each }
    requires few { length types.now ≤ 8 }
    requires within { length types.now * each ≤ 1000 }
    requires bounded { each ≤ 1000 }
    ensures is { result ≡ model.shard_in (record { types = types.now; each = each }) entity.now }
    ensures below { result < many_shards (record { types = types.now; each = each }) }
{
    match typed(types, entity) {
        Some((place, id)) => place as u32 * each + shard_of(id, each),
        None => shard_of(entity, each),
    }
}

fn is_id(bytes: &[u8]) -> bool
    ensures { result ≡ model.is_id bytes.now }
{
    !bytes.is_empty() && bytes.len() <= MOST_ID_BYTES && are_entity_bytes(bytes)
}

fn are_entity_bytes(bytes: &[u8]) -> bool
    ensures { result ≡ list_all model.is_entity_byte bytes.now }
{
    bytes.iter().all(|b| matches!(*b, b'!'..=b'~'))
}

// The place of an entity's type, and its id; none where it names no type.
fn typed<'a>(types: &[Text], entity: &'a [u8]) -> Option<(usize, &'a [u8])>
    ensures { option_map (λ x. (x.0, x.1.now)) result ≡ typed types.now entity.now }
{
    let slash = slash_in(entity)?;
    let place = place_of(types, &entity[..slash])?;
    Some((place, &entity[slash + 1..]))
}

fn slash_in(entity: &[u8]) -> Option<usize>
    ensures { result ≡ model.slash_in entity.now }
{
    entity.iter().position(|b| *b == b'/')
}

fn place_of(types: &[Text], name: &[u8]) -> Option<usize>
    ensures { result ≡ model.place_of types.now name.now }
{
    types.iter().position(|each| is_named(name, each))
}

fn is_named(name: &[u8], each: &Text) -> bool
    ensures { result ≡ model.is_named name.now each.now }
{
    each.bytes().cmp(name).is_eq()
}
