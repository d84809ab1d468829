ghost use Rattle.std.specs.Prelude.{◌≡◌, ◌↔◌, IsTrue};
ghost use Rattle.std.specs.List.{list_all};
ghost use Rattle.ak_field.specs.Reading.{Gives, IsThere};
ghost use Rattle.ak_field.specs.Ranges.{IsEntity, most_entity};
ghost use Rattle.ak_shard_id.specs.Division.{is_entity_byte};
ghost use Rattle.ak_field.specs.Fields.{entity_at};

use crate::fault::WireFault;
use crate::fields::Fields;
use ak_address::Text;
use std::alloc::Global;

const MOST_ID_BYTES: u8 = 64;

const MOST_ENTITY_BYTES: u8 = 97;

impl<'a> Fields<'a> {
    /// What an entity is called, in a version of the format: a length from 1 to 97, in the first version to 64, and then that many
    /// bytes from `!` to `~`, which are one field.
    #[tactic(auto, using(crate::proofs::Steps::fails_exactly, crate::proofs::Steps::fails_exactly_before), unfolding(crate::specs::Fields::entity_at))]
    pub fn entity(&mut self, alloc: Global, version: u8) -> Result<Text, WireFault>
        ensures read { Gives result self.new (entity_at version self.old) }
        ensures memory { IsThere result (entity_at version self.old) }
    {
        let length = self.length(1, most_entity(version))?;
        let name = self.take(usize::from(length))?;
        if !are_entity_bytes(name) {
            return Err(WireFault::Range);
        }
        Ok(Text::from_bytes(alloc, name)?)
    }
}

fn most_entity(version: u8) -> u8
    ensures { result ≡ most_entity version }
{
    if version == 1 {
        return MOST_ID_BYTES;
    }
    MOST_ENTITY_BYTES
}

/// Whether an entity can be called so: by 1 to 97 bytes from `!` to `~`. Takes no memory.
pub fn is_entity(name: &[u8]) -> bool
    ensures { IsTrue result ↔ IsEntity name.now }
{
    !name.is_empty() && name.len() <= usize::from(MOST_ENTITY_BYTES) && are_entity_bytes(name)
}

fn are_entity_bytes(bytes: &[u8]) -> bool
    ensures { result ≡ list_all is_entity_byte bytes.now }
{
    bytes.iter().all(|b| matches!(*b, b'!'..=b'~'))
}
