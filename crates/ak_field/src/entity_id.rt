ghost use Rattle.std.specs.Prelude.{◌≡◌, IfOk};
ghost use Rattle.ak_field.specs.Ranges.{IsEntity};

use ak_address::Text;
use std::alloc::{AllocError, Global};
use std::marker::Model;

/// What an entity is called: 1 to 97 bytes from `!` to `~`, so that each has a spelling in a packet (Akka's Cluster Sharding,
/// the entity id; its range is this project's choice).
#[derive(Debug, Drop)]
pub struct EntityId {
    name: Text,
}

impl Model for EntityId {
    ghost use Rattle.std.specs.Prelude.{ℕ, List};
    ghost use Rattle.ak_field.specs.Ranges.{IsEntity};

    ghost Value = { List ℕ };

    ghost view = { λ id. id.name };

    ghost invariant = { λ id. IsEntity id.name };
}

impl EntityId {
    /// The id of this name, which is one: `is_entity` tells. Takes no memory.
    pub fn of(name: Text) -> EntityId
        requires { IsEntity name }
        ensures { result ≡ name }
    {
        EntityId { name }
    }

    /// Its name, of 1 to 97 bytes from `!` to `~`. Takes no memory.
    pub fn name(&self) -> &Text
        ensures same { result.now ≡ self.now }
        ensures range { IsEntity self.now }
    {
        &self.name
    }

    /// An equal id. Only memory can fail.
    pub fn copy(&self, alloc: Global) -> Result<EntityId, AllocError>
        ensures { IfOk result (λ id. id ≡ self.now) }
    {
        let name = self.name.copy(alloc)?;
        Ok(EntityId { name })
    }
}
