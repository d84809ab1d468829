ghost use Rattle.std.specs.Prelude.{◌≡◌, ◌≢◌, ◌↔◌, ℕ, List, Some};
ghost use Rattle.std.specs.FinMap as map;
ghost use Rattle.ak_entity.specs.Active.{ActiveEntity, ActiveEntities};
ghost use Rattle.ak_entity.specs.Entities.{delivered, after_delivery, without_shard};

/// A delivery changes no entity but its own. After a shard was stopped, exactly those entities are active, as they were,
/// that were active and are of another shard.
pub fn entities_are_by_themselves()
    ensures own { (entities : ActiveEntities) (shard payload : ℕ) (entity : List ℕ) → map.get (after_delivery entities shard entity payload) entity ≡ Some (delivered shard payload (map.get entities entity)) }
    ensures others { (entities : ActiveEntities) (shard payload : ℕ) (entity other : List ℕ) → other ≢ entity → map.get (after_delivery entities shard entity payload) other ≡ map.get entities other }
    ensures stopped { (entities : ActiveEntities) (shard : ℕ) (entity : List ℕ) (active : ActiveEntity) → (map.get (without_shard entities shard) entity ≡ Some active) ↔ ((map.get entities entity ≡ Some active) × (active.shard ≢ shard)) }
{}
