ghost use Rattle.std.specs.Prelude.{◌≡◌, ◌≢◌, ℕ, ◌+◌, ◌*◌, ◌≤◌, ◌<◌, List, [], ◌∷◌, ◌++◌};
ghost use Rattle.ak_shard_id.specs.Shard.{weighted, shard_of};
ghost use Rattle.ak_shard_id.specs.Division.{DivisionModel, many_shards, shard_in, IsOfType};

/// The hash of a text and one more byte is 31 times that of the text, plus the byte: how Java's documentation says it.
pub fn hashes_go_on()
    ensures empty { weighted [] ≡ 0 }
    ensures more { (bytes : List ℕ) (byte : ℕ) → weighted (bytes ++ byte ∷ []) ≡ 31 * weighted bytes + byte }
{}

/// Each entity has one of the shards, and without types it is that of its whole text.
pub fn each_entity_has_a_shard()
    ensures one { (division : DivisionModel) (entity : List ℕ) → 1 ≤ division.each → shard_in division entity < many_shards division }
    ensures whole { (entity : List ℕ) (each : ℕ) → shard_in (record { types = []; each = each }) entity ≡ shard_of entity each }
{}

/// Two entities of different types never share a shard.
pub fn types_share_no_shard()
    ensures { (division : DivisionModel) (one other entity more : List ℕ) → 1 ≤ division.each → IsOfType division one entity → IsOfType division other more → one ≢ other
        → shard_in division entity ≢ shard_in division more }
{}
