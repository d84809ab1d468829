ghost use Rattle.std.specs.Prelude.{◌≡◌, ◌≤◌, ◌<◌, ◌%◌, ◌^◌};
ghost use Rattle.ak_shard_id.specs.Shard.{weighted, shard_of};

/// The shard of an entity, out of so many from 1 to 1000: the rest of the hash of its bytes, as Java hashes a text of
/// ASCII letters, by the number of shards, without its sign (Akka's Cluster Sharding, "Shard allocation": the absolute
/// value of the hash code of the entity identifier modulo the number of shards). Takes no memory.
pub fn shard_of(entity: &[u8], shards: u32) -> u32
    requires one { 1 ≤ shards }
    requires few { shards ≤ 1000 }
    ensures is { result ≡ shard_of entity.now shards }
    ensures below { result < shards }
{
    let hash = hash_of(entity).cast_signed();
    (hash % shards.cast_signed()).unsigned_abs()
}

// The hash, before it is read with a sign.
fn hash_of(entity: &[u8]) -> u32
    ensures { result ≡ weighted entity.now % 2 ^ 32 }
{
    let mut hash: u32 = 0;
    'bytes: for byte in entity {
        hash = hash.wrapping_mul(31).wrapping_add(u32::from(*byte));
    }
    hash
}
