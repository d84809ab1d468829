use ak_address::Unique;

/// How many shards have their home at a node.
#[derive(Debug, Drop)]
pub struct Load {
    pub unique: Unique,
    pub shards: u32,
}
