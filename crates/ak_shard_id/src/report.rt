/// What a node tells a new coordinator of one shard: its number, below the number of shards; the greatest allocation
/// number that the node was told of the shard; and whether the node hosts it, which it then does with that number. That a
/// coordinator's table is made of what the nodes report is this project's choice.
#[derive(Clone, Copy, Debug, PartialEq, Eq)]
pub struct Report {
    pub shard: u32,
    pub number: u64,
    pub hosted: bool,
}
