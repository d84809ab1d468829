use ak_address::{Address, Text, Unique};
use ak_field::EntityId;

/// What a node can be asked.
#[derive(Debug, Drop)]
pub enum Request {
    /// That a member leaves.
    Leave(Unique),
    /// To down a member.
    Down(Unique),
    /// A message for an entity: the entity's id and the payload.
    Offer(EntityId, u64),
}

/// What a command line asks for, whole.
#[derive(Debug, Drop)]
pub enum Command {
    /// To replay a schedule.
    Replay,
    /// To run generated schedules.
    Sweep {
        /// The first seed, 0 to 9000000000000000000.
        first: u64,
        /// How many seeds, 1 to 100000.
        count: u64,
        /// How many events of each, 1 to 2000.
        events: u64,
        /// How many workers, 1 to 64; 1 where the words say none.
        workers: u32,
    },
    /// To run a node.
    Node {
        /// The name of its configuration, any bytes.
        config: Text,
        /// How many ticks it runs for, 0 to 1000000000.
        ticks: u64,
    },
    /// To ask a node something.
    Ctl {
        /// Where the node is.
        to: Address,
        /// What it is asked.
        say: Request,
    },
}
