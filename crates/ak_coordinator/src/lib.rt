//! Where the shards have their home: the table of the coordinator, and how a shard is moved.
#![tactic(auto)]

mod coordinator;
mod entries;
mod entry;
mod laws;
mod loads;
mod orders;
mod tick;

pub use coordinator::Coordinator;
pub use entry::{Homing, Placed};
pub use laws::{
    home_numbers_are_within, last_numbers_never_fall, learning_takes_the_greater,
    only_awaited_stops_free, orders_are_for_homes, shards_are_placed_at_given_loads,
};
pub use orders::Order;
