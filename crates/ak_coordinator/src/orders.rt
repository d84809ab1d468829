ghost use Rattle.std.specs.Prelude.{◌≡◌, ◌≢◌, ◌≤◌, ◌++◌, [], length, map, option_copied, option_to_list, IfOk, OnOk, OnErr};
ghost use Rattle.ak_address.specs.Uniques.{in_order};
ghost use Rattle.ak_coordinator.specs.Tick.{begin_order, orders_of, orders_from};

use crate::entries::Entries;
use crate::entry::{Entry, Stage};
use ak_address::{Unique, Uniques};
use std::alloc::{AllocError, Global};

/// What a coordinator orders: the shard, the number of its home, and the node that is told.
#[derive(Debug, Drop)]
pub enum Order {
    /// A hand-off begins: the node holds the shard.
    Begin(u32, u64, Unique),
    /// The home hands the shard off.
    HandOff(u32, u64, Unique),
    /// The home hosts the shard.
    Host(u32, u64, Unique),
}

// Appends the order that a hand-off begins, for the node, where there is one.
fn push_begin(
    alloc: Global,
    orders: &mut Vec<Order>,
    shard: u32,
    number: u64,
    who: Option<&Unique>,
) -> Result<(), AllocError>
    ensures ok { OnOk result (orders.new.items ≡ orders.old.items ++ map (begin_order shard number) (option_to_list (option_copied who.entry))) }
    ensures memory { OnErr result (option_to_list (option_copied who.entry) ≢ []) }
{
    if let Some(who) = who {
        let who = who.copy(alloc)?;
        orders.push(Order::Begin(shard, number, who))?;
    }
    Ok(())
}

// Appends the order that a hand-off begins, for each of these nodes.
fn push_begins(
    alloc: Global,
    orders: &mut Vec<Order>,
    shard: u32,
    number: u64,
    waits: &Uniques,
) -> Result<(), AllocError>
    ensures ok { OnOk result (orders.new.items ≡ orders.old.items ++ map (begin_order shard number) (in_order waits.now)) }
    ensures memory { OnErr result (map (begin_order shard number) (in_order waits.now) ≢ []) }
{
    'waits: for index in 0..waits.len() {
        push_begin(alloc, orders, shard, number, waits.at(index))?;
    }
    Ok(())
}

// Appends the orders of one shard.
fn push_orders(
    alloc: Global,
    orders: &mut Vec<Order>,
    shard: u32,
    entry: &Entry,
) -> Result<(), AllocError>
    ensures ok { OnOk result (orders.new.items ≡ orders.old.items ++ orders_of shard entry.now) }
    ensures memory { OnErr result (orders_of shard entry.now ≢ []) }
{
    let Some(home) = &entry.home else {
        return Ok(());
    };
    match entry.stage {
        Stage::Holding => push_begins(alloc, orders, shard, home.number, &entry.waits),
        Stage::Leaving => {
            let owner = home.owner.copy(alloc)?;
            orders.push(Order::HandOff(shard, home.number, owner))?;
            Ok(())
        }
        Stage::Still => {
            if entry.started {
                return Ok(());
            }
            let owner = home.owner.copy(alloc)?;
            orders.push(Order::Host(shard, home.number, owner))?;
            Ok(())
        }
    }
}

// Takes memory only where there is an order.
pub(crate) fn orders_of(alloc: Global, entries: &Entries) -> Result<Vec<Order>, AllocError>
    requires { length entries.now ≤ 1000 }
    ensures ok { IfOk result (λ orders. orders.items ≡ orders_from 0 entries.now) }
    ensures memory { OnErr result (orders_from 0 entries.now ≢ []) }
{
    let mut orders = Vec::new(alloc);
    'shards: for shard in 0..entries.len() {
        push_orders(alloc, &mut orders, shard as u32, entries.at(shard))?;
    }
    Ok(orders)
}
