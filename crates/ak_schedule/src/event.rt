ghost use Rattle.std.specs.Prelude.{◌≡◌, IfOk};

use ak_address::{Address, Unique};
use ak_field::EntityId;
use std::alloc::{AllocError, Global};

/// One event of a schedule. The first unique is the process that acts.
#[derive(Debug, Drop)]
pub enum Event {
    /// A process starts.
    Start(Unique),
    /// The process founds the cluster.
    Found(Unique),
    /// The process joins through an address.
    Join(Unique, Address),
    /// The process ticks, with a word that chooses its gossip peer.
    Tick(Unique, u32),
    /// A packet is delivered, by its number.
    Deliver(u64),
    /// The process is asked that a member leaves.
    Leave(Unique, Unique),
    /// The process is asked to down a member.
    Down(Unique, Unique),
    /// A message for an entity is offered at the process: the entity's id and the payload.
    Offer(Unique, EntityId, u64),
    /// The process stops at once.
    Stop(Unique),
}

impl Event {
    /// An equal event. Only memory can fail.
    pub fn copy(&self, alloc: Global) -> Result<Event, AllocError>
        ensures { IfOk result (λ copy. copy ≡ self.now) }
    {
        match self {
            Event::Start(who) => return Ok(Event::Start(who.copy(alloc)?)),
            Event::Found(who) => return Ok(Event::Found(who.copy(alloc)?)),
            Event::Join(who, target) => {
                let who = who.copy(alloc)?;
                return Ok(Event::Join(who, target.copy(alloc)?));
            }
            Event::Tick(who, word) => return Ok(Event::Tick(who.copy(alloc)?, *word)),
            Event::Deliver(packet) => return Ok(Event::Deliver(*packet)),
            Event::Leave(who, member) => {
                let who = who.copy(alloc)?;
                return Ok(Event::Leave(who, member.copy(alloc)?));
            }
            Event::Down(who, member) => {
                let who = who.copy(alloc)?;
                return Ok(Event::Down(who, member.copy(alloc)?));
            }
            Event::Offer(who, entity, payload) => {
                let who = who.copy(alloc)?;
                return Ok(Event::Offer(who, entity.copy(alloc)?, *payload));
            }
            Event::Stop(who) => return Ok(Event::Stop(who.copy(alloc)?)),
        }
    }
}
