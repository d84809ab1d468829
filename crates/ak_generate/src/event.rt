ghost use Rattle.std.specs.Prelude.{◌≡◌, ◌<◌, ◌≤◌, ◌-◌, ◌%◌, ◌∷◌, min, decimal, Some, IfOk, option_copied, slice_get};
ghost use Rattle.std.specs.Option.{option_map};
ghost use Rattle.ak_address.specs.Unique.{UniqueModel};
ghost use Rattle.ak_generate.specs.Generated as rules;

use crate::process::{address, numbered, process};
use crate::sight::Sight;
use ak_address::{Address, Unique, Uniques};
use ak_field::EntityId;
use ak_schedule::Event;
use std::alloc::{AllocError, Global};

// A schedule may start this many processes.
pub(crate) const MOST_STARTS: u32 = 64;

// Of how many packets one is delivered.
const RECENT: u64 = 40;

// Messages are for so many entities.
const ENTITIES: u32 = 20;

// How many processes run at least where one is stopped.
const FEWEST: usize = 3;

// An event of the first ten.
pub(crate) fn opening_event(alloc: Global, number: u32) -> Result<Event, AllocError>
    requires { number < 10 }
    ensures { IfOk result (λ event. slice_get rules.opening number ≡ Some event) }
{
    match number {
        0..=4 => Ok(Event::Start(process(alloc, u64::from(number) + 1, 1)?)),
        5 => Ok(Event::Found(process(alloc, 1, 1)?)),
        _ => {
            let who = process(alloc, u64::from(number) - 4, 1)?;
            Ok(Event::Join(who, address(alloc, 1)?))
        }
    }
}

// A process starts where none runs.
pub(crate) fn start_anew(
    alloc: Global,
    word: u32,
    sight: &Sight,
) -> Result<Option<Event>, AllocError>
    requires { sight.now.starts < 64 }
    ensures { IfOk result (λ event. event ≡ Some (Event.Start (rules.newcomer sight.now word))) }
{
    let who = newcomer(alloc, word, sight)?;
    Ok(Some(Event::Start(who)))
}

// The process that starts next.
fn newcomer(alloc: Global, word: u32, sight: &Sight) -> Result<Unique, AllocError>
    requires { sight.now.starts < 64 }
    ensures { IfOk result (λ who. who ≡ rules.newcomer sight.now word) }
{
    process(alloc, u64::from(word % 5) + 1, u64::from(sight.starts) + 1)
}

// A tick, with a word for the node's own choice.
pub(crate) fn tick(alloc: Global, word: u32, who: &Unique) -> Result<Option<Event>, AllocError>
    ensures { IfOk result (λ event. event ≡ Some (Event.Tick who.now word)) }
{
    let who = who.copy(alloc)?;
    Ok(Some(Event::Tick(who, word)))
}

// One of the last packets arrives, of so many, at least one.
pub(crate) fn delivery(word: u32, packets: u64) -> Event
    requires { 1 ≤ packets }
    ensures { result ≡ Event.Deliver (packets - word % min 40 packets) }
{
    let back = u64::from(word) % packets.min(RECENT);
    Event::Deliver(packets - back)
}

// One of the last packets arrives, if one was sent.
pub(crate) fn deliver(
    alloc: Global,
    word: u32,
    sight: &Sight,
    who: &Unique,
) -> Result<Option<Event>, AllocError>
    ensures { IfOk result (λ event. event ≡ Some (rules.delivers sight.now word who.now)) }
{
    if sight.packets == 0 {
        return tick(alloc, 0, who);
    }
    Ok(Some(delivery(word, sight.packets)))
}

// The entity of a number.
fn entity(alloc: Global, number: u32) -> Result<EntityId, AllocError>
    requires { number < 20 }
    ensures { IfOk result (λ entity. entity ≡ 101 ∷ decimal number) }
{
    let name = numbered(alloc, b'e', u64::from(number))?;
    Ok(EntityId::of(name))
}

// A message for one of twenty entities.
pub(crate) fn offer(
    alloc: Global,
    word: u32,
    payload: u32,
    who: &Unique,
) -> Result<Option<Event>, AllocError>
    ensures { IfOk result (λ event. event ≡ Some (rules.offers word payload who.now)) }
{
    let entity = entity(alloc, word % ENTITIES)?;
    let who = who.copy(alloc)?;
    Ok(Some(Event::Offer(who, entity, u64::from(payload))))
}

// The process is asked that a member leaves.
pub(crate) fn leave(
    alloc: Global,
    who: &Unique,
    member: Option<&Unique>,
) -> Result<Option<Event>, AllocError>
    ensures { IfOk result (λ event. event ≡ option_map (λ member. Event.Leave who.now member) (option_copied member.entry)) }
{
    let Some(member) = member else {
        return Ok(None);
    };
    let member = member.copy(alloc)?;
    let who = who.copy(alloc)?;
    Ok(Some(Event::Leave(who, member)))
}

// The process is asked to down a member.
pub(crate) fn down(
    alloc: Global,
    who: &Unique,
    member: Option<&Unique>,
) -> Result<Option<Event>, AllocError>
    ensures { IfOk result (λ event. event ≡ option_map (λ member. Event.Down who.now member) (option_copied member.entry)) }
{
    let Some(member) = member else {
        return Ok(None);
    };
    let member = member.copy(alloc)?;
    let who = who.copy(alloc)?;
    Ok(Some(Event::Down(who, member)))
}

// The process stops, where at least two others run.
pub(crate) fn stop(alloc: Global, sight: &Sight, who: &Unique) -> Result<Option<Event>, AllocError>
    ensures { IfOk result (λ event. event ≡ Some (rules.stops sight.now who.now)) }
{
    if sight.running.len() < FEWEST {
        return tick(alloc, 0, who);
    }
    let who = who.copy(alloc)?;
    Ok(Some(Event::Stop(who)))
}

// A process starts at an address, where none runs there and more may start.
pub(crate) fn start(
    alloc: Global,
    word: u32,
    sight: &Sight,
    who: &Unique,
) -> Result<Option<Event>, AllocError>
    ensures { IfOk result (λ event. event ≡ Some (rules.starts sight.now word who.now)) }
{
    if sight.starts >= MOST_STARTS {
        return tick(alloc, 0, who);
    }
    let starter = newcomer(alloc, word, sight)?;
    if is_in_use(&starter.address, &sight.running) {
        return tick(alloc, 0, who);
    }
    Ok(Some(Event::Start(starter)))
}

// The process joins through the address of another, or its own.
pub(crate) fn join(
    alloc: Global,
    who: &Unique,
    other: Option<&Unique>,
) -> Result<Option<Event>, AllocError>
    ensures { IfOk result (λ event. event ≡ option_map (λ (other : UniqueModel). Event.Join who.now other.address) (option_copied other.entry)) }
{
    let Some(other) = other else {
        return Ok(None);
    };
    let target = other.address.copy(alloc)?;
    let who = who.copy(alloc)?;
    Ok(Some(Event::Join(who, target)))
}

// A process runs at the address.
fn is_in_use(at: &Address, running: &Uniques) -> bool
    ensures { result ≡ rules.is_in_use at.now running.now }
{
    'running: for index in 0..running.len() {
        if is_at(at, running.at(index)) {
            return true;
        }
    }
    false
}

fn is_at(at: &Address, who: Option<&Unique>) -> bool
    ensures { result ≡ rules.is_at at.now (option_copied who.entry) }
{
    match who {
        Some(who) => who.address.is(at),
        None => false,
    }
}
