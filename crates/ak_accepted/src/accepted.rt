ghost use Rattle.std.specs.Prelude.{◌≡◌, ◌++◌, ◌∷◌, [], length, slice_get, Some, IsTrue, IfOk, IfSome, OnOk, OnErr};
ghost use Rattle.ak_accepted.specs.Accepted.{event_of, process_at, target_at, offered_at, Grows};

use ak_address::{Address, Unique};
use ak_field::EntityId;
use ak_schedule::Event;
use std::alloc::{AllocError, Global};
use std::marker::Model;

// As many names that are no node's as are sought: who is asked about and was never started.
const MOST_OTHERS: usize = 256;

// What an event names.
#[derive(Drop)]
enum Part {
    Process(Unique),
    Target(Address),
    Offered(EntityId, u64),
}

// What kept events name, each by its place, so that an event is kept in a few bytes however long its names are and however
// often they come. Where a name stands that came before is a hint: it is compared and not believed.
#[derive(Drop)]
struct Parts {
    list: Vec<Part>,
    // The places of the processes that were started, by their start numbers.
    started: Vec<usize>,
    // Those of others that were named, up to a limit: each is sought along them.
    others: Vec<usize>,
    // Those of the listed addresses through which nodes joined.
    targets: Vec<usize>,
}

impl Parts {
    // Nothing is named. Takes no memory.
    fn none(alloc: Global) -> Parts
        ensures { result.list.items ≡ [] }
    {
        Parts {
            list: Vec::new(alloc),
            started: Vec::new(alloc),
            others: Vec::new(alloc),
            targets: Vec::new(alloc),
        }
    }

    // Nothing is named any more.
    fn clear(&mut self)
        ensures { self.new.list.items ≡ [] }
    {
        self.list.clear();
        self.started.clear();
        self.others.clear();
        self.targets.clear();
    }

    // The place of one more. Only memory can fail.
    fn add(&mut self, part: Part) -> Result<usize, AllocError>
        ensures place { IfOk result (λ place. slice_get self.new.list.items place ≡ Some part) }
        ensures grows { Grows self.old.list.items self.new.list.items }
    {
        let place = self.list.len();
        self.list.push(part)?;
        Ok(place)
    }

    // The place of a process, which was named before or is one more. Only memory can fail.
    fn process(&mut self, alloc: Global, who: &Unique) -> Result<usize, AllocError>
        ensures place { IfOk result (λ place. process_at self.new.list.items place ≡ Some who.now) }
        ensures grows { Grows self.old.list.items self.new.list.items }
    {
        if let Some(place) = process_among(&self.list, &self.started, who) {
            return Ok(place);
        }
        if let Some(place) = process_among(&self.list, &self.others, who) {
            return Ok(place);
        }
        if self.others.len() < MOST_OTHERS {
            self.others.push(self.list.len())?;
        }
        self.add(Part::Process(who.copy(alloc)?))
    }

    // The place of a process that starts. Only memory can fail.
    fn start(&mut self, alloc: Global, who: &Unique) -> Result<usize, AllocError>
        ensures place { IfOk result (λ place. process_at self.new.list.items place ≡ Some who.now) }
        ensures grows { Grows self.old.list.items self.new.list.items }
    {
        self.started.push(self.list.len())?;
        self.add(Part::Process(who.copy(alloc)?))
    }

    // The place of the process that acts: a node of this start number, if it is one. Only memory can fail.
    fn actor(&mut self, alloc: Global, node: Option<u32>, who: &Unique) -> Result<usize, AllocError>
        ensures place { IfOk result (λ place. process_at self.new.list.items place ≡ Some who.now) }
        ensures grows { Grows self.old.list.items self.new.list.items }
    {
        if let Some(place) = place_of(&self.started, node) {
            if is_process_at(&self.list, place, who) {
                return Ok(place);
            }
        }
        self.process(alloc, who)
    }

    // The place of an address, which was named before or is one more. Only memory can fail.
    fn target(&mut self, alloc: Global, at: &Address) -> Result<usize, AllocError>
        ensures place { IfOk result (λ place. target_at self.new.list.items place ≡ Some at.now) }
        ensures grows { Grows self.old.list.items self.new.list.items }
    {
        if let Some(place) = target_among(&self.list, &self.targets, at) {
            return Ok(place);
        }
        self.targets.push(self.list.len())?;
        self.add(Part::Target(at.copy(alloc)?))
    }

    // The place of what is offered. Only memory can fail.
    fn offered(
        &mut self,
        alloc: Global,
        entity: &EntityId,
        payload: u64,
    ) -> Result<usize, AllocError>
        ensures place { IfOk result (λ place. offered_at self.new.list.items place ≡ Some (entity.now, payload)) }
        ensures grows { Grows self.old.list.items self.new.list.items }
    {
        self.add(Part::Offered(entity.copy(alloc)?, payload))
    }
}

// The place at an index, if there is one.
fn place_of(places: &[usize], index: Option<u32>) -> Option<usize> {
    places.get(index? as usize).copied()
}

// The process stands at the place.
fn is_process_at(list: &[Part], place: usize, who: &Unique) -> bool
    ensures { IsTrue result → process_at list.now place ≡ Some who.now }
{
    match list.get(place) {
        Some(Part::Process(name)) => name.is(who),
        _ => false,
    }
}

// The address stands at the place.
fn is_target_at(list: &[Part], place: usize, at: &Address) -> bool
    ensures { IsTrue result → target_at list.now place ≡ Some at.now }
{
    match list.get(place) {
        Some(Part::Target(target)) => target.is(at),
        _ => false,
    }
}

// The one of these places at which the process stands.
fn process_among(list: &[Part], places: &[usize], who: &Unique) -> Option<usize>
    ensures { IfSome result (λ place. process_at list.now place ≡ Some who.now) }
{
    places
        .iter()
        .copied()
        .find(|place| is_process_at(list, *place, who))
}

// The one of these places at which the address stands.
fn target_among(list: &[Part], places: &[usize], at: &Address) -> Option<usize>
    ensures { IfSome result (λ place. target_at list.now place ≡ Some at.now) }
{
    places
        .iter()
        .copied()
        .find(|place| is_target_at(list, *place, at))
}

// An event, with the places of what it names.
#[derive(Clone, Copy)]
enum Form {
    Start(usize),
    Found(usize),
    Join(usize, usize),
    Tick(u32, usize),
    Deliver(u64),
    Leave(usize, usize),
    Down(usize, usize),
    Offer(usize, usize),
    Stop(usize),
}

// An event to be kept, of the node of this start number; it shares its names with those kept before. Only memory can fail.
fn form_of(
    alloc: Global,
    event: &Event,
    node: Option<u32>,
    parts: &mut Parts,
) -> Result<Form, AllocError>
    ensures form { IfOk result (λ form. event_of parts.new.list.items form ≡ Some event.now) }
    ensures grows { Grows parts.old.list.items parts.new.list.items }
{
    match event {
        Event::Start(who) => Ok(Form::Start(parts.start(alloc, who)?)),
        Event::Found(who) => Ok(Form::Found(parts.actor(alloc, node, who)?)),
        Event::Join(who, target) => {
            let who = parts.actor(alloc, node, who)?;
            Ok(Form::Join(who, parts.target(alloc, target)?))
        }
        Event::Tick(who, word) => Ok(Form::Tick(*word, parts.actor(alloc, node, who)?)),
        Event::Deliver(number) => Ok(Form::Deliver(*number)),
        Event::Leave(who, member) => {
            let who = parts.actor(alloc, node, who)?;
            Ok(Form::Leave(who, parts.process(alloc, member)?))
        }
        Event::Down(who, member) => {
            let who = parts.actor(alloc, node, who)?;
            Ok(Form::Down(who, parts.process(alloc, member)?))
        }
        Event::Offer(who, entity, payload) => {
            let who = parts.actor(alloc, node, who)?;
            Ok(Form::Offer(who, parts.offered(alloc, entity, *payload)?))
        }
        Event::Stop(who) => Ok(Form::Stop(parts.actor(alloc, node, who)?)),
    }
}

/// The events that a world accepted, in as little memory as they can be kept. Contracts see the events.
#[derive(Drop)]
pub struct Accepted {
    forms: Vec<Form>,
    parts: Parts,
}

impl Model for Accepted {
    ghost use Rattle.std.specs.Prelude.{List};
    ghost use Rattle.std.specs.Coded.{codes};
    ghost use Rattle.ak_address.specs.Unique.{coded_address, coded_unique};
    ghost use Rattle.ak_schedule.specs.declared.event.Event.{Event};
    ghost use Rattle.ak_accepted.specs.Accepted.{events_of, AreKept};

    ghost Value = { List Event };

    ghost coded = { Prim.hlevel (codes, coded_address, coded_unique) };

    ghost view = { λ a. events_of a.parts.list.items a.forms.items };

    ghost invariant = { λ a. AreKept a.parts.list.items a.forms.items };
}

impl Accepted {
    /// No event. Takes no memory.
    pub fn none(alloc: Global) -> Accepted
        ensures { result ≡ [] }
    {
        Accepted {
            forms: Vec::new(alloc),
            parts: Parts::none(alloc),
        }
    }

    /// No event any more; the room that they took is kept. Takes no memory.
    pub fn clear(&mut self)
        ensures { self.new ≡ [] }
    {
        self.forms.clear();
        self.parts.clear();
    }

    /// How many events there are.
    pub fn len(&self) -> u64
        ensures { result ≡ length self.now }
    {
        self.forms.len() as u64
    }

    /// One more event, of the node of this start number, if it is of one: where the one that acts was named is sought there first, and
    /// the event is kept whatever the number is. An error leaves the events as they were; only memory can fail.
    #[inline(always)]
    pub fn push(
        &mut self,
        alloc: Global,
        event: &Event,
        node: Option<u32>,
    ) -> Result<(), AllocError>
        ensures ok { OnOk result (self.new ≡ self.old ++ event.now ∷ []) }
        ensures err { OnErr result (self.new ≡ self.old) }
    {
        // Most events are deliveries, which name nobody.
        let Event::Deliver(number) = event else {
            return self.push_named(alloc, event, node);
        };
        self.forms.push(Form::Deliver(*number))?;
        Ok(())
    }

    // An event that names somebody.
    fn push_named(
        &mut self,
        alloc: Global,
        event: &Event,
        node: Option<u32>,
    ) -> Result<(), AllocError>
        ensures ok { OnOk result (self.new ≡ self.old ++ event.now ∷ []) }
        ensures err { OnErr result (self.new ≡ self.old) }
    {
        let form = form_of(alloc, event, node, &mut self.parts)?;
        self.forms.push(form)?;
        Ok(())
    }
}
