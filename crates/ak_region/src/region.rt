ghost use Rattle.std.specs.Prelude.{◌≡◌, ◌≢◌, ◌≤◌, ◌<◌, [], false, length, IfOk, OnOk, OnErr, IfSome, IsTrue};
ghost use Rattle.ak_settings.specs.Settings.{division_of};
ghost use Rattle.ak_region.specs.RegionModel.{RegionModel, Message, IsRegion};
ghost use Rattle.ak_region.specs.Slot.{is_known_at, at_home, host_answer, after_host, begun, gives_up, handed_off, can_flush};
ghost use Rattle.ak_region.specs.Region.{new_region, slot_of, with_slot, entity_shard, route, TakesRoom, after_offer, flushed, after_flush, wanted, after_forget, hosts_any, reports};

use crate::buffer::{take_those_for, wait, wanted_in};
use crate::homes::{Home, add_home, are_members, keep_members};
use crate::slot::{Hosting, Slot};
use crate::told::{can_flush_at, home_at, hosted_at, hosting_at, is_known_at, reach, receives_at};
use crate::walks::{any_hosted, forget_strangers, reports_of};
use ak_address::{Text, Unique};
use ak_member::Members;
use ak_settings::{Settings, copy_texts};
use ak_shard_id::{Division, Report};
use circular_buffer::HeapCircularBuffer;
use std::alloc::{AllocError, Global};
use std::marker::Model;

/// What came of an offered message; the entity's id is given back where the message does not wait.
#[derive(Debug, Drop)]
pub enum Offered {
    /// The node hosts the entity's shard: the message is for the entity.
    Delivered(Text),
    /// The shard has its home at that other node.
    Forwarded(Unique, Text),
    /// The message waits.
    Buffered,
    /// Too many messages wait already.
    Dropped(Text),
}

/// A message that waits: the entity's id, and the payload.
#[derive(Debug, Drop)]
pub struct Waiting {
    pub entity: Text,
    pub payload: u64,
}

impl Model for Waiting {
    ghost use Rattle.ak_region.specs.RegionModel.{Message, coded_message};

    ghost Value = { Message };

    ghost coded = { coded_message };

    ghost view = { λ w. record { entity = w.entity; payload = w.payload } };
}

/// The shards as one node knows them, and the messages that wait there (Akka's Cluster Sharding, the shard region). A shard
/// has a hosted number where the node hosts it, a mark (the greatest allocation number that the node was told of it), a hold
/// while it is handed off, and a home as far as it is known.
#[derive(Drop)]
pub struct Region {
    // The slots up to the last shard that was told of, in room for all.
    told: Vec<Slot>,
    // Each home that one of these slots has, once, and maybe more: whether there is a home to forget is read off these few.
    homes: Vec<Home>,
    // How entities are divided, into so many shards.
    division: Division,
    shards: u32,
    buffer: HeapCircularBuffer<Waiting>,
    most: u32,
}

impl Model for Region {
    ghost use Rattle.std.specs.Prelude.{vec_capacity};
    ghost use Rattle.ak_region.specs.RegionModel.{RegionModel, coded_region};
    ghost use Rattle.ak_region.specs.Stored.{all_slots, IsStored};

    ghost Value = { RegionModel };

    ghost coded = { coded_region };

    ghost view = { λ r. record { division = r.division; slots = all_slots r.shards r.told.items; messages = r.buffer.items; most = r.most } };

    // There is room for the slots of all shards, so that what is told of a shard takes none; and each home of a slot is listed, so
    // that a stranger among them is not overlooked.
    ghost invariant = { λ r. IsStored r.division r.shards (vec_capacity r.told) r.most r.homes.items r.told.items r.buffer.items };
}

impl Region {
    /// Nothing was told of any shard, and nothing waits. There are 1 to 1000 shards, whose room is set aside and used as they are
    /// told of, and 1 to 100000 messages may wait, as the settings say; the memory for them is taken as they come. Only memory can
    /// fail.
    pub fn new(alloc: Global, settings: &Settings) -> Result<Region, AllocError>
        ensures { IfOk result (λ region. region ≡ new_region (division_of settings.now) settings.now.buffer) }
    {
        settings.invariant();
        let types = copy_texts(alloc, &settings.types)?;
        let division = Division::of(types, settings.shards);
        division.invariant();
        let shards = division.shards();
        let buffer = settings.buffer;
        let told = Vec::with_capacity(alloc, shards as usize)?;
        let homes = Vec::new(alloc);
        let most = buffer;
        let buffer = HeapCircularBuffer::with_capacity(alloc, 0)?;
        Ok(Region {
            told,
            homes,
            division,
            shards,
            buffer,
            most,
        })
    }

    /// How many shards there are, from 1 to 1000; the calls below take those from 0 on. Takes no memory.
    #[tactic(auto, using(crate::proofs::StoredLemmas::all_length))]
    pub fn shards(&self) -> u32
        ensures { result ≡ length self.now.slots }
    {
        self.shards
    }

    /// Forgets everything: nothing was told of any shard, and nothing waits. Takes no memory.
    #[tactic(auto, using(crate::proofs::StoredLemmas::all_length))]
    pub fn restart(&mut self)
        ensures { self.new ≡ new_region self.old.division self.old.most }
    {
        self.told.clear();
        self.homes.clear();
        self.buffer.clear();
    }

    /// Tells a proof that there are 1 to 1000 shards, those of its division, and that no more messages wait than may. It does
    /// nothing.
    #[tactic(auto, using(crate::proofs::StoredLemmas::all_length))]
    pub fn invariant(&self)
        ensures { IsRegion self.now }
    {
        let _most = self.most;
    }

    /// The shard of an entity. Takes no memory.
    #[tactic(auto, using(crate::proofs::StoredLemmas::all_length))]
    pub fn shard_of(&self, entity: &Text) -> u32
        ensures is { result ≡ entity_shard self.now entity.now }
        ensures below { result < length self.now.slots }
    {
        self.division.shard_in(entity.bytes())
    }

    /// What comes of a message to an entity: it is delivered where the entity's shard is hosted here and not held; it is
    /// forwarded where the shard is not held and its home is another node; else it waits, or is dropped where as many wait as
    /// may. After an error nothing has changed; only memory can fail, and only of a message that is forwarded or waits.
    #[tactic(auto, using(crate::proofs::StoredLemmas::at_all))]
    pub fn offer(
        &mut self,
        alloc: Global,
        me: &Unique,
        entity: Text,
        payload: u64,
    ) -> Result<Offered, AllocError>
        ensures answer { IfOk result (λ offered. offered ≡ route me.now self.old entity) }
        ensures after { IfOk result (λ offered. self.new ≡ after_offer offered (record { entity = entity; payload = payload }) self.old) }
        ensures err { OnErr result (TakesRoom (route me.now self.old entity) × (self.new ≡ self.old)) }
    {
        let shard = self.shard_of(&entity);
        if receives_at(&self.told, shard) {
            return Ok(Offered::Delivered(entity));
        }
        if let Some(home) = home_at(&self.told, me, shard) {
            let home = home.copy(alloc)?;
            return Ok(Offered::Forwarded(home, entity));
        }
        wait(&mut self.buffer, self.most, entity, payload)
    }

    /// The home of the shard is known, and a hold ends. Where it was known already, and the shard is not held, nothing changes and no
    /// memory is taken. After an error nothing has changed; only memory can fail.
    #[tactic(auto, using(crate::proofs::StoredLemmas::at_all, crate::proofs::StoredLemmas::all_length))]
    pub fn on_home(&mut self, alloc: Global, shard: u32, owner: &Unique) -> Result<(), AllocError>
        requires { shard < length self.old.slots }
        ensures ok { OnOk result (self.new ≡ with_slot self.old shard (at_home owner.now (slot_of self.old shard))) }
        ensures err { OnErr result (self.new ≡ self.old) }
        ensures memory { OnErr result (is_known_at owner.now (slot_of self.old shard) ≡ false) }
    {
        if is_known_at(&self.told, shard, owner) {
            return Ok(());
        }
        let home = owner.copy(alloc)?;
        add_home(&mut self.homes, alloc, owner)?;
        reach(&mut self.told, shard);
        self.told[shard as usize].set_home(home);
        Ok(())
    }

    /// The order to host the shard with an allocation number. New: the node did not host it, and the number is above its
    /// mark; the node hosts it from now on with that number, which is its mark, it is not held, and its home is the node.
    /// Again: it is hosted with that number. Ignored: anything else. Only New changes anything. After an error nothing has
    /// changed; only memory can fail.
    #[tactic(auto, using(crate::proofs::StoredLemmas::at_all, crate::proofs::StoredLemmas::all_length))]
    pub fn on_host(
        &mut self,
        alloc: Global,
        me: &Unique,
        shard: u32,
        number: u64,
    ) -> Result<Hosting, AllocError>
        requires { shard < length self.old.slots }
        ensures answer { IfOk result (λ hosting. hosting ≡ host_answer number (slot_of self.old shard)) }
        ensures after { IfOk result (λ hosting. self.new ≡ with_slot self.old shard (after_host me.now number hosting (slot_of self.old shard))) }
        ensures err { OnErr result (self.new ≡ self.old) }
        ensures memory { OnErr result (host_answer number (slot_of self.old shard) ≡ Hosting.New) }
    {
        match hosting_at(&self.told, shard, number) {
            Hosting::Again => return Ok(Hosting::Again),
            Hosting::Ignored => return Ok(Hosting::Ignored),
            Hosting::New => {}
        }
        let home = me.copy(alloc)?;
        add_home(&mut self.homes, alloc, me)?;
        reach(&mut self.told, shard);
        self.told[shard as usize].host(home, number);
        Ok(Hosting::New)
    }

    /// A hand-off of the shard begins: it is held, and its home is forgotten. Takes no memory.
    #[tactic(auto, using(crate::proofs::StoredLemmas::at_all, crate::proofs::StoredLemmas::all_length))]
    pub fn on_begin(&mut self, shard: u32)
        requires { shard < length self.old.slots }
        ensures { self.new ≡ with_slot self.old shard (begun (slot_of self.old shard)) }
    {
        reach(&mut self.told, shard);
        self.told[shard as usize].begin();
    }

    /// The shard is handed off with an allocation number: its mark is at least that number, and where the node hosted it with
    /// at most that number, it hosts it no more. Whether it hosted it so. Takes no memory.
    #[tactic(auto, using(crate::proofs::StoredLemmas::at_all, crate::proofs::StoredLemmas::all_length))]
    pub fn on_hand_off(&mut self, shard: u32, number: u64) -> bool
        requires { shard < length self.old.slots }
        ensures gone { result ≡ gives_up number (slot_of self.old shard) }
        ensures after { self.new ≡ with_slot self.old shard (handed_off number (slot_of self.old shard)) }
    {
        reach(&mut self.told, shard);
        self.told[shard as usize].hand_off(number)
    }

    /// The messages that wait for the shard leave the buffer, in their order, where it is not held and is hosted here or has
    /// its home at another node; the others keep their order. Elsewhere none leaves, and where none leaves no memory is taken. Only
    /// memory can fail, and then nothing waits any more: what waited is lost, and who calls is told so.
    #[tactic(auto, using(crate::proofs::StoredLemmas::at_all, crate::proofs::StoredLemmas::all_length))]
    pub fn flush(
        &mut self,
        alloc: Global,
        me: &Unique,
        shard: u32,
    ) -> Result<Vec<Waiting>, AllocError>
        requires { shard < length self.old.slots }
        ensures left { IfOk result (λ gone. gone.items ≡ flushed me.now shard self.old) }
        ensures stayed { OnOk result (self.new ≡ after_flush me.now shard self.old) }
        ensures lost { OnErr result (IsTrue (can_flush me.now (slot_of self.old shard)) × (self.new ≡ record self.old { messages = [] })) }
        ensures memory { OnErr result (flushed me.now shard self.old ≢ []) }
        ensures shards { length self.new.slots ≡ length self.old.slots }
    {
        if !can_flush_at(&self.told, me, shard) {
            return Ok(Vec::new(alloc));
        }
        let taken = take_those_for(alloc, &mut self.buffer, &self.division, shard);
        if taken.is_err() {
            self.buffer.clear();
        }
        taken
    }

    /// The shards whose home is asked for: those for which a message waits, each once, in the order of the first message, but
    /// for those that are hosted here and not held. Only memory can fail, and only where there is such a shard.
    pub fn wanted(&self, alloc: Global) -> Result<Vec<u32>, AllocError>
        ensures found { IfOk result (λ shards. shards.items ≡ wanted self.now) }
        ensures memory { OnErr result (wanted self.now ≢ []) }
    {
        wanted_in(alloc, &self.told, &self.division, self.shards, &self.buffer)
    }

    /// Homes that are no members are forgotten. Takes no memory.
    pub fn forget(&mut self, members: &Members)
        ensures { self.new ≡ after_forget members.now self.old }
    {
        // Mostly there is none, and then no slot is looked at.
        if are_members(&mut self.homes, members) {
            return;
        }
        forget_strangers(&mut self.told, members);
        keep_members(&mut self.homes, members);
    }

    /// The number with which the node hosts the shard, which is its mark; none where it does not. Takes no memory.
    #[tactic(auto, using(crate::proofs::StoredLemmas::at_all))]
    pub fn hosts(&self, shard: u32) -> Option<u64>
        requires { shard < length self.now.slots }
        ensures hosted { result ≡ (slot_of self.now shard).hosted }
        ensures marked { IfSome result (λ number. number ≡ (slot_of self.now shard).mark) }
    {
        hosted_at(&self.told, shard)
    }

    /// Whether the node hosts any shard. Takes no memory.
    #[tactic(auto, using(crate::proofs::StoredLemmas::all_hosted))]
    pub fn hosts_any(&self) -> bool
        ensures { result ≡ hosts_any self.now }
    {
        any_hosted(&self.told)
    }

    /// What a new coordinator is told: each shard whose mark is not 0, in ascending order, with its mark, and whether the
    /// node hosts it. Only memory can fail, and only where there is such a shard.
    #[tactic(auto, using(crate::proofs::StoredLemmas::all_reported))]
    pub fn reports(&self, alloc: Global) -> Result<Vec<Report>, AllocError>
        ensures found { IfOk result (λ found. found.items ≡ reports self.now) }
        ensures memory { OnErr result (reports self.now ≢ []) }
    {
        reports_of(alloc, &self.told)
    }
}
