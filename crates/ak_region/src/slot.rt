ghost use Rattle.std.specs.Prelude.{◌≡◌, option_copied};
ghost use Rattle.ak_region.specs.Slot.{untold, receives, other_home, can_flush, is_some_unique, is_known_at, at_home, host_answer, after_host, begun, gives_up, handed_off, without_stranger};

use ak_address::Unique;
use ak_member::Members;
use std::marker::Model;

/// What came of the order to host a shard.
#[derive(Clone, Copy, Debug, PartialEq, Eq)]
pub enum Hosting {
    /// The node hosts the shard from now on.
    New,
    /// The node hosts it with that number already.
    Again,
    /// Nothing: the order is an old one.
    Ignored,
}

// What a node knows of one shard: the number with which it hosts it, the greatest allocation number that it was told, whether
// the shard is held, and its home as far as it is known.
#[derive(Drop)]
pub(crate) struct Slot {
    pub(crate) hosted: Option<u64>,
    pub(crate) mark: u64,
    pub(crate) held: bool,
    pub(crate) home: Option<Unique>,
}

impl Model for Slot {
    ghost use Rattle.ak_region.specs.Shards.{ShardSlot, coded_slot, IsSlot};

    ghost Value = { ShardSlot };

    ghost coded = { coded_slot };

    ghost view = { λ s. record { hosted = s.hosted; mark = s.mark; held = s.held; home = s.home } };

    // A shard is hosted with its mark, so that no order up to that number hosts it again; numbers begin at 1.
    ghost invariant = { λ s. IsSlot (record { hosted = s.hosted; mark = s.mark; held = s.held; home = s.home }) };
}

impl Slot {
    // Nothing was told of the shard yet.
    pub(crate) fn untold() -> Slot
        ensures { result ≡ untold }
    {
        Slot {
            hosted: None,
            mark: 0,
            held: false,
            home: None,
        }
    }

    // Whether messages to the shard are delivered here.
    pub(crate) fn receives(&self) -> bool
        ensures { result ≡ receives self.now }
    {
        self.hosted.is_some() && !self.held
    }

    // The other node to which messages are forwarded, where there is one.
    pub(crate) fn other_home(&self, me: &Unique) -> Option<&Unique>
        ensures { option_copied result ≡ other_home me.now self.now }
    {
        match &self.home {
            Some(home) => {
                if self.held || home.is(me) {
                    return None;
                }
                Some(home)
            }
            None => None,
        }
    }

    // Whether messages that wait for the shard may go.
    pub(crate) fn can_flush(&self, me: &Unique) -> bool
        ensures { result ≡ can_flush me.now self.now }
    {
        self.receives() || self.other_home(me).is_some()
    }

    // Whether the home is known to be there, and the shard is not held.
    pub(crate) fn is_known_at(&self, home: &Unique) -> bool
        ensures { result ≡ is_known_at home.now self.now }
    {
        !self.held && is_process(self.home.as_ref(), home)
    }

    // The home is known, and the hold ends.
    pub(crate) fn set_home(&mut self, home: Unique)
        ensures { self.new ≡ at_home home self.old }
    {
        self.home = Some(home);
        self.held = false;
    }

    // What comes of the order to host the shard with a number.
    pub(crate) fn hosting(&self, number: u64) -> Hosting
        ensures { result ≡ host_answer number self.now }
    {
        match self.hosted {
            Some(hosted) => {
                if hosted == number {
                    return Hosting::Again;
                }
                return Hosting::Ignored;
            }
            None => {}
        }
        if number <= self.mark {
            return Hosting::Ignored;
        }
        Hosting::New
    }

    // Hosts the shard, where it is ordered so anew: it has its home here then.
    pub(crate) fn host(&mut self, me: Unique, number: u64)
        requires { host_answer number self.old ≡ Hosting.New }
        ensures { self.new ≡ after_host me number Hosting.New self.old }
    {
        self.hosted = Some(number);
        self.mark = number;
        self.held = false;
        self.home = Some(me);
    }

    // The shard is held, and its home is forgotten.
    pub(crate) fn begin(&mut self)
        ensures { self.new ≡ begun self.old }
    {
        self.held = true;
        self.home = None;
    }

    // Hands the shard off, with its number; whether the node hosted it until now.
    pub(crate) fn hand_off(&mut self, number: u64) -> bool
        ensures gone { result ≡ gives_up number self.old }
        ensures after { self.new ≡ handed_off number self.old }
    {
        if number < self.mark {
            return false;
        }
        self.mark = number;
        let gone = self.hosted.is_some();
        self.hosted = None;
        gone
    }

    // A home that is no member is forgotten.
    pub(crate) fn forget(&mut self, members: &Members)
        ensures { self.new ≡ without_stranger members.now self.old }
    {
        let is_stranger = match &self.home {
            Some(home) => members.get(home).is_none(),
            None => false,
        };
        if is_stranger {
            self.home = None;
        }
    }
}

// The first process, where there is one, is the second.
fn is_process(first: Option<&Unique>, second: &Unique) -> bool
    ensures { result ≡ is_some_unique (option_copied first.entry) second.now }
{
    match first {
        Some(first) => first.is(second),
        None => false,
    }
}
