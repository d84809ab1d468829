ghost use Rattle.std.specs.Prelude.{◌≡◌, ◌≢◌, [], IfOk, OnErr};
ghost use Rattle.ak_promise.specs.Promise.{is_some_ballot};
ghost use Rattle.ak_singleton.specs.Singleton.{is_asking};
ghost use Rattle.ak_sharding.specs.Hosts as hosts;
ghost use Rattle.ak_sharding.specs.Coordinates as coordinates;

use ak_address::Unique;
use ak_allocation::Load;
use ak_coordinator::Coordinator;
use ak_member::Members;
use ak_promise::Ballot;
use ak_settings::Settings;
use ak_settled::Settled;
use ak_singleton::{Phase, Singleton};
use std::alloc::{AllocError, Global};
use std::marker::Model;

/// What the rules of shards read of their node, and leave as it is: the process, the settings, the settled view, the members that
/// it knows, and its part in the singleton.
#[derive(Drop)]
pub struct Around<'a> {
    pub me: &'a Unique,
    pub settings: &'a Settings,
    pub settled: &'a Settled,
    pub members: &'a Members,
    pub singleton: &'a Singleton,
}

impl<'a> Model for Around<'a> {
    ghost use Rattle.ak_sharding.specs.Sharding as sharding;
    ghost use Rattle.ak_sharding.specs.ShardingView.{coded_around};

    ghost Value = { sharding.Around };

    ghost coded = { coded_around };

    ghost view = { λ a. record { me = a.me.now; settings = a.settings.now; settled = a.settled.now.view; members = a.members.now; singleton = a.singleton.now } };
}

impl<'a> Around<'a> {
    // The ballot is the last that the node promised.
    pub(crate) fn is_bound(&self, ballot: &Ballot) -> bool
        ensures { result ≡ hosts.is_bound self.now ballot.now }
    {
        match self.singleton.promise().last() {
            Some(last) => last.compare(ballot).is_eq(),
            None => false,
        }
    }

    pub(crate) fn is_active(&self) -> bool
        ensures { result ≡ coordinates.is_active self.now.singleton.phase }
    {
        match self.singleton.phase() {
            Phase::Younger => false,
            Phase::Asking => false,
            Phase::Active => true,
            Phase::Ended => false,
        }
    }

    pub(crate) fn is_asking(&self) -> bool
        ensures { result ≡ is_asking self.now.singleton.phase }
    {
        match self.singleton.phase() {
            Phase::Younger => false,
            Phase::Asking => true,
            Phase::Active => false,
            Phase::Ended => false,
        }
    }

    // The ballot is that with which the node is active.
    pub(crate) fn is_active_with(&self, ballot: &Ballot) -> bool
        ensures { result ≡ coordinates.is_active_with self.now ballot.now }
    {
        self.is_active() && self.is_live(ballot)
    }

    fn is_live(&self, ballot: &Ballot) -> bool
        ensures { result ≡ is_some_ballot self.now.singleton.live ballot.now }
    {
        match self.singleton.live() {
            Some(live) => live.compare(ballot).is_eq(),
            None => false,
        }
    }

    // How many shards have their home at each Up member of the settled view that has granted. Takes memory only where there is
    // one.
    pub(crate) fn loads(&self, alloc: Global, table: &Coordinator) -> Result<Vec<Load>, AllocError>
        ensures ok { IfOk result (λ loads. loads.items ≡ coordinates.loads self.now table.now) }
        ensures memory { OnErr result (coordinates.loads self.now table.now ≢ []) }
    {
        table.loads(alloc, self.singleton.granted(), self.settled)
    }
}
