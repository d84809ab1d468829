ghost use Rattle.std.specs.Prelude.{◌≡◌, ◌≢◌, ◌<◌, ◌^◌, ◌==◌, not, nat_le, [], ◌∷◌, IfOk, OnOk, OnErr, IsTrue, true, false, None, option_copied};
ghost use Rattle.std.specs.FinMap as map;
ghost use Rattle.ak_address.specs.Uniques.{has};
ghost use Rattle.ak_gossip.specs.Gossip.{MayUpdate, is_known};
ghost use Rattle.ak_member.specs.Standing as standing;
ghost use Rattle.ak_settings.specs.Settings.{is_listed};
ghost use Rattle.ak_leader.specs.Leader as leads;
ghost use Rattle.ak_sight.specs.Counted.{IsTallyOf};
ghost use Rattle.ak_sight.specs.Sight.{is_news};
ghost use Rattle.ak_membership.specs.Membership as rules;
ghost use Rattle.ak_membership.specs.MembershipContracts.{Makes, Answers, IsAccepted, IsCounting, IsKnownIn, IsUnknown, MayAdmit, MayConfirm, MayDown, RestsIf, LeavesAtRest, IsWatching, KnowsItself, Receives, or_no_memory};
ghost use Rattle.ak_membership.specs.Tick as ticks;

use crate::change::{Change, MemberFault, Reply};
use crate::members::{downed_beside, has_member_beside, is_down, is_known};
use ak_address::{Address, Unique, Uniques};
use ak_clock::{BOUND, Version};
use ak_detector::Detector;
use ak_gossip::{Gossip, GossipFault, Received};
use ak_member::{Effect, Effects, Status};
use ak_settings::Settings;
use ak_settled::Settled;
use ak_sight::{KeptTally, keep_tally, keep_tally_received, moves};
use std::alloc::{AllocError, Global};

/// A view that holds this many uniques admits no further process: so two views that grew by joins apart hold no more together than
/// a gossip may, and can be merged.
const MOST_AT_JOIN: usize = 64;

/// What a process keeps of its cluster, as plain data.
#[derive(Drop)]
pub struct MembershipState {
    /// The process that it is.
    pub me: Unique,
    pub settings: Settings,
    pub gossip: Gossip,
    /// The version that was last shown: that at the last closing.
    pub shown: Version,
    /// It founded the cluster.
    pub founder: bool,
    /// The address through which it joins.
    pub target: Option<Address>,
    /// How many ticks it had as a member.
    pub ticks: u64,
    /// For how many ticks its view stood still, counted up to as many as the settings ask.
    pub stable: u32,
    /// For how many ticks its view did not settle, counted up to as many as the settings ask.
    pub weak: u32,
    /// Members are shown otherwise than at the last closing.
    pub moved: bool,
    /// The members that it watches.
    pub detector: Detector,
    /// The members that said that they stop.
    pub confirmed: Uniques,
    /// The last view that it noted as settled.
    pub settled: Settled,
}

// Nothing changed.
pub(crate) fn unchanged(alloc: Global) -> Change
    ensures { result ≡ rules.no_change }
{
    Change {
        number: None,
        effects: Effects::empty(alloc),
        reply: Reply::Nothing,
    }
}

// The addresses with the role.
pub(crate) fn role_of(settings: &Settings) -> &[Address]
    ensures { result.now ≡ settings.now.role }
{
    &settings.role
}

// One effect alone.
pub(crate) fn one(alloc: Global, effect: Effect) -> Result<Effects, AllocError>
    ensures { IfOk result (λ effects. effects ≡ effect ∷ []) }
{
    let mut effects = Effects::empty(alloc);
    effects.push(effect)?;
    Ok(effects)
}

// Out of memory is one of the answers of a call that may refuse.
fn or_no_memory(change: Result<Change, AllocError>) -> Result<Change, MemberFault>
    ensures { result ≡ or_no_memory change }
{
    Ok(change?)
}

// A gossip that was received so may show other members than those that were known.
fn is_news(received: Received) -> bool
    ensures { result ≡ is_news received }
{
    match received {
        Received::Same => false,
        Received::Newer => true,
        Received::Older => false,
        Received::Merged => true,
    }
}

impl MembershipState {
    /// Whether the process is a member of its own view. Takes no memory.
    pub(crate) fn is_member(&self) -> bool
        ensures { result ≡ rules.is_member self.now }
    {
        self.gossip.members().get(&self.me).is_some()
    }

    /// Whether anybody is known, a tombstone too. Takes no memory.
    pub(crate) fn knows_anybody(&self) -> bool
        ensures { result ≡ not (map.len self.now.gossip.view.standings == 0) }
    {
        self.gossip.members().uniques() != 0
    }

    pub(crate) fn has_member(&self, who: &Unique) -> bool
        ensures { result ≡ standing.is_member self.now.gossip.view.standings who.now }
    {
        self.gossip.members().get(who).is_some()
    }

    fn knows(&self, who: &Unique) -> bool
        ensures { result ≡ is_known self.now.gossip.view.standings who.now }
    {
        is_known(self.gossip.members(), who)
    }

    /// Whether its view shows it as Down or as a tombstone. Takes no memory.
    pub(crate) fn is_gone(&self) -> bool
        ensures { result ≡ rules.is_gone self.now }
    {
        self.gossip.members().is_gone(&self.me)
    }

    // The address of the process is one of the cluster's.
    fn is_listed(&self, who: &Unique) -> bool
        ensures { result ≡ is_listed self.now.settings.listed who.now.address }
    {
        self.settings.is_listed(&who.address)
    }

    fn is_down(&self, who: &Unique) -> bool
        ensures { result ≡ standing.is_member_with standing.is_down self.now.gossip.view.standings who.now }
    {
        is_down(self.gossip.members(), who)
    }

    // Another member is at the address of this process.
    fn has_member_beside(&self, who: &Unique) -> bool
        ensures { result ≡ rules.has_member_beside who.now self.now.gossip.view.standings }
    {
        has_member_beside(who, self.gossip.members())
    }

    // What is known holds as many processes as a view may that admits others.
    fn is_full(&self) -> bool
        ensures { result ≡ nat_le rules.most_at_join (map.len self.now.gossip.view.standings) }
    {
        self.gossip.members().uniques() >= MOST_AT_JOIN
    }

    pub(crate) fn may_count(&self) -> bool
        ensures { result ≡ rules.may_count self.now }
    {
        self.gossip.version().count(&self.me) < BOUND
    }

    // The next update, by these effects. Where the tally finds no memory the gossip goes back to what it was.
    fn make(
        &mut self,
        alloc: Global,
        effects: Effects,
        tally: &mut KeptTally,
    ) -> Result<Change, AllocError>
        requires may { MayUpdate self.old.me effects self.old.gossip }
        requires tally { IsTallyOf self.old.settings.role tally.old self.old.gossip }
        ensures ok { IfOk result (λ change. Makes (rules.made effects self.old) self.new change) }
        ensures err { OnErr result (self.new ≡ self.old) }
        ensures tally { IsTallyOf self.new.settings.role tally.new self.new.gossip }
    {
        let before = self.gossip.copy(alloc)?;
        let number = self.gossip.update(alloc, &self.me, &effects)?;
        if let Err(error) = keep_tally(
            alloc,
            role_of(&self.settings),
            &before,
            &self.gossip,
            tally,
        ) {
            self.gossip = before;
            return Err(error);
        }
        self.moved = moves(self.moved, &before, &self.gossip);
        Ok(Change {
            number: Some(number),
            effects,
            reply: Reply::Nothing,
        })
    }

    // The same, where a number is left for it.
    pub(crate) fn update(
        &mut self,
        alloc: Global,
        effects: Effects,
        tally: &mut KeptTally,
    ) -> Result<Change, AllocError>
        requires may { IsTrue (rules.may_count self.old) → MayUpdate self.old.me effects self.old.gossip }
        requires tally { IsTallyOf self.old.settings.role tally.old self.old.gossip }
        ensures ok { IfOk result (λ change. Makes (rules.update effects self.old) self.new change) }
        ensures err { OnErr result (self.new ≡ self.old) }
        ensures tally { IsTallyOf self.new.settings.role tally.new self.new.gossip }
    {
        if self.may_count() {
            return self.make(alloc, effects, tally);
        }
        Ok(unchanged(alloc))
    }

    // The same, where there are effects.
    pub(crate) fn update_any(
        &mut self,
        alloc: Global,
        effects: Effects,
        tally: &mut KeptTally,
    ) -> Result<Change, AllocError>
        requires may { IsTrue (rules.may_count self.old) → MayUpdate self.old.me effects self.old.gossip }
        requires tally { IsTallyOf self.old.settings.role tally.old self.old.gossip }
        ensures ok { IfOk result (λ change. Makes (rules.update_any effects self.old) self.new change) }
        ensures err { OnErr result (self.new ≡ self.old) }
        ensures memory { OnErr result (IsTrue (ticks.has_effect effects)) }
        ensures tally { IsTallyOf self.new.settings.role tally.new self.new.gossip }
    {
        if effects.len() == 0 {
            return Ok(unchanged(alloc));
        }
        self.update(alloc, effects, tally)
    }

    // A member rises to this status, without a number.
    fn raise(
        &mut self,
        alloc: Global,
        who: &Unique,
        status: Status,
        tally: &mut KeptTally,
    ) -> Result<Change, AllocError>
        requires may { IsTrue (rules.may_count self.old) → MayUpdate self.old.me (Effect.Rise who.now status 0 ∷ []) self.old.gossip }
        requires tally { IsTallyOf self.old.settings.role tally.old self.old.gossip }
        ensures ok { IfOk result (λ change. Makes (rules.update (Effect.Rise who.now status 0 ∷ []) self.old) self.new change) }
        ensures err { OnErr result (IsCounting self.old × (self.new ≡ self.old)) }
        ensures tally { IsTallyOf self.new.settings.role tally.new self.new.gossip }
    {
        if !self.may_count() {
            return Ok(unchanged(alloc));
        }
        let raised = who.copy(alloc)?;
        let effects = one(alloc, Effect::Rise(raised, status, 0))?;
        self.update(alloc, effects, tally)
    }

    pub(crate) fn found(
        &mut self,
        alloc: Global,
        tally: &mut KeptTally,
    ) -> Result<Change, AllocError>
        requires itself { KnowsItself self.old.me self.old.gossip }
        requires tally { IsTallyOf self.old.settings.role tally.old self.old.gossip }
        ensures ok { IfOk result (λ change. Makes (rules.found self.old) self.new change) }
        ensures err { OnErr result (self.new ≡ self.old) }
        ensures memory { OnErr result (IsUnknown self.old) }
        ensures tally { IsTallyOf self.new.settings.role tally.new self.new.gossip }
    {
        if self.knows(&self.me) {
            return Ok(unchanged(alloc));
        }
        self.gossip.invariant();
        let me = self.me.copy(alloc)?;
        let effects = one(alloc, Effect::Joined(me))?;
        let change = self.update(alloc, effects, tally)?;
        self.founder = true;
        Ok(change)
    }

    pub(crate) fn leave(
        &mut self,
        alloc: Global,
        who: &Unique,
        tally: &mut KeptTally,
    ) -> Result<Change, MemberFault>
        requires tally { IsTallyOf self.old.settings.role tally.old self.old.gossip }
        ensures answers { Answers (IsCounting self.old × IsAccepted (rules.leave who.now self.old)) (rules.leave who.now self.old) self.old result self.new }
        ensures tally { IsTallyOf self.new.settings.role tally.new self.new.gossip }
    {
        if !self.is_member() {
            return Err(MemberFault::NotMember);
        }
        if !self.has_member(who) {
            return Err(MemberFault::UnknownMember);
        }
        if !self.gossip.members().is_up(who) {
            return Err(MemberFault::NotUp);
        }
        self.gossip.invariant();
        or_no_memory(self.raise(alloc, who, Status::Leaving, tally))
    }

    pub(crate) fn down(
        &mut self,
        alloc: Global,
        who: &Unique,
        tally: &mut KeptTally,
    ) -> Result<Change, MemberFault>
        requires tally { IsTallyOf self.old.settings.role tally.old self.old.gossip }
        ensures answers { Answers (MayDown who.now self.old × IsAccepted (rules.down who.now self.old)) (rules.down who.now self.old) self.old result self.new }
        ensures tally { IsTallyOf self.new.settings.role tally.new self.new.gossip }
    {
        if !self.is_member() {
            return Err(MemberFault::NotMember);
        }
        if !self.has_member(who) {
            return Err(MemberFault::UnknownMember);
        }
        if self.is_down(who) {
            return Ok(unchanged(alloc));
        }
        self.gossip.invariant();
        or_no_memory(self.raise(alloc, who, Status::Down, tally))
    }

    pub(crate) fn on_join(
        &mut self,
        alloc: Global,
        from: &Unique,
        tally: &mut KeptTally,
    ) -> Result<Change, MemberFault>
        requires tally { IsTallyOf self.old.settings.role tally.old self.old.gossip }
        ensures answers { Answers (MayAdmit from.now self.old × IsAccepted (rules.on_join from.now self.old)) (rules.on_join from.now self.old) self.old result self.new }
        ensures tally { IsTallyOf self.new.settings.role tally.new self.new.gossip }
    {
        if !self.is_member() {
            return Err(MemberFault::NotMember);
        }
        if !self.is_listed(from) {
            return Err(MemberFault::Unlisted);
        }
        if self.has_member(from) {
            let mut change = unchanged(alloc);
            change.reply = Reply::Welcome;
            return Ok(change);
        }
        if self.knows(from) {
            return Ok(unchanged(alloc));
        }
        if self.has_member_beside(from) {
            return or_no_memory(self.replace(alloc, from, tally));
        }
        if self.is_full() {
            self.gossip.invariant();
            let union = self.gossip.uniques() + 1;
            return Err(MemberFault::TooManyUniques { union });
        }
        or_no_memory(self.admit(alloc, from, tally))
    }

    // The members at the address of a new process go Down.
    fn replace(
        &mut self,
        alloc: Global,
        from: &Unique,
        tally: &mut KeptTally,
    ) -> Result<Change, AllocError>
        requires member { IsTrue (rules.is_member self.old) }
        requires tally { IsTallyOf self.old.settings.role tally.old self.old.gossip }
        ensures ok { IfOk result (λ change. Makes (rules.update_any (rules.replaced from.now self.old.gossip.view.standings) self.old) self.new change) }
        ensures err { OnErr result ((IsCounting self.old × (rules.replaced from.now self.old.gossip.view.standings ≢ [])) × (self.new ≡ self.old)) }
        ensures tally { IsTallyOf self.new.settings.role tally.new self.new.gossip }
    {
        if !self.may_count() {
            return Ok(unchanged(alloc));
        }
        self.gossip.invariant();
        let effects = downed_beside(alloc, from, self.gossip.members())?;
        self.update_any(alloc, effects, tally)
    }

    // The process becomes a member, and is welcomed.
    fn admit(
        &mut self,
        alloc: Global,
        from: &Unique,
        tally: &mut KeptTally,
    ) -> Result<Change, AllocError>
        requires member { IsTrue (rules.is_member self.old) }
        requires room { false ≡ nat_le rules.most_at_join (map.len self.old.gossip.view.standings) }
        requires tally { IsTallyOf self.old.settings.role tally.old self.old.gossip }
        ensures ok { IfOk result (λ change. Makes (rules.admitted from.now self.old) self.new change) }
        ensures err { OnErr result (IsCounting self.old × (self.new ≡ self.old)) }
        ensures tally { IsTallyOf self.new.settings.role tally.new self.new.gossip }
    {
        if !self.may_count() {
            return Ok(unchanged(alloc));
        }
        self.gossip.invariant();
        let joined = from.copy(alloc)?;
        let effects = one(alloc, Effect::Joined(joined))?;
        let mut change = self.make(alloc, effects, tally)?;
        change.reply = Reply::Welcome;
        Ok(change)
    }

    // Whether it stays known that all is at rest is kept beside.
    pub(crate) fn on_gossip(
        &mut self,
        alloc: Global,
        incoming: &Gossip,
        at_rest: &mut bool,
        tally: &mut KeptTally,
    ) -> Result<Change, MemberFault>
        requires rest { RestsIf at_rest.old self.old }
        requires tally { IsTallyOf self.old.settings.role tally.old self.old.gossip }
        ensures answers { Answers (IsKnownIn incoming.now self.old) (rules.on_gossip incoming.now self.old) self.old result self.new }
        ensures rest { RestsIf at_rest.new self.new }
        ensures tally { IsTallyOf self.new.settings.role tally.new self.new.gossip }
    {
        if !self.is_known_in(incoming) {
            return Ok(unchanged(alloc));
        }
        match self.receive(alloc, incoming, at_rest, tally) {
            Err(GossipFault::ForeignCount { own, theirs }) => {
                return Err(MemberFault::ForeignCount { own, theirs });
            }
            Err(GossipFault::TooManyUniques { union }) => {
                return Err(MemberFault::TooManyUniques { union });
            }
            Err(GossipFault::NoMemory(error)) => return Err(error.into()),
            Ok(received) => return Ok(self.hears(alloc, received, incoming, *at_rest)),
        }
    }

    // Accepts a gossip, unless it is refused. What moves is found beside a copy, which shares all with what was known; to it the
    // gossip goes back where its tally finds no memory.
    fn receive(
        &mut self,
        alloc: Global,
        incoming: &Gossip,
        at_rest: &mut bool,
        tally: &mut KeptTally,
    ) -> Result<Received, GossipFault>
        requires rest { RestsIf at_rest.old self.old }
        requires tally { IsTallyOf self.old.settings.role tally.old self.old.gossip }
        ensures received { Receives incoming.now self.old result self.new }
        ensures rest { RestsIf at_rest.new self.new }
        ensures tally { IsTallyOf self.new.settings.role tally.new self.new.gossip }
    {
        let before = match self.gossip.copy(alloc) {
            Ok(before) => before,
            Err(error) => return Err(error.into()),
        };
        match self.gossip.receive(alloc, &self.me, incoming) {
            Ok(received) => {
                if let Err(error) = keep_tally_received(
                    alloc,
                    role_of(&self.settings),
                    received,
                    &before,
                    &self.gossip,
                    tally,
                ) {
                    self.gossip = before;
                    return Err(error.into());
                }
                *at_rest = *at_rest && self.stays_at_rest(received, tally);
                if is_news(received) {
                    self.moved = moves(self.moved, &before, &self.gossip);
                }
                return Ok(received);
            }
            Err(fault) => return Err(fault),
        }
    }

    // A gossip that was received so leaves all at rest.
    fn stays_at_rest(&self, received: Received, tally: &KeptTally) -> bool
        requires tally { IsTallyOf self.now.settings.role tally.now self.now.gossip }
        ensures { IsTrue result → LeavesAtRest received self.now }
    {
        match received {
            Received::Same => !self.is_noted(tally),
            Received::Newer => false,
            Received::Older => true,
            Received::Merged => false,
        }
    }

    // A gossip knows the node, as a member or as a tombstone.
    fn is_known_in(&self, incoming: &Gossip) -> bool
        ensures { result ≡ is_known incoming.now.view.standings self.now.me }
    {
        is_known(incoming.members(), &self.me)
    }

    // What is answered to a gossip that was accepted. Its sender is answered with what the node knows then, but where both
    // know the same and the sender knows that the node does; a node that is Down or a tombstone then answers nobody (this
    // project's choice). One at rest is neither.
    fn hears(&self, alloc: Global, received: Received, incoming: &Gossip, at_rest: bool) -> Change
        requires { RestsIf at_rest self.now }
        ensures { result ≡ (rules.hears (has incoming.now.seen self.now.me) received self.now).1 }
    {
        let mut change = unchanged(alloc);
        if received == Received::Same && incoming.seen().contains(&self.me) {
            return change;
        }
        if !at_rest && self.is_gone() {
            return change;
        }
        change.reply = Reply::Gossip;
        change
    }

    pub(crate) fn on_confirmed(&mut self, alloc: Global, from: &Unique) -> Result<(), AllocError>
        ensures ok { OnOk result (self.new ≡ rules.on_confirmed from.now self.old) }
        ensures err { OnErr result (self.new ≡ self.old) }
        ensures memory { OnErr result (MayConfirm from.now self.old) }
        ensures gossip { self.new.gossip ≡ self.old.gossip }
    {
        if self.has_member(from) {
            return self.confirmed.insert(alloc, from);
        }
        Ok(())
    }

    pub(crate) fn forget(&mut self, alloc: Global, tally: &mut KeptTally)
        ensures forgot { self.new ≡ rules.started self.old.me self.old.settings }
        ensures tally { IsTallyOf self.new.settings.role tally.new self.new.gossip }
    {
        *tally = KeptTally::empty(alloc);
        self.gossip = Gossip::empty(alloc);
        self.shown = Version::empty(alloc);
        self.founder = false;
        self.target = None;
        self.ticks = 0;
        self.stable = 0;
        self.weak = 0;
        self.moved = false;
        self.detector = Detector::new(alloc);
        self.confirmed = Uniques::empty(alloc);
        self.settled = Settled::none(alloc);
    }
}
