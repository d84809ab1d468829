ghost use Rattle.std.specs.Prelude.{◌≡◌, ◌≢◌, ◌<◌, ◌≤◌, IfOk, IsOk, IfSome, IsSome, IsTrue, OnOk, OnErr, None, Some, option_copied};
ghost use Rattle.ak_address.specs.Uniques.{no_one};
ghost use Rattle.ak_promise.specs.Promise.{Answers, answer_to, asked, bound, is_last, is_some_ballot, released_by};
ghost use Rattle.ak_singleton.specs.Singleton.{unasked, only, is_some_process, is_candidate, is_holder_finished, needed_but, next_term, own_ballot, opened, closed, renewed, may_open, rule_of, tick_rule, after_rule, steps_of, TakesRoom, is_first_grant, after_granted, is_asking, is_outdone, after_old, active_term, ended, may_activate, after_activation};

use crate::needed::{has_all_needed, needed_but};
use crate::phase::{Phase, Steps, TickRule};
use crate::sets::only;
use ak_address::{Unique, Uniques};
use ak_clock::{BOUND, Version};
use ak_member::Status;
use ak_promise::{Answer, Ballot, Promise};
use ak_settled::Settled;
use std::alloc::{AllocError, Global};
use std::marker::Model;

/// What a node keeps of the singleton: what it promised, its phase, and while it asks or is active its ballot, who granted that,
/// and the floor of their answers. After an error of any call it is as it was.
#[derive(Drop)]
pub struct Singleton {
    promise: Promise,
    phase: Phase,
    live: Option<Ballot>,
    granted: Uniques,
    floor: Version,
}

impl Model for Singleton {
    ghost use Rattle.ak_singleton.specs.Singleton.{SingletonModel};
    ghost use Rattle.ak_singleton.specs.SingletonView.{coded_singleton, HasLive};

    ghost Value = { SingletonModel };

    ghost coded = { coded_singleton };

    ghost view = { λ s. record { promise = s.promise; phase = s.phase; live = s.live; granted = s.granted; floor = s.floor } };

    // Grants and activity are those of a ballot: there is one exactly while the node asks or is active.
    ghost invariant = { λ s. HasLive s.phase s.live };
}

impl Singleton {
    /// At the start of a node: it promised nothing, and is younger. Takes no memory.
    pub fn new(alloc: Global) -> Singleton
        ensures { result ≡ unasked }
    {
        let promise = Promise::none(alloc);
        let granted = Uniques::empty(alloc);
        let floor = Version::empty(alloc);
        Singleton {
            promise,
            phase: Phase::Younger,
            live: None,
            granted,
            floor,
        }
    }

    /// Takes no memory.
    pub fn phase(&self) -> Phase
        ensures { result ≡ self.now.phase }
    {
        self.phase
    }

    /// The ballot with which it asks or is active; none in another phase. Takes no memory.
    pub fn live(&self) -> Option<&Ballot>
        ensures { option_copied result ≡ self.now.live }
    {
        self.live.as_ref()
    }

    /// What it promised. Takes no memory.
    pub fn promise(&self) -> &Promise
        ensures { result.now ≡ self.now.promise }
    {
        &self.promise
    }

    /// Who granted the live ballot; nobody where there is none. Takes no memory.
    pub fn granted(&self) -> &Uniques
        ensures { result.now ≡ self.now.granted }
    {
        &self.granted
    }

    /// Its part of a tick, where it has a settled view and is Up or Leaving. A younger candidate begins to ask, with the next
    /// ballot and itself as the first that granted, where the last promise is released, its own, or of a finished process,
    /// or where there is none; else it wants the last ballot handed over. An asker that is not the candidate releases the last
    /// ballot with what is settled, tells those that it needs, and is younger again. Whoever asks or is active then asks
    /// each that it needs and that has not granted. Only memory can fail, and only of a tick that does something:
    /// not of one that rests, nor where nobody is left to be asked.
    pub fn on_tick(
        &mut self,
        alloc: Global,
        me: &Unique,
        settled: &Settled,
        status: Status,
        margin: u32,
    ) -> Result<Steps, AllocError>
        ensures steps { IfOk result (λ steps. steps ≡ steps_of (tick_rule me.now settled.now.view status margin self.old) me.now settled.now.view margin self.old) }
        ensures after { IfOk result (λ steps. self.new ≡ after_rule (tick_rule me.now settled.now.view status margin self.old) me.now settled.now.view self.old) }
        ensures err { OnErr result (self.new ≡ self.old) }
        ensures memory { OnErr result (TakesRoom (tick_rule me.now settled.now.view status margin self.old) settled.now.view margin self.old) }
    {
        match self.tick_rule(me, settled, status, margin) {
            TickRule::Rests => Ok(no_steps(alloc)),
            TickRule::Opens => self.open(alloc, me, settled, margin),
            TickRule::HandsOver => self.hand_over(alloc),
            TickRule::Closes => self.close(alloc, me, settled, margin),
            TickRule::Asks => self.ask_others(alloc, settled, margin),
        }
    }

    // What a tick does.
    pub fn tick_rule(&self, me: &Unique, settled: &Settled, status: Status, margin: u32) -> TickRule
        ensures { result ≡ tick_rule me.now settled.now.view status margin self.now }
    {
        if settled.exists() && status.counts() {
            let is_candidate = is_process(settled.candidate(), me);
            let is_free = may_open(&self.promise, me, settled, margin);
            return rule_of(self.phase, is_candidate, is_free);
        }
        TickRule::Rests
    }

    // Begins to ask.
    fn open(
        &mut self,
        alloc: Global,
        me: &Unique,
        settled: &Settled,
        margin: u32,
    ) -> Result<Steps, AllocError>
        requires { IfSome self.old.promise.last (λ b. b.term < BOUND) }
        ensures steps { IfOk result (λ steps. steps ≡ steps_of TickRule.Opens me.now settled.now.view margin self.old) }
        ensures after { IfOk result (λ steps. self.new ≡ opened me.now settled.now.view self.old) }
        ensures err { OnErr result (self.new ≡ self.old) }
    {
        let ballot = own_ballot(alloc, self.promise.last(), me)?;
        let live = ballot.copy(alloc)?;
        let granted = only(alloc, me)?;
        let mut floor = self.promise.floor().copy(alloc)?;
        floor.merge(alloc, settled.version())?;
        let ask = needed_but(alloc, settled, margin, &granted)?;
        self.promise.bind(ballot);
        self.phase = Phase::Asking;
        self.live = Some(live);
        self.granted = granted;
        self.floor = floor;
        let release = Uniques::empty(alloc);
        Ok(Steps {
            ask,
            release,
            hand_over_to: None,
        })
    }

    // Wants the last ballot handed over.
    fn hand_over(&self, alloc: Global) -> Result<Steps, AllocError>
        ensures { IfOk result (λ steps. steps ≡ record { ask = no_one; release = no_one; hand_over_to = self.now.promise.last }) }
    {
        let hand_over_to = copy_of(alloc, self.promise.last())?;
        let ask = Uniques::empty(alloc);
        let release = Uniques::empty(alloc);
        Ok(Steps {
            ask,
            release,
            hand_over_to,
        })
    }

    // Ends an asking.
    fn close(
        &mut self,
        alloc: Global,
        me: &Unique,
        settled: &Settled,
        margin: u32,
    ) -> Result<Steps, AllocError>
        ensures steps { IfOk result (λ steps. steps ≡ steps_of TickRule.Closes me.now settled.now.view margin self.old) }
        ensures after { IfOk result (λ steps. self.new ≡ closed Phase.Younger settled.now.view self.old) }
        ensures err { OnErr result (self.new ≡ self.old) }
    {
        let itself = only(alloc, me)?;
        let release = needed_but(alloc, settled, margin, &itself)?;
        self.let_go(alloc, settled)?;
        self.phase = Phase::Younger;
        let ask = Uniques::empty(alloc);
        Ok(Steps {
            ask,
            release,
            hand_over_to: None,
        })
    }

    // Asks those that have not granted.
    fn ask_others(&self, alloc: Global, settled: &Settled, margin: u32) -> Result<Steps, AllocError>
        ensures steps { IfOk result (λ steps. steps ≡ record { ask = needed_but margin settled.now.view self.now.granted; release = no_one; hand_over_to = None }) }
        ensures memory { OnErr result (needed_but margin settled.now.view self.now.granted ≢ no_one) }
    {
        let ask = needed_but(alloc, settled, margin, &self.granted)?;
        let release = Uniques::empty(alloc);
        Ok(Steps {
            ask,
            release,
            hand_over_to: None,
        })
    }

    // The last ballot is released with what is settled, and the phase is over.
    fn let_go(&mut self, alloc: Global, settled: &Settled) -> Result<(), AllocError>
        ensures ok { OnOk result (self.new ≡ closed Phase.Ended settled.now.view self.old) }
        ensures err { OnErr result (self.new ≡ self.old) }
        ensures memory { OnErr result (IsSome self.old.promise.last) }
    {
        self.promise.release_last(alloc, settled.version())?;
        self.phase = Phase::Ended;
        self.live = None;
        self.granted = Uniques::empty(alloc);
        self.floor = Version::empty(alloc);
        Ok(())
    }

    /// Another node asks for the promise of a ballot: the answer and what is promised then are those of `Promise::ask`, where the
    /// holder of the last ballot counts as finished if it is so by the settled view. Takes no memory.
    pub fn on_ask(&mut self, ballot: Ballot, settled: &Settled, margin: u32) -> Answer
        ensures value { result ≡ answer_to self.old.promise ballot (is_holder_finished margin settled.now.view self.old.promise.last) }
        ensures meaning { Answers result self.old.promise ballot (is_holder_finished margin settled.now.view self.old.promise.last) }
        ensures after { self.new ≡ record self.old { promise = asked self.old.promise ballot (is_holder_finished margin settled.now.view self.old.promise.last) } }
    {
        let is_finished = is_holder_finished(self.promise.last(), settled, margin);
        self.promise.ask(ballot, is_finished)
    }

    /// A process granted a ballot with a floor. Where it is the live one, and the first grant of it from that process, the
    /// process has granted, the floor covers its floor too, and the answer is true; else nothing changes, and no memory is taken.
    /// After an error it is as it was.
    pub fn on_granted(
        &mut self,
        alloc: Global,
        from: &Unique,
        ballot: &Ballot,
        floor: &Version,
    ) -> Result<bool, AllocError>
        ensures ok { IfOk result (λ first. (first ≡ is_first_grant from.now ballot.now self.old) × (self.new ≡ after_granted first from.now floor.now self.old)) }
        ensures err { OnErr result (self.new ≡ self.old) }
        ensures memory { OnErr result (IsTrue (is_first_grant from.now ballot.now self.old)) }
    {
        if is_ballot(self.live.as_ref(), ballot) && !self.granted.contains(from) {
            let mut merged = self.floor.copy(alloc)?;
            merged.merge(alloc, floor)?;
            self.granted.insert(alloc, from)?;
            self.floor = merged;
            return Ok(true);
        }
        Ok(false)
    }

    /// A process answers to a ballot that it promised the second one before. Where the node asks with the first, the second is
    /// above it, and its term is not the greatest, the node asks anew with the next term: its next ballot is promised to
    /// itself, it alone has granted, the floor stays, and the answer is true. Else nothing changes, and no memory is taken. After
    /// an error it is as it was.
    pub fn on_old(
        &mut self,
        alloc: Global,
        ballot: &Ballot,
        last: &Ballot,
    ) -> Result<bool, AllocError>
        ensures ok { IfOk result (λ renewed. (renewed ≡ is_outdone ballot.now last.now self.old) × (self.new ≡ after_old renewed ballot.now last.now self.old)) }
        ensures err { OnErr result (self.new ≡ self.old) }
        ensures memory { OnErr result (IsTrue (is_outdone ballot.now last.now self.old)) }
    {
        if self.is_outdone(ballot, last) {
            self.renew(alloc, &ballot.unique, last.term + 1)?;
            return Ok(true);
        }
        Ok(false)
    }

    fn is_outdone(&self, ballot: &Ballot, last: &Ballot) -> bool
        ensures { result ≡ is_outdone ballot.now last.now self.now }
    {
        is_asking(self.phase)
            && is_ballot(self.live.as_ref(), ballot)
            && last.compare(ballot).is_gt()
            && last.term < BOUND
    }

    /// The ballot was handed over by its process with a floor: the answer and what is promised then are those of
    /// `Promise::release`. Any other ballot than the last one changes nothing and takes no memory. After an error it is as it was.
    pub fn on_done(
        &mut self,
        alloc: Global,
        ballot: &Ballot,
        floor: &Version,
    ) -> Result<bool, AllocError>
        ensures ok { IfOk result (λ released. (released ≡ is_last self.old.promise ballot.now) × (self.new ≡ record self.old { promise = released_by self.old.promise ballot.now floor.now })) }
        ensures err { OnErr result (self.new ≡ self.old) }
        ensures other { self.old.promise.last ≢ Some ballot.now → IsOk result }
    {
        self.promise.release(alloc, ballot, floor)
    }

    /// The ballot was released with a floor: the answer and what is promised then are those of `Promise::release`. Any other
    /// ballot than the last one changes nothing and takes no memory. After an error it is as it was.
    pub fn on_release(
        &mut self,
        alloc: Global,
        ballot: &Ballot,
        floor: &Version,
    ) -> Result<bool, AllocError>
        ensures ok { IfOk result (λ released. (released ≡ is_last self.old.promise ballot.now) × (self.new ≡ record self.old { promise = released_by self.old.promise ballot.now floor.now })) }
        ensures err { OnErr result (self.new ≡ self.old) }
        ensures other { self.old.promise.last ≢ Some ballot.now → IsOk result }
    {
        self.promise.release(alloc, ballot, floor)
    }

    /// The node is on its way out: its phase is over for good. Where it asked or was active the last ballot is released with what
    /// is settled; where it did not, or promised nothing, no memory is taken. The answer is the term of its ballot, exactly where
    /// it was active. After an error it is as it was.
    pub fn end(&mut self, alloc: Global, settled: &Settled) -> Result<Option<u64>, AllocError>
        ensures ok { IfOk result (λ term. (term ≡ active_term self.old.phase self.old.live) × (self.new ≡ ended settled.now.view self.old)) }
        ensures err { OnErr result (self.new ≡ self.old) }
        ensures memory { OnErr result (IsSome self.old.live × IsSome self.old.promise.last) }
    {
        let term = active_term(self.phase, self.live.as_ref());
        match self.phase {
            Phase::Younger => self.phase = Phase::Ended,
            Phase::Asking => self.let_go(alloc, settled)?,
            Phase::Active => self.let_go(alloc, settled)?,
            Phase::Ended => (),
        }
        Ok(term)
    }

    /// Becomes active where it asks, is the candidate, each that it needs has granted, and what it has settled covers the floor;
    /// else nothing changes. The answer is whether it did. Takes no memory, and never fails.
    pub fn try_activate(
        &mut self,
        _alloc: Global,
        me: &Unique,
        settled: &Settled,
        margin: u32,
    ) -> Result<bool, AllocError>
        ensures ok { IfOk result (λ activated. (activated ≡ may_activate me.now settled.now.view margin self.old) × (self.new ≡ after_activation activated self.old)) }
        ensures err { OnErr result (self.new ≡ self.old) }
        ensures memory { IsOk result }
    {
        if is_asking(self.phase) && is_process(settled.candidate(), me) {
            if has_all_needed(settled, margin, &self.granted)
                && settled.version().covers(&self.floor)
            {
                self.phase = Phase::Active;
                return Ok(true);
            }
        }
        Ok(false)
    }

    // The next ballot of the process is promised and asked with, and it alone has granted.
    fn renew(&mut self, alloc: Global, me: &Unique, term: u64) -> Result<(), AllocError>
        requires range { (1 ≤ term) × (term ≤ BOUND) }
        requires asks { self.old.phase ≡ Phase.Asking }
        ensures ok { OnOk result (self.new ≡ record self.old { promise = bound (record { term = term; unique = me.now }) self.old.promise; live = Some (record { term = term; unique = me.now }); granted = only me.now }) }
        ensures err { OnErr result (self.new ≡ self.old) }
    {
        let unique = me.copy(alloc)?;
        let ballot = Ballot { term, unique };
        let live = ballot.copy(alloc)?;
        let granted = only(alloc, me)?;
        self.promise.bind(ballot);
        self.live = Some(live);
        self.granted = granted;
        Ok(())
    }
}

fn no_steps(alloc: Global) -> Steps
    ensures { result ≡ record { ask = no_one; release = no_one; hand_over_to = None } }
{
    let ask = Uniques::empty(alloc);
    let release = Uniques::empty(alloc);
    Steps {
        ask,
        release,
        hand_over_to: None,
    }
}

fn is_asking(phase: Phase) -> bool
    ensures { result ≡ is_asking phase }
{
    match phase {
        Phase::Younger => false,
        Phase::Asking => true,
        Phase::Active => false,
        Phase::Ended => false,
    }
}

// What a tick does where the node takes part.
fn rule_of(phase: Phase, is_candidate: bool, is_free: bool) -> TickRule
    ensures { result ≡ rule_of phase is_candidate is_free }
{
    match (phase, is_candidate, is_free) {
        (Phase::Younger, false, _) => TickRule::Rests,
        (Phase::Younger, true, true) => TickRule::Opens,
        (Phase::Younger, true, false) => TickRule::HandsOver,
        (Phase::Asking, true, _) => TickRule::Asks,
        (Phase::Asking, false, _) => TickRule::Closes,
        (Phase::Active, _, _) => TickRule::Asks,
        (Phase::Ended, _, _) => TickRule::Rests,
    }
}

// The first process, where there is one, is the second.
fn is_process(first: Option<&Unique>, second: &Unique) -> bool
    ensures { result ≡ is_some_process (option_copied first.entry) second.now }
{
    match first {
        Some(first) => first.is(second),
        None => false,
    }
}

// The first ballot, where there is one, is the second.
fn is_ballot(first: Option<&Ballot>, second: &Ballot) -> bool
    ensures { result ≡ is_some_ballot (option_copied first.entry) second.now }
{
    match first {
        Some(first) => first.compare(second).is_eq(),
        None => false,
    }
}

fn is_holder_finished(last: Option<&Ballot>, settled: &Settled, margin: u32) -> bool
    ensures { result ≡ is_holder_finished margin settled.now.view (option_copied last.entry) }
{
    match last {
        Some(last) => settled.finished(&last.unique, margin),
        None => false,
    }
}

// Whether the node may begin to ask. A ballot of the greatest term has none after it, so it has to be handed over.
fn may_open(promise: &Promise, me: &Unique, settled: &Settled, margin: u32) -> bool
    ensures { result ≡ may_open margin settled.now.view me.now promise.now }
{
    match promise.last() {
        Some(last) => {
            let is_own = last.unique.is(me);
            let is_free = promise.released() || is_own || settled.finished(&last.unique, margin);
            is_free && last.term < BOUND
        }
        None => true,
    }
}

// The process's ballot after the last one.
fn own_ballot(alloc: Global, last: Option<&Ballot>, me: &Unique) -> Result<Ballot, AllocError>
    requires { IfSome (option_copied last) (λ b. b.term < BOUND) }
    ensures { IfOk result (λ ballot. ballot ≡ record { term = next_term (option_copied last.entry); unique = me.now }) }
{
    let unique = me.copy(alloc)?;
    let term = next_term(last);
    Ok(Ballot { term, unique })
}

fn next_term(last: Option<&Ballot>) -> u64
    requires { IfSome (option_copied last) (λ b. b.term < BOUND) }
    ensures value { result ≡ next_term (option_copied last.entry) }
    ensures range { (1 ≤ result) × (result ≤ BOUND) }
{
    match last {
        Some(last) => last.term + 1,
        None => 1,
    }
}

fn copy_of(alloc: Global, ballot: Option<&Ballot>) -> Result<Option<Ballot>, AllocError>
    ensures { IfOk result (λ copy. copy ≡ option_copied ballot.entry) }
{
    match ballot {
        Some(ballot) => {
            let copy = ballot.copy(alloc)?;
            Ok(Some(copy))
        }
        None => Ok(None),
    }
}

fn active_term(phase: Phase, live: Option<&Ballot>) -> Option<u64>
    ensures { result ≡ active_term phase (option_copied live.entry) }
{
    match (phase, live) {
        (Phase::Active, Some(ballot)) => Some(ballot.term),
        (Phase::Active, None) => None,
        (Phase::Younger, _) => None,
        (Phase::Asking, _) => None,
        (Phase::Ended, _) => None,
    }
}
