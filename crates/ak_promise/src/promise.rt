ghost use Rattle.std.specs.Prelude.{◌≡◌, ◌≢◌, ◌||◌, true, IfOk, IsOk, OnOk, OnErr, None, Some, option_copied};
ghost use Rattle.std.specs.Ordering.{is_eq};
ghost use Rattle.ak_promise.specs.Promise.{unpromised, bound, freed, Answers, after_ask, answer_after, answer_to, Releases, after_release, is_last, is_some_ballot, answer_by};
ghost use Rattle.ak_address.specs.Unique.{unique_cmp};

use crate::ballot::Ballot;
use ak_address::Unique;
use ak_clock::Version;
use std::alloc::{AllocError, Global};
use std::cmp::Ordering;
use std::marker::Model;

/// What a node answers to a ballot.
#[derive(Clone, Copy, Debug, PartialEq, Eq)]
pub enum Answer {
    /// It is promised.
    Granted,
    /// A ballot that is not less was promised before, or this one was promised and released.
    Old,
    /// The last promise still binds.
    Busy,
}

/// What a node promised: the ballot that it granted last, whether that was released since, and the floor, a version that each
/// later holder has to have settled. All of it is this project's choice.
#[derive(Drop)]
pub struct Promise {
    last: Option<Ballot>,
    released: bool,
    floor: Version,
}

impl Model for Promise {
    ghost use Rattle.ak_promise.specs.Promise.{PromiseModel, coded_promise};

    ghost Value = { PromiseModel };

    ghost coded = { coded_promise };

    ghost view = { λ p. record { last = p.last; released = p.released; floor = p.floor } };
}

impl Promise {
    /// Nothing is promised yet. Takes no memory.
    pub fn none(alloc: Global) -> Promise
        ensures { result ≡ unpromised }
    {
        let floor = Version::empty(alloc);
        Promise {
            last: None,
            released: false,
            floor,
        }
    }

    /// The ballot that was granted last; none where nothing was promised. Takes no memory.
    pub fn last(&self) -> Option<&Ballot>
        ensures { option_copied result ≡ self.now.last }
    {
        self.last.as_ref()
    }

    /// Whether the last ballot was released; not where nothing was promised. Takes no memory.
    pub fn released(&self) -> bool
        ensures { result ≡ self.now.released }
    {
        self.released
    }

    /// The version that each later holder has to have settled; the empty one at first. Takes no memory.
    pub fn floor(&self) -> &Version
        ensures { result.now ≡ self.now.floor }
    {
        &self.floor
    }

    /// Asks for the promise of a ballot, where it is known whether the holder of the last one is finished. The last ballot is
    /// granted again while it is not released. Else the answer is `Old` where the ballot is not above the last one; else `Busy`
    /// where the last one is not released, is of another process and its holder is not finished; else the ballot is
    /// promised. Takes no memory.
    pub fn ask(&mut self, ballot: Ballot, holder_finished: bool) -> Answer
        ensures value { result ≡ answer_to self.old ballot holder_finished }
        ensures meaning { Answers result self.old ballot holder_finished }
        ensures after { self.new ≡ after_ask result ballot self.old }
    {
        let answer = answer_after(self.last.as_ref(), self.released, &ballot, holder_finished);
        if answer == Answer::Granted {
            // Both at once: a release of the ballot before does not release this one.
            self.last = Some(ballot);
            self.released = false;
        }
        answer
    }

    /// Promises the ballot, whatever was promised before: so a node promises a ballot to itself. Takes no memory.
    pub fn bind(&mut self, ballot: Ballot)
        ensures { self.new ≡ bound ballot self.old }
    {
        // Both at once, as where it is asked for.
        self.last = Some(ballot);
        self.released = false;
    }

    /// Releases the last ballot, whichever it is, with a version: the floor covers the version from now on. Where nothing was
    /// promised nothing changes, and no memory is taken. After an error the promise is as it was.
    pub fn release_last(&mut self, alloc: Global, version: &Version) -> Result<(), AllocError>
        ensures ok { OnOk result (self.new ≡ freed version.now self.old) }
        ensures err { OnErr result (self.new ≡ self.old) }
        ensures nothing { self.old.last ≡ None → IsOk result }
    {
        if self.last.is_some() {
            return self.let_go(alloc, version);
        }
        Ok(())
    }

    /// Releases a ballot with a version: where it is the last one, that is released and the floor covers the version from now
    /// on, and the answer is true. Any other ballot changes nothing and takes no memory. After an error the promise is as it was.
    pub fn release(
        &mut self,
        alloc: Global,
        ballot: &Ballot,
        version: &Version,
    ) -> Result<bool, AllocError>
        ensures ok { IfOk result (λ released. (released ≡ is_last self.old ballot.now) × (self.new ≡ after_release released version.now self.old)) }
        ensures meaning { IfOk result (λ released. Releases released self.old ballot.now) }
        ensures err { OnErr result (self.new ≡ self.old) }
        ensures other { self.old.last ≢ Some ballot.now → IsOk result }
    {
        if is_ballot(self.last.as_ref(), ballot) {
            self.let_go(alloc, version)?;
            return Ok(true);
        }
        Ok(false)
    }

    // The last ballot is released, and the floor covers the version.
    fn let_go(&mut self, alloc: Global, version: &Version) -> Result<(), AllocError>
        ensures ok { OnOk result (self.new ≡ after_release true version.now self.old) }
        ensures err { OnErr result (self.new ≡ self.old) }
    {
        // The floor first: it alone may find no memory, and then nothing is released without it.
        self.floor.merge(alloc, version)?;
        self.released = true;
        Ok(())
    }
}

// The answer to a ballot after the last one.
fn answer_after(
    last: Option<&Ballot>,
    released: bool,
    ballot: &Ballot,
    holder_finished: bool,
) -> Answer
    ensures { result ≡ answer_after (option_copied last.entry) released ballot.now holder_finished }
{
    match last {
        Some(last) => {
            let is_free = released || is_process(&last.unique, &ballot.unique) || holder_finished;
            answer_by(ballot.compare(last), released, is_free)
        }
        None => Answer::Granted,
    }
}

// The answer by how a ballot stands to the last one.
fn answer_by(order: Ordering, released: bool, is_free: bool) -> Answer
    ensures { result ≡ answer_by order released is_free }
{
    match order {
        Ordering::Less => Answer::Old,
        Ordering::Equal => {
            if released {
                return Answer::Old;
            }
            Answer::Granted
        }
        Ordering::Greater => {
            if is_free {
                return Answer::Granted;
            }
            Answer::Busy
        }
    }
}

fn is_process(first: &Unique, second: &Unique) -> bool
    ensures { result ≡ is_eq (unique_cmp first.now second.now) }
{
    first.is(second)
}

// The first ballot, where there is one, is the second.
fn is_ballot(first: Option<&Ballot>, second: &Ballot) -> bool
    ensures { result ≡ is_some_ballot (option_copied first.entry) second.now }
{
    match first {
        Some(first) => first.compare(second).is_eq(),
        None => false,
    }
}
