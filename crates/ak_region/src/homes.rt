//! The homes that slots may have: few of them stand for the slots of many shards.

ghost use Rattle.std.specs.Prelude.{◌≡◌, OnOk, OnErr, IsTrue, true};
ghost use Rattle.std.specs.List.{filter, list_all};
ghost use Rattle.ak_member.specs.Standing.{is_member};
ghost use Rattle.ak_region.specs.Housed.{is_among, with_home};

use ak_address::Unique;
use ak_member::{Members, Standing};
use std::alloc::{AllocError, Global};
use std::marker::Model;

/// A process that slots may have as their home. Contracts see the process.
#[derive(Drop)]
pub(crate) struct Home {
    who: Unique,
    // Where it stood among all that are known when it was looked for last.
    place: usize,
}

impl Model for Home {
    ghost use Rattle.ak_address.specs.Unique.{UniqueModel, coded_unique};

    ghost Value = { UniqueModel };

    ghost coded = { coded_unique };

    ghost view = { λ h. h.who };
}

impl Home {
    fn of(who: Unique) -> Home
        ensures { result ≡ who }
    {
        Home { who, place: 0 }
    }

    fn who(&self) -> &Unique
        ensures { result.now ≡ self.now }
    {
        &self.who
    }

    // It is a member, and stands where it stood. No answer but a yes says anything.
    fn stands_there(&self, members: &Members) -> bool
        ensures { IsTrue result → is_member members.now self.now ≡ true }
    {
        match members.pair(self.place) {
            Some((who, Standing::Member(_, _))) => who.is(&self.who),
            _ => false,
        }
    }

    // Whether it is a member. It is asked at each step of a node, and whoever is known mostly stands where it stood.
    fn is_member(&mut self, members: &Members) -> bool
        ensures value { result ≡ is_member members.now self.old }
        ensures same { self.new ≡ self.old }
    {
        if self.stands_there(members) {
            return true;
        }
        self.place = match members.place(&self.who) {
            Ok(place) => place,
            Err(place) => place,
        };
        members.get(&self.who).is_some()
    }
}

// Whether the home is one of them.
fn is_among(homes: &[Home], home: &Unique) -> bool
    ensures { result ≡ is_among homes.now home.now }
{
    homes.iter().any(|one| one.who().is(home))
}

// A slot may have that home from now on. After an error nothing has changed; only memory can fail.
pub(crate) fn add_home(
    homes: &mut Vec<Home>,
    alloc: Global,
    home: &Unique,
) -> Result<(), AllocError>
    ensures ok { OnOk result (homes.new.items ≡ with_home homes.old.items home.now) }
    ensures err { OnErr result (homes.new.items ≡ homes.old.items) }
{
    if is_among(homes, home) {
        return Ok(());
    }
    let home = home.copy(alloc)?;
    homes.push(Home::of(home))?;
    Ok(())
}

// Whether all are members. Takes no memory.
pub(crate) fn are_members(homes: &mut [Home], members: &Members) -> bool
    ensures value { result ≡ list_all (is_member members.now) homes.old }
    ensures same { homes.new ≡ homes.old }
{
    'homes: for home in homes.iter_mut() {
        if !home.is_member(members) {
            return false;
        }
    }
    true
}

// Those that are no members leave. Takes no memory.
pub(crate) fn keep_members(homes: &mut Vec<Home>, members: &Members)
    ensures { homes.new.items ≡ filter (is_member members.now) homes.old.items }
{
    homes.retain(|home| members.get(home.who()).is_some());
}
