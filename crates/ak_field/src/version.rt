ghost use Rattle.std.specs.Prelude.{◌≡◌, IsTrue, IfOk, option_copied, option_map};
ghost use Rattle.std.specs.FinMap as map;
ghost use Rattle.ak_gossip.specs.PartsWalk.{is_above};
ghost use Rattle.ak_field.specs.Reading.{Gives, IsThere, Adds, last_of};
ghost use Rattle.ak_field.specs.Fields.{length_at};
ghost use Rattle.ak_field.specs.Lists.{next_unique_at, counted_at, counts_at, version_at};

use crate::fault::WireFault;
use crate::fields::Fields;
use ak_address::Unique;
use ak_clock::{BOUND, Version};
use std::alloc::Global;

const MOST_PROCESSES: u8 = 128;

impl<'a> Fields<'a> {
    /// A version: how many processes have a count, up to 128, and then each, above the one before it, with its count from 1
    /// to 4611686018427387904.
    #[tactic(auto, using(crate::proofs::Steps::fails_exactly), unfolding(crate::specs::Lists::version_at))]
    pub fn version(&mut self, alloc: Global) -> Result<Version, WireFault>
        ensures read { Gives result self.new (version_at self.old) }
        ensures memory { IsThere result (length_at 0 128 self.old) }
    {
        let many = self.length(0, MOST_PROCESSES)?;
        self.some_counts(alloc, many)
    }

    fn some_counts(&mut self, alloc: Global, many: u8) -> Result<Version, WireFault>
        ensures { Gives result self.new (counts_at many self.old) }
    {
        let mut version = Version::empty(alloc);
        'counts: for _ in 0..many {
            self.add_count(alloc, &mut version)?;
        }
        Ok(version)
    }

    #[tactic(auto, using(crate::proofs::Steps::fails_exactly, crate::proofs::Steps::fails_first), unfolding(crate::specs::Lists::counted_at))]
    fn add_count(&mut self, alloc: Global, version: &mut Version) -> Result<(), WireFault>
        ensures { Adds result (map.entries version.old) (map.entries version.new) self.new (counted_at (last_of (map.entries version.old)) self.old) }
    {
        let who = self.next_unique(alloc, last_counted(version))?;
        let count = self.number(1, BOUND)?;
        version.reach(alloc, &who, count)?;
        Ok(())
    }

    // A process above the last one.
    #[tactic(auto, using(crate::proofs::Steps::fails_before), unfolding(crate::specs::Lists::next_unique_at))]
    pub(crate) fn next_unique(
        &mut self,
        alloc: Global,
        last: Option<&Unique>,
    ) -> Result<Unique, WireFault>
        ensures read { Gives result self.new (next_unique_at (option_copied last.entry) self.old) }
        ensures above { IfOk result (λ who. IsTrue (is_above (option_copied last.entry) who)) }
    {
        let who = self.unique(alloc)?;
        if !is_above(last, &who) {
            return Err(WireFault::Order);
        }
        Ok(who)
    }
}

fn is_above(last: Option<&Unique>, who: &Unique) -> bool
    ensures { result ≡ is_above (option_copied last.entry) who.now }
{
    match last {
        Some(last) => last.compare(who).is_lt(),
        None => true,
    }
}

// The last process that has a count.
fn last_counted(version: &Version) -> Option<&Unique>
    ensures { option_copied result ≡ option_map (λ pair. pair.0) (last_of (map.entries version.now)) }
{
    let many = version.len();
    if many == 0 {
        return None;
    }
    match version.at(many - 1) {
        Some((who, _)) => Some(who),
        None => None,
    }
}
