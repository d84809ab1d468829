ghost use Rattle.ak_field.specs.Reading.{Gives, IsThere};
ghost use Rattle.ak_field.specs.Fields.{ballot_at};

use crate::fault::WireFault;
use crate::fields::Fields;
use ak_clock::BOUND;
use ak_promise::Ballot;
use std::alloc::Global;

impl<'a> Fields<'a> {
    /// A ballot: its term, from 1 to 4611686018427387904, and then who asks.
    #[tactic(auto, using(crate::proofs::Steps::fails_exactly, crate::proofs::Steps::fails_first), unfolding(crate::specs::Fields::ballot_at))]
    pub fn ballot(&mut self, alloc: Global) -> Result<Ballot, WireFault>
        ensures read { Gives result self.new (ballot_at self.old) }
        ensures memory { IsThere result (ballot_at self.old) }
    {
        let term = self.number(1, BOUND)?;
        let unique = self.unique(alloc)?;
        Ok(Ballot { term, unique })
    }
}
