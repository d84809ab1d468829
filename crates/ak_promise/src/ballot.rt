ghost use Rattle.std.specs.Prelude.{◌≡◌, IfOk};
ghost use Rattle.ak_promise.specs.Ballot.{ballot_cmp};

use ak_address::Unique;
use std::alloc::{AllocError, Global};
use std::cmp::Ordering;
use std::marker::Model;

/// What a process asks with that wants to run the singleton: a term from 1 to 4611686018427387904, and who asks. The
/// ranges are invariants of the type (that a singleton is asked for by ballots is this project's choice).
#[derive(Debug, Drop)]
pub struct Ballot {
    pub term: u64,
    pub unique: Unique,
}

impl Model for Ballot {
    ghost use Rattle.ak_promise.specs.Ballot.{BallotModel, coded_ballot, IsBallot};

    ghost Value = { BallotModel };

    ghost coded = { coded_ballot };

    ghost view = { λ b. record { term = b.term; unique = b.unique } };

    // A packet can spell each ballot in these ranges, and the term after the greatest one still fits a `u64`.
    ghost invariant = { λ b. IsBallot (record { term = b.term; unique = b.unique }) };
}

impl Ballot {
    /// The order of ballots: by term, and of equal terms by the order of processes. Takes no memory.
    pub fn compare(&self, other: &Ballot) -> Ordering
        ensures { result ≡ ballot_cmp self.now other.now }
    {
        let terms = self.term.cmp(&other.term);
        if terms.is_eq() {
            return self.unique.compare(&other.unique);
        }
        terms
    }

    /// An equal ballot. Only memory can fail.
    pub fn copy(&self, alloc: Global) -> Result<Ballot, AllocError>
        ensures { IfOk result (λ copy. copy ≡ self.now) }
    {
        let unique = self.unique.copy(alloc)?;
        let term = self.term;
        Ok(Ballot { term, unique })
    }
}
