use ak_address::Uniques;
use ak_promise::Ballot;

/// How far a node is with the singleton (Akka's "Cluster Singleton": the states of the singleton manager; that the oldest asks
/// all others is this project's choice).
#[derive(Clone, Copy, Debug, PartialEq, Eq)]
pub enum Phase {
    /// It has not asked yet.
    Younger,
    /// It asks for its ballot.
    Asking,
    /// It runs the singleton.
    Active,
    /// It is over with the singleton for good.
    Ended,
}

/// What a tick does.
#[derive(Clone, Copy, Debug, PartialEq, Eq)]
pub enum TickRule {
    /// Nothing.
    Rests,
    /// It begins to ask with a new ballot.
    Opens,
    /// It wants the ballot that it promised last handed over.
    HandsOver,
    /// It ends an asking, since it is not the candidate any more.
    Closes,
    /// It asks those that have not granted yet.
    Asks,
}

/// What a tick sends: `ask` of the live ballot to these, `release` of the last ballot to these, and `hand-over-to-me` of a ballot
/// to its process.
#[derive(Drop)]
pub struct Steps {
    pub ask: Uniques,
    pub release: Uniques,
    pub hand_over_to: Option<Ballot>,
}
