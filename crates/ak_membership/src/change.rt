ghost use Rattle.std.specs.Prelude.{◌≡◌};
ghost use Rattle.ak_membership.specs.declared.change.MemberFault.TheVariants.{NoMemory};

use ak_member::Effects;
use std::alloc::AllocError;

/// What a membership answers to whom it was asked by.
#[derive(Clone, Copy, Debug, PartialEq, Eq)]
pub enum Reply {
    /// It says nothing.
    Nothing,
    /// It welcomes the one that asked to join, with what it knows.
    Welcome,
    /// It answers a gossip with what it knows.
    Gossip,
}

/// What a membership did: the update that it made, if it made one, and what it answers.
#[derive(Drop)]
pub struct Change {
    /// The number of its update among its own, from 1 on.
    pub number: Option<u64>,
    /// The effects of the update; none where it made none.
    pub effects: Effects,
    pub reply: Reply,
}

/// Why a membership refuses what it is asked. What it knows is as it was.
#[derive(Drop)]
pub enum MemberFault {
    /// The process that is to leave is not Up (N1).
    NotUp,
    /// The process is no member (N2).
    UnknownMember,
    /// The node itself is no member (N3).
    NotMember,
    /// The address of the process that asks to join is not listed (N4).
    Unlisted,
    /// A gossip counts more of this node's updates than it made (N5).
    ForeignCount { own: u64, theirs: u64 },
    /// There would be too many members and tombstones together (N6).
    TooManyUniques { union: u32 },
    /// Out of memory: the membership is as it was. A request to join, to leave or to down answers it only where the rules
    /// refuse nothing; of a gossip no clause says so.
    NoMemory(AllocError),
}

impl From<AllocError> for MemberFault {
    ghost from_gives = { λ error fault. fault ≡ NoMemory error };

    fn from(error: AllocError) -> MemberFault {
        MemberFault::NoMemory(error)
    }
}

/// What is due after an event.
#[derive(Clone, Copy, Debug, PartialEq, Eq)]
pub struct Closing {
    /// What is known has another version than at the last closing.
    pub viewed: bool,
    /// The node stops.
    pub stopped: bool,
    /// A settled view was noted.
    pub settled: bool,
}
