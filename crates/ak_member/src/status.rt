ghost use Rattle.std.specs.Prelude.{◌≡◌};
ghost use Rattle.ak_member.specs.Standing.{rank, is_joining, is_waiting, is_up, is_exiting, is_down};
ghost use Rattle.ak_member.specs.Age.{counts};

/// How far a member has come, in this order (Akka's Cluster Specification, "Membership Lifecycle").
#[derive(Clone, Copy, Debug, PartialEq, Eq)]
pub enum Status {
    /// It has joined, and no leader has moved it up yet.
    Joining,
    /// It was let in while the members could not agree: it can be seen and used, and counts for nothing yet.
    WeaklyUp,
    Up,
    /// It was asked to leave.
    Leaving,
    /// It is on its way out: it hands over what it holds.
    Exiting,
    /// It was taken down, by a user or by the resolver.
    Down,
}

impl Status {
    /// How far it has come in the order of statuses, from 1 to 6. A status only ever rises. Takes no memory.
    pub fn rank(&self) -> u8
        ensures { result ≡ rank self.now }
    {
        match self {
            Status::Joining => 1,
            Status::WeaklyUp => 2,
            Status::Up => 3,
            Status::Leaving => 4,
            Status::Exiting => 5,
            Status::Down => 6,
        }
    }

    /// Whether a member of this status counts: the Up and Leaving ones serve the cluster. Takes no memory.
    pub fn counts(&self) -> bool
        ensures { result ≡ counts self.now }
    {
        match self {
            Status::Joining => false,
            Status::WeaklyUp => false,
            Status::Up => true,
            Status::Leaving => true,
            Status::Exiting => false,
            Status::Down => false,
        }
    }

    /// Whether it is Joining. Takes no memory.
    pub fn is_joining(&self) -> bool
        ensures { result ≡ is_joining self.now }
    {
        matches!(self, Status::Joining)
    }

    /// Whether it waits to come Up: the Joining and the WeaklyUp ones do. Takes no memory.
    pub fn is_waiting(&self) -> bool
        ensures { result ≡ is_waiting self.now }
    {
        match self {
            Status::Joining => true,
            Status::WeaklyUp => true,
            Status::Up => false,
            Status::Leaving => false,
            Status::Exiting => false,
            Status::Down => false,
        }
    }

    /// Whether it is Up. Takes no memory.
    pub fn is_up(&self) -> bool
        ensures { result ≡ is_up self.now }
    {
        matches!(self, Status::Up)
    }

    /// Whether it is Exiting. Takes no memory.
    pub fn is_exiting(&self) -> bool
        ensures { result ≡ is_exiting self.now }
    {
        matches!(self, Status::Exiting)
    }

    /// Whether it is Down. Takes no memory.
    pub fn is_down(&self) -> bool
        ensures { result ≡ is_down self.now }
    {
        matches!(self, Status::Down)
    }
}
