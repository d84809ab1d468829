/// Whom a node downs (Akka's Split Brain Resolver, "Strategies").
#[derive(Clone, Copy, Debug, PartialEq, Eq)]
pub enum Decision {
    /// The members that it finds unreachable, but never itself.
    DownUnreachable,
    /// The members that it reaches, and itself.
    DownReachable,
    DownAll,
}
