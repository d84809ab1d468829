/// What came of one run.
#[derive(Clone, Copy, Debug, PartialEq, Eq)]
pub struct Line {
    /// The seed of its words.
    pub seed: u64,
    /// How many events it had.
    pub steps: u64,
    /// How many packets were sent in it.
    pub packets: u64,
    /// How many entries its history has.
    pub history: u64,
    /// Whether the removal margin was kept.
    pub kept: bool,
    /// Whether an entity was active on two nodes.
    pub double: bool,
}
