use ak_address::Uniques;

/// What a generator sees of a world before its next event.
#[derive(Drop)]
pub struct Sight {
    /// The processes that run.
    pub running: Uniques,
    /// How many processes were started.
    pub starts: u32,
    /// How many packets were sent.
    pub packets: u64,
}
