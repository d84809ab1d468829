use ak_address::Unique;
use ak_member::Effects;

/// One entry of the history: who made it, the author's number of it from 1 on, and what it did.
#[derive(Drop)]
pub struct Entry {
    pub author: Unique,
    pub number: u64,
    pub effects: Effects,
}
