//! Packets that were sent: an envelope that has a spelling, and whether two are alike.
#![tactic(auto)]

mod alike;
mod carried;
mod hashing;
mod laws;
mod packet;
mod same;

pub use laws::alike_packets_say_the_same;
pub use packet::Packet;
