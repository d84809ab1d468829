//! Envelopes over a link: as they are spelled, and a link over the system's UDP socket.
#![tactic(auto)]

mod calls;
mod laws;
mod names;
mod received;
mod sending;
mod udp;

pub use laws::datagrams_have_room;
pub use received::{Got, receive_envelope};
pub use sending::send_envelope;
pub use udp::UdpLink;
