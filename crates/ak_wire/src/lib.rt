//! What the nodes of a cluster say to each other, as values and as bytes, and what a node does in a step.
#![tactic(auto)]

mod action;
mod bodies;
mod checking;
mod cover;
mod envelope;
mod laws;
mod measuring;
mod reading;
mod reports;
mod shared;
mod writing;

pub use action::{Action, Actions};
pub use ak_field::{WireFault, check_header};
pub use checking::valid;
pub use cover::Cover;
pub use envelope::{Envelope, Message};
pub use laws::{
    bytes_are_a_datagram_or_at_fault, datagrams_are_their_spellings, no_datagram_begins_another,
};
pub use reading::decode;
pub use reports::Reports;
pub use shared::SharedEnvelope;
pub use writing::{encode, kind_number};
