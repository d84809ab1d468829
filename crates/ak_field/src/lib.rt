//! The fields of a datagram: each has one spelling as bytes, which is read and written.
#![tactic(auto)]

mod ballot;
mod entity;
mod entity_id;
mod fault;
mod fields;
mod header;
mod laws;
mod measure;
mod parts;
mod process;
mod reports;
mod valid;
mod version;
mod write;
mod write_lists;

pub use entity::is_entity;
pub use entity_id::EntityId;
pub use fault::WireFault;
pub use fields::Fields;
pub use header::check_header;
pub use laws::{fields_are_their_spellings, no_spelling_begins_another};
pub use measure::{parts_len, reports_len, version_len};
pub use valid::{are_parts, are_reports, is_short};
pub use write::{
    ballot_len, entity_len, process_len, write_ballot, write_byte, write_entity, write_flag,
    write_header, write_number, write_receiver, write_shard, write_unique,
};
pub use write_lists::{write_parts, write_reports, write_version};
