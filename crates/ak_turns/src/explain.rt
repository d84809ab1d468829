// What people are told of a configuration that is refused.
use crate::node::Unloaded;
use ak_address::Text;
use ak_config::ConfigFault;
use ak_notes::{Notes, say_of};
use std::alloc::Global;

// Why there is no configuration of this name.
pub(crate) fn explain<N: Notes>(alloc: Global, name: &Text, why: &Unloaded, notes: &mut N) {
    match why {
        Unloaded::Refused(fault) => explain_fault(alloc, fault, notes),
        Unloaded::NoFile => say_of(alloc, notes, b"there is no file ", name, b""),
        Unloaded::TooLarge => say_of(
            alloc,
            notes,
            b"the file ",
            name,
            b" has more than 65536 bytes",
        ),
        Unloaded::Failed => say_of(alloc, notes, b"the file ", name, b" could not be read"),
        Unloaded::NoMemory => {}
    }
}

fn explain_fault<N: Notes>(alloc: Global, fault: &ConfigFault, notes: &mut N) {
    match fault {
        ConfigFault::NotToml => notes.say(b"the configuration is no TOML document\n"),
        ConfigFault::Missing(key) => say_of(alloc, notes, b"the key ", key, b" is missing"),
        ConfigFault::Unknown(key) => say_of(alloc, notes, b"there is no key ", key, b""),
        ConfigFault::WrongType(key) => {
            say_of(alloc, notes, b"the value of ", key, b" has another type")
        }
        ConfigFault::Range(key) => say_of(
            alloc,
            notes,
            b"the value of ",
            key,
            b" is out of its range",
        ),
        ConfigFault::BadAddress(key) => {
            say_of(
                alloc,
                notes,
                b"the value of ",
                key,
                b" is no address, as 127.0.0.1:2551 is one",
            )
        }
        ConfigFault::SelfUnlisted(key) => {
            say_of(
                alloc,
                notes,
                b"the address of ",
                key,
                b" is not among the listed ones",
            )
        }
        ConfigFault::Repeated(key) => say_of(alloc, notes, b"the value of ", key, what_twice(key)),
        ConfigFault::NoMemory(_) => {}
    }
}

// What stands twice at a key: an address, or the name of a type.
fn what_twice(key: &Text) -> &'static [u8] {
    if key.bytes() == b"types".as_slice() {
        b" has a name twice"
    } else {
        b" has an address twice"
    }
}
