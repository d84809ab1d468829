//! Addresses and processes as keys of a hash table.

ghost use Rattle.std.specs.Prelude.{nat_eq};
ghost use Rattle.std.specs.Cmp.{on_equiv, on_per, partial_equiv_from_equiv};
ghost use Rattle.std.specs.Cmp.Lexicographic.{pointwise, bytes_decides, nat_list_eq_equiv};
ghost use Rattle.std.proofs.Common.{ap};
ghost use Rattle.ak_address.specs.Keys.{address_key, unique_key, fed_of_address, fed_of_unique};

use crate::address::{Address, Unique};
use std::hash::{Hash, Hasher};

/// Two addresses are equal where they have the same host and port.
impl PartialEq for Address {
    ghost eq = { λ a b. pointwise nat_eq (address_key a) (address_key b) };

    ghost laws = { on_per address_key (partial_equiv_from_equiv nat_list_eq_equiv) };

    #[tactic(auto, using(crate::proofs::KeyLaws::address_keys))]
    fn eq(&self, other: &Address) -> bool {
        self.is(other)
    }
}

impl Eq for Address {
    ghost laws = { on_equiv address_key nat_list_eq_equiv };
}

/// A hash is fed with the host and the port.
impl Hash for Address {
    ghost hash_input = { λ a. fed_of_address (address_key a) };

    ghost respects_eq = { λ a b same. ap fed_of_address ((bytes_decides (address_key a) (address_key b)).0 same) };

    fn hash<H: Hasher>(&self, state: &mut H) {
        self.host.feed(state);
        state.write_u16(self.port);
    }
}

/// Two processes are equal where they have the same address and uid.
impl PartialEq for Unique {
    ghost eq = { λ u v. pointwise nat_eq (unique_key u) (unique_key v) };

    ghost laws = { on_per unique_key (partial_equiv_from_equiv nat_list_eq_equiv) };

    #[tactic(auto, using(crate::proofs::KeyLaws::unique_keys))]
    fn eq(&self, other: &Unique) -> bool {
        self.is(other)
    }
}

impl Eq for Unique {
    ghost laws = { on_equiv unique_key nat_list_eq_equiv };
}

/// A hash is fed with the address and the uid, so that processes that ran at one address one after another have other hashes.
impl Hash for Unique {
    ghost hash_input = { λ u. fed_of_unique (unique_key u) };

    ghost respects_eq = { λ u v same. ap fed_of_unique ((bytes_decides (unique_key u) (unique_key v)).0 same) };

    fn hash<H: Hasher>(&self, state: &mut H) {
        self.address.hash(state);
        state.write_u64(self.uid);
    }
}
