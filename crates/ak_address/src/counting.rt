ghost use Rattle.std.specs.Prelude.{◌≡◌, ◌<◌, ◌-◌, ◌^◌};
ghost use Rattle.ak_address.specs.Distinct.{none_counted, counted_with};

use crate::address::{Unique, shares_address};
use std::marker::Model;

/// Counts the different addresses of processes that come in their order, in which those of one address stand side by
/// side.
#[derive(Drop)]
pub struct AddressCount<'a> {
    count: u32,
    last: Option<&'a Unique>,
}

impl<'a> Model for AddressCount<'a> {
    ghost use Rattle.std.specs.Prelude.{option_copied};
    ghost use Rattle.ak_address.specs.Distinct.{AddressCountModel, coded_address_count};

    ghost Value = { AddressCountModel };

    ghost coded = { coded_address_count };

    ghost view = { λ a. record { count = a.count; last = option_copied a.last } };
}

impl<'a> AddressCount<'a> {
    /// No address, before the first process. Takes no memory.
    #[inline]
    pub fn none() -> AddressCount<'a>
        ensures { result ≡ none_counted }
    {
        AddressCount {
            count: 0,
            last: None,
        }
    }

    /// One process more: the count rises by one exactly where the last process is at another address, or there is none.
    /// Fewer than 4294967295 addresses may be counted before. Takes no memory.
    #[inline]
    pub fn add(&mut self, who: &'a Unique)
        requires { self.old.count < 2 ^ 32 - 1 }
        ensures { self.new ≡ counted_with self.old who.now }
    {
        if !shares_address(self.last, who) {
            self.count += 1;
        }
        self.last = Some(who);
    }

    /// How many addresses were counted. Takes no memory.
    #[inline]
    pub fn count(&self) -> u32
        ensures { result ≡ self.now.count }
    {
        self.count
    }
}
