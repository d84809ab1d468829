// Whether values may be settings.
ghost use Rattle.std.specs.Prelude.{◌≡◌, ◌≢◌, ◌↔◌, IsTrue};
ghost use Rattle.std.specs.List.{AllByRecursion, AllPairs};
ghost use Rattle.ak_address.specs.Unique.{IsAddress};
ghost use Rattle.ak_settings.specs.Settings as model;
ghost use Rattle.ak_settings.specs.Settings.{IsListing, IsStrategy, IsWithin};

use crate::settings::Strategy;
use ak_address::{Address, contains_address};

/// How many addresses are listed at most.
pub const MOST_LISTED: usize = 32;

/// The greatest quorum.
pub const MOST_QUORUM: u32 = 32;

/// The greatest margin, deadline and stable time.
pub const MOST_TICKS: u32 = 1_000_000;

/// How many shards there are at most; also the greatest threshold and limit, which are numbers of shards.
pub const MOST_SHARDS: u32 = 1_000;

/// How many messages a region keeps at most.
pub const MOST_BUFFER: u32 = 100_000;

/// Whether these are 1 to 32 different addresses.
pub(crate) fn is_listing(listed: &[Address]) -> bool
    ensures { IsTrue result ↔ IsListing listed.now }
{
    addresses(listed);
    listed.len() >= 1 && listed.len() <= MOST_LISTED && all_different(listed)
}

/// Whether no address stands twice. Takes no memory.
pub fn all_different(listed: &[Address]) -> bool
    ensures value { result ≡ model.all_different listed.now }
    ensures meaning { IsTrue result ↔ AllPairs (λ a b. a ≢ b) listed.now }
{
    are_different(listed)
}

fn are_different(listed: &[Address]) -> bool
    ensures { result ≡ model.all_different listed.now }
{
    'addresses: for (i, address) in listed.iter().enumerate() {
        if contains_address(&listed[i + 1..], address) {
            return false;
        }
    }
    true
}

/// Whether a quorum is from 1 to 32, where there is one.
pub(crate) fn is_strategy(strategy: Strategy) -> bool
    ensures { IsTrue result ↔ IsStrategy strategy }
{
    match strategy {
        Strategy::StaticQuorum(quorum) => is_within(MOST_QUORUM, quorum),
        Strategy::KeepMajority => true,
        Strategy::KeepOldest(_) => true,
        Strategy::DownAll => true,
    }
}

/// Whether each is from 1 to 1,000,000.
pub(crate) fn are_ticks(margin: u32, deadline: u32, stable: u32) -> bool
    ensures { IsTrue result ↔ (IsWithin MOST_TICKS margin × IsWithin MOST_TICKS deadline × IsWithin MOST_TICKS stable) }
{
    is_within(MOST_TICKS, margin)
        && is_within(MOST_TICKS, deadline)
        && is_within(MOST_TICKS, stable)
}

fn is_within(most: u32, number: u32) -> bool
    ensures { IsTrue result ↔ IsWithin most number }
{
    number >= 1 && number <= most
}

// Tells a proof that each of them is in its range, as every address is.
fn addresses(listed: &[Address])
    ensures { AllByRecursion IsAddress listed.now }
{
    'addresses: for each in listed {
        address(each);
    }
}

fn address(place: &Address)
    ensures { IsAddress place.now }
{
    let _port = place.port;
}
