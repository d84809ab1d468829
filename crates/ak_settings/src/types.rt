// Whether texts may be the names of types.
ghost use Rattle.std.specs.Prelude.{◌≡◌, ◌≢◌, ◌↔◌, ◌*◌, ◌≤◌, nat_le, IsTrue};
ghost use Rattle.std.specs.List.{AllPairs, list_all};
ghost use Rattle.ak_shard_id.specs.Division as division;
ghost use Rattle.ak_settings.specs.Settings as model;
ghost use Rattle.ak_settings.specs.Settings.{AreTypes, MayBeTypes, is_text_among};

use crate::ranges::MOST_SHARDS;
use ak_address::Text;
use ak_shard_id::is_type_name;

/// How many types of entities there are at most.
pub const MOST_TYPES: usize = 8;

/// Whether these may be the types of a run in which each has so many shards: at most 8 different names, and at most 1,000 shards of
/// all of them. Takes no memory.
pub fn are_types(shards: u32, types: &[Text]) -> bool
    ensures { IsTrue result ↔ AreTypes shards types.now }
{
    may_be_types(shards, types) && all_texts_differ(types)
}

/// The same but that they are different. Takes no memory.
pub fn may_be_types(shards: u32, types: &[Text]) -> bool
    ensures value { result ≡ model.may_be_types shards types.now }
    ensures meaning { IsTrue result ↔ MayBeTypes shards types.now }
{
    are_few_names(shards, types)
}

fn are_few_names(shards: u32, types: &[Text]) -> bool
    ensures { result ≡ model.may_be_types shards types.now }
{
    types.len() <= MOST_TYPES && are_names(types) && fit(shards, types.len())
}

// Whether so many shards of each of these types are at most 1,000 for all of them.
fn fit(shards: u32, count: usize) -> bool
    requires { count ≤ MOST_TYPES }
    ensures { result ≡ nat_le (count * shards) MOST_SHARDS }
{
    count as u64 * u64::from(shards) <= u64::from(MOST_SHARDS)
}

fn are_names(types: &[Text]) -> bool
    ensures { result ≡ list_all division.is_type_name types.now }
{
    types.iter().all(|name| is_type_name(name.bytes()))
}

/// Whether no text stands twice. Takes no memory.
pub fn all_texts_differ(texts: &[Text]) -> bool
    ensures value { result ≡ model.all_texts_differ texts.now }
    ensures meaning { IsTrue result ↔ AllPairs (λ a b. a ≢ b) texts.now }
{
    texts_differ(texts)
}

fn texts_differ(texts: &[Text]) -> bool
    ensures { result ≡ model.all_texts_differ texts.now }
{
    'texts: for (i, text) in texts.iter().enumerate() {
        if contains_text(&texts[i + 1..], text) {
            return false;
        }
    }
    true
}

fn contains_text(texts: &[Text], text: &Text) -> bool
    ensures { result ≡ is_text_among texts.now text.now }
{
    texts.iter().any(|each| each.is(text))
}
