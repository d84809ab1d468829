// Options in pairs of words: a name, and its value.
ghost use Rattle.std.specs.Prelude.{◌≡◌, ◌↔◌, ◌<◌, ℕ, List, [], ◌∷◌, length, map, IsTrue, MatchOption, nat_eq};
ghost use Rattle.std.specs.List.{list_any};
ghost use Rattle.std.specs.Cmp.Lexicographic.{pointwise};
ghost use Rattle.ak_options.specs.Options.{Pair, words_of, values, AreNamed, IsOnce, IsNumberOnce, IsNumberAtMostOnce};

use ak_address::{Text, parse_number};

// The name and the value of the first pair, and the words after it. None exactly where there are fewer than two words.
fn next_pair(words: &[Text]) -> Option<(&[u8], &[u8], &[Text])>
    ensures { MatchOption result (length words.now < 2) (λ p. words.now ≡ p.0.now ∷ p.1.now ∷ p.2.now) }
{
    match words {
        [name, value, rest @ ..] => Some((name.bytes(), value.bytes(), rest)),
        _ => None,
    }
}

fn is_one_of(names: &[&[u8]], name: &[u8]) -> bool
    ensures { result ≡ list_any (λ one. pointwise nat_eq one.now name.now) names.now }
{
    names.iter().any(|one| *one == name)
}

/// Whether the words are pairs, each with one of these names.
pub(crate) fn are_options(words: &[Text], names: &[&[u8]]) -> bool
    ensures { IsTrue result ↔ ((pairs : List Pair) × (words.now ≡ words_of pairs) × AreNamed (map (λ one. one.now) names.now) pairs) }
{
    let mut left = words;
    'pairs: while let Some((name, _, rest)) = next_pair(left) {
        if !is_one_of(names, name) {
            return false;
        }
        left = rest;
    }
    left.is_empty()
}

// The value of the first pair that has this name, and the words after it. None exactly where no pair has it.
fn next_value<'a>(words: &'a [Text], name: &[u8]) -> Option<(&'a [u8], &'a [Text])>
    ensures { (pairs : List Pair) → words.now ≡ words_of pairs → MatchOption result
        (values name.now pairs ≡ [])
        (λ found. (others : List Pair) × (found.1.now ≡ words_of others) × (values name.now pairs ≡ found.0.now ∷ values name.now others)) }
{
    let mut left = words;
    'pairs: while let Some((option, value, rest)) = next_pair(left) {
        if option == name {
            return Some((value, rest));
        }
        left = rest;
    }
    None
}

/// The value of the only pair that has this name. None exactly where no pair has it, or several have.
pub(crate) fn only_value<'a>(words: &'a [Text], name: &[u8]) -> Option<&'a [u8]>
    ensures { (pairs : List Pair) → words.now ≡ words_of pairs → MatchOption result
        ((value : List ℕ) → IsOnce name.now pairs value → ⊥)
        (λ value. IsOnce name.now pairs value.now) }
{
    let Some((value, rest)) = next_value(words, name) else {
        return None;
    };
    match next_value(rest, name) {
        Some(_) => None,
        None => Some(value),
    }
}

/// The number from `least` to `most` of the only pair that has this name. None exactly where that is not there.
pub(crate) fn only_number(words: &[Text], name: &[u8], least: u64, most: u64) -> Option<u64>
    ensures { (pairs : List Pair) → words.now ≡ words_of pairs → MatchOption result
        ((n : ℕ) → IsNumberOnce name.now least most pairs n → ⊥)
        (λ n. IsNumberOnce name.now least most pairs n) }
{
    let Some(value) = only_value(words, name) else {
        return None;
    };
    parse_number(value, least, most)
}

/// The same, and the default where no pair has the name.
pub(crate) fn number_or(
    words: &[Text],
    name: &[u8],
    least: u64,
    most: u64,
    default: u64,
) -> Option<u64>
    ensures { (pairs : List Pair) → words.now ≡ words_of pairs → MatchOption result
        ((n : ℕ) → IsNumberAtMostOnce name.now least most default pairs n → ⊥)
        (λ n. IsNumberAtMostOnce name.now least most default pairs n) }
{
    match next_value(words, name) {
        Some(_) => only_number(words, name, least, most),
        None => Some(default),
    }
}
