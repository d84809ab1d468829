ghost use Rattle.std.specs.Prelude.{◌≡◌, [], ◌∷◌, MatchOption, MatchResult, IfOk, codes};
ghost use Rattle.std.specs.List.{list_all};
ghost use Rattle.ak_settings.specs.Settings.{is_listed};
ghost use Rattle.ak_address.specs.Spelling.{SpellsAddress};
ghost use Rattle.ak_schedule.specs.Line.{words};
ghost use Rattle.ak_schedule.specs.Draft.{RefusesHeader, RefusesValue, SpellsAddresses, SpellsNext};
ghost use Rattle.ak_schedule.specs.Schedule.{SpellsListing, SpellsOption, SpellsRole, SpellsSetting, SpellsStrategy, SpellsTypes};

use crate::fault::LineFault;
use crate::kind::is_text;
use crate::line::{next_word, one_word, two_words};
use ak_address::{Address, AddressFault, Text, contains_address, parse_address, parse_number};
use ak_settings::{MOST_LISTED, MOST_QUORUM, Strategy, are_types};
use std::alloc::{AllocError, Global};

/// The number of a header line that has this name, from 1 to the most. Refused exactly where the line is
/// no such header.
pub(crate) fn read_setting(line: &[u8], name: &[u8], most: u32) -> Result<u32, LineFault>
    ensures { MatchResult result
        (λ n. SpellsSetting name.now most (words line.now) n)
        (RefusesHeader (SpellsSetting name.now most (words line.now))) }
{
    let Some((first, number)) = two_words(line) else {
        return Err(LineFault::BadHeader);
    };
    if !is_text(first, name) {
        return Err(LineFault::BadHeader);
    }
    match parse_number(number, 1, u64::from(most)) {
        Some(number) => return Ok(number as u32),
        None => return Err(LineFault::BadHeader),
    }
}

/// The number of an optional header line that has this name, from 0 to the most. Refused exactly where the line is no such header.
pub(crate) fn read_option(line: &[u8], name: &[u8], most: u32) -> Result<u32, LineFault>
    ensures { MatchResult result
        (λ n. SpellsOption name.now most (words line.now) n)
        (RefusesHeader (SpellsOption name.now most (words line.now))) }
{
    let Some((first, number)) = two_words(line) else {
        return Err(LineFault::BadHeader);
    };
    if !is_text(first, name) {
        return Err(LineFault::BadHeader);
    }
    match parse_number(number, 0, u64::from(most)) {
        Some(number) => return Ok(number as u32),
        None => return Err(LineFault::BadHeader),
    }
}

/// The strategy of a header line. Refused exactly where the line is no such header.
pub(crate) fn read_strategy(line: &[u8]) -> Result<Strategy, LineFault>
    ensures { MatchResult result
        (λ s. SpellsStrategy (words line.now) s)
        (RefusesHeader (SpellsStrategy (words line.now))) }
{
    match strategy_of(line) {
        Some(strategy) => return Ok(strategy),
        None => return Err(LineFault::BadHeader),
    }
}

fn strategy_of(line: &[u8]) -> Option<Strategy>
    ensures { MatchOption result
        ((s : Strategy) → SpellsStrategy (words line.now) s → ⊥)
        (λ s. SpellsStrategy (words line.now) s) }
{
    let Some((name, rest)) = next_word(line) else {
        return None;
    };
    if !is_text(name, b"strategy") {
        return None;
    }
    let Some((name, rest)) = next_word(rest) else {
        return None;
    };
    if is_text(name, b"static-quorum") {
        return read_quorum(rest);
    }
    if is_text(name, b"keep-oldest") {
        return read_oldest(rest);
    }
    if next_word(rest).is_some() {
        return None;
    }
    bare_strategy(name)
}

// A quorum, from the words after its name.
fn read_quorum(rest: &[u8]) -> Option<Strategy>
    ensures { MatchOption result
        ((s : Strategy) → SpellsStrategy (codes "strategy" ∷ codes "static-quorum" ∷ words rest.now) s → ⊥)
        (λ s. SpellsStrategy (codes "strategy" ∷ codes "static-quorum" ∷ words rest.now) s) }
{
    let Some(number) = one_word(rest) else {
        return None;
    };
    match parse_number(number, 1, u64::from(MOST_QUORUM)) {
        Some(number) => return Some(Strategy::StaticQuorum(number as u32)),
        None => return None,
    }
}

// Whether an oldest that is alone gives way, from the words after the name.
fn read_oldest(rest: &[u8]) -> Option<Strategy>
    ensures { MatchOption result
        ((s : Strategy) → SpellsStrategy (codes "strategy" ∷ codes "keep-oldest" ∷ words rest.now) s → ⊥)
        (λ s. SpellsStrategy (codes "strategy" ∷ codes "keep-oldest" ∷ words rest.now) s) }
{
    let Some(flag) = one_word(rest) else {
        return None;
    };
    if is_text(flag, b"on") {
        return Some(Strategy::KeepOldest(true));
    }
    if is_text(flag, b"off") {
        return Some(Strategy::KeepOldest(false));
    }
    None
}

// A strategy that is a name alone.
fn bare_strategy(name: &[u8]) -> Option<Strategy>
    ensures { MatchOption result
        ((s : Strategy) → SpellsStrategy (codes "strategy" ∷ name.now ∷ []) s → ⊥)
        (λ s. SpellsStrategy (codes "strategy" ∷ name.now ∷ []) s) }
{
    if is_text(name, b"keep-majority") {
        return Some(Strategy::KeepMajority);
    }
    if is_text(name, b"down-all") {
        return Some(Strategy::DownAll);
    }
    None
}

/// The addresses of a header line. Refused as `BadHeader` exactly where the line is no such header.
pub(crate) fn read_listing(alloc: Global, line: &[u8]) -> Result<Vec<Address>, LineFault>
    ensures { MatchResult result
        (λ listed. SpellsListing (words line.now) listed.items)
        (RefusesValue (SpellsListing (words line.now))) }
{
    let Some((name, rest)) = next_word(line) else {
        return Err(LineFault::BadHeader);
    };
    if !is_text(name, b"listed") {
        return Err(LineFault::BadHeader);
    }
    match read_addresses(alloc, rest) {
        Ok(listed) => return Ok(listed),
        Err(fault) => return Err(fault),
    }
}

/// The addresses of a header line that have the role, which are among the listed ones. Refused as `BadHeader` exactly where the line
/// is no such header.
pub(crate) fn read_role(
    alloc: Global,
    line: &[u8],
    listed: &[Address],
) -> Result<Vec<Address>, LineFault>
    ensures { MatchResult result
        (λ role. SpellsRole (words line.now) listed.now role.items)
        (RefusesValue (SpellsRole (words line.now) listed.now)) }
{
    let Some((name, rest)) = next_word(line) else {
        return Err(LineFault::BadHeader);
    };
    if !is_text(name, b"role") {
        return Err(LineFault::BadHeader);
    }
    match read_addresses(alloc, rest) {
        Ok(role) => {
            if are_among(&role, listed) {
                return Ok(role);
            }
            return Err(LineFault::BadHeader);
        }
        Err(fault) => return Err(fault),
    }
}

fn are_among(role: &[Address], listed: &[Address]) -> bool
    ensures { result ≡ list_all (λ a. is_listed listed.now a) role.now }
{
    role.iter().all(|each| contains_address(listed, each))
}

/// The names of types of a header line, each of which has so many shards. Refused as `BadHeader` exactly where the line is no such
/// header.
pub(crate) fn read_types(alloc: Global, line: &[u8], shards: u32) -> Result<Vec<Text>, LineFault>
    ensures { MatchResult result
        (λ types. SpellsTypes (words line.now) shards types.items)
        (RefusesValue (SpellsTypes (words line.now) shards)) }
{
    let Some((name, rest)) = next_word(line) else {
        return Err(LineFault::BadHeader);
    };
    if !is_text(name, b"types") {
        return Err(LineFault::BadHeader);
    }
    let types = words_of(alloc, rest)?;
    if types.is_empty() {
        return Err(LineFault::BadHeader);
    }
    if !are_types(shards, &types) {
        return Err(LineFault::BadHeader);
    }
    Ok(types)
}

// The words of a line. Only memory can fail.
fn words_of(alloc: Global, line: &[u8]) -> Result<Vec<Text>, AllocError>
    ensures { IfOk result (λ texts. texts.items ≡ words line.now) }
{
    let mut texts = Vec::new(alloc);
    let mut rest = line;
    'words: while let Some((word, after_it)) = next_word(rest) {
        let text = Text::from_bytes(alloc, word)?;
        texts.push(text)?;
        rest = after_it;
    }
    Ok(texts)
}

fn read_addresses(alloc: Global, names: &[u8]) -> Result<Vec<Address>, LineFault>
    ensures { MatchResult result
        (λ listed. SpellsAddresses (words names.now) listed.items)
        (RefusesValue (SpellsAddresses (words names.now))) }
{
    let mut listed = Vec::new(alloc);
    let mut rest = names;
    'names: while let Some((name, after_it)) = next_word(rest) {
        let address = next_address(alloc, name, &listed)?;
        listed.push(address)?;
        rest = after_it;
    }
    if listed.is_empty() {
        return Err(LineFault::BadHeader);
    }
    Ok(listed)
}

// One more address, which is not among these.
fn next_address(alloc: Global, name: &[u8], listed: &[Address]) -> Result<Address, LineFault>
    ensures { MatchResult result
        (SpellsNext name.now listed.now)
        (RefusesValue (SpellsNext name.now listed.now)) }
{
    if listed.len() >= MOST_LISTED {
        return Err(LineFault::BadHeader);
    }
    match listed_address(alloc, name) {
        Err(fault) => return Err(fault),
        Ok(address) => {
            if contains_address(listed, &address) {
                return Err(LineFault::BadHeader);
            }
            return Ok(address);
        }
    }
}

fn listed_address(alloc: Global, name: &[u8]) -> Result<Address, LineFault>
    ensures { MatchResult result (SpellsAddress name.now) (RefusesValue (SpellsAddress name.now)) }
{
    match parse_address(alloc, name) {
        Ok(address) => return Ok(address),
        Err(AddressFault::BadHost) => return Err(LineFault::BadHeader),
        Err(AddressFault::BadPort) => return Err(LineFault::BadHeader),
        Err(AddressFault::BadUid) => return Err(LineFault::BadHeader),
        Err(AddressFault::NoMemory(error)) => return Err(error.into()),
    }
}
