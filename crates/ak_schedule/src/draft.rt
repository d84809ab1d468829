ghost use Rattle.std.specs.Prelude.{◌≡◌, ◌≢◌, ◌<◌, ◌≤◌, ◌∷◌, ℕ, List, codes, length, MatchResult};
ghost use Rattle.ak_schedule.specs.Line.{words};
ghost use Rattle.ak_schedule.specs.Draft.{first_draft, HeaderAnswers, NextAnswers, ExtraAnswers};

use crate::fault::LineFault;
use crate::header::{
    read_listing, read_option, read_role, read_setting, read_strategy, read_types,
};
use crate::kind::is_text;
use crate::line::{MOST_BYTES, next_word};
use ak_address::{Address, Text};
use ak_settings::{MOST_BUFFER, MOST_SHARDS, MOST_TICKS, Settings, Strategy, copy_addresses};
use std::alloc::Global;
use std::marker::Model;

const HEADERS: u32 = 9;

/// The nine header lines of a schedule, in their order.
#[derive(Clone, Copy, Debug, PartialEq, Eq)]
pub enum Header {
    Listed,
    Strategy,
    Margin,
    Deadline,
    Stable,
    Shards,
    Buffer,
    Threshold,
    Limit,
}

/// The optional header lines of a schedule, in their order, each at most once after the ninth header line.
#[derive(Clone, Copy, Debug, PartialEq, Eq)]
pub enum Extra {
    Weakly,
    Role,
    Types,
}

/// The header lines of a schedule, as far as they are read. Until a line sets it a setting has a first
/// value: no address, the strategy that downs all, and 1.
#[derive(Debug, Drop)]
pub struct Draft {
    read: u32,
    // The index of the first optional header that may still come.
    extra: u32,
    listed: Vec<Address>,
    strategy: Strategy,
    margin: u32,
    deadline: u32,
    stable: u32,
    shards: u32,
    buffer: u32,
    threshold: u32,
    limit: u32,
    weakly: u32,
    role: Vec<Address>,
    types: Vec<Text>,
}

impl Model for Draft {
    ghost use Rattle.ak_schedule.specs.Draft.{Drafted, coded_draft, IsDraft};

    ghost Value = { Drafted };

    ghost coded = { coded_draft };

    ghost view = { λ d. record { read = d.read; extra = d.extra; settings = record { listed = d.listed.items; strategy = d.strategy; margin = d.margin; deadline = d.deadline; stable = d.stable; shards = d.shards; buffer = d.buffer; threshold = d.threshold; limit = d.limit; weakly = d.weakly; role = d.role.items; types = d.types.items } } };

    ghost invariant = { λ d. IsDraft (record { read = d.read; extra = d.extra; settings = record { listed = d.listed.items; strategy = d.strategy; margin = d.margin; deadline = d.deadline; stable = d.stable; shards = d.shards; buffer = d.buffer; threshold = d.threshold; limit = d.limit; weakly = d.weakly; role = d.role.items; types = d.types.items } }) };
}

impl Draft {
    /// Nothing is read yet.
    pub fn new(alloc: Global) -> Draft
        ensures { result ≡ first_draft }
    {
        Draft {
            read: 0,
            extra: 0,
            listed: Vec::new(alloc),
            strategy: Strategy::DownAll,
            margin: 1,
            deadline: 1,
            stable: 1,
            shards: 1,
            buffer: 1,
            threshold: 1,
            limit: 1,
            weakly: 0,
            role: Vec::new(alloc),
            types: Vec::new(alloc),
        }
    }

    /// Reads the next header line. True exactly where it is the ninth. Refused as `BadHeader` exactly
    /// where no value makes the line the next header; only memory can fail besides, at the first header. At every error the
    /// draft is as it was. The headers, their order and their ranges are this project's choice.
    pub fn header(&mut self, alloc: Global, line: &[u8]) -> Result<bool, LineFault>
        requires { self.old.read < HEADERS }
        ensures { HeaderAnswers result line.now self.old self.new }
    {
        if line.len() > MOST_BYTES {
            return Err(LineFault::BadHeader);
        }
        self.set_next(alloc, line)?;
        self.read += 1;
        Ok(self.read == HEADERS)
    }

    /// Reads an optional header line: true exactly where the line is one that may still come, false exactly where its first word
    /// is that of none. Refused as `BadHeader` exactly where it is that of one, and the line is not spelled so, comes twice or
    /// belongs before another that was read. At every error the draft is as it was. The optional headers, their order and their
    /// ranges are this project's choice. Only a line that may be a role, or types, takes memory.
    pub fn extra(&mut self, alloc: Global, line: &[u8]) -> Result<bool, LineFault>
        requires read { self.old.read ≡ HEADERS }
        requires short { length line.now ≤ MOST_BYTES }
        ensures { ExtraAnswers result line.now self.old self.new }
    {
        let Some((first, _)) = next_word(line) else {
            return Ok(false);
        };
        if !is_text(first, b"weakly") {
            return self.set_role(alloc, line);
        }
        if self.extra > 0 {
            return Err(LineFault::BadHeader);
        }
        self.weakly = read_option(line, b"weakly", MOST_TICKS)?;
        self.extra = 1;
        Ok(true)
    }

    /// How many headers were read, at most nine.
    pub fn headers_read(&self) -> u32
        ensures count { result ≡ self.now.read }
        ensures most { result ≤ HEADERS }
    {
        self.read
    }

    /// The settings, exactly where all nine headers are read. Else the draft is given back.
    pub fn finish(self) -> Result<Settings, Draft>
        ensures { MatchResult result
            (λ settings. (self.read ≡ HEADERS) × (settings ≡ self.settings))
            (λ draft. (self.read < HEADERS) × (draft ≡ self)) }
    {
        if self.read != HEADERS {
            return Err(self);
        }
        let Draft {
            read: _,
            extra: _,
            listed,
            strategy,
            margin,
            deadline,
            stable,
            shards,
            buffer,
            threshold,
            limit,
            weakly,
            role,
            types,
        } = self;
        Ok(Settings {
            listed,
            strategy,
            margin,
            deadline,
            stable,
            shards,
            buffer,
            threshold,
            limit,
            weakly,
            role,
            types,
        })
    }
}

impl Draft {
    // Reads the optional header line of a role, or one that comes after it, or one with the word of none.
    fn set_role(&mut self, alloc: Global, line: &[u8]) -> Result<bool, LineFault>
        requires read { self.old.read ≡ HEADERS }
        requires short { length line.now ≤ MOST_BYTES }
        requires other { (rest : List (List ℕ)) → words line.now ≡ codes "weakly" ∷ rest → ⊥ }
        ensures { ExtraAnswers result line.now self.old self.new }
    {
        let Some((first, _)) = next_word(line) else {
            return Ok(false);
        };
        if !is_text(first, b"role") {
            return self.set_types(alloc, line);
        }
        if self.extra > 1 {
            return Err(LineFault::BadHeader);
        }
        self.role = read_role(alloc, line, &self.listed)?;
        self.extra = 2;
        Ok(true)
    }

    // Reads the optional header line of types, or one with the word of none.
    fn set_types(&mut self, alloc: Global, line: &[u8]) -> Result<bool, LineFault>
        requires read { self.old.read ≡ HEADERS }
        requires short { length line.now ≤ MOST_BYTES }
        requires other { (rest : List (List ℕ)) → words line.now ≡ codes "weakly" ∷ rest → ⊥ }
        requires no_role { (rest : List (List ℕ)) → words line.now ≡ codes "role" ∷ rest → ⊥ }
        ensures { ExtraAnswers result line.now self.old self.new }
    {
        let Some((first, _)) = next_word(line) else {
            return Ok(false);
        };
        if !is_text(first, b"types") {
            return Ok(false);
        }
        if self.extra > 2 {
            return Err(LineFault::BadHeader);
        }
        self.types = read_types(alloc, line, self.shards)?;
        self.extra = 3;
        Ok(true)
    }

    // Sets the setting that is next, and no other.
    fn set_next(&mut self, alloc: Global, line: &[u8]) -> Result<(), LineFault>
        requires more { self.old.read < HEADERS }
        requires short { length line.now ≤ MOST_BYTES }
        ensures { NextAnswers result line.now self.old self.new }
    {
        match self.read {
            0 => {
                let listed = read_listing(alloc, line)?;
                self.role = copy_addresses(alloc, &listed)?;
                self.listed = listed;
            }
            1 => self.strategy = read_strategy(line)?,
            2 => self.margin = read_setting(line, b"margin", MOST_TICKS)?,
            3 => self.deadline = read_setting(line, b"deadline", MOST_TICKS)?,
            4 => self.stable = read_setting(line, b"stable", MOST_TICKS)?,
            5 => {
                let shards = read_setting(line, b"shards", MOST_SHARDS)?;
                self.types = Vec::new(alloc);
                self.shards = shards;
            }
            6 => self.buffer = read_setting(line, b"buffer", MOST_BUFFER)?,
            7 => self.threshold = read_setting(line, b"threshold", MOST_SHARDS)?,
            _ => self.limit = read_setting(line, b"limit", MOST_SHARDS)?,
        }
        Ok(())
    }
}
