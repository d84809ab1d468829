// The lines of a source, one after another.
ghost use Rattle.std.specs.Prelude.{◌≡◌, ◌≢◌, ◌+◌, ◌≤◌, ◌<◌, ◌⊎◌, ℕ, List, Option, Some, [], true, false, length, take, drop, IfSome, IfNone, MatchOption};
ghost use Rattle.std.specs.Bool.{MatchBool};
ghost use Rattle.std.specs.Io.KnownBytes.{IsAtEnd};
ghost use Rattle.ak_outside.specs.Outside.{Rose};
ghost use Rattle.ak_outside.specs.Lines.{to_come, HasNoEnd, IsTrimmed, IsEndAt, IsGiven, Gives, EndedBy, NextCause};

use crate::source::{Read, Source};
use std::marker::Model;

/// The answer of a reader of lines.
#[derive(Clone, Copy, Debug, PartialEq, Eq)]
pub enum Next {
    /// The next line has so many bytes.
    Line(usize),
    /// The next line has more bytes than a line may have.
    TooLong,
    /// The source has ended, and each of its lines was given.
    End,
    /// The source has failed, and counted it. The lines that it gave whole before were given.
    Failed,
}

// As many bytes are held: more than a line may have with its CR and LF, and as many as a read of standard input gives.
const MOST_HELD: usize = 8192;

// A line may have this many bytes.
const MOST_LINE: usize = 4096;

/// Reads the lines of a source into a fixed buffer: a line ends with LF or with the input, and one CR before that is no part of it
/// (this project's format). It takes no memory, and asks the source only where no line is left in the buffer. Callers see what it
/// holds, the last line, and whether the source has ended.
#[derive(Drop)]
pub struct LineReader {
    buffer: [u8; MOST_HELD],
    // What is held.
    start: usize,
    end: usize,
    // The last line.
    line_start: usize,
    line_len: usize,
    ended: bool,
}

impl Model for LineReader {
    ghost use Rattle.std.specs.Prelude.{◌≡◌, ◌≤◌, ◌+◌, ◌-◌, length, take, drop};
    ghost use Rattle.ak_outside.specs.Lines.{LineState};

    ghost Value = { LineState };

    ghost view = { λ r. record { held = take (r.end - r.start) (drop r.start r.buffer); line = take r.line_len (drop r.line_start r.buffer); ended = r.ended } };

    // What is held and the last line stand in the buffer.
    ghost invariant = { λ r. (r.start ≤ r.end) × (r.end ≤ 8192) × (r.line_start + r.line_len ≤ 8192) × (length r.buffer ≡ 8192) };
}

impl LineReader {
    /// A reader that has read nothing.
    pub fn new() -> LineReader
        ensures { result ≡ record { held = []; line = []; ended = false } }
    {
        LineReader {
            buffer: [0; MOST_HELD],
            start: 0,
            end: 0,
            line_start: 0,
            line_len: 0,
            ended: false,
        }
    }

    /// The last line, without its LF and CR; after `TooLong` the beginning of the line, of more than 4,096 bytes.
    pub fn line(&self) -> &[u8]
        ensures { result.now ≡ self.now.line }
    {
        &self.buffer[self.line_start..self.line_start + self.line_len]
    }

    /// The next line of the source: `TooLong` where it has more than 4,096 bytes, found as soon as so many are there; `End` where
    /// there is none. After `TooLong` and `End` each later call answers the same; after `Failed` a later call reads on.
    pub fn next<S: Source>(&mut self, input: &mut S) -> Next
        ensures count { S.faults input.old ≤ S.faults input.new }
        ensures cause { NextCause (S.faults input.old) (S.faults input.new) result }
        ensures gives { Gives result self.new (to_come self.old (S.remaining input.old)) (to_come self.new (S.remaining input.new)) }
        ensures stays { self.old.ended ≡ true → self.new.ended ≡ true }
        ensures ended { self.new.ended ≡ true → EndedBy self.old.ended (S.remaining input.old) (S.remaining input.new) }
    {
        'reads: loop {
            if let Some(next) = self.buffered() {
                return next;
            }
            if !self.read_more(input) {
                return Next::Failed;
            }
        }
    }

    /// The next answer, where the source need not be asked for it.
    pub fn buffered(&mut self) -> Option<Next>
        ensures never_failed { IfSome result (λ next. next ≢ Next.Failed) }
        ensures gives { IfSome result (λ next. (remaining : Option (List ℕ)) → Gives next self.new (to_come self.old remaining) (to_come self.new remaining)) }
        ensures ended { self.new.ended ≡ self.old.ended }
        ensures none { IfNone result ((self.new.held ≡ self.old.held) × (self.old.ended ≡ false) × HasNoEnd self.old.held × (length self.old.held ≤ 4097)) }
    {
        match end_of_line(&self.buffer[self.start..self.end]) {
            Some(length) => Some(self.give(length, length + 1)),
            None => self.unended(),
        }
    }

    // What is held has no end of a line: it is the last line, or too long, or more of it is to be read.
    fn unended(&mut self) -> Option<Next>
        requires { HasNoEnd self.old.held }
        ensures never_failed { IfSome result (λ next. next ≢ Next.Failed) }
        ensures gives { IfSome result (λ next. (remaining : Option (List ℕ)) → Gives next self.new (to_come self.old remaining) (to_come self.new remaining)) }
        ensures ended { self.new.ended ≡ self.old.ended }
        ensures none { IfNone result ((self.new.held ≡ self.old.held) × (self.old.ended ≡ false) × (length self.old.held ≤ 4097)) }
    {
        let length = self.end - self.start;
        if self.ended && length == 0 {
            return Some(Next::End);
        }
        if self.ended {
            return Some(self.give(length, length));
        }
        let length = trimmed(&self.buffer[self.start..self.end]);
        if length <= MOST_LINE {
            return None;
        }
        self.show(length);
        Some(Next::TooLong)
    }

    // The first bytes of what is held are a line, which is given, unless it is too long; with its end it has so many bytes.
    fn give(&mut self, count: usize, with_end: usize) -> Next
        requires within { with_end ≤ length self.old.held }
        requires line { count ≤ with_end }
        ensures given { IsGiven result (take count self.old.held) (drop with_end self.old.held) self.old self.new }
        ensures ended { self.new.ended ≡ self.old.ended }
    {
        let line = trimmed(&self.buffer[self.start..self.start + count]);
        self.show(line);
        if line > MOST_LINE {
            return Next::TooLong;
        }
        self.start += with_end;
        Next::Line(line)
    }

    // The last line is these first bytes of what is held.
    fn show(&mut self, count: usize)
        requires { count ≤ length self.old.held }
        ensures line { self.new ≡ record self.old { line = take count self.old.held } }
    {
        self.line_start = self.start;
        self.line_len = count;
    }

    // Asks the source once: false where it failed.
    fn read_more<S: Source>(&mut self, input: &mut S) -> bool
        requires open { self.old.ended ≡ false }
        requires room { length self.old.held ≤ 4097 }
        ensures count { S.faults input.old ≤ S.faults input.new }
        ensures cause { MatchBool result (S.faults input.new ≡ S.faults input.old) (Rose (S.faults input.old) (S.faults input.new)) }
        ensures kept { IfSome (to_come self.old (S.remaining input.old)) (λ bytes. to_come self.new (S.remaining input.new) ≡ Some bytes) }
        ensures more { MatchBool result ((self.new.ended ≡ true) ⊎ (length self.old.held < length self.new.held)) ((self.new.ended ≡ false) × (self.new.held ≡ self.old.held)) }
        ensures ended { self.new.ended ≡ true → IfSome (S.remaining input.old) (λ left. IsAtEnd (S.remaining input.new)) }
    {
        self.buffer.copy_within(self.start..self.end, 0);
        self.end -= self.start;
        self.start = 0;
        self.line_len = 0;
        match input.read(&mut self.buffer[self.end..]) {
            Read::Failed => false,
            Read::Got(count) => {
                self.ended = count == 0;
                self.end += count;
                true
            }
        }
    }
}

// Where the first line ends.
fn end_of_line(bytes: &[u8]) -> Option<usize>
    ensures { MatchOption result (HasNoEnd bytes.now) (IsEndAt bytes.now) }
{
    bytes.iter().position(|b| *b == b'\n')
}

// How many bytes these are without one CR at their end.
fn trimmed(bytes: &[u8]) -> usize
    ensures within { (result ≤ length bytes.now) × (length bytes.now ≤ result + 1) }
    ensures trimmed { IsTrimmed bytes.now (take result bytes.now) }
{
    let length = bytes.len();
    if length > 0 && bytes[length - 1] == b'\r' {
        return length - 1;
    }
    length
}
