ghost use Rattle.std.specs.Prelude.{◌≡◌, ◌+◌, ◌≤◌, [], ◌∷◌, reverse, length, slice_get, IfOk, OnOk, OnErr, IsTrue};
ghost use Rattle.std.specs.List.{list_any};
ghost use Rattle.std.specs.Option.{option_copied};
ghost use Rattle.ak_member.specs.View.{observed};
ghost use Rattle.ak_history.specs.History.{IsNumbered, entries_of, is_covered, view};
ghost use Rattle.ak_history.specs.Walk.{with_observed, with_entry, with_covered, with_all_covered};

use crate::entry::Entry;
use crate::view::View;
use ak_address::Unique;
use ak_clock::Version;
use ak_member::{Effects, Members};
use ak_reach::Rows;
use std::alloc::{AllocError, Global};
use std::marker::Model;

/// Every entry of a run, in order. The entries of each author are numbered 1, 2, 3 and so on: an invariant of the type.
#[derive(Drop)]
pub struct History {
    list: Vec<Entry>,
}

impl Model for History {
    ghost use Rattle.std.specs.Prelude.{List, reverse};
    ghost use Rattle.std.specs.Coded.{codes};
    ghost use Rattle.ak_address.specs.Unique.{coded_unique};
    ghost use Rattle.ak_member.specs.View.{coded_uniques};
    ghost use Rattle.ak_history.specs.declared.entry.Entry.{Entry};
    ghost use Rattle.ak_history.specs.History.{IsNumbered};

    ghost Value = { List Entry };

    ghost coded = { Prim.hlevel (codes, coded_unique, coded_uniques) };

    ghost view = { λ h. reverse h.list.items };

    // So an entry is named by its author and its number, and a version need count no more than how many.
    ghost invariant = { λ h. IsNumbered (reverse h.list.items) };
}

impl History {
    /// No entry. Takes no memory.
    pub fn empty(alloc: Global) -> History
        ensures { result ≡ [] }
    {
        History {
            list: Vec::new(alloc),
        }
    }

    /// Adds an entry of the author and answers its number, which is one more than the author has entries.
    /// An error leaves the history as it was; only memory can fail.
    pub fn push(
        &mut self,
        alloc: Global,
        author: &Unique,
        effects: Effects,
    ) -> Result<u64, AllocError>
        ensures number { IfOk result (λ number. number ≡ entries_of author.now self.old + 1) }
        ensures ok { IfOk result (λ number. self.new ≡ record { author = author.now; number = number; effects = effects } ∷ self.old) }
        ensures err { OnErr result (self.new ≡ self.old) }
    {
        let author = author.copy(alloc)?;
        let number = last_number(&self.list, &author) + 1;
        self.list.push(Entry {
            author,
            number,
            effects,
        })?;
        Ok(number)
    }

    /// How many entries there are.
    pub fn len(&self) -> usize
        ensures { result ≡ length self.now }
    {
        self.list.len()
    }

    /// The entry at an index, from 0 on in the order of their making; none past the end.
    pub fn at(&self, index: usize) -> Option<&Entry>
        ensures { option_copied result ≡ slice_get (reverse self.now) index }
    {
        self.list.get(index)
    }

    /// What a version shows: what the entries did that it covers, in their order. Only memory can fail, and only where it covers
    /// one.
    pub fn view(&self, alloc: Global, version: &Version) -> Result<View, AllocError>
        ensures ok { IfOk result (λ shown. shown ≡ view self.now version.now) }
        ensures memory { OnErr result (IsTrue (list_any (is_covered version.now) self.now)) }
    {
        shown_by(alloc, &self.list, version)
    }
}

// The number of the author's newest entry, 0 where it has none. The walk begins at the newest entry, so whoever made one lately
// is found soon.
fn last_number(entries: &[Entry], author: &Unique) -> u64
    requires { IsNumbered (reverse entries.now) }
    ensures last { result ≡ entries_of author.now (reverse entries.now) }
    ensures bounded { result ≤ length entries.now }
{
    let many = entries.len();
    'entries: for back in 0..many {
        let entry = &entries[many - 1 - back];
        if author.is(&entry.author) {
            return entry.number;
        }
    }
    0
}

// Sets the author's row where its entry observes.
fn set_observed(alloc: Global, rows: &mut Rows, entry: &Entry) -> Result<(), AllocError>
    ensures { OnOk result (rows.new ≡ with_observed entry.now.author entry.now.number (observed entry.now.effects) rows.old) }
{
    match entry.effects.observed() {
        Some(subjects) => rows.set_row(alloc, &entry.author, entry.number, subjects),
        None => Ok(()),
    }
}

// The view after an entry.
fn after_entry(alloc: Global, shown: View, entry: &Entry) -> Result<View, AllocError>
    ensures { IfOk result (λ after. after ≡ with_entry entry.now shown) }
{
    let members = shown.members.after(alloc, &entry.effects)?;
    let mut rows = shown.rows;
    set_observed(alloc, &mut rows, entry)?;
    Ok(View { members, rows })
}

// The view after an entry that may be covered.
fn after_covered(
    alloc: Global,
    shown: View,
    entry: &Entry,
    version: &Version,
) -> Result<View, AllocError>
    ensures ok { IfOk result (λ after. after ≡ with_covered version.now entry.now shown) }
    ensures memory { OnErr result (IsTrue (is_covered version.now entry.now)) }
{
    if entry.number <= version.count(&entry.author) {
        return after_entry(alloc, shown, entry);
    }
    Ok(shown)
}

// What the version shows of these entries.
fn shown_by(alloc: Global, entries: &[Entry], version: &Version) -> Result<View, AllocError>
    ensures ok { IfOk result (λ shown. shown ≡ with_all_covered version.now (reverse entries.now)) }
    ensures memory { OnErr result (IsTrue (list_any (is_covered version.now) (reverse entries.now))) }
{
    let members = Members::empty(alloc);
    let rows = Rows::empty(alloc);
    let mut shown = View { members, rows };
    'entries: for entry in entries {
        shown = after_covered(alloc, shown, entry, version)?;
    }
    Ok(shown)
}
