ghost use Rattle.std.specs.Prelude.{◌≡◌, option_copied};
ghost use Rattle.std.specs.FinMap as map;
ghost use Rattle.ak_address.specs.Uniques.{has};
ghost use Rattle.ak_clock.specs.Version.{count};

use ak_address::{Unique, Uniques};
use ak_clock::Version;
use ak_reach::{Row, Rows};

/// How far a walk along the processes of a gossip, in their order, has come in each of its other tables: the index of the
/// entry that comes next. A process that stands there is found by one comparison, and any other is looked up; so what a cursor
/// answers never depends on where it is.
#[derive(Drop)]
pub(crate) struct Cursor {
    count: usize,
    row: usize,
    seen: usize,
}

impl Cursor {
    /// The start of each table.
    pub(crate) fn start() -> Cursor {
        Cursor {
            count: 0,
            row: 0,
            seen: 0,
        }
    }

    /// What the version counts of the process.
    pub(crate) fn count(&mut self, version: &Version, who: &Unique) -> u64
        ensures { result ≡ count version.now who.now }
    {
        if let Some((next, count)) = version.at(self.count) {
            if next.is(who) {
                self.count = self.count.saturating_add(1);
                return count;
            }
        }
        version.count(who)
    }

    /// The row of the process; none where it has none.
    pub(crate) fn row<'a>(&mut self, rows: &'a Rows, who: &Unique) -> Option<&'a Row>
        ensures { option_copied result ≡ map.get rows.now who.now }
    {
        if let Some((next, row)) = rows.at(self.row) {
            if next.is(who) {
                self.row = self.row.saturating_add(1);
                return Some(row);
            }
        }
        rows.row(who)
    }

    /// Whether the process is in the set of those that have seen the gossip.
    pub(crate) fn has_seen(&mut self, seen: &Uniques, who: &Unique) -> bool
        ensures { result ≡ has seen.now who.now }
    {
        if let Some(next) = seen.at(self.seen) {
            if next.is(who) {
                self.seen = self.seen.saturating_add(1);
                return true;
            }
        }
        seen.contains(who)
    }
}
