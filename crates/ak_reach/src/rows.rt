ghost use Rattle.std.specs.Prelude.{◌≡◌, ◌≢◌, ◌↔◌, IfOk, OnOk, OnErr, IsOk, IsSome, IsTrue, Ok, slice_get, option_map, option_copied, option_to_list};
ghost use Rattle.std.specs.List.{list_any};
ghost use Rattle.std.specs.FinMap as map;
ghost use Rattle.ak_address.specs.Pairs.{index};
ghost use Rattle.ak_address.specs.Unique.{UniqueModel, unique_cmp};
ghost use Rattle.ak_address.specs.Uniques.{no_one};
ghost use Rattle.ak_member.specs.View.{RowTable, merged_rows};
ghost use Rattle.ak_reach.specs.Reach.{with_row, is_as_new, row_has, reported, IsReported, unreachable};
ghost use Rattle.ak_reach.specs.Walk.{reports, with_reported};

use crate::row::Row;
use ak_address::{Table, Unique, Uniques};
use std::alloc::{AllocError, Global};
use std::marker::Model;

/// The last row of each observer that has one, in the order of processes (Akka's Cluster Specification, "Failure
/// Detector").
#[derive(Drop)]
pub struct Rows {
    table: Table<Row>,
}

impl Model for Rows {
    ghost use Rattle.std.specs.FinMap as map;
    ghost use Rattle.ak_address.specs.Unique.{coded_unique};
    ghost use Rattle.ak_member.specs.View.{RowTable, coded_row};

    ghost Value = { RowTable };

    ghost coded = { map.code coded_unique coded_row };

    ghost view = { λ r. r.table };
}

impl Rows {
    /// No row. Takes no memory.
    pub fn empty(alloc: Global) -> Rows
        ensures { result ≡ map.empty }
    {
        let table = Table::empty(alloc);
        Rows { table }
    }

    /// No row, with memory for so many. Only memory can fail; memory for none takes none.
    pub fn with_capacity(alloc: Global, many: usize) -> Result<Rows, AllocError>
        ensures ok { IfOk result (λ rows. rows ≡ map.empty) }
        ensures memory { many ≡ 0 → IsOk result }
    {
        let table = Table::with_capacity(alloc, many)?;
        Ok(Rows { table })
    }

    /// The observer's row; none where it has none. Takes no memory.
    pub fn row(&self, observer: &Unique) -> Option<&Row>
        ensures { option_copied result ≡ map.get self.now observer.now }
    {
        self.table.get(observer)
    }

    /// How many observers have a row.
    pub fn len(&self) -> usize
        ensures { result ≡ map.len self.now }
    {
        self.table.len()
    }

    /// The observer at an index, from 0 on in the order of processes, and its row; none past the end.
    pub fn at(&self, index: usize) -> Option<(&Unique, &Row)>
        ensures { option_map (λ row. (row.0.now, row.1.now)) result ≡ slice_get (map.entries self.now) index }
    {
        self.table.at(index)
    }

    /// Gives the observer this row, unless it has one with the same number or a greater one. After an error the rows
    /// are as they were; only memory can fail, and a row that stays takes none, nor does one that comes to name nobody.
    pub fn set_row(
        &mut self,
        alloc: Global,
        observer: &Unique,
        number: u64,
        subjects: &Uniques,
    ) -> Result<(), AllocError>
        ensures ok { OnOk result (self.new ≡ with_row self.old observer.now (record { number = number; subjects = subjects.now })) }
        ensures err { OnErr result (self.new ≡ self.old) }
        ensures kept { IsTrue (is_as_new (map.get self.old observer.now) number) → IsOk result }
        ensures memory { IsSome (map.get self.old observer.now) → subjects.now ≡ no_one → IsOk result }
    {
        match self.table.place_from_end(observer) {
            Ok(place) => {
                if is_as_new_at(&self.table, place, number) {
                    return Ok(());
                }
                let subjects = subjects.copy(alloc)?;
                self.table.set_at(place, Row { number, subjects });
                Ok(())
            }
            Err(place) => {
                let who = observer.copy(alloc)?;
                let subjects = subjects.copy(alloc)?;
                self.table.insert_at(place, who, Row { number, subjects })
            }
        }
    }

    /// Takes in other rows: of each observer the row with the greater number, at equal numbers the own one (Akka's
    /// Cluster Specification, "Gossip": an observer's later record counts). After an error the rows are as they were;
    /// only memory can fail, and no row brings nothing and takes none.
    pub fn merge(&mut self, alloc: Global, other: &Rows) -> Result<(), AllocError>
        ensures ok { OnOk result (self.new ≡ merged_rows self.old other.now) }
        ensures err { OnErr result (self.new ≡ self.old) }
        ensures memory { other.now ≡ map.empty → IsOk result }
    {
        self.table.merge(alloc, &other.table)
    }

    /// Equal rows. Only memory can fail; a copy of no row takes none.
    pub fn copy(&self, alloc: Global) -> Result<Rows, AllocError>
        ensures ok { IfOk result (λ copy. copy ≡ self.now) }
        ensures memory { self.now ≡ map.empty → IsOk result }
    {
        let table = self.table.copy(alloc)?;
        Ok(Rows { table })
    }

    /// Whether one of these observers has the subject in its row (Akka's Cluster Specification, "Failure Detector": one
    /// observer is enough for a member to be unreachable). Takes no memory.
    pub fn reported(&self, observers: &Uniques, subject: &Unique) -> bool
        ensures value { result ≡ reported self.now observers.now subject.now }
        ensures meaning { IsTrue result ↔ IsReported self.now observers.now subject.now }
    {
        is_reported(&self.table, observers, subject)
    }

    /// Those of the subjects that one of these observers has in its row. Only memory can fail, and only where there is one.
    pub fn unreachable(
        &self,
        alloc: Global,
        observers: &Uniques,
        subjects: &Uniques,
    ) -> Result<Uniques, AllocError>
        ensures ok { IfOk result (λ them. them ≡ unreachable self.now observers.now subjects.now) }
        ensures memory { OnErr result (unreachable self.now observers.now subjects.now ≢ no_one) }
    {
        reported_of(alloc, &self.table, observers, subjects)
    }
}

// The row of the process that stands at a place has the same number or a greater one.
fn is_as_new_at(rows: &Table<Row>, place: usize, number: u64) -> bool
    ensures { (who : UniqueModel) → Ok place ≡ index unique_cmp who (map.entries rows.now) → result ≡ is_as_new (map.get rows.now who) number }
{
    let Some((_, row)) = rows.at(place) else {
        return false;
    };
    row.number >= number
}

// The row is there and has the subject.
fn row_has(row: Option<&Row>, subject: &Unique) -> bool
    ensures { result ≡ row_has (option_copied row.entry) subject.now }
{
    match row {
        Some(row) => row.subjects.contains(subject),
        None => false,
    }
}

// The process is there and has the subject in its row.
fn reports(rows: &Table<Row>, observer: Option<&Unique>, subject: &Unique) -> bool
    ensures { result ≡ reports rows.now subject.now (option_copied observer.entry) }
{
    match observer {
        Some(observer) => row_has(rows.get(observer), subject),
        None => false,
    }
}

fn is_reported(rows: &Table<Row>, observers: &Uniques, subject: &Unique) -> bool
    ensures { result ≡ reported rows.now observers.now subject.now }
{
    'observers: for index in 0..observers.len() {
        if reports(rows, observers.at(index), subject) {
            return true;
        }
    }
    false
}

// Adds the subject, if there is one, where one of the observers has it in its row.
fn add_reported(
    alloc: Global,
    rows: &Table<Row>,
    observers: &Uniques,
    subject: Option<&Unique>,
    them: &mut Uniques,
) -> Result<(), AllocError>
    ensures ok { OnOk result (them.new ≡ with_reported (reported rows.now observers.now) (option_copied subject.entry) them.old) }
    ensures memory { OnErr result (IsTrue (list_any (reported rows.now observers.now) (option_to_list (option_copied subject.entry)))) }
{
    match subject {
        Some(subject) => {
            if is_reported(rows, observers, subject) {
                return them.insert(alloc, subject);
            }
            Ok(())
        }
        None => Ok(()),
    }
}

fn reported_of(
    alloc: Global,
    rows: &Table<Row>,
    observers: &Uniques,
    subjects: &Uniques,
) -> Result<Uniques, AllocError>
    ensures ok { IfOk result (λ them. them ≡ unreachable rows.now observers.now subjects.now) }
    ensures memory { OnErr result (unreachable rows.now observers.now subjects.now ≢ no_one) }
{
    let mut them = Uniques::empty(alloc);
    'subjects: for index in 0..subjects.len() {
        add_reported(alloc, rows, observers, subjects.at(index), &mut them)?;
    }
    Ok(them)
}
