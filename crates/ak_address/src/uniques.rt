ghost use Rattle.std.specs.Prelude.{◌≡◌, IfOk, OnOk, OnErr, IsOk, IsTrue, slice_get, option_copied, option_to_list, All};
ghost use Rattle.std.specs.List.{fold};
ghost use Rattle.ak_address.specs.Uniques.{no_one, has, with_one, without_one, how_many, in_order, union};

use crate::address::Unique;
use crate::table::Table;
use std::alloc::{AllocError, Global};
use std::marker::Model;

/// A finite set of processes, in their order.
#[derive(Drop)]
pub struct Uniques {
    table: Table<()>,
}

impl Model for Uniques {
    ghost use Rattle.std.specs.FinSet as set;
    ghost use Rattle.ak_address.specs.Unique.{coded_unique};
    ghost use Rattle.ak_address.specs.Uniques.{UniqueSet};

    ghost Value = { UniqueSet };

    ghost coded = { set.code coded_unique };

    ghost view = { λ s. s.table };
}

impl Uniques {
    /// The set of no process. Takes no memory.
    pub fn empty(alloc: Global) -> Uniques
        ensures { result ≡ no_one }
    {
        let table = Table::empty(alloc);
        Uniques { table }
    }

    /// The set of no process, with memory for so many. Only memory can fail; memory for none takes none.
    pub fn with_capacity(alloc: Global, many: usize) -> Result<Uniques, AllocError>
        ensures ok { IfOk result (λ set. set ≡ no_one) }
        ensures memory { many ≡ 0 → IsOk result }
    {
        let table = Table::with_capacity(alloc, many)?;
        Ok(Uniques { table })
    }

    /// Puts an equal process into the set. After an error the set is as it was; a process that is there
    /// already takes no memory.
    pub fn insert(&mut self, alloc: Global, who: &Unique) -> Result<(), AllocError>
        ensures ok { OnOk result (self.new ≡ with_one self.old who.now) }
        ensures err { OnErr result (self.new ≡ self.old) }
        ensures present { IsTrue (has self.old who.now) → IsOk result }
    {
        match self.table.place_from_end(who) {
            Ok(_) => Ok(()),
            Err(place) => {
                let who = who.copy(alloc)?;
                self.table.insert_at(place, who, ())
            }
        }
    }

    /// Puts an equal process into the set, if there is one: the set with each process of a list of one or none. After an
    /// error the set is as it was; no process, and one that is there already, takes no memory.
    pub fn insert_if_some(&mut self, alloc: Global, who: Option<&Unique>) -> Result<(), AllocError>
        ensures ok { OnOk result (self.new ≡ fold with_one self.old (option_to_list (option_copied who.entry))) }
        ensures err { OnErr result (self.new ≡ self.old) }
        ensures present { All (λ one. IsTrue (has self.old one)) (option_to_list (option_copied who.entry)) → IsOk result }
    {
        match who {
            Some(who) => self.insert(alloc, who),
            None => Ok(()),
        }
    }

    /// Takes the process out, if it is there. Takes no memory.
    pub fn remove(&mut self, who: &Unique)
        ensures { self.new ≡ without_one self.old who.now }
    {
        self.table.remove(who);
    }

    /// Whether the process is in the set.
    pub fn contains(&self, who: &Unique) -> bool
        ensures { result ≡ has self.now who.now }
    {
        self.table.get(who).is_some()
    }

    /// How many processes it has.
    pub fn len(&self) -> usize
        ensures { result ≡ how_many self.now }
    {
        self.table.len()
    }

    /// The process at an index, from 0 on in the order of processes; none past the end.
    pub fn at(&self, index: usize) -> Option<&Unique>
        ensures { option_copied result ≡ slice_get (in_order self.now) index }
    {
        match self.table.at(index) {
            Some((who, _)) => Some(who),
            None => None,
        }
    }

    /// Takes in the processes of another set. After an error the set is as it was; only memory can fail, and the set of no
    /// process takes none.
    #[tactic(auto, unfolding(crate::specs::Uniques::union))]
    pub fn merge(&mut self, alloc: Global, other: &Uniques) -> Result<(), AllocError>
        ensures ok { OnOk result (self.new ≡ union self.old other.now) }
        ensures err { OnErr result (self.new ≡ self.old) }
        ensures memory { other.now ≡ no_one → IsOk result }
    {
        self.table.merge(alloc, &other.table)
    }

    /// An equal set. Only memory can fail; that of the set of no process takes none.
    pub fn copy(&self, alloc: Global) -> Result<Uniques, AllocError>
        ensures ok { IfOk result (λ copy. copy ≡ self.now) }
        ensures memory { self.now ≡ no_one → IsOk result }
    {
        let table = self.table.copy(alloc)?;
        Ok(Uniques { table })
    }
}
