ghost use Rattle.std.specs.Prelude.{◌≡◌, [], ◌∷◌, ◌++◌, length, slice_get, IfOk, OnOk, OnErr};
ghost use Rattle.std.specs.Option.{option_copied};

use ak_address::Unique;
use smallvec::SmallVec;
use std::alloc::{AllocError, Global};
use std::marker::Model;

/// Indices in a list of parts. Up to 16 of them, as most rows have, stand in the value itself and take no memory.
pub struct Indices {
    list: SmallVec<u8, 16>,
}

impl Model for Indices {
    ghost use Rattle.std.specs.Prelude.{List, ℕ};

    ghost Value = { List ℕ };

    ghost view = { λ p. p.list.items };
}

impl Indices {
    /// These indices.
    pub fn new(list: Vec<u8>) -> Indices
        ensures { result ≡ list.items }
    {
        let list = SmallVec::from_vec(list);
        Indices { list }
    }

    /// No index. Takes no memory.
    pub fn empty(alloc: Global) -> Indices
        ensures { result ≡ [] }
    {
        let list = SmallVec::new(alloc);
        Indices { list }
    }

    /// No index, with memory for so many.
    pub fn with_capacity(alloc: Global, many: usize) -> Result<Indices, AllocError>
        ensures { IfOk result (λ indices. indices ≡ []) }
    {
        let list = SmallVec::with_capacity(alloc, many)?;
        Ok(Indices { list })
    }

    /// Adds an index at the end. An error leaves the indices as they were; only memory can fail.
    pub fn push(&mut self, index: u8) -> Result<(), AllocError>
        ensures ok { OnOk result (self.new ≡ self.old ++ index ∷ []) }
        ensures err { OnErr result (self.new ≡ self.old) }
    {
        self.list.push(index)?;
        Ok(())
    }

    /// The indices, in order.
    pub fn as_slice(&self) -> &[u8]
        ensures { result.now ≡ self.now }
    {
        self.list.as_slice()
    }
}

// By hand, so that for a proof a drop is one step, wherever the indices stand.
impl Drop for Indices {
    fn drop(self) {
        let Indices { list } = self;
        drop(list);
    }
}

/// One process of a gossip, as it stands in a datagram: what its version counts of it, its state (1 Joining, 2 Up,
/// 3 Leaving, 4 Exiting, 5 Down, 6 removed, 7 removed and confirmed, 8 WeaklyUp) and up number, whether it has seen the gossip,
/// and its row as an observer: the number, 0 where there is none, and the indices of the subjects among the parts.
#[derive(Drop)]
pub struct Part {
    pub unique: Unique,
    pub count: u64,
    pub state: u8,
    pub up_number: u64,
    pub seen: bool,
    pub row_number: u64,
    pub subjects: Indices,
}

/// A list of parts.
#[derive(Drop)]
pub struct Parts {
    list: Vec<Part>,
}

impl Model for Parts {
    ghost use Rattle.std.specs.Prelude.{List};
    ghost use Rattle.std.specs.Coded.{codes};
    ghost use Rattle.ak_address.specs.Unique.{coded_unique};
    ghost use Rattle.ak_gossip.specs.declared.part.Part.{Part};

    ghost Value = { List Part };

    ghost coded = { Prim.hlevel (codes, coded_unique) };

    ghost view = { λ p. p.list.items };
}

impl Parts {
    /// No part. Takes no memory.
    pub fn empty(alloc: Global) -> Parts
        ensures { result ≡ [] }
    {
        Parts {
            list: Vec::new(alloc),
        }
    }

    /// No part, with memory for so many.
    pub fn with_capacity(alloc: Global, many: usize) -> Result<Parts, AllocError>
        ensures { IfOk result (λ parts. parts ≡ []) }
    {
        let list = Vec::with_capacity(alloc, many)?;
        Ok(Parts { list })
    }

    /// Adds a part at the end. An error leaves the list as it was; only memory can fail.
    pub fn push(&mut self, part: Part) -> Result<(), AllocError>
        ensures ok { OnOk result (self.new ≡ self.old ++ part ∷ []) }
        ensures err { OnErr result (self.new ≡ self.old) }
    {
        self.list.push(part)?;
        Ok(())
    }

    /// How many parts there are.
    pub fn len(&self) -> usize
        ensures { result ≡ length self.now }
    {
        self.list.len()
    }

    /// The part at an index from 0 on; none past the end.
    pub fn at(&self, index: usize) -> Option<&Part>
        ensures { option_copied result ≡ slice_get self.now index }
    {
        self.list.get(index)
    }

    /// The parts, in order.
    pub fn as_slice(&self) -> &[Part]
        ensures { result.now ≡ self.now }
    {
        &self.list
    }
}
