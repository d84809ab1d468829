//! How often each address is used.

ghost use Rattle.std.specs.Prelude.{◌≡◌, ◌≤◌, ◌<◌, OnOk, OnErr, IsOk};
ghost use Rattle.std.specs.FinMap as map;
ghost use Rattle.ak_converge.specs.Tally.{uses_at, with_use, without_use};

use ak_address::Address;
use indexmap::IndexMap;
use std::alloc::{AllocError, Global};
use std::marker::Model;

/// How many uses each address has that is in use, at most 1,000 addresses. The map hashes as std does where nothing is said: the
/// same in each run. Contracts see a finite map.
#[derive(Drop)]
pub(crate) struct Uses {
    counts: IndexMap<Address, u32>,
}

impl Model for Uses {
    ghost use Rattle.std.specs.Prelude.{◌≤◌, length};
    ghost use Rattle.std.specs.Coded.{codes};
    ghost use Rattle.std.specs.FinMap as map;
    ghost use Rattle.ak_converge.specs.Tally.{Uses, coded_uses};

    ghost Value = { Uses };

    ghost coded = { coded_uses };

    ghost view = { λ u. map.from_entries u.counts.entries };

    // So that how many there are fits into 32 bits.
    ghost invariant = { λ u. length u.counts.entries ≤ 1000 };
}

impl Uses {
    /// No address is in use. Takes no memory.
    pub(crate) fn none(alloc: Global) -> Uses
        ensures { result ≡ map.empty }
    {
        Uses {
            counts: IndexMap::new(alloc),
        }
    }

    /// How many uses the address has. Takes no memory.
    pub(crate) fn at(&self, at: &Address) -> u32
        ensures { result ≡ uses_at self.now at.now }
    {
        match self.counts.get(at) {
            Some(uses) => *uses,
            None => 0,
        }
    }

    /// How many addresses are in use. Takes no memory.
    pub(crate) fn len(&self) -> u32
        ensures value { result ≡ map.len self.now }
        ensures few { result ≤ 1000 }
    {
        self.counts.len() as u32
    }

    /// One use more of the address. After an error the uses are as they were; an address that is in use takes no memory.
    pub(crate) fn enter(&mut self, alloc: Global, at: &Address) -> Result<(), AllocError>
        requires few { map.len self.old < 1000 }
        requires often { uses_at self.old at.now < 1000 }
        ensures ok { OnOk result (self.new ≡ with_use self.old at.now) }
        ensures err { OnErr result (self.new ≡ self.old) }
        ensures memory { 1 ≤ uses_at self.old at.now → IsOk result }
    {
        match self.counts.get_mut(at) {
            Some(uses) => {
                *uses += 1;
                return Ok(());
            }
            None => {}
        }
        let at = at.copy(alloc)?;
        self.counts.insert(at, 1)?;
        Ok(())
    }

    /// One use less of the address, which is in use. Takes no memory.
    pub(crate) fn leave(&mut self, at: &Address)
        requires { 1 ≤ uses_at self.old at.now }
        ensures { self.new ≡ without_use self.old at.now }
    {
        if self.at(at) > 1 {
            match self.counts.get_mut(at) {
                Some(uses) => {
                    *uses -= 1;
                }
                None => {}
            }
            return;
        }
        self.counts.swap_remove(at);
    }
}
