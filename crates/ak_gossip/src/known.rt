ghost use Rattle.std.specs.Prelude.{◌≡◌, IfOk};
ghost use Rattle.ak_gossip.specs.Gossip.{nothing_known};
ghost use Rattle.ak_gossip.specs.Ownership.{said_by, owned_state};

use ak_address::Uniques;
use ak_clock::Version;
use ak_member::Members;
use ak_reach::Rows;
use std::alloc::{AllocError, Global};
use std::marker::Model;
use std::rc::Rc;

/// How many entries of each author are seen, the members and tombstones after them, and whom the observers found
/// unreachable by then.
#[derive(Drop)]
pub(crate) struct Tables {
    pub(crate) version: Version,
    pub(crate) members: Members,
    pub(crate) rows: Rows,
}

// The tables and those that have seen what they say. Of a gossip that knows nothing they stand in the value itself, since
// it takes no memory; of all others they are shared.
#[derive(Drop)]
enum Ownership {
    Own(Tables, Uniques),
    Shared(Rc<Tables>, Rc<Uniques>),
}

/// What a gossip knows, and who has seen it. What is kept never changes: a copy shares it, an entry or a merge makes new
/// tables, and where only more members have seen it the tables stay (this project's choice).
pub(crate) struct Known {
    tables: Ownership,
}

impl Model for Known {
    ghost use Rattle.ak_gossip.specs.Gossip.{GossipState, coded_gossip};

    ghost Value = { GossipState };

    ghost coded = { coded_gossip };

    ghost use Rattle.ak_gossip.specs.Ownership.{owned_state};

    ghost view = { λ k. owned_state k.tables };
}

impl Known {
    /// Nothing is known. Takes no memory.
    pub(crate) fn nothing(alloc: Global) -> Known
        ensures { result ≡ nothing_known }
    {
        let tables = no_tables(alloc);
        let seen = Uniques::empty(alloc);
        Known {
            tables: Ownership::Own(tables, seen),
        }
    }

    /// What these tables say, seen by these. Only memory can fail.
    pub(crate) fn of_tables(
        alloc: Global,
        tables: Tables,
        seen: Uniques,
    ) -> Result<Known, AllocError>
        ensures { IfOk result (λ known. known ≡ said_by tables seen) }
    {
        let tables = Rc::new(alloc, tables)?;
        let seen = Rc::new(alloc, seen)?;
        Ok(Known {
            tables: Ownership::Shared(tables, seen),
        })
    }

    /// An equal value, which shares all with this one. Takes no memory; it fails only where more values share it than can
    /// be counted.
    pub(crate) fn copy(&self, alloc: Global) -> Result<Known, AllocError>
        ensures { IfOk result (λ copy. copy ≡ self.now) }
    {
        match &self.tables {
            Ownership::Own(tables, seen) => {
                let tables = copy_of(alloc, tables)?;
                let seen = seen.copy(alloc)?;
                Ok(Known {
                    tables: Ownership::Own(tables, seen),
                })
            }
            Ownership::Shared(tables, seen) => {
                let tables = tables.clone()?;
                let seen = seen.clone()?;
                Ok(Known {
                    tables: Ownership::Shared(tables, seen),
                })
            }
        }
    }

    /// The same, seen by these; it shares the tables with this one. Only memory can fail.
    pub(crate) fn with_seen(&self, alloc: Global, seen: Uniques) -> Result<Known, AllocError>
        ensures { IfOk result (λ known. known ≡ record self.now { seen = seen }) }
    {
        match &self.tables {
            Ownership::Own(tables, _) => {
                let tables = copy_of(alloc, tables)?;
                Ok(Known {
                    tables: Ownership::Own(tables, seen),
                })
            }
            Ownership::Shared(tables, _) => {
                let tables = tables.clone()?;
                let seen = Rc::new(alloc, seen)?;
                Ok(Known {
                    tables: Ownership::Shared(tables, seen),
                })
            }
        }
    }

    /// How many entries of each author are seen.
    pub(crate) fn version(&self) -> &Version
        ensures { result.now ≡ self.now.version }
    {
        match &self.tables {
            Ownership::Own(tables, _) => &tables.version,
            Ownership::Shared(tables, _) => &tables.as_ref().version,
        }
    }

    /// The members and tombstones after the entries that are seen.
    pub(crate) fn members(&self) -> &Members
        ensures { result.now ≡ self.now.view.standings }
    {
        match &self.tables {
            Ownership::Own(tables, _) => &tables.members,
            Ownership::Shared(tables, _) => &tables.as_ref().members,
        }
    }

    /// Whom the observers found unreachable by then.
    pub(crate) fn rows(&self) -> &Rows
        ensures { result.now ≡ self.now.view.rows }
    {
        match &self.tables {
            Ownership::Own(tables, _) => &tables.rows,
            Ownership::Shared(tables, _) => &tables.as_ref().rows,
        }
    }

    /// Which members are known to know exactly this.
    pub(crate) fn seen(&self) -> &Uniques
        ensures { result.now ≡ self.now.seen }
    {
        match &self.tables {
            Ownership::Own(_, seen) => seen,
            Ownership::Shared(_, seen) => seen.as_ref(),
        }
    }
}

// By hand, so that for a proof a drop is one step, wherever it stands.
impl Drop for Known {
    fn drop(self) {
        let Known { tables } = self;
        drop(tables);
    }
}

fn no_tables(alloc: Global) -> Tables
    ensures { said_by result nothing_known.seen ≡ nothing_known }
{
    Tables {
        version: Version::empty(alloc),
        members: Members::empty(alloc),
        rows: Rows::empty(alloc),
    }
}

fn copy_of(alloc: Global, tables: &Tables) -> Result<Tables, AllocError>
    ensures { IfOk result (λ copy. copy ≡ tables.now) }
{
    let version = tables.version.copy(alloc)?;
    let members = tables.members.copy(alloc)?;
    let rows = tables.rows.copy(alloc)?;
    Ok(Tables {
        version,
        members,
        rows,
    })
}
