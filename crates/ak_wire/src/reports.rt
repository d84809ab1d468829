ghost use Rattle.std.specs.Prelude.{◌≡◌};

use ak_shard_id::Report;
use std::marker::Model;

/// What a node reports of its shards, in the order in which it says it.
#[derive(Debug, Drop)]
pub struct Reports {
    list: Vec<Report>,
}

impl Model for Reports {
    ghost use Rattle.std.specs.Prelude.{List};
    ghost use Rattle.ak_shard_id.specs.declared.report.Report.{Report};
    ghost use Rattle.std.specs.Coded.{codes};

    ghost Value = { List Report };

    ghost coded = { Prim.hlevel (codes) };

    ghost view = { λ r. r.list.items };
}

impl Reports {
    /// These reports, in their order. Takes no memory.
    pub fn of(list: Vec<Report>) -> Reports
        ensures { result ≡ list.items }
    {
        Reports { list }
    }

    /// The reports, in their order.
    pub fn as_slice(&self) -> &[Report]
        ensures { result.now ≡ self.now }
    {
        &self.list
    }
}
