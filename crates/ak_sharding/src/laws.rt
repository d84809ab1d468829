ghost use Rattle.std.specs.Prelude.{Bool, List};
ghost use Rattle.ak_address.specs.Unique.{UniqueModel, IsUnique};
ghost use Rattle.ak_field.specs.Lists.{AreReports};
ghost use Rattle.ak_region.specs.Region.{reports};
ghost use Rattle.ak_settings.specs.Settings.{SettingsModel, IsSettings};
ghost use Rattle.ak_shard_id.specs.declared.report.Report.{Report};
ghost use Rattle.ak_singleton.specs.declared.phase.Phase.{Phase};
ghost use Rattle.ak_singleton.specs.declared.phase.TickRule.{TickRule};
ghost use Rattle.ak_wire.specs.declared.envelope.Message.{Message};
ghost use Rattle.ak_wire.specs.Datagram.{IsBody};
ghost use Rattle.ak_sharding.specs.Sharding.{ShardingModel, Around, new_sharding};
ghost use Rattle.ak_sharding.specs.Hosts.{asks_homes, forgets};
ghost use Rattle.ak_sharding.specs.Coordinates.{coordinates, tabled_by, begins_if, learns_if, ended_table};
ghost use Rattle.ak_sharding.specs.Packets.{on_shard_message};
ghost use Rattle.ak_sharding.specs.Ranges.{AllOf, ReportInRange, InRange, AroundInRange, GoesWell};

/// Each mark, number, home and name of an entity that a node keeps of the shards is in the range of its field in packets, at the
/// start and after each rule, where what the node is told is; and each packet that a rule sends has a spelling then.
pub fn what_is_kept_and_sent_has_a_spelling()
    ensures start { (settings : SettingsModel) → IsSettings settings → InRange (new_sharding settings) }
    ensures message { (around : Around) (s : ShardingModel) (from : UniqueModel) (what : Message) → AroundInRange around → InRange s → IsUnique from → IsBody what → GoesWell (on_shard_message around from what s) }
    ensures coordinator { (around : Around) (s : ShardingModel) → AroundInRange around → InRange s → GoesWell (coordinates around s) }
    ensures asked { (around : Around) (s : ShardingModel) → AroundInRange around → InRange s → GoesWell (asks_homes around s) }
    ensures forgotten { (around : Around) (s : ShardingModel) → AroundInRange around → InRange s → GoesWell (forgets around s) }
    ensures ticked { (rule : TickRule) (me : UniqueModel) (s : ShardingModel) → IsUnique me → InRange s → InRange (tabled_by rule me s) }
    ensures outdone { (outdone : Bool) (me : UniqueModel) (s : ShardingModel) → IsUnique me → InRange s → InRange (begins_if outdone me s) }
    ensures learnt { (first : Bool) (around : Around) (from : UniqueModel) (told : List Report) (s : ShardingModel) → IsUnique from → AllOf ReportInRange told → InRange s → InRange (learns_if first around from told s) }
    ensures ended { (phase : Phase) (s : ShardingModel) → InRange s → InRange (ended_table phase s) }
    ensures reported { (s : ShardingModel) → InRange s → AreReports (reports s.region) }
{}
