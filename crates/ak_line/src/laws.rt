ghost use Rattle.std.specs.Prelude.{◌≡◌, ℕ, Contains, List, take};
ghost use Rattle.ak_line.specs.BallotOrder.{IsLater};
ghost use Rattle.ak_line.specs.Example.{IsActiveAfter, alone, both, me, moves, other, passing};
ghost use Rattle.ak_line.specs.Moves.{Move};
ghost use Rattle.ak_line.specs.Numbers.{Ages, AreAllowed, cluster_after, numbers};
ghost use Rattle.ak_line.specs.Safe.{InTable, OneActive, OneHome, OnePlace, RunsShard};

/// After any moves that their guards allow, from a cluster in which nobody has started: at most one running node is active, no
/// shard is hosted at two running nodes, so that no entity which is active only where its shard is hosted is active at two; and
/// while one is active its table has each shard that a running node hosts, with that node and number. Said here of versions that are numbers; the lemmas say it of every line of settled versions.
pub fn one_is_active_and_shards_have_one_home()
    ensures active { (ages : Ages) (moves : List (Move ℕ)) → AreAllowed ages moves → OneActive (numbers ages) IsLater (cluster_after ages moves) }
    ensures home { (ages : Ages) (moves : List (Move ℕ)) → AreAllowed ages moves → OneHome (numbers ages) IsLater (cluster_after ages moves) }
    ensures place { (ages : Ages) (moves : List (Move ℕ)) → AreAllowed ages moves → OnePlace (numbers ages) IsLater (cluster_after ages moves) }
    ensures table { (ages : Ages) (moves : List (Move ℕ)) → AreAllowed ages moves → InTable (numbers ages) IsLater (cluster_after ages moves) }
{}

/// The guards can be met: by moves that they allow a process becomes active, hosts a shard, hands it off and hosts it again, with
/// the next number.
pub fn guards_can_be_met()
    ensures allowed { AreAllowed alone moves }
    ensures hosted { RunsShard (numbers alone) IsLater (cluster_after alone moves) me 5 }
    ensures number { (((cluster_after alone moves).node me).marks 5).number ≡ 2 }
{}

/// An activity can pass on: by moves that the guards allow the first of two processes becomes active and the second does after it.
/// Between, the first is granted, gives a shard that it hosted to the second, ends and hands over; the second passes the release on,
/// opens a greater ballot and is granted. At last the first stops, is removed and is found finished; its shard stays where it is.
pub fn an_activity_can_pass()
    ensures allowed { AreAllowed both passing }
    ensures first { IsActiveAfter both (take 10 passing) me }
    ensures first_home { RunsShard (numbers both) IsLater (cluster_after both (take 13 passing)) me 5 }
    ensures second { IsActiveAfter both passing other }
    ensures second_home { RunsShard (numbers both) IsLater (cluster_after both passing) other 5 }
    ensures finished { Contains ((cluster_after both passing).node other).finished me }
{}
