ghost use Rattle.std.specs.Prelude.{◌≤◌, length};
ghost use Rattle.ak_wire.specs.Wire.{updates_of};
ghost use Rattle.ak_node.specs.declared.node.State.{State};
ghost use Rattle.ak_node.specs.declared.node.NodeEvent.{NodeEvent};
ghost use Rattle.ak_node.specs.Node.{step};

/// One step makes at most one update.
pub fn steps_update_once()
    ensures { (e : NodeEvent) (n : State) → length (updates_of (step e n).1) ≤ 1 }
{}
