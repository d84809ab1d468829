ghost use Rattle.std.specs.Prelude.{◌≡◌, ◌↔◌, false};
ghost use Rattle.ak_address.specs.Unique.{UniqueModel};
ghost use Rattle.ak_address.specs.Uniques.{has};
ghost use Rattle.ak_membership.specs.Tick.{silent, own_subjects, observes};
ghost use Rattle.ak_membership.specs.declared.state.MembershipState.{MembershipState};

/// A node observes nothing new exactly where those that it finds silent with a tick are the members that its own row names
/// (Akka's Cluster Specification, "Failure Detector"; that the row means its members is this project's choice).
pub fn rows_name_who_is_silent()
    ensures { (m : MembershipState) → (observes m ≡ false) ↔ ((who : UniqueModel) → has (silent m) who ≡ has (own_subjects m) who) }
{}
