ghost use Rattle.std.specs.Prelude.{◌≡◌, ◌↔◌, false};
ghost use Rattle.ak_address.specs.Unique.{UniqueModel};
ghost use Rattle.ak_member.specs.View.{View};
ghost use Rattle.ak_sight.specs.Sight.{sight, has_moved};

/// A view stood still exactly where each process is shown the same: it is no member of both views, or a member of both with the
/// same status and reachability (Akka's Split Brain Resolver, "stable-after"; what counts is this project's choice).
pub fn views_that_stand_still_show_the_same()
    ensures { (v w : View) → (has_moved v w ≡ false) ↔ ((who : UniqueModel) → sight v who ≡ sight w who) }
{}
