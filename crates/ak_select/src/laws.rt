ghost use Rattle.std.specs.Prelude.{◌≡◌, ◌↔◌, ℕ, false, None, Some};
ghost use Rattle.ak_address.specs.Unique.{UniqueModel};
ghost use Rattle.ak_address.specs.Uniques.{UniqueSet, has};
ghost use Rattle.ak_member.specs.View.{View};
ghost use Rattle.ak_select.specs.Select.{peer, IsReachableOther};

/// Whoever is chosen is another reachable member; somebody is chosen where there is one; and where one of them has not
/// seen, the chosen one has not (Akka's Cluster Specification, "Gossip").
pub fn the_peer_is_another_reachable_member()
    ensures reachable { (word : ℕ) (v : View) (seen : UniqueSet) (me who : UniqueModel) → peer word v seen me ≡ Some who → IsReachableOther v me who }
    ensures none { (word : ℕ) (v : View) (seen : UniqueSet) (me : UniqueModel) → (peer word v seen me ≡ None) ↔ ((who : UniqueModel) → ¬ IsReachableOther v me who) }
    ensures unseen { (word : ℕ) (v : View) (seen : UniqueSet) (me who other : UniqueModel) → peer word v seen me ≡ Some who → IsReachableOther v me other → has seen other ≡ false → has seen who ≡ false }
{}
