ghost use Rattle.std.specs.Prelude.{◌↔◌, ℕ, Bool, List, Contains};
ghost use Rattle.ak_address.specs.Unique.{AddressModel, UniqueModel};
ghost use Rattle.ak_member.specs.declared.effect.Effect.{Effect};
ghost use Rattle.ak_member.specs.declared.effect.Effect.TheVariants.{Rise};
ghost use Rattle.ak_member.specs.declared.status.Status.TheVariants.{Down};
ghost use Rattle.ak_member.specs.Standing.{Standings};
ghost use Rattle.ak_member.specs.View.{View, RowTable};
ghost use Rattle.ak_settings.specs.declared.settings.Strategy.TheVariants.{StaticQuorum, KeepMajority, KeepOldest, DownAll};
ghost use Rattle.ak_downing.specs.declared.decision.Decision.{Decision};
ghost use Rattle.ak_downing.specs.declared.decision.Decision.TheVariants.{DownUnreachable};
ghost use Rattle.ak_downing.specs.Downing.{counted_beside, addresses_beside, downs};
ghost use Rattle.ak_downing.specs.Sides.{seen_with, HaveNoneInCommon, BothGoOn, IsDowning};

/// Of two sides of a partition at most one goes on. Two nodes know the same members and the same role, and each has rows of its
/// own; its side are the Up and Leaving members with the role that it reaches, itself among them where it counts. They do not both
/// down the other side: under static-quorum where no address is on both sides, under keep-majority and under keep-oldest where no
/// member is on both sides, and never under down-all (Akka's Split Brain Resolver, "Strategies").
pub fn one_side_at_most_goes_on()
    ensures quorum { (quorum : ℕ) (role : List AddressModel) (members : Standings) (rows others : RowTable) (me you : UniqueModel) → HaveNoneInCommon (addresses_beside role (seen_with members rows) me) (addresses_beside role (seen_with members others) you) → ¬ BothGoOn (StaticQuorum quorum) role (seen_with members rows) me (seen_with members others) you }
    ensures majority { (role : List AddressModel) (members : Standings) (rows others : RowTable) (me you : UniqueModel) → HaveNoneInCommon (counted_beside role (seen_with members rows) me) (counted_beside role (seen_with members others) you) → ¬ BothGoOn KeepMajority role (seen_with members rows) me (seen_with members others) you }
    ensures oldest { (down_if_alone : Bool) (role : List AddressModel) (members : Standings) (rows others : RowTable) (me you : UniqueModel) → HaveNoneInCommon (counted_beside role (seen_with members rows) me) (counted_beside role (seen_with members others) you) → ¬ BothGoOn (KeepOldest down_if_alone) role (seen_with members rows) me (seen_with members others) you }
    ensures all { (role : List AddressModel) (members : Standings) (rows others : RowTable) (me you : UniqueModel) → ¬ BothGoOn DownAll role (seen_with members rows) me (seen_with members others) you }
{}

/// A decision downs exactly the members that are not Down and that it is against, whether they have a role or not; one against
/// the unreachable members never downs the node itself (Akka's Split Brain Resolver, "Strategies").
pub fn decisions_down_members()
    ensures members { (decided : Decision) (v : View) (me : UniqueModel) (effect : Effect) → Contains (downs decided v me) effect ↔ IsDowning decided v me effect }
    ensures spared { (v : View) (me : UniqueModel) → ¬ Contains (downs DownUnreachable v me) (Rise me Down 0) }
{}
