ghost use Rattle.std.specs.Prelude.{◌≡◌, ℕ, ◌+◌, ◌<◌, ◌≤◌, IsTrue, true, false, Some, ◌⊎◌, length, slice_get, Contains};
ghost use Rattle.std.specs.FinMap as map;
ghost use Rattle.ak_address.specs.Unique.{UniqueModel};
ghost use Rattle.ak_address.specs.Uniques.{UniqueSet, has};
ghost use Rattle.ak_clock.specs.declared.version.TheConstants.{BOUND};
ghost use Rattle.ak_member.specs.declared.effect.Effect.{Effect};
ghost use Rattle.ak_member.specs.declared.effect.Effect.TheVariants.{Rise, Removed};
ghost use Rattle.ak_member.specs.declared.status.Status.{Status};
ghost use Rattle.ak_member.specs.declared.status.Status.TheVariants.{Joining, WeaklyUp, Up, Leaving, Exiting, Down};
ghost use Rattle.ak_member.specs.Standing.{Standings, member_of, is_member, members_of};
ghost use Rattle.ak_member.specs.View.{View};
ghost use Rattle.ak_reach.specs.Unreachable.{IsUnreachable};
ghost use Rattle.ak_leader.specs.Leader.{leader, greatest_number, leaders_effects, founding_effects, weak_effects};
ghost use Rattle.ak_leader.specs.Led.{IsMemberWith, IsWaiting, IsAbout, LedTo};

/// What the effects of a leader come from. Each is about a member, and has its cause; who is made Up was Joining or WeaklyUp,
/// and nobody is made Leaving; who is removed as confirmed is among those confirmed to have stopped, and who is removed
/// unconfirmed is Down and unreachable; of the leader itself nothing is made, but that it exits where it is Leaving.
pub fn leaders_effects_have_causes()
    ensures caused { (v : View) (confirmed : UniqueSet) (x : Effect) → Contains (leaders_effects v confirmed) x → (who : UniqueModel) × (status : Status) × IsMemberWith v.standings who status × LedTo v confirmed who status x }
    ensures about_members { (v : View) (confirmed : UniqueSet) (x : Effect) → Contains (leaders_effects v confirmed) x → (who : UniqueModel) × IsAbout x who × IsTrue (is_member v.standings who) }
    ensures made_up_was_waiting { (v : View) (confirmed : UniqueSet) (who : UniqueModel) (number : ℕ) → Contains (leaders_effects v confirmed) (Rise who Up number) → IsWaiting v.standings who }
    ensures nobody_made_leaving { (v : View) (confirmed : UniqueSet) (who : UniqueModel) (number : ℕ) → Contains (leaders_effects v confirmed) (Rise who Leaving number) → ⊥ }
    ensures removed_confirmed { (v : View) (confirmed : UniqueSet) (who : UniqueModel) → Contains (leaders_effects v confirmed) (Removed who true) → IsTrue (has confirmed who) }
    ensures removed_unconfirmed { (v : View) (confirmed : UniqueSet) (who : UniqueModel) → Contains (leaders_effects v confirmed) (Removed who false) → IsMemberWith v.standings who Down × IsUnreachable v who }
    ensures leader_only_exits { (v : View) (confirmed : UniqueSet) (me : UniqueModel) (x : Effect) → leader v ≡ Some me → Contains (leaders_effects v confirmed) x → IsAbout x me → (x ≡ Rise me Exiting 0) × IsMemberWith v.standings me Leaving }
{}

/// What a leader owes: every Leaving member exits; every Exiting or Down member that is confirmed to have stopped is
/// removed, and so is every other Down one that is unreachable; and every Joining or WeaklyUp member comes Up, unless the up
/// numbers of the view come so near to the bound that there may be none left for it.
pub fn leaders_effects_are_all()
    ensures exits { (v : View) (confirmed : UniqueSet) (who : UniqueModel) → IsMemberWith v.standings who Leaving → Contains (leaders_effects v confirmed) (Rise who Exiting 0) }
    ensures confirmed { (v : View) (confirmed : UniqueSet) (who : UniqueModel) → IsMemberWith v.standings who Exiting ⊎ IsMemberWith v.standings who Down → IsTrue (has confirmed who) → Contains (leaders_effects v confirmed) (Removed who true) }
    ensures unconfirmed { (v : View) (confirmed : UniqueSet) (who : UniqueModel) → IsMemberWith v.standings who Down → has confirmed who ≡ false → IsUnreachable v who → Contains (leaders_effects v confirmed) (Removed who false) }
    ensures rises { (v : View) (confirmed : UniqueSet) (who : UniqueModel) → IsWaiting v.standings who → greatest_number (members_of v.standings) + length (members_of v.standings) ≤ BOUND → (number : ℕ) × Contains (leaders_effects v confirmed) (Rise who Up number) }
{}

/// The up numbers that a leader gives are above all up numbers of the view and at most `BOUND`, and a later one is
/// greater.
pub fn leaders_numbers_rise()
    ensures above { (v : View) (confirmed : UniqueSet) (who : UniqueModel) (number : ℕ) → Contains (leaders_effects v confirmed) (Rise who Up number) → (other : UniqueModel) (status : Status) (up : ℕ) → member_of (map.get v.standings other) ≡ Some (status, up) → up < number }
    ensures bounded { (v : View) (confirmed : UniqueSet) (who : UniqueModel) (number : ℕ) → Contains (leaders_effects v confirmed) (Rise who Up number) → number ≤ BOUND }
    ensures rising { (v : View) (confirmed : UniqueSet) (i j : ℕ) (who other : UniqueModel) (n m : ℕ) → i < j → slice_get (leaders_effects v confirmed) i ≡ Some (Rise who Up n) → slice_get (leaders_effects v confirmed) j ≡ Some (Rise other Up m) → n < m }
{}

/// A founding makes each Joining member Up and does nothing else; the first gets the number 1, and each one the number
/// after that of the one before.
pub fn founding_raises_joining_members()
    ensures caused { (s : Standings) (i : ℕ) (x : Effect) → slice_get (founding_effects s) i ≡ Some x → (who : UniqueModel) × IsMemberWith s who Joining × (x ≡ Rise who Up (i + 1)) }
    ensures all { (s : Standings) (who : UniqueModel) → IsMemberWith s who Joining → (number : ℕ) × Contains (founding_effects s) (Rise who Up number) }
{}

/// What the leader of a view that does not settle does: each Joining member that is not unreachable becomes WeaklyUp, and nothing
/// else happens.
pub fn weak_effects_let_in_who_is_reached()
    ensures caused { (v : View) (x : Effect) → Contains (weak_effects v) x → (who : UniqueModel) × IsMemberWith v.standings who Joining × (IsUnreachable v who → ⊥) × (x ≡ Rise who WeaklyUp 0) }
    ensures all { (v : View) (who : UniqueModel) → IsMemberWith v.standings who Joining → (IsUnreachable v who → ⊥) → Contains (weak_effects v) (Rise who WeaklyUp 0) }
{}
