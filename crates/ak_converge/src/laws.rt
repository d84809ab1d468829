ghost use Rattle.std.specs.Prelude.{◌≡◌, ◌↔◌, ℕ, ◌≤◌, IsTrue, List};
ghost use Rattle.std.specs.FinMap as map;
ghost use Rattle.ak_address.specs.Unique.{AddressModel, UniqueModel};
ghost use Rattle.ak_address.specs.Uniques.{UniqueSet, has};
ghost use Rattle.ak_address.specs.Distinct.{distinct};
ghost use Rattle.ak_member.specs.Age.{IsCounted, role_addresses};
ghost use Rattle.ak_member.specs.View.{View};
ghost use Rattle.ak_reach.specs.Unreachable.{IsUnreachable};
ghost use Rattle.ak_converge.specs.Convergence.{is_converged, is_settled, IsOut};
ghost use Rattle.ak_converge.specs.Tally.{missing_in, blocking_in, tally_of};

/// In a settled view every counted member has seen it, every unreachable member is Exiting or Down, and the counted
/// members have at least the quorum's number of different addresses with the role; and where these three hold, it is settled.
pub fn settled_views()
    ensures counted_have_seen { (quorum : ℕ) (role : List AddressModel) (v : View) (seen : UniqueSet) → IsTrue (is_settled quorum role v seen) → (who : UniqueModel) (number : ℕ) → IsCounted v.standings who number → IsTrue (has seen who) }
    ensures unreachable_are_out { (quorum : ℕ) (role : List AddressModel) (v : View) (seen : UniqueSet) → IsTrue (is_settled quorum role v seen) → (who : UniqueModel) → IsUnreachable v who → IsOut v.standings who }
    ensures enough_addresses { (quorum : ℕ) (role : List AddressModel) (v : View) (seen : UniqueSet) → IsTrue (is_settled quorum role v seen) → quorum ≤ distinct (role_addresses role v.standings) }
    ensures back { (quorum : ℕ) (role : List AddressModel) (v : View) (seen : UniqueSet)
        → ((who : UniqueModel) (number : ℕ) → IsCounted v.standings who number → IsTrue (has seen who))
        → ((who : UniqueModel) → IsUnreachable v who → IsOut v.standings who)
        → quorum ≤ distinct (role_addresses role v.standings)
        → IsTrue (is_settled quorum role v seen) }
{}

/// A view is converged exactly where no counted member misses it and nobody blocks, and settled exactly where also its counted
/// members have at least the quorum's number of different addresses with the role, which are those that its tally has in use.
pub fn views_by_numbers()
    ensures converged { (v : View) (seen : UniqueSet) → IsTrue (is_converged v seen) ↔ ((missing_in v seen ≡ 0) × (blocking_in v ≡ 0)) }
    ensures settled { (quorum : ℕ) (role : List AddressModel) (v : View) (seen : UniqueSet) → IsTrue (is_settled quorum role v seen) ↔ ((missing_in v seen ≡ 0) × (blocking_in v ≡ 0) × (quorum ≤ distinct (role_addresses role v.standings))) }
    ensures addresses { (role : List AddressModel) (v : View) (seen : UniqueSet) → map.len (tally_of role v seen).uses ≡ distinct (role_addresses role v.standings) }
{}
