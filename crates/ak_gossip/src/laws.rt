ghost use Rattle.std.specs.Prelude.{◌≡◌, ◌⊎◌, ◌↔◌, ◌<◌, max, IsTrue, None, [], ◌∷◌};
ghost use Rattle.std.specs.FinMap as map;
ghost use Rattle.ak_address.specs.Unique.{UniqueModel};
ghost use Rattle.ak_address.specs.Uniques.{has};
ghost use Rattle.ak_address.specs.Table.{merged_at};
ghost use Rattle.ak_clock.specs.declared.version.TheConstants.{BOUND};
ghost use Rattle.ak_clock.specs.Version.{count};
ghost use Rattle.ak_member.specs.declared.effect.Effect.TheVariants.{Joined};
ghost use Rattle.ak_member.specs.Standing.{merged_standing, is_member};
ghost use Rattle.ak_member.specs.View.{later_row};
ghost use Rattle.ak_gossip.specs.Gossip.{GossipState, IsGossip, MayUpdate, most_uniques, seen_by, same, both};
ghost use Rattle.ak_gossip.specs.Parts.{parts_of, AreParts};

/// Who has seen what is known, after a gossip with the same version came: those who had seen it here, those who had
/// seen it there and are members here, and the node itself where it is a member.
pub fn same_versions_merge_the_seen()
    ensures { (me : UniqueModel) (own incoming : GossipState) (who : UniqueModel) → IsTrue (has (seen_by me (same own incoming)).seen who) ↔ (IsTrue (has own.seen who) ⊎ (IsTrue (has incoming.seen who) × IsTrue (is_member own.view.standings who)) ⊎ ((who ≡ me) × IsTrue (is_member own.view.standings me))) }
{}

/// What is merged knows of each process what both know, and of each observer the later row; its version counts the
/// greater of both.
pub fn merged_gossips_know_both()
    ensures standing { (own incoming : GossipState) (who : UniqueModel) → map.get (both own incoming).view.standings who ≡ merged_at merged_standing (map.get own.view.standings who) (map.get incoming.view.standings who) }
    ensures row { (own incoming : GossipState) (observer : UniqueModel) → map.get (both own incoming).view.rows observer ≡ merged_at later_row (map.get own.view.rows observer) (map.get incoming.view.rows observer) }
    ensures count { (own incoming : GossipState) (author : UniqueModel) → count (both own incoming).version author ≡ max (count own.version author) (count incoming.version author) }
{}

/// A process that joins may be admitted: where the author is a member, or joins itself and is not known yet, fewer
/// than 128 processes are known and the author's count is below the bound.
pub fn joining_may_be_made()
    ensures { (author who : UniqueModel) (g : GossipState) → IsGossip g → count g.version author < BOUND → (IsTrue (is_member g.view.standings author) ⊎ ((who ≡ author) × (map.get g.view.standings author ≡ None))) → map.len g.view.standings < most_uniques → MayUpdate author (Joined who ∷ []) g }
{}

/// The parts of a gossip are valid, and no two gossips have the same parts: so a gossip is read back from its parts.
pub fn gossips_are_their_parts()
    ensures valid { (g : GossipState) → IsGossip g → AreParts (parts_of g) }
    ensures one { (g h : GossipState) → IsGossip g → IsGossip h → parts_of g ≡ parts_of h → g ≡ h }
{}
