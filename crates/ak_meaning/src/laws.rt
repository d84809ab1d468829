ghost use Rattle.std.specs.Prelude.{◌≡◌, ◌↔◌, ◌<◌, ◌++◌, ◌∷◌, ℕ, Bool, false, IsTrue, List, Option, Ok, Err, Some, Contains, slice_get, take, true};
ghost use Rattle.std.specs.FinMap as map;
ghost use Rattle.ak_address.specs.Counters.{Counters};
ghost use Rattle.ak_address.specs.Unique.{AddressModel, UniqueModel};
ghost use Rattle.ak_address.specs.Uniques.{UniqueSet, has};
ghost use Rattle.ak_converge.specs.Convergence.{IsConverged, is_settled};
ghost use Rattle.ak_detector.specs.Detector.{silent, watch_ring, watching};
ghost use Rattle.ak_downing.specs.declared.decision.Decision.{Decision};
ghost use Rattle.ak_downing.specs.declared.decision.Decision.TheVariants.{DownAll, DownUnreachable};
ghost use Rattle.ak_downing.specs.Downing.{decide, downs, reachable_addresses};
ghost use Rattle.ak_gossip.specs.declared.gossip.GossipFault.{GossipFault};
ghost use Rattle.ak_gossip.specs.declared.gossip.Received.{Received};
ghost use Rattle.ak_gossip.specs.Gossip.{GossipState, is_known, receive};
ghost use Rattle.ak_history.specs.declared.entry.Entry.{Entry};
ghost use Rattle.ak_meaning.specs.Broken.{breaking, two};
ghost use Rattle.ak_meaning.specs.Causes.{IsCaused, WasToldToFound};
ghost use Rattle.ak_meaning.specs.Instances.{IsHome, IsNoHome, IsSaid, KnowsMember, KnowsRemoved, NotesGrow, RunsSettled};
ghost use Rattle.ak_meaning.specs.LetIn.{lenient, letting_in};
ghost use Rattle.ak_meaning.specs.Listening.{SilentSince};
ghost use Rattle.ak_meaning.specs.Moved.{cart, moving, spread};
ghost use Rattle.ak_meaning.specs.Receiving.{AreMerged};
ghost use Rattle.ak_meaning.specs.Resolver.{AreDivided, DecidesByMajority, DecidesByOldest, DecidesByQuorum, DoesCount, DownsRightly, IsOldest, IsWith};
ghost use Rattle.ak_meaning.specs.Roles.{EachHasRole, EachJoiningHasRole, HaveSameCounted, all_joining, all_reachable, decide_over_all, settles_over_all};
ghost use Rattle.ak_meaning.specs.Ring.{Happening, HasLast, IsLast, IsRing, IsSilent, IsWatched, ticks_in};
ghost use Rattle.ak_meaning.specs.Standstill.{DownsAt, IsAt, StoodStill};
ghost use Rattle.ak_meaning.specs.Unsettled.{LetsInAt, StoodUnsettled};
ghost use Rattle.ak_meaning.specs.Waiting.{AreAlikeBut};
ghost use Rattle.ak_meaning.specs.Watching.{WatchesRing};
ghost use Rattle.ak_leader.specs.Leader.{IsLeader};
ghost use Rattle.ak_member.specs.Age.{IsCounted};
ghost use Rattle.ak_reach.specs.Unreachable.{IsUnreachable};
ghost use Rattle.ak_member.specs.declared.effect.Effect.{Effect};
ghost use Rattle.ak_member.specs.declared.effect.Effect.TheVariants.{Removed, Rise};
ghost use Rattle.ak_member.specs.declared.status.Status.TheVariants.{Up, WeaklyUp};
ghost use Rattle.ak_member.specs.Standing.{Standings, is_member};
ghost use Rattle.ak_member.specs.View.{View};
ghost use Rattle.ak_membership.specs.Tick.{joining_addresses};
ghost use Rattle.ak_node.specs.declared.node.NodeEvent.TheVariants.{Packet};
ghost use Rattle.ak_node.specs.declared.node.State.{State};
ghost use Rattle.ak_node.specs.Node.{is_for, known, me_of, step};
ghost use Rattle.ak_settings.specs.Settings.{SettingsModel};
ghost use Rattle.ak_schedule.specs.declared.event.Event.{Event};
ghost use Rattle.ak_settings.specs.declared.settings.Strategy.{Strategy};
ghost use Rattle.ak_settings.specs.declared.settings.Strategy.TheVariants as strategy;
ghost use Rattle.ak_wire.specs.declared.envelope.Envelope.{Envelope};
ghost use Rattle.ak_wire.specs.Wire.{gossip_of};
ghost use Rattle.ak_world.specs.declared.margin.Margin.TheVariants.{Broken, Kept};
ghost use Rattle.ak_world.specs.Fold.{IsIn};
ghost use Rattle.ak_world.specs.Margin.{HasNumber, IsMargin, Runs};
ghost use Rattle.ak_world.specs.SettledLine.{IsOverHalf};
ghost use Rattle.ak_world.specs.Worked.{a_1, b_1, c_1, passing, three};
ghost use Rattle.ak_world.specs.World.{run};

/// Members count that are Up or Leaving, at an address that has the role. Under static-quorum a node downs the unreachable ones
/// exactly where the counted members on its side have at least as many addresses as the quorum and all that count have fewer than
/// twice as many; it downs all exactly where they have at least twice as many; else it gives up its side (Akka's Split Brain
/// Resolver, "Static Quorum"; that different addresses are counted is this project's choice).
pub fn a_quorum_decides()
    ensures { (quorum : ℕ) (role : List AddressModel) (v : View) (me : UniqueModel) → DecidesByQuorum quorum role v me }
{}

/// Members count that are Up or Leaving, at an address that has the role. Under keep-majority a node downs the unreachable ones
/// exactly where more counted members are on its side than are not, or as many and the first one is; else it gives up its side.
/// Of two sides that divide the counted members exactly one goes on where somebody counts (Akka's Split Brain Resolver, "Keep
/// Majority").
pub fn a_majority_decides()
    ensures numbers { (role : List AddressModel) (v : View) (me : UniqueModel) → DecidesByMajority role v me }
    ensures sides { (role : List AddressModel) (v w : View) (me you who : UniqueModel) → AreDivided role v w me you → DoesCount role v who → (decide strategy.KeepMajority role v me ≡ DownUnreachable) ↔ (¬ (decide strategy.KeepMajority role w you ≡ DownUnreachable)) }
{}

/// Members count that are Up or Leaving, at an address that has the role; the oldest of them has the least up number, and at
/// equal numbers is the first. Under keep-oldest the side of the oldest goes on, and the other gives up; only where that is asked
/// for, the oldest is the one counted member on its side, and somebody counts on the other, the other goes on, and the side of
/// the oldest gives up. Where nobody counts each side gives up, and never are all downed. Where it is not asked for, a node on
/// the side of the oldest always goes on. Of two sides that divide the counted members exactly one goes on where somebody counts,
/// whether it is asked for or not (Akka's Split Brain Resolver, "Keep Oldest"; that an oldest that is alone gives way also to a
/// single other one, and that each side gives up where nobody counts, is this project's choice).
pub fn the_oldest_decides()
    ensures exactly { (asked : Bool) (role : List AddressModel) (v : View) (me : UniqueModel) → DecidesByOldest asked role v me }
    ensures kept { (role : List AddressModel) (v : View) (me who : UniqueModel) → IsOldest role v who → IsWith v me who → decide (strategy.KeepOldest false) role v me ≡ DownUnreachable }
    ensures sides { (asked : Bool) (role : List AddressModel) (v w : View) (me you who : UniqueModel) → AreDivided role v w me you → DoesCount role v who → (decide (strategy.KeepOldest asked) role v me ≡ DownUnreachable) ↔ (¬ (decide (strategy.KeepOldest asked) role w you ≡ DownUnreachable)) }
{}

/// Under down-all all are downed. Under each strategy a decision downs members that are not Down and nobody else, at whichever
/// addresses, with the role or without it: the node itself exactly where it gives up its side or downs all; another one exactly
/// where all are downed, where it is unreachable and the unreachable ones are, and where it is not and the reachable ones are.
pub fn a_decision_downs_its_members()
    ensures all { (role : List AddressModel) (v : View) (me : UniqueModel) → decide strategy.DownAll role v me ≡ DownAll }
    ensures downs { (strategy : Strategy) (role : List AddressModel) (v : View) (me : UniqueModel) → DownsRightly strategy role v me }
{}

/// A decision is made over the members that have the role alone. Take two views in which the same members with the role are Up or
/// Leaving, with the same numbers, and of which the same are on the side of a node: it decides the same in both, under each
/// strategy, and reaches as many addresses. A member without the role makes a difference by its row, where that is why one that
/// has it is unreachable, and is downed like any other; else it makes none, whether it is there or not, and whether it is
/// reachable or not (Akka's Split Brain Resolver, "Strategies").
pub fn a_decision_depends_on_role_members()
    ensures decision { (role : List AddressModel) (v w : View) (me : UniqueModel) → HaveSameCounted role v w me → (strategy : Strategy) → decide strategy role v me ≡ decide strategy role w me }
    ensures reached { (role : List AddressModel) (v w : View) (me : UniqueModel) → HaveSameCounted role v w me → reachable_addresses role v me ≡ reachable_addresses role w me }
{}

/// Where each Up and each Leaving member has the role, all of them count: whether a view is settled, how many addresses a node
/// reaches, and what it decides, are what they are over all of them, wherever they are; and so the addresses of Joining members
/// that a founding counts, where each Joining one has it. Over every list of events it is so where all listed addresses have the
/// role, in whatever a node knows or a packet carries.
pub fn where_all_have_the_role_all_count()
    ensures settled { (role : List AddressModel) (v : View) → EachHasRole role v.standings → (quorum : ℕ) (seen : UniqueSet) → is_settled quorum role v seen ≡ settles_over_all quorum v seen }
    ensures reached { (role : List AddressModel) (v : View) → EachHasRole role v.standings → (me : UniqueModel) → reachable_addresses role v me ≡ all_reachable v me }
    ensures decision { (role : List AddressModel) (v : View) → EachHasRole role v.standings → (strategy : Strategy) (me : UniqueModel) → decide strategy role v me ≡ decide_over_all strategy v me }
    ensures founding { (role : List AddressModel) (s : Standings) → EachJoiningHasRole role s → joining_addresses role s ≡ all_joining s }
    ensures runs { (settings : SettingsModel) (events : List Event) → settings.role ≡ settings.listed → (g : GossipState) → IsIn g (run settings events) → EachHasRole settings.role g.view.standings × EachJoiningHasRole settings.role g.view.standings }
{}

/// With five or more other members the ring of a node has exactly five, with fewer all; and whoever comes on the ring before one
/// that is watched, from the node on, is watched too (Akka's Cluster Specification, "Failure Detector").
pub fn a_ring_passes_over_nobody()
    ensures { (me : UniqueModel) (s : Standings) → IsRing me s }
{}

/// Whoever a node watches off its ring is silent, and a member.
pub fn others_are_watched_while_silent()
    ensures { (me : UniqueModel) (s : Standings) (deadline : ℕ) (c : Counters) (who : UniqueModel) → IsTrue (map.contains_key (watching me s deadline c) who) → has (watch_ring me s) who ≡ false
        → IsTrue (has (silent deadline (watching me s deadline c)) who) × IsTrue (is_member s who) }
{}

/// Over every list of events: each node watches its ring, and whoever else it watches is silent, and a member.
pub fn nodes_watch_their_ring()
    ensures { (settings : SettingsModel) (events : List Event) (index : ℕ) (n : State) → slice_get (run settings events).nodes index ≡ Some n → WatchesRing n }
{}

/// Whatever members, heard processes and ticks came to a detector: a watched process is silent exactly where more ticks than the
/// deadline have passed since the later of when it was first watched and when it was last heard. Of each watched process there is
/// such a moment.
pub fn silence_is_counted_from_what_was_heard()
    ensures counted { (me : UniqueModel) (deadline : ℕ) (who : UniqueModel) (before since : List Happening) (happening : Happening)
        → IsLast me deadline before happening since who → IsSilent me deadline (before ++ happening ∷ since) who ↔ (deadline < ticks_in since) }
    ensures moment { (me : UniqueModel) (deadline : ℕ) (who : UniqueModel) (happenings : List Happening) → IsWatched me deadline happenings who → HasLast me deadline happenings who }
{}

/// Over every list of events: of what came to a node (with each of its steps a tick, or the answer of a process that it hears,
/// where it is a member, and then the members that it knows), there is for each process that it watches a last thing with which it
/// began to watch it or heard it; and the process is silent exactly where more of its ticks than the deadline have come since.
pub fn silence_is_counted_over_runs()
    ensures { (settings : SettingsModel) (events : List Event) (time index : ℕ) (n : State) (who : UniqueModel) → IsAt settings events time index n → IsTrue (map.contains_key n.membership.detector who) → SilentSince settings events time index n who }
{}

/// Over every list of events: a node downs somebody at a tick only where its view has stood still. From some time on it has shown
/// each process as it does now (as a member with the same status, or as none; and a member as unreachable, or as reachable), and
/// since then, with this tick, the node has ticked as a member at least as often as the settings ask (Akka's Split Brain
/// Resolver, "stable-after").
pub fn a_decision_waits_for_a_standstill()
    ensures { (settings : SettingsModel) (events : List Event) (index time : ℕ) → DownsAt settings events index time → StoodStill settings events index time }
{}

/// Whoever lets a member in at a tick had waited: from some step on it ticked as a member at least as often as the settings ask, this
/// tick included, and at each of these ticks it found its view not settled (Akka's Cluster Specification, "WeaklyUp Members"; that it
/// is ticks that are counted is this project's choice).
pub fn a_member_is_let_in_after_a_wait()
    ensures { (settings : SettingsModel) (events : List Event) (index time : ℕ) → LetsInAt settings events index time → StoodUnsettled settings events index time }
{}

/// Whether a member that waits is Joining or WeaklyUp makes no difference to the rest. Take two views that have the same rows and
/// show the same members, but that some who wait are Joining in one and WeaklyUp in the other. The same members are Up or Leaving
/// in both, with the same numbers, and the same are unreachable; both are converged for the same who have seen them, or neither
/// is, and so with settled, for each quorum and each role; both have the same leader; and in both the resolver decides the same,
/// by each strategy and over each role, and downs the same members in the same order. It is not said that a waiting member makes
/// no difference at all: while it is unreachable no view converges, and a member that it has in its row is unreachable (Akka's
/// Cluster Specification, "WeaklyUp Members"; Split Brain Resolver).
pub fn joining_or_weakly_up_is_the_same_to_the_rest()
    ensures counted { (v w : View) → AreAlikeBut v w → (who : UniqueModel) (number : ℕ) → IsCounted v.standings who number ↔ IsCounted w.standings who number }
    ensures reached { (v w : View) → AreAlikeBut v w → (who : UniqueModel) → IsUnreachable v who ↔ IsUnreachable w who }
    ensures converged { (v w : View) → AreAlikeBut v w → (seen : UniqueSet) → IsConverged v seen ↔ IsConverged w seen }
    ensures settled { (v w : View) → AreAlikeBut v w → (quorum : ℕ) (role : List AddressModel) (seen : UniqueSet) → is_settled quorum role v seen ≡ is_settled quorum role w seen }
    ensures leader { (v w : View) → AreAlikeBut v w → (o : Option UniqueModel) → IsLeader v o ↔ IsLeader w o }
    ensures decision { (v w : View) → AreAlikeBut v w → (strategy : Strategy) (role : List AddressModel) (me : UniqueModel) → decide strategy role v me ≡ decide strategy role w me }
    ensures downed { (v w : View) → AreAlikeBut v w → (decided : Decision) (me : UniqueModel) → downs decided v me ≡ downs decided w me }
{}

/// A gossip that is received without refusal leaves the version that is the merge of both, whatever the result; the receiver is
/// among those that have seen what is known then, where it is a member of that, but after an older one, which changes nothing.
/// That is what a running node knows after a step in which a packet for it carried a gossip that knows it; and where the gossip is
/// refused, it knows what it knew (Akka's Cluster Specification, "Gossip" and "Gossip Convergence").
pub fn an_accepted_gossip_leaves_the_merge()
    ensures merge { (me : UniqueModel) (own incoming : GossipState) (result : Received) (known : GossipState) → receive me own incoming ≡ Ok (result, known) → AreMerged me own incoming result known }
    ensures taken { (n : State) (p : Envelope) (g : GossipState) → IsTrue n.runs → IsTrue (is_for (me_of n) p) → gossip_of p.message ≡ Some g → IsTrue (is_known g.view.standings (me_of n))
        → (k : Received × GossipState) → receive (me_of n) (known n) g ≡ Ok k → known (step (Packet p) n).0 ≡ k.1 }
    ensures refused { (n : State) (p : Envelope) (g : GossipState) → IsTrue n.runs → IsTrue (is_for (me_of n) p) → gossip_of p.message ≡ Some g → IsTrue (is_known g.view.standings (me_of n))
        → (fault : GossipFault) → receive (me_of n) (known n) g ≡ Err fault → known (step (Packet p) n).0 ≡ known n }
{}

/// Over every list of events: each effect of each entry of the history was written at a step of its author, a running node, for a
/// cause. It founded, or admitted who asked. A rise to Up was made by the founding or by a leader in a settled view, of a member
/// that was Joining or WeaklyUp; one to WeaklyUp by a leader whose view had not settled for long enough, of a Joining member that
/// it reached; one to Exiting by a leader in a settled view, one to Leaving where it was asked, one to Down where it was asked,
/// where another process at that address asked to join, or by a decision, where some member, with the role or without it, was Up
/// or Leaving, and another one than the author was unreachable and not Down. A removal was made by such a leader: as confirmed
/// only of one that said that it stops, and else of one that was Down and unreachable. Who founds was given the event to found
/// the cluster before (Akka's Cluster Specification, "Membership Lifecycle").
pub fn each_entry_has_a_cause()
    ensures caused { (settings : SettingsModel) (events : List Event) (entry : Entry) → Contains (run settings events).history entry → (effect : Effect) → Contains entry.effects effect → IsCaused settings events entry effect }
    ensures founder { (settings : SettingsModel) (events : List Event) (time index : ℕ) (n : State) → IsAt settings events time index n → IsTrue n.membership.founder → WasToldToFound settings events index time }
{}

/// The laws have cases. In the run in which an activity passes from b to c (three listed addresses, a static quorum of two, the
/// margin kept): after 15 of its 33 events b is Up in its own view; after all of them c runs with a settled view, in which b is
/// removed and confirmed; the history says both, that b rose to Up and that it was removed so; and the version that c has noted as
/// settled then covers the one that b had noted after 15 events, and counts more.
pub fn a_run_shows_a_member_from_up_to_removed()
    ensures up { KnowsMember three (take 15 passing) 0 b_1 Up }
    ensures rose { IsSaid three passing (Rise b_1 Up 1) }
    ensures settled { RunsSettled three passing 1 }
    ensures removed { KnowsRemoved three passing 1 b_1 }
    ensures told { IsSaid three passing (Removed b_1 true) }
    ensures noted { NotesGrow three (take 15 passing) passing b_1 c_1 }
{}

/// A margin can be broken. Where a founds alone and downs b, which never hears of it, a finds b silent, removes it unconfirmed,
/// and finds at step 11 that its margin of one tick has ended, while b runs: the step, the node and the member are these.
pub fn a_margin_can_be_broken()
    ensures broken { IsMargin two breaking (Broken 11 0 1) }
    ensures node { HasNumber (run two (take 10 breaking)).nodes 0 a_1 }
    ensures member { HasNumber (run two (take 10 breaking)).nodes 1 b_1 }
    ensures runs { Runs (run two (take 10 breaking)).nodes b_1 }
{}

/// A shard can move between two nodes that run. With three listed addresses, a static quorum of two, which is more than half, and
/// the margin kept: after 22 of 41 events a runs and hosts shard 0, and the cart, an entity of that shard, is active there; after
/// all of them c, which came Up later, runs and hosts that shard, and the cart is active there; and a still runs, hosts the shard
/// no more, and the cart is not active there (Akka's Cluster Sharding, "Shard rebalancing").
pub fn a_shard_can_move()
    ensures quorum { IsOverHalf spread 2 }
    ensures kept { IsMargin spread moving Kept }
    ensures first { IsHome spread (take 22 moving) 0 a_1 0 cart }
    ensures second { IsHome spread moving 2 c_1 0 cart }
    ensures left { IsNoHome spread moving 0 a_1 0 cart }
{}

/// A member can be let in, and come Up. With three listed addresses, a static quorum of two, a wait of one tick, and the margin
/// kept: after 9 of 14 events a runs, and with no settled view; after 10 it knows c as WeaklyUp, and the history says that c rose to
/// that; after 13 a runs with a settled view; and after all of them it knows c as Up, and the history says that c rose to that, with
/// number 3 (Akka's Cluster Specification, "WeaklyUp Members").
pub fn a_member_can_be_let_in_and_come_up()
    ensures kept { IsMargin lenient letting_in Kept }
    ensures node { HasNumber (run lenient letting_in).nodes 0 a_1 }
    ensures runs { Runs (run lenient (take 9 letting_in)).nodes a_1 }
    ensures unsettled { ¬ RunsSettled lenient (take 9 letting_in) 0 }
    ensures weakly { KnowsMember lenient (take 10 letting_in) 0 c_1 WeaklyUp }
    ensures let_in { IsSaid lenient (take 10 letting_in) (Rise c_1 WeaklyUp 0) }
    ensures settled { RunsSettled lenient (take 13 letting_in) 0 }
    ensures up { KnowsMember lenient letting_in 0 c_1 Up }
    ensures rose { IsSaid lenient letting_in (Rise c_1 Up 3) }
{}
