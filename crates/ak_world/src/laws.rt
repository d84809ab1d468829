ghost use Rattle.std.specs.Prelude.{◌≡◌, ◌⊎◌, ◌↔◌, ℕ, ◌+◌, ◌*◌, ◌<◌, ◌≤◌, List, length, ◌++◌, take, slice_get, true, Option, Some, None, Ok, Contains, IsTrue, IsSomeAnd};
ghost use Rattle.ak_address.specs.Unique.{UniqueModel};
ghost use Rattle.ak_address.specs.Uniques.{has};
ghost use Rattle.ak_clock.specs.Version.{Counts, count, Covers};
ghost use Rattle.ak_member.specs.declared.effect.Effect.{Effect};
ghost use Rattle.ak_wire.specs.declared.action.Action.TheVariants.{Update, MarginEnd};
ghost use Rattle.ak_settings.specs.declared.settings.Strategy.TheVariants.{StaticQuorum};
ghost use Rattle.ak_settings.specs.Settings.{SettingsModel, IsSettings, settling_size, shard_by};
ghost use Rattle.ak_region.specs.Region.{entity_shard};
ghost use Rattle.ak_schedule.specs.declared.event.Event.{Event};
ghost use Rattle.ak_node.specs.declared.node.State.{State};
ghost use Rattle.ak_node.specs.Node.{known, me_of, settled_of, margin_of};
ghost use Rattle.ak_world.specs.Fold.{IsFold, IsIn};
ghost use Rattle.ak_gossip.specs.Gossip.{GossipState};
ghost use Rattle.ak_history.specs.declared.entry.Entry.{Entry};
ghost use Rattle.ak_history.specs.History.{entries_of, IsNumbered, is_covered};
ghost use Rattle.ak_world.specs.World.{Done, happens, run};
ghost use Rattle.ak_world.specs.StepText.{acting};
ghost use Rattle.ak_world.specs.Held.{Holds, Held, Enters, Made};
ghost use Rattle.ak_history.specs.Shown.{IsRemoved};
ghost use Rattle.ak_line.specs.Grows.{Grows};
ghost use Rattle.ak_line.specs.Line.{IsLine};
ghost use Rattle.ak_member.specs.Standing.{tombstone_of};
ghost use Rattle.ak_settled.specs.Settled.{candidate, is_finished, needed, standings_of, version_of};
ghost use Rattle.std.specs.FinMap as map;
ghost use Rattle.ak_settled.specs.SettledView.{NotedView};
ghost use Rattle.ak_world.specs.RunLine.{IsAged, line_of};
ghost use Rattle.ak_world.specs.SettledLine.{WasSettled, IsOverHalf, AreInLine};
ghost use Rattle.ak_world.specs.declared.margin.Margin.{Margin};
ghost use Rattle.ak_world.specs.declared.margin.Margin.TheVariants.{Kept};
ghost use Rattle.ak_world.specs.Noting.{HasSettled, NotesAt, TellsMarginEnd};
ghost use Rattle.ak_world.specs.Singletons.{FinishedHaveStopped, IsActiveSingleton, OneIsActive, RunsSingleton};
ghost use Rattle.ak_world.specs.Uids.{HaveUids};
ghost use Rattle.ak_world.specs.Double.{Doubled, IsFirstDouble};
ghost use Rattle.ak_sharding.specs.Alive.{IsActive};
ghost use Rattle.ak_world.specs.Homes.{HasOneHome};
ghost use Rattle.ak_world.specs.Places.{AreAtOneNode};
ghost use Rattle.ak_world.specs.Margin.{IsStep, Runs, IsTold, IsUntold, IsMargin, IsBrokenBy};
ghost use Rattle.ak_world.specs.Worked.{alone, passing, rise, three};
ghost use Rattle.ak_world.specs.InRun.{WasStarted, HasStopped, AllServe, RunAlone, IsConfirmed, IsNamedIn, IsSettled, HasNoted};

/// After any events, what each node knows and what each packet carries is the fold of the history: its members with
/// their statuses, its tombstones and its rows are those that its version shows, and its version counts no entry that was
/// not made.
pub fn what_is_known_is_the_fold()
    ensures { (settings : SettingsModel) (events : List Event) (g : GossipState) → IsIn g (run settings events) → IsFold (run settings events).history g }
{}

/// After any events, each author's entries are numbered 1, 2, 3 and so on in their order, each node counts all of its own
/// updates and no more, and no two nodes are the same process.
pub fn nodes_count_their_own_updates()
    ensures numbered { (settings : SettingsModel) (events : List Event) → IsNumbered (run settings events).history }
    ensures counted { (settings : SettingsModel) (events : List Event) (index : ℕ) (n : State) → slice_get (run settings events).nodes index ≡ Some n
        → count (known n).version (me_of n) ≡ entries_of (me_of n) (run settings events).history }
    ensures apart { (settings : SettingsModel) (events : List Event) (i j : ℕ) (n m : State) → slice_get (run settings events).nodes i ≡ Some n → slice_get (run settings events).nodes j ≡ Some m → me_of n ≡ me_of m → i ≡ j }
{}

/// In one run, at the same time or at different times, equal versions have equal members, tombstones and rows.
pub fn equal_versions_have_equal_members()
    ensures { (settings : SettingsModel) (first more : List Event) (g f : GossipState) → IsIn g (run settings first) → IsIn f (run settings (first ++ more)) → g.version ≡ f.version → g.view ≡ f.view }
{}

/// The number that an update tells is that of its entry: after any events, each update among the actions of an accepted
/// event has put the acting node's entry, with this number and these effects, into the history, where it was not before.
pub fn updates_number_their_entries()
    ensures { (settings : SettingsModel) (events : List Event) (event : Event) (done : Done) → happens settings event (run settings events) ≡ Ok done
        → (number : ℕ) (effects : List Effect) → Contains done.actions (Update number effects)
        → IsSomeAnd (acting done) (λ n. Enters (run settings events).history done.world.history (record { author = me_of n; number = number; effects = effects })) }
{}

/// After any events, each process in the seen set of a node or of a gossip in a packet held exactly that version at the end
/// of one of its steps (Akka's Cluster Specification, "Gossip Convergence").
pub fn who_has_seen_a_version_held_it()
    ensures { (settings : SettingsModel) (events : List Event) (g : GossipState) → IsIn g (run settings events) → (who : UniqueModel) → IsTrue (has g.seen who) → Held settings events who g.version }
{}

/// After any events, each entry of the history was made by one of them, from a version that its author held just before.
/// Whoever knows the entry, a node or a packet, knows all that its author knew then.
pub fn who_knows_an_entry_knows_what_its_author_knew()
    ensures made { (settings : SettingsModel) (events : List Event) (entry : Entry) → Contains (run settings events).history entry → (base : Counts) × Made settings events entry base }
    ensures closed { (settings : SettingsModel) (events : List Event) (g : GossipState) → IsIn g (run settings events) → (entry : Entry) (base : Counts) → Made settings events entry base
        → IsTrue (is_covered g.version entry) → Covers g.version base }
{}

/// Of two versions that one process held in a run, the later covers the earlier.
pub fn later_versions_cover_earlier_ones()
    ensures { (settings : SettingsModel) (events : List Event) (i j : ℕ) (who : UniqueModel) (earlier later : Counts) → i ≤ j
        → Holds (run settings (take i events)) who earlier → Holds (run settings (take j events)) who later → Covers later earlier }
{}

/// After any events, each running node that knows anybody is a member of its own view, and not Down there.
pub fn running_nodes_serve()
    ensures { (settings : SettingsModel) (events : List Event) → AllServe (run settings events) }
{}

/// After any events, whoever is said to have stopped has stopped: a process with a confirmed tombstone in what a node knows, in
/// a packet or in a noted settled view, a process that a node has heard say so, and the sender of a packet that says so.
pub fn confirmed_means_stopped()
    ensures { (settings : SettingsModel) (events : List Event) (who : UniqueModel) → IsConfirmed (run settings events) who → HasStopped (run settings events).nodes who }
{}

/// After any events, at one address at most one process runs.
pub fn one_process_runs_at_an_address()
    ensures { (settings : SettingsModel) (events : List Event) → RunAlone (run settings events) }
{}

/// After any events, whoever is named in the world was started, and its address is listed.
pub fn who_is_named_was_started()
    ensures { (settings : SettingsModel) (events : List Event) (who : UniqueModel) → IsNamedIn (run settings events) who → WasStarted settings (run settings events).nodes who }
{}

/// After any events, what a node has noted as settled is the view of the history at its version, which the process held at the
/// end of one of its steps; what the node knows covers it, and it shows the node neither as Down nor as a tombstone. Of two
/// versions that one process noted as settled in a run, the later covers the earlier.
pub fn settled_views_are_of_the_history()
    ensures settled { (settings : SettingsModel) (events : List Event) (index : ℕ) (n : State) (noted : NotedView) → slice_get (run settings events).nodes index ≡ Some n → n.membership.settled.view ≡ Some noted → IsSettled settings events n noted }
    ensures grows { (settings : SettingsModel) (events : List Event) (i j : ℕ) (who : UniqueModel) (earlier later : Counts) → i ≤ j
        → HasNoted (run settings (take i events)) who earlier → HasNoted (run settings (take j events)) who later → Covers later earlier }
{}

/// Where the strategy is a static quorum of more than half of the addresses that have the role: of any two versions that were
/// settled in a run, at whichever running nodes and after whichever events, one covers the other. What a node has noted as
/// settled was settled.
pub fn settled_versions_are_in_line()
    ensures line { (settings : SettingsModel) (events : List Event) (quorum : ℕ) → IsOverHalf settings quorum → AreInLine settings events quorum }
    ensures noted { (settings : SettingsModel) (events : List Event) (index : ℕ) (n : State) (noted : NotedView) → slice_get (run settings events).nodes index ≡ Some n → n.membership.settled.view ≡ Some noted → WasSettled settings events (settling_size settings.strategy) noted.version }
{}

/// Those that have the role are listed: a static quorum of more than half of the listed addresses is one of more than half of
/// those that have the role, in settings that are in their ranges. So whatever is said of the latter is said of the former.
pub fn more_than_half_of_the_listed_is_more_than_half_of_the_role()
    ensures { (settings : SettingsModel) (quorum : ℕ) → IsSettings settings → settings.strategy ≡ StaticQuorum quorum → length settings.listed < 2 * quorum → IsOverHalf settings quorum }
{}

/// The settled versions of a run are a line of which promises, singletons and shards may speak: who has aged and who was removed
/// only grows along it, and is the same later in the run of a version that was settled; whoever has aged was started.
pub fn a_run_gives_a_line()
    ensures line { (settings : SettingsModel) (events : List Event) (quorum : ℕ) → IsOverHalf settings quorum → IsLine Counts (line_of settings events quorum) }
    ensures grows { (settings : SettingsModel) (events more : List Event) (quorum : ℕ)
        → Grows Counts (line_of settings events quorum) (WasSettled settings (events ++ more) quorum) (IsAged (run settings (events ++ more)).history) (IsRemoved (run settings (events ++ more)).history) }
    ensures started { (settings : SettingsModel) (events : List Event) (version : Counts) (who : UniqueModel) → IsAged (run settings events).history version who → WasStarted settings (run settings events).nodes who }
{}

/// By the version of the settled view that a node has noted its candidate has aged and was not removed, nor was the node itself;
/// whoever has aged is needed or finished there.
pub fn noted_views_show_who_has_aged()
    ensures candidate { (settings : SettingsModel) (events : List Event) (index : ℕ) (n : State) (noted : NotedView) → slice_get (run settings events).nodes index ≡ Some n → n.membership.settled.view ≡ Some noted
        → (who : UniqueModel) → candidate (Some noted) ≡ Some who → IsAged (run settings events).history noted.version who × (¬ IsRemoved (run settings events).history noted.version who) }
    ensures itself { (settings : SettingsModel) (events : List Event) (index : ℕ) (n : State) (noted : NotedView) → slice_get (run settings events).nodes index ≡ Some n → n.membership.settled.view ≡ Some noted
        → ¬ IsRemoved (run settings events).history noted.version (me_of n) }
    ensures reached { (settings : SettingsModel) (events : List Event) (index : ℕ) (n : State) (noted : NotedView) → slice_get (run settings events).nodes index ≡ Some n → n.membership.settled.view ≡ Some noted
        → (margin : ℕ) (who : UniqueModel) → IsAged (run settings events).history noted.version who → IsTrue (has (needed margin (Some noted)) who) ⊎ IsTrue (is_finished margin (Some noted) who) }
{}

/// Whoever was told that it is out at a step of any events does not run at the end of that step; and whoever does not run
/// at the end of a step was told at it.
pub fn who_was_told_has_stopped()
    ensures stopped { (settings : SettingsModel) (events : List Event) (time : ℕ) (who : UniqueModel) → IsTold settings events time who → HasStopped (run settings (take (time + 1) events)).nodes who }
    ensures told { (settings : SettingsModel) (events : List Event) (time : ℕ) (who : UniqueModel) → HasStopped (run settings (take (time + 1) events)).nodes who → IsTold settings events time who }
{}

/// A member whose margin ends at a step was told at no earlier step just where it runs at the start of the step. So the margin
/// is broken at the first end of the margin of a member that runs.
pub fn margins_break_where_members_run()
    ensures runs { (settings : SettingsModel) (events : List Event) (time place node : ℕ) (who : UniqueModel) → IsUntold settings events time place node who → Runs (run settings (take time events)).nodes who }
    ensures untold { (settings : SettingsModel) (events : List Event) (time place node : ℕ) (who : UniqueModel) (event : Event) (done : Done) → IsStep settings events time event done → done.node ≡ Some node → slice_get done.actions place ≡ Some (MarginEnd who)
        → Runs (run settings (take time events)).nodes who → IsUntold settings events time place node who }
{}

/// Each list of events has one margin.
pub fn each_run_has_one_margin()
    ensures some { (settings : SettingsModel) (events : List Event) → (margin : Margin) × IsMargin settings events margin }
    ensures one { (settings : SettingsModel) (events : List Event) (one other : Margin) → IsMargin settings events one → IsMargin settings events other → one ≡ other }
{}

/// Where the strategy is a static quorum of more than half of the addresses that have the role: after each number of events
/// through which the removal margin was kept at most one node is an active singleton, by what nodes told (Akka's "Cluster
/// Singleton"), also in a run that breaks the margin later. Each process has a uid from 1 on, as the type of a process says.
pub fn at_most_one_node_is_active()
    ensures { (settings : SettingsModel) (events : List Event) (quorum time : ℕ) → IsOverHalf settings quorum → 1 ≤ settings.margin → HaveUids (run settings events) → IsMargin settings (take time events) Kept → OneIsActive settings (take time events) }
{}

/// A node is an active singleton, by what it told, exactly where it runs and its phase is active.
pub fn active_ones_tell_it()
    ensures { (settings : SettingsModel) (events : List Event) (i : ℕ) → IsActiveSingleton settings events i ↔ ((n : State) × (slice_get (run settings events).nodes i ≡ Some n) × RunsSingleton n) }
{}

/// After each number of events through which the removal margin was kept, whoever is finished by the settled view of a node has
/// stopped, under any strategy.
pub fn whoever_is_finished_has_stopped()
    ensures { (settings : SettingsModel) (events : List Event) (time : ℕ) → 1 ≤ settings.margin → IsMargin settings (take time events) Kept → FinishedHaveStopped settings (take time events) }
{}

/// Whoever is finished by the settled view of a node has a confirmed tombstone there, or the node told at some step that its
/// margin ended. So a margin that nobody tells the end of finishes nobody.
pub fn whoever_is_finished_is_confirmed_or_ended()
    ensures { (settings : SettingsModel) (events : List Event) → 1 ≤ settings.margin → (index : ℕ) (n : State) → slice_get (run settings events).nodes index ≡ Some n → (who : UniqueModel) → IsTrue (is_finished (margin_of n) (settled_of n) who)
        → (tombstone_of (map.get (standings_of (settled_of n)) who) ≡ Some true) ⊎ ((time : ℕ) × TellsMarginEnd settings events time index who) }
{}

/// What a node has noted as settled was settled at that very node, at the end of the step in which it noted it, and that step told
/// it. Where the view of a running node is settled, the version that it has noted counts what it knows: each covers the other.
pub fn settled_views_are_noted_where_they_settle()
    ensures noted { (settings : SettingsModel) (events : List Event) (index : ℕ) (n : State) (noted : NotedView) → slice_get (run settings events).nodes index ≡ Some n → n.membership.settled.view ≡ Some noted → (time : ℕ) × NotesAt settings events time index noted.version }
    ensures latest { (settings : SettingsModel) (events : List Event) (index : ℕ) (n : State) → slice_get (run settings events).nodes index ≡ Some n → IsTrue n.runs → HasSettled settings n
        → Covers (version_of (settled_of n)) (known n).version × Covers (known n).version (version_of (settled_of n)) }
{}

/// A node can become active while the margin is kept, under a static quorum of more than half of the addresses that have the
/// role: where one address is listed, and has it, its process founds the cluster, comes Up, settles, and is an active singleton
/// after these four events.
pub fn a_node_can_become_active()
    ensures over_half { IsOverHalf alone 1 }
    ensures waits { 1 ≤ alone.margin }
    ensures kept { IsMargin alone rise Kept }
    ensures active { IsActiveSingleton alone rise 0 }
{}

/// An activity can pass to another node while the margin is kept, under such a quorum: where three addresses are listed, and all
/// have the role, the node that started first is an active singleton after 15 of these 33 events; it leaves, ends its activity
/// and exits; and the node that started second is an active singleton after all of them.
pub fn an_activity_can_pass_to_another_node()
    ensures over_half { IsOverHalf three 2 }
    ensures waits { 1 ≤ three.margin }
    ensures kept { IsMargin three passing Kept }
    ensures first { IsActiveSingleton three (take 15 passing) 0 }
    ensures second { IsActiveSingleton three passing 1 }
{}

/// Where the strategy is a static quorum of more than half of the addresses that have the role: after each number of events
/// through which the removal margin was kept no entity started at a node, by what nodes told, while it was active at another one
/// (Akka's "Cluster Sharding"), also in a run that breaks the margin later; so where there is a double the margin was broken at
/// its step, or earlier. Each process has a uid from 1 on, as the type of a process says.
pub fn no_entity_starts_twice()
    ensures kept { (settings : SettingsModel) (events : List Event) (quorum time : ℕ) → IsOverHalf settings quorum → 1 ≤ settings.margin → HaveUids (run settings events) → IsMargin settings (take time events) Kept → IsFirstDouble settings (take time events) None }
    ensures broken { (settings : SettingsModel) (events : List Event) (quorum : ℕ) (double : Doubled) (margin : Margin) → IsOverHalf settings quorum → 1 ≤ settings.margin → HaveUids (run settings events) → IsFirstDouble settings events (Some double) → IsMargin settings events margin → IsBrokenBy margin double.step }
{}

/// Under the same premises no shard is hosted at two running nodes, and while a node is the active singleton its table has each
/// shard that a running node hosts, with that node and the number with which it is hosted there.
pub fn a_shard_has_one_home()
    ensures { (settings : SettingsModel) (events : List Event) (quorum time : ℕ) → IsOverHalf settings quorum → 1 ≤ settings.margin → HaveUids (run settings events) → IsMargin settings (take time events) Kept → HasOneHome settings (take time events) }
{}

/// Under the same premises no entity is kept active at two running nodes, and none is active at two nodes by what nodes told.
pub fn an_entity_is_at_one_node()
    ensures told { (settings : SettingsModel) (events : List Event) (quorum time : ℕ) → IsOverHalf settings quorum → 1 ≤ settings.margin → HaveUids (run settings events) → IsMargin settings (take time events) Kept → AreAtOneNode settings (take time events) }
    ensures kept { (settings : SettingsModel) (events : List Event) (quorum : ℕ) → IsOverHalf settings quorum → 1 ≤ settings.margin → IsMargin settings events Kept → HaveUids (run settings events)
        → (i j : ℕ) (n m : State) → slice_get (run settings events).nodes i ≡ Some n → slice_get (run settings events).nodes j ≡ Some m → IsTrue n.runs → IsTrue m.runs → (entity : List ℕ) → IsActive n.sharding entity → IsActive m.sharding entity → i ≡ j }
{}

/// Of any events there is one first double, or none: the entity, the two nodes and the step are the same, whoever finds them.
pub fn each_run_has_one_first_double()
    ensures some { (settings : SettingsModel) (events : List Event) → (double : Option Doubled) × IsFirstDouble settings events double }
    ensures one { (settings : SettingsModel) (events : List Event) (one other : Option Doubled) → IsFirstDouble settings events one → IsFirstDouble settings events other → one ≡ other }
{}

/// After any events, an entity has the same shard at each node: that which the settings of the run give it.
pub fn an_entity_has_one_shard()
    ensures { (settings : SettingsModel) (events : List Event) (index : ℕ) (n : State) (entity : List ℕ) → slice_get (run settings events).nodes index ≡ Some n
        → entity_shard n.sharding.region entity ≡ shard_by settings entity }
{}
