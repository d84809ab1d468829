ghost use Rattle.std.specs.Prelude.{◌≡◌, ℕ, ◌<◌, ◌^◌, Some};
ghost use Rattle.rand_pcg.specs.Lcg.{Lcg};
ghost use Rattle.ak_schedule.specs.declared.event.Event.{Event};
ghost use Rattle.ak_generate.specs.Census.{Census, sight_of, nothing_yet, MayHappen, Follows, IsGenerated, IsSeen};
ghost use Rattle.ak_generate.specs.Generated.{next_event};
ghost use Rattle.ak_generate.specs.Generator.{GeneratorModel, seeded, after_next};
ghost use Rattle.ak_generate.specs.Words.{Words, words_of};

/// Whatever the words are, an event that comes next in a world after generated events and no others may happen there. A new
/// generator sees a world in which nothing has happened, and one that gave an event sees the world that follows. Words are
/// words of 32 bits.
pub fn generated_events_may_happen()
    ensures may { (given : ℕ) (c : Census) (w : Words) (event : Event) → IsGenerated given c → next_event given (sight_of c) w ≡ Some event → MayHappen c event }
    ensures begins { (seed : ℕ) → IsSeen nothing_yet (seeded seed) (sight_of nothing_yet) }
    ensures goes_on { (c d : Census) (g : GeneratorModel) (event : Event) → IsSeen c g (sight_of c) → next_event g.opened (sight_of c) (words_of g.words) ≡ Some event → Follows c event d → IsSeen d (after_next g (sight_of c)) (sight_of d) }
    ensures words { (g : Lcg) (n : ℕ) → words_of g n < 2 ^ 32 }
{}
