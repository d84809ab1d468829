ghost use Rattle.std.specs.Prelude.{◌≡◌, ◌↔◌, ◌<◌, ◌^◌, None, IfOk, IfSome, OnOk, OnErr};
ghost use Rattle.ak_schedule.specs.Schedule.{IsEvent};
ghost use Rattle.ak_generate.specs.Census.{Census, IsSeen, MayHappen};
ghost use Rattle.ak_generate.specs.Generated.{next_event, IsAtEnd};
ghost use Rattle.ak_generate.specs.Generator.{seeded, after_next};
ghost use Rattle.ak_generate.specs.Words.{words_of};

use crate::draw::later_event;
use crate::event::opening_event;
use crate::sight::Sight;
use ak_schedule::Event;
use rand_core::SeedableRng;
use rand_pcg::Pcg32;
use std::alloc::{AllocError, Global};
use std::marker::Model;

// How many events come first, whatever the words are.
const OPENING: u32 = 10;

/// A generator of the events of a schedule (this project's choice): five processes start, found and join; then words choose.
#[derive(Drop)]
pub struct Generator {
    words: Pcg32,
    opened: u32,
}

impl Model for Generator {
    ghost use Rattle.std.specs.Prelude.{◌≤◌};
    ghost use Rattle.ak_generate.specs.Generator.{GeneratorModel, coded_generator};

    ghost Value = { GeneratorModel };

    ghost coded = { coded_generator };

    ghost view = { λ g. record { words = g.words; opened = g.opened } };

    ghost invariant = { λ g. g.opened ≤ 10 };
}

impl Generator {
    /// The generator of a seed. It has given no event, and its words are those of the kit's `Pcg32` of that seed. Takes no
    /// memory.
    pub fn new(seed: u64) -> Generator
        ensures { result ≡ seeded seed }
    {
        Generator {
            words: Pcg32::seed_from_u64(seed),
            opened: 0,
        }
    }

    /// The next event of a world that is seen so, by the words that are left; None exactly where ten events were given before, no
    /// process runs and 64 were started. The generator moves by the words that the event names, each drawn whether or not its
    /// value is used: none for the first ten events and for None. Only memory can fail, and then the generator is as it was.
    ///
    /// In a world after just the events that this generator gave before, the event may happen: who acts runs, who starts is
    /// new, at a listed address at which nobody runs, and among the first 64, one alone founds, and a packet that is delivered was
    /// sent. Its parts are in their ranges.
    pub fn next(&mut self, alloc: Global, sight: &Sight) -> Result<Option<Event>, AllocError>
        ensures event { IfOk result (λ event. event ≡ next_event self.old.opened sight.now (words_of self.old.words)) }
        ensures moved { OnOk result (self.new ≡ after_next self.old sight.now) }
        ensures err { OnErr result (self.new ≡ self.old) }
        ensures none { IfOk result (λ event. (event ≡ None) ↔ IsAtEnd self.old.opened sight.now) }
        ensures allowed { (c : Census) → IsSeen c self.old sight.now → IfOk result (λ event. IfSome event (MayHappen c)) }
        ensures in_range { (c : Census) → IsSeen c self.old sight.now → c.packets < 2 ^ 63 → IfOk result (λ event. IfSome event IsEvent) }
    {
        self.drawn(alloc, sight)
    }

    // The rule alone.
    fn drawn(&mut self, alloc: Global, sight: &Sight) -> Result<Option<Event>, AllocError>
        ensures event { IfOk result (λ event. event ≡ next_event self.old.opened sight.now (words_of self.old.words)) }
        ensures moved { OnOk result (self.new ≡ after_next self.old sight.now) }
        ensures err { OnErr result (self.new ≡ self.old) }
    {
        if self.opened < OPENING {
            let event = opening_event(alloc, self.opened)?;
            self.opened += 1;
            return Ok(Some(event));
        }
        let mut words = copy_of(&self.words)?;
        let event = later_event(alloc, &mut words, sight)?;
        self.words = words;
        Ok(event)
    }
}

// The generator in the same state.
fn copy_of(words: &Pcg32) -> Result<Pcg32, AllocError>
    ensures { IfOk result (λ copy. copy ≡ words.now) }
{
    let copy = words.clone()?;
    Ok(copy)
}
