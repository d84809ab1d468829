// When a node ticks.
ghost use Rattle.std.specs.Prelude.{◌≡◌, ◌<◌, ◌^◌};
ghost use Rattle.ak_turns.specs.Timer.{timer_at, tick_at, timer_after, next_word, ticked};

use rand_core::SeedableRng;
use rand_core::utils::NextWord;
use rand_pcg::Pcg32;

/// How far a node's time has come, and when it ticks: this project's choice. It has no clock; it is given the readings of one.
#[derive(Drop)]
pub struct Timer {
    // How many milliseconds lie between two ticks.
    tick_ms: u64,
    // When it ticked last, or the first reading.
    noted: u64,
    // The latest time that was read.
    latest: u64,
    // From where the words of its ticks come.
    words: Pcg32,
    // How many ticks it made, and how many readings have made none since.
    ticks: u64,
    idle: u64,
}

impl Timer {
    /// A timer that starts at this reading, in milliseconds. Its words are those of the kit's `Pcg32` of the seed.
    pub fn start(tick_ms: u64, seed: u64, reading: u64) -> Timer
        ensures { result ≡ timer_at tick_ms seed reading }
    {
        Timer {
            tick_ms,
            noted: reading,
            latest: reading,
            words: Pcg32::seed_from_u64(seed),
            ticks: 0,
            idle: 0,
        }
    }

    /// Takes the next reading. The word of the tick that it makes, where the time lies at least `tick_ms` after the last tick, or
    /// the first reading. A reading below an earlier one counts as the earlier one.
    pub fn read(&mut self, reading: u64) -> Option<u32>
        requires ticks { self.old.ticks < 2 ^ 62 }
        requires idle { self.old.idle < 2 ^ 62 }
        ensures tick { result ≡ tick_at reading self.old }
        ensures timer { self.new ≡ timer_after reading self.old }
    {
        let time = self.latest.max(reading);
        // Kept also where no tick is due, so that a clock which is set back takes no time away.
        self.latest = time;
        if time.saturating_sub(self.noted) < self.tick_ms {
            self.idle += 1;
            return None;
        }
        Some(self.tick(time))
    }

    // Ticks at this time, the latest.
    fn tick(&mut self, time: u64) -> u32
        requires ticks { self.old.ticks < 2 ^ 62 }
        requires latest { self.old.latest ≡ time }
        ensures word { result ≡ next_word self.old }
        ensures timer { self.new ≡ ticked time self.old }
    {
        // From now on and not from when it was due: a late tick is not made up for by the next ones.
        self.noted = time;
        self.ticks += 1;
        self.idle = 0;
        self.words.next_word()
    }

    /// How many ticks it made.
    pub fn ticks(&self) -> u64
        ensures { result ≡ self.now.ticks }
    {
        self.ticks
    }

    /// How many readings in a row have made no tick.
    pub fn idle(&self) -> u64
        ensures { result ≡ self.now.idle }
    {
        self.idle
    }
}
