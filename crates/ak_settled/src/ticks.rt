ghost use Rattle.ak_settled.specs.Ticks.{after_one};

use ak_address::Raise;

// The ticks since a tombstone was noted, up to the margin, and whether the last of them reached it.
#[derive(Clone, Copy)]
pub(crate) struct Ticks {
    pub(crate) count: u32,
    pub(crate) has_just_ended: bool,
}

impl Raise for Ticks {
    ghost raised = { after_one };

    fn raise(&mut self, most: u32) {
        if self.count < most {
            self.count += 1;
            self.has_just_ended = self.count == most;
        } else {
            self.count = most;
            self.has_just_ended = false;
        }
    }
}
