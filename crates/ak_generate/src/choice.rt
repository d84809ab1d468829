ghost use Rattle.std.specs.Prelude.{◌≡◌, ◌%◌};
ghost use Rattle.ak_generate.specs.Generated.{choice_of, is_delivery};

// Which event a word chooses, where a process runs.
#[derive(Clone, Copy)]
pub(crate) enum Choice {
    Tick,
    Deliver,
    Offer,
    Leave,
    Down,
    Stop,
    Start,
    Join,
}

impl Choice {
    // A packet is delivered.
    pub(crate) fn is_delivery(self) -> bool
        ensures { result ≡ is_delivery self }
    {
        match self {
            Choice::Deliver => true,
            _ => false,
        }
    }
}

// Of a hundred words one after another 35 choose a tick, 55 a delivery, 3 an offer, one each a leave, a down and a stop, and
// two each a start and a join.
pub(crate) fn choice_of(word: u32) -> Choice
    ensures { result ≡ choice_of (word % 100) }
{
    match word % 100 {
        0..=34 => Choice::Tick,
        35..=89 => Choice::Deliver,
        90..=92 => Choice::Offer,
        93 => Choice::Leave,
        94 => Choice::Down,
        95 => Choice::Stop,
        96..=97 => Choice::Start,
        _ => Choice::Join,
    }
}
