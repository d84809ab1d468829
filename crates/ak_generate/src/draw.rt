ghost use Rattle.std.specs.Prelude.{◌≡◌, ◌≢◌, IfOk, OnOk, IsSome, option_copied};
ghost use Rattle.ak_address.specs.Uniques.{how_many};
ghost use Rattle.ak_generate.specs.Generated as rules;
ghost use Rattle.ak_generate.specs.Words.{drawn, moved, words_of};

use crate::choice::{Choice, choice_of};
use crate::event::{
    MOST_STARTS, deliver, delivery, down, join, leave, offer, start, start_anew, stop, tick,
};
use crate::sight::Sight;
use ak_address::{Unique, Uniques};
use ak_schedule::Event;
use rand_core::utils::NextWord;
use rand_pcg::Pcg32;
use std::alloc::{AllocError, Global};

// The next word.
#[tactic(auto, unfolding(crate::specs::Words::drawn))]
fn draw(words: &mut Pcg32) -> u32
    ensures { (result, words.new) ≡ drawn words.old }
{
    words.next_word()
}

// The running process that a word chooses, and none exactly where no process runs.
fn chosen(word: u32, running: &Uniques) -> Option<&Unique>
    ensures value { option_copied result ≡ rules.chosen word running.now }
    ensures some { how_many running.now ≢ 0 → IsSome result }
{
    let many = running.len();
    if many == 0 {
        return None;
    }
    running.at(word as usize % many)
}

// An event after the first ten.
pub(crate) fn later_event(
    alloc: Global,
    words: &mut Pcg32,
    sight: &Sight,
) -> Result<Option<Event>, AllocError>
    ensures event { IfOk result (λ event. event ≡ rules.later sight.now (words_of words.old)) }
    ensures moved { OnOk result (words.new ≡ moved (rules.later_words sight.now (words_of words.old)) words.old) }
{
    if sight.running.len() == 0 {
        return anew(alloc, words, sight);
    }
    let choice = choice_of(draw(words));
    let place = draw(words);
    // A packet is delivered by its number: where one was sent nobody need be chosen, which takes a division.
    if choice.is_delivery() && sight.packets != 0 {
        return Ok(Some(delivery(draw(words), sight.packets)));
    }
    match chosen(place, &sight.running) {
        Some(who) => chosen_event(alloc, choice, words, sight, who),
        None => Ok(None),
    }
}

// The event where no process runs.
fn anew(alloc: Global, words: &mut Pcg32, sight: &Sight) -> Result<Option<Event>, AllocError>
    ensures event { IfOk result (λ event. event ≡ rules.anew sight.now (words_of words.old 0)) }
    ensures moved { OnOk result (words.new ≡ moved (rules.anew_words sight.now) words.old) }
{
    if sight.starts >= MOST_STARTS {
        return Ok(None);
    }
    start_anew(alloc, draw(words), sight)
}

// What was chosen, at a running process.
fn chosen_event(
    alloc: Global,
    choice: Choice,
    words: &mut Pcg32,
    sight: &Sight,
    who: &Unique,
) -> Result<Option<Event>, AllocError>
    ensures event { IfOk result (λ event. event ≡ rules.happens choice sight.now (words_of words.old) who.now) }
    ensures moved { OnOk result (words.new ≡ moved (rules.words_named choice) words.old) }
{
    match choice {
        Choice::Tick => tick(alloc, draw(words), who),
        Choice::Deliver => deliver(alloc, draw(words), sight, who),
        Choice::Offer => {
            let entity = draw(words);
            offer(alloc, entity, draw(words), who)
        }
        Choice::Leave => leave(alloc, who, chosen(draw(words), &sight.running)),
        Choice::Down => down(alloc, who, chosen(draw(words), &sight.running)),
        Choice::Stop => stop(alloc, sight, who),
        Choice::Start => start(alloc, draw(words), sight, who),
        Choice::Join => join(alloc, who, chosen(draw(words), &sight.running)),
    }
}
