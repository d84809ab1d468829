ghost use Rattle.std.specs.Prelude.{◌≡◌, None, option_copied, option_map};
ghost use Rattle.ak_field.specs.Reading.{Gives, GivesExactly, IsThere, Adds, items_at, last_of};
ghost use Rattle.ak_field.specs.Fields.{length_at};
ghost use Rattle.ak_field.specs.Parts.{state_at, is_up_number, up_number_at, may_see, seen_at, is_after, index_at, indices_at, subjects_at, part_at, parts_at};

use crate::fault::WireFault;
use crate::fields::Fields;
use ak_address::Unique;
use ak_clock::BOUND;
use ak_gossip::{Indices, Part, Parts};
use std::alloc::Global;

const MOST_PARTS: u8 = 128;

impl<'a> Fields<'a> {
    /// The parts of a gossip: how many there are, up to 128, and then each, its process above that of the one before it: the
    /// process, its count, its state, its up number, whether it has seen the gossip, and the number of its row; where that is
    /// not 0, also how many subjects the row has, and their indices among the parts, from 0 on and in order.
    #[tactic(auto, using(crate::proofs::Steps::fails_exactly), unfolding(crate::specs::Parts::parts_at))]
    pub fn parts(&mut self, alloc: Global) -> Result<Parts, WireFault>
        ensures read { Gives result self.new (parts_at self.old) }
        ensures memory { IsThere result (length_at 0 128 self.old) }
    {
        let many = self.length(0, MOST_PARTS)?;
        self.some_parts(alloc, many)
    }

    fn some_parts(&mut self, alloc: Global, many: u8) -> Result<Parts, WireFault>
        ensures { Gives result self.new (items_at (part_at many) None many self.old) }
    {
        let mut parts = Parts::with_capacity(alloc, usize::from(many))?;
        'parts: for _ in 0..many {
            self.add_part(alloc, many, &mut parts)?;
        }
        Ok(parts)
    }

    fn add_part(&mut self, alloc: Global, many: u8, parts: &mut Parts) -> Result<(), WireFault>
        ensures { Adds result parts.old parts.new self.new (part_at many (last_of parts.old) self.old) }
    {
        let part = self.part(alloc, many, parts.as_slice().last())?;
        parts.push(part)?;
        Ok(())
    }

    // A part after the last one, out of so many.
    #[tactic(auto, using(crate::proofs::Steps::fails_exactly, crate::proofs::Steps::fails_first), unfolding(crate::specs::Parts::part_at))]
    fn part(&mut self, alloc: Global, many: u8, last: Option<&Part>) -> Result<Part, WireFault>
        ensures { Gives result self.new (part_at many (option_copied last.entry) self.old) }
    {
        let unique = self.next_unique(alloc, unique_of(last))?;
        let count = self.number(0, BOUND)?;
        let state = self.state()?;
        let up_number = self.up_number(state)?;
        let seen = self.seen(state)?;
        let row_number = self.number(0, count)?;
        let subjects = self.subjects(alloc, many, row_number)?;
        Ok(Part {
            unique,
            count,
            state,
            up_number,
            seen,
            row_number,
            subjects,
        })
    }

    #[tactic(auto, unfolding(crate::specs::Parts::state_at))]
    fn state(&mut self) -> Result<u8, WireFault>
        ensures { GivesExactly result self.new (state_at self.old) }
    {
        let state = self.byte()?;
        if state < 1 || state > 8 {
            return Err(WireFault::Range);
        }
        Ok(state)
    }

    #[tactic(auto, unfolding(crate::specs::Parts::up_number_at))]
    fn up_number(&mut self, state: u8) -> Result<u64, WireFault>
        ensures { GivesExactly result self.new (up_number_at state self.old) }
    {
        let number = self.eight_bytes()?;
        if !is_up_number(state, number) {
            return Err(WireFault::Range);
        }
        Ok(number)
    }

    #[tactic(auto, unfolding(crate::specs::Parts::seen_at))]
    fn seen(&mut self, state: u8) -> Result<bool, WireFault>
        ensures { GivesExactly result self.new (seen_at state self.old) }
    {
        let seen = self.flag()?;
        if !may_see(state, seen) {
            return Err(WireFault::Range);
        }
        Ok(seen)
    }

    // The subjects of a row of this number, 0 where there is no row.
    #[tactic(auto, unfolding(crate::specs::Parts::subjects_at))]
    fn subjects(&mut self, alloc: Global, many: u8, number: u64) -> Result<Indices, WireFault>
        ensures { Gives result self.new (subjects_at many number self.old) }
    {
        if number == 0 {
            return Ok(Indices::empty(alloc));
        }
        self.indices(alloc, many)
    }

    #[tactic(auto, using(crate::proofs::Steps::fails_exactly), unfolding(crate::specs::Parts::indices_at))]
    fn indices(&mut self, alloc: Global, many: u8) -> Result<Indices, WireFault>
        ensures { Gives result self.new (indices_at many self.old) }
    {
        let length = self.length(0, many)?;
        self.some_indices(alloc, many, length)
    }

    fn some_indices(&mut self, alloc: Global, many: u8, length: u8) -> Result<Indices, WireFault>
        ensures { Gives result self.new (items_at (index_at many) None length self.old) }
    {
        let mut list = Indices::with_capacity(alloc, usize::from(length))?;
        'list: for _ in 0..length {
            self.add_index(many, &mut list)?;
        }
        Ok(list)
    }

    fn add_index(&mut self, many: u8, list: &mut Indices) -> Result<(), WireFault>
        ensures { Adds result list.old list.new self.new (index_at many (last_of list.old) self.old) }
    {
        let index = self.index(many, list.as_slice().last())?;
        list.push(index)?;
        Ok(())
    }

    // An index after the last one, out of so many.
    #[tactic(auto, unfolding(crate::specs::Parts::index_at))]
    fn index(&mut self, many: u8, last: Option<&u8>) -> Result<u8, WireFault>
        ensures { GivesExactly result self.new (index_at many (option_copied last.entry) self.old) }
    {
        let index = self.byte()?;
        if index >= many {
            return Err(WireFault::Range);
        }
        if !is_after(last, index) {
            return Err(WireFault::Order);
        }
        Ok(index)
    }
}

// Whether a process of this state may have seen the gossip, where it has.
fn may_see(state: u8, seen: bool) -> bool
    ensures { result ≡ may_see state seen }
{
    !seen || state <= 5 || state == 8
}

fn is_up_number(state: u8, number: u64) -> bool
    ensures { result ≡ is_up_number state number }
{
    if state == 1 || state >= 6 {
        return number == 0;
    }
    if state == 5 {
        return number <= BOUND;
    }
    1 <= number && number <= BOUND
}

fn is_after(last: Option<&u8>, index: u8) -> bool
    ensures { result ≡ is_after (option_copied last.entry) index }
{
    match last {
        Some(last) => *last < index,
        None => true,
    }
}

fn unique_of(last: Option<&Part>) -> Option<&Unique>
    ensures { option_copied result ≡ option_map (λ part. part.unique) (option_copied last.entry) }
{
    match last {
        Some(part) => Some(&part.unique),
        None => None,
    }
}
