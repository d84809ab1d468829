// A link in memory, whose calls fail where they are listed.
ghost use Rattle.std.specs.Prelude.{◌≡◌, ◌≤◌, ◌+◌, ◌++◌, ◌∷◌, [], Some, None, IfOk, OnOk, OnErr, option_copied, option_map, length, take, min, vec_len};
ghost use Rattle.std.specs.Bool.{OnTrue, OnFalse};
ghost use Rattle.ak_outside.specs.Outside.{counted};
ghost use Rattle.ak_outside.specs.Link.{BindCause, SendCause, HearCause, Binds, TakesPacket, FitsRoom, Hears};
ghost use Rattle.ak_outside.specs.MemoryLink.{fails_next, known_sends, BindDone, BindFailed, SendDone, SendFailed, ReceiveDone, ReceiveFailed, taken_at};

use crate::calls::Calls;
use crate::link::{Bound, Heard, Link, Looked, Sent, Taken};
use ak_address::{Address, Text};
use std::alloc::{AllocError, Global};
use std::marker::Model;

/// A link that has what comes in memory, and keeps what is sent. Callers see a `Wire`; all of it is known.
#[derive(Drop)]
pub struct MemoryLink {
    alloc: Global,
    to_come: Vec<Option<Text>>,
    next: usize,
    packets: Vec<Taken>,
    named: Option<Address>,
    bind_calls: Calls,
    send_calls: Calls,
    receive_calls: Calls,
    fault_count: u64,
    loss_count: u64,
    starved_count: u64,
}

impl Model for MemoryLink {
    ghost use Rattle.std.specs.Prelude.{◌≤◌, drop, vec_len};
    ghost use Rattle.ak_outside.specs.MemoryLink.{Wire};

    ghost Value = { Wire };

    ghost view = { λ s. record { coming = drop s.next s.to_come.items; taken = s.packets.items; bound = s.named; binds = s.bind_calls; sends = s.send_calls; receives = s.receive_calls; faults = s.fault_count; losses = s.loss_count; starved = s.starved_count } };

    ghost invariant = { λ s. s.next ≤ vec_len s.to_come };
}

impl MemoryLink {
    /// A link to which these packets and quiets come in their order, and then nothing more. The binds, sends and receives whose
    /// numbers, counted from 1 for each kind, are listed fail; a call's number stays at 2^64 - 1 once there.
    pub fn new(
        alloc: Global,
        coming: Vec<Option<Text>>,
        binds: &[u64],
        sends: &[u64],
        receives: &[u64],
    ) -> Result<MemoryLink, AllocError>
        ensures { IfOk result (λ s. s ≡ record {
          coming = coming.items;
          taken = [];
          bound = None;
          binds = record { failing = binds.now; made = 0 };
          sends = record { failing = sends.now; made = 0 };
          receives = record { failing = receives.now; made = 0 };
          faults = 0;
          losses = 0;
          starved = 0;
        }) }
    {
        let bind_calls = Calls::new(alloc, binds)?;
        let send_calls = Calls::new(alloc, sends)?;
        let receive_calls = Calls::new(alloc, receives)?;
        Ok(MemoryLink {
            alloc,
            to_come: coming,
            next: 0,
            packets: Vec::new(alloc),
            named: None,
            bind_calls,
            send_calls,
            receive_calls,
            fault_count: 0,
            loss_count: 0,
            starved_count: 0,
        })
    }

    /// How many packets were taken.
    pub fn sent_len(&self) -> usize
        ensures { result ≡ length self.now.taken }
    {
        self.packets.len()
    }

    /// The bytes of the packet at this index, from 0 on, where there is one.
    pub fn sent_at(&self, place: usize) -> Option<&[u8]>
        ensures { option_map (λ bytes. bytes.now) result ≡ option_map (λ one. one.bytes) (taken_at self.now place) }
    {
        match self.packets.get(place) {
            Some(packet) => Some(packet.bytes.bytes()),
            None => None,
        }
    }

    /// To where the packet at this index was sent, where there is one.
    pub fn sent_to(&self, place: usize) -> Option<&Address>
        ensures { option_map (λ to. to.now) result ≡ option_map (λ one. one.to) (taken_at self.now place) }
    {
        match self.packets.get(place) {
            Some(packet) => Some(&packet.to),
            None => None,
        }
    }

    /// How many sends were asked, at most 2^64 - 1.
    pub fn asked(&self) -> u64
        ensures { result ≡ self.now.sends.made }
    {
        self.send_calls.made()
    }

    /// The address that the last bind that was ready named, where there was one and it named one.
    pub fn bound_at(&self) -> Option<&Address>
        ensures { option_copied result ≡ self.now.bound }
    {
        self.named.as_ref()
    }

    /// How many binds and receives have failed, at most 2^64 - 1.
    pub fn faults(&self) -> u64
        ensures { result ≡ self.now.faults }
    {
        self.fault_count
    }

    /// How many sends have failed, at most 2^64 - 1.
    pub fn losses(&self) -> u64
        ensures { result ≡ self.now.losses }
    {
        self.loss_count
    }

    /// How many calls have failed for lack of memory, at most 2^64 - 1. The others were listed.
    pub fn starved(&self) -> u64
        ensures { result ≡ self.now.starved }
    {
        self.starved_count
    }
}

impl Link for MemoryLink {
    ghost bound = { λ s. Some s.bound };

    ghost sends = { known_sends };

    ghost coming = { λ s. Some s.coming };

    ghost faults = { λ s. s.faults };

    ghost losses = { λ s. s.losses };

    /// Knows every address, and keeps none: it is as it was.
    fn look_up(&mut self, _at: &Address) -> Looked
        ensures faults { self.new.faults ≡ self.old.faults }
        ensures losses { self.new.losses ≡ self.old.losses }
        ensures bound { Some self.new.bound ≡ Some self.old.bound }
        ensures sends { known_sends self.new ≡ known_sends self.old }
        ensures coming { Some self.new.coming ≡ Some self.old.coming }
        ensures known { result ≡ Looked.Known }
        ensures kept { self.new ≡ self.old }
    {
        Looked::Known
    }

    /// Fails where the number of the call is listed, or where there is no memory for the address, which `starved` counts.
    fn bind(&mut self, at: Option<&Address>) -> Bound
        ensures count { self.old.faults ≤ self.new.faults }
        ensures cause { BindCause self.old.faults self.new.faults result }
        ensures losses { self.new.losses ≡ self.old.losses }
        ensures bound { Binds (Some self.old.bound) (Some self.new.bound) (option_copied at.entry) result }
        ensures sends { known_sends self.new ≡ known_sends self.old }
        ensures coming { Some self.new.coming ≡ Some self.old.coming }
        ensures listed { OnTrue (fails_next self.old.binds) (BindFailed self.old self.new result) }
        ensures unlisted { OnFalse (fails_next self.old.binds) (BindDone self.old self.new (option_copied at.entry) result) }
    {
        if self.bind_calls.next_fails() {
            self.fault_count = self.fault_count.saturating_add(1);
            return Bound::Failed;
        }
        let Ok(named) = copy_of(self.alloc, at) else {
            self.fault_count = self.fault_count.saturating_add(1);
            self.starved_count = self.starved_count.saturating_add(1);
            return Bound::Failed;
        };
        self.named = named;
        Bound::Ready
    }

    /// Fails where the number of the call is listed, or where there is no memory for the packet, which `starved` counts.
    fn send(&mut self, to: &Address, bytes: &[u8]) -> Sent
        ensures count { self.old.losses ≤ self.new.losses }
        ensures cause { SendCause self.old.losses self.new.losses result }
        ensures faults { self.new.faults ≡ self.old.faults }
        ensures bound { Some self.new.bound ≡ Some self.old.bound }
        ensures sends { TakesPacket (known_sends self.old) (known_sends self.new) to.now bytes.now result }
        ensures coming { Some self.new.coming ≡ Some self.old.coming }
        ensures listed { OnTrue (fails_next self.old.sends) (SendFailed self.old self.new result) }
        ensures unlisted { OnFalse (fails_next self.old.sends) (SendDone self.old self.new to.now bytes.now result) }
    {
        if self.send_calls.next_fails() {
            self.lose();
            return Sent::Failed;
        }
        let number = self.send_calls.made();
        if keep(self.alloc, &mut self.packets, number, to, bytes).is_err() {
            self.lose();
            self.starved_count = self.starved_count.saturating_add(1);
            return Sent::Failed;
        }
        Sent::Sent
    }

    /// Fails exactly where the number of the call is listed.
    fn receive(&mut self, buffer: &mut [u8]) -> Heard
        ensures count { self.old.faults ≤ self.new.faults }
        ensures cause { HearCause self.old.faults self.new.faults result }
        ensures losses { self.new.losses ≡ self.old.losses }
        ensures fits { FitsRoom result buffer.new }
        ensures bound { Some self.new.bound ≡ Some self.old.bound }
        ensures sends { known_sends self.new ≡ known_sends self.old }
        ensures coming { Hears (Some self.old.coming) (Some self.new.coming) result buffer.new }
        ensures listed { OnTrue (fails_next self.old.receives) (ReceiveFailed self.old self.new result) }
        ensures unlisted { OnFalse (fails_next self.old.receives) (ReceiveDone self.old self.new result) }
    {
        if self.receive_calls.next_fails() {
            self.fault_count = self.fault_count.saturating_add(1);
            return Heard::Failed;
        }
        let Some(next) = self.to_come.get(self.next) else {
            return Heard::Quiet;
        };
        self.next += 1;
        match next {
            Some(packet) => Heard::Packet(cut_to(packet.bytes(), buffer)),
            None => Heard::Quiet,
        }
    }
}

impl MemoryLink {
    // Counts a loss.
    fn lose(&mut self)
        ensures { self.new ≡ record self.old { losses = counted self.old.losses } }
    {
        self.loss_count = self.loss_count.saturating_add(1);
    }
}

fn copy_of(alloc: Global, at: Option<&Address>) -> Result<Option<Address>, AllocError>
    ensures { IfOk result (λ copy. copy ≡ option_copied at.entry) }
{
    match at {
        Some(at) => Ok(Some(at.copy(alloc)?)),
        None => Ok(None),
    }
}

// Appends one more packet. Where memory runs out the list is as it was.
fn keep(
    alloc: Global,
    packets: &mut Vec<Taken>,
    number: u64,
    to: &Address,
    bytes: &[u8],
) -> Result<(), AllocError>
    ensures ok { OnOk result (packets.new.items ≡ packets.old.items ++ (record { number = number; to = to.now; bytes = bytes.now }) ∷ []) }
    ensures err { OnErr result (packets.new.items ≡ packets.old.items) }
{
    let to = to.copy(alloc)?;
    let bytes = Text::from_bytes(alloc, bytes)?;
    packets.push(Taken { number, to, bytes })?;
    Ok(())
}

// Copies as many first bytes as have room to the start of the buffer, and says how many.
fn cut_to(bytes: &[u8], buffer: &mut [u8]) -> usize
    ensures count { result ≡ min (length bytes.now) (length buffer.new) }
    ensures bytes { take result buffer.new ≡ take result bytes.now }
{
    let count = bytes.len().min(buffer.len());
    buffer[..count].copy_from_slice(&bytes[..count]);
    count
}
