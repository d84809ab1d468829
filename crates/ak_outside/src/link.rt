// Where packets go to and come from.
ghost use Rattle.std.specs.Prelude.{◌≡◌, ℕ, ◌≤◌, List, Option, option_copied};
ghost use Rattle.ak_address.specs.Unique.{AddressModel};
ghost use Rattle.ak_outside.specs.Link.{Sends, BindCause, SendCause, HearCause, Binds, TakesPacket, FitsRoom, Hears};

use ak_address::{Address, Text};

/// The answer of a look-up.
#[derive(Clone, Copy, Debug, PartialEq, Eq)]
pub enum Looked {
    /// The link knows where the address is, and can send there.
    Known,
    /// It does not: a packet to this address is lost.
    Unknown,
}

/// The answer of a bind.
#[derive(Clone, Copy, Debug, PartialEq, Eq)]
pub enum Bound {
    /// The link has the address.
    Ready,
    /// The link has failed and counted it.
    Failed,
}

/// The answer of a send.
#[derive(Clone, Copy, Debug, PartialEq, Eq)]
pub enum Sent {
    /// The packet was taken; that it arrives is not said.
    Sent,
    /// The packet was not taken, which is counted as a loss.
    Failed,
}

/// The answer of a receive.
#[derive(Clone, Copy, Debug, PartialEq, Eq)]
pub enum Heard {
    /// A packet's first bytes, so many, stand at the start of the buffer: all of them, or as many as have room.
    Packet(usize),
    /// No packet has come.
    Quiet,
    /// The link has failed and counted it.
    Failed,
}

/// A packet that was taken: the number of its send, from 1 on, to where, and its bytes.
#[derive(Debug, Drop)]
pub struct Taken {
    pub number: u64,
    pub to: Address,
    pub bytes: Text,
}

/// A link to other processes. A failed bind or receive is counted as a fault, and a failed send as a loss alone: this project's
/// choice.
pub trait Link {
    /// The address that the last bind that was ready asked for, where it is known; none where there was none, or it asked for
    /// any free port.
    ghost bound: { Self → Option (Option AddressModel) };

    /// The sends that were asked, and the packets that were taken, where they are known.
    ghost sends: { Self → Option Sends };

    /// What comes, packets and quiets in their order, where it is known; then nothing more comes.
    ghost coming: { Self → Option (List (Option (List ℕ))) };

    /// How often a bind or a receive has failed. It never falls; kept as a `u64` it stays at 2^64 - 1 once there.
    ghost faults: { Self → ℕ };

    /// How often a send has failed. It never falls; kept as a `u64` it stays at 2^64 - 1 once there.
    ghost losses: { Self → ℕ };

    /// Looks up where an address is, for the packets that are sent to it later; this may take long, and changes nothing else. A
    /// link that asks a name server asks it here, and at a bind, and never where it sends or receives.
    fn look_up(&mut self, at: &Address) -> Looked
        ensures faults { faults self.new ≡ faults self.old }
        ensures losses { losses self.new ≡ losses self.old }
        ensures bound { bound self.new ≡ bound self.old }
        ensures sends { sends self.new ≡ sends self.old }
        ensures coming { coming self.new ≡ coming self.old };

    /// Takes an address, or any free port. `Failed` comes only where the count of faults rose in this call, or
    /// stands at 2^64 - 1 after it.
    fn bind(&mut self, at: Option<&Address>) -> Bound
        ensures count { faults self.old ≤ faults self.new }
        ensures cause { BindCause (faults self.old) (faults self.new) result }
        ensures losses { losses self.new ≡ losses self.old }
        ensures bound { Binds (bound self.old) (bound self.new) (option_copied at.entry) result }
        ensures sends { sends self.new ≡ sends self.old }
        ensures coming { coming self.new ≡ coming self.old };

    /// Sends a packet. `Failed` comes only where the count of losses rose in this call, or stands at 2^64 - 1 after it; the
    /// count of faults stays.
    fn send(&mut self, to: &Address, bytes: &[u8]) -> Sent
        ensures count { losses self.old ≤ losses self.new }
        ensures cause { SendCause (losses self.old) (losses self.new) result }
        ensures faults { faults self.new ≡ faults self.old }
        ensures bound { bound self.new ≡ bound self.old }
        ensures sends { TakesPacket (sends self.old) (sends self.new) to.now bytes.now result }
        ensures coming { coming self.new ≡ coming self.old };

    /// The next packet, cut to the buffer; `Quiet` exactly where none has come. `Failed` comes only where the count of faults
    /// rose in this call, or stands at 2^64 - 1 after it, and leaves what comes.
    fn receive(&mut self, buffer: &mut [u8]) -> Heard
        ensures count { faults self.old ≤ faults self.new }
        ensures cause { HearCause (faults self.old) (faults self.new) result }
        ensures losses { losses self.new ≡ losses self.old }
        ensures fits { FitsRoom result buffer.new }
        ensures bound { bound self.new ≡ bound self.old }
        ensures sends { sends self.new ≡ sends self.old }
        ensures coming { Hears (coming self.old) (coming self.new) result buffer.new };
}
