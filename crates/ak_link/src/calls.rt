// The calls of a datagram socket, tried again where they say nothing of what was asked.
ghost use Rattle.std.specs.Prelude.{◌≡◌, ◌↔◌, ◌≤◌, ℕ, List, length, Result, IfOk, IsTrue};
ghost use Rattle.std.specs.declared.io.Error.{Error};
ghost use Rattle.std.specs.declared.net.socket_addr.SocketAddr.{SocketAddr};
ghost use Rattle.ak_link.specs.Calls.{IsPassing, Settles};

use std::io;
use std::io::ErrorKind;
use std::net::{SocketAddr, UdpSocket};

// So often a call that says nothing of what was asked is tried again.
const MOST_RETRIES: u64 = 100;

/// A datagram socket. Whom it sends to is said in numbers: it has no name to look up.
pub(crate) trait Datagrams {
    /// What a send of these bytes to this address may give: the socket before it, its answer and the socket after it.
    ghost sends: { List ℕ → SocketAddr → Self → Result ℕ Error → Self → Type 0 };

    /// What a receive may give.
    ghost receives: { Self → Result ℕ Error → Self → Type 0 };

    /// One send. It says how many bytes were taken.
    fn send(&mut self, bytes: &[u8], to: SocketAddr) -> io::Result<usize>
        ensures { sends bytes.now to self.old result self.new };

    /// One receive. It says how many bytes stand at the start of the buffer.
    fn receive(&mut self, buffer: &mut [u8]) -> io::Result<usize>
        ensures gives { receives self.old result self.new }
        ensures fits { IfOk result (λ count. count ≤ length buffer.new) };
}

impl Datagrams for UdpSocket {
    ghost sends = { λ _ _ _ _ _. Unit {0} };

    ghost receives = { λ _ _ _. Unit {0} };

    fn send(&mut self, bytes: &[u8], to: SocketAddr) -> io::Result<usize> {
        self.send_to(bytes, to)
    }

    fn receive(&mut self, buffer: &mut [u8]) -> io::Result<usize> {
        match self.recv_from(buffer) {
            Ok((count, _from)) => Ok(count),
            Err(e) => Err(e),
        }
    }
}

/// Sends until the call says what became of it, or was tried again 100 times.
pub(crate) fn send<S: Datagrams>(socket: &mut S, bytes: &[u8], to: SocketAddr) -> io::Result<usize>
    ensures { Settles (S.sends bytes.now to) socket.old result socket.new }
{
    'tries: for _ in 0..MOST_RETRIES {
        match socket.send(bytes, to) {
            Ok(count) => return Ok(count),
            Err(e) => {
                if !is_passing(e.kind()) {
                    return Err(e);
                }
            }
        }
    }
    socket.send(bytes, to)
}

/// Receives until the call says what came, or was tried again 100 times.
pub(crate) fn receive<S: Datagrams>(socket: &mut S, buffer: &mut [u8]) -> io::Result<usize>
    ensures settles { Settles S.receives socket.old result socket.new }
    ensures fits { IfOk result (λ count. count ≤ length buffer.new) }
{
    'tries: for _ in 0..MOST_RETRIES {
        match socket.receive(buffer) {
            Ok(count) => return Ok(count),
            Err(e) => {
                if !is_passing(e.kind()) {
                    return Err(e);
                }
            }
        }
    }
    socket.receive(buffer)
}

// A signal came, or an earlier packet was refused: the next call may do.
fn is_passing(kind: ErrorKind) -> bool
    ensures { IsTrue result ↔ IsPassing kind }
{
    match kind {
        ErrorKind::Interrupted => true,
        ErrorKind::ConnectionRefused => true,
        _ => false,
    }
}
