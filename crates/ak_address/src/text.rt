ghost use Rattle.std.specs.Prelude.{◌≡◌, ◌↔◌, ◌≤◌, ℕ, List, IfOk, IsTrue, length, get_or, nat_eq, fold};
ghost use Rattle.std.specs.Ordering.{nat_cmp};
ghost use Rattle.std.specs.Cmp.Lexicographic.{pointwise, slice_cmp};
ghost use Rattle.ak_address.specs.Start.{start_of};
ghost use Rattle.ak_address.specs.Text.{bytes_of, IsWithin};
ghost use Rattle.ak_address.specs.Keys.{fed_of_text};

use std::alloc::{AllocError, Global};
use std::cmp::Ordering;
use std::hash::Hasher;
use std::marker::Model;

// As many bytes as a number of 64 bits holds beside how many there are.
const START_BYTES: usize = 7;

// As many bytes stand in the value itself.
const FEW_BYTES: usize = 16;

// Where the bytes of a text stand. How many there are comes before them, so that they begin at a word of the machine.
#[derive(Debug)]
enum Letters {
    // So many bytes, from the first one on, in the value itself.
    Few(usize, [u8; FEW_BYTES]),
    // More bytes, in an allocation.
    Many(Vec<u8>),
}

/// A list of bytes: a host, an entity's id, the content of a file. Up to 16 bytes, as most hosts have, stand in the value
/// itself, so that a copy of them takes no memory.
#[derive(Debug)]
pub struct Text {
    letters: Letters,
    start: u64,
}

impl Model for Text {
    ghost use Rattle.std.specs.Prelude.{ℕ, List};
    ghost use Rattle.ak_address.specs.Text.{bytes_of, IsText};

    ghost Value = { List ℕ };

    ghost view = { λ t. bytes_of t.letters };

    // Names are compared at each search for a process, and of most the first bytes tell the order.
    ghost invariant = { λ t. IsText t.letters t.start };
}

impl Text {
    /// The text of these bytes. Only memory can fail.
    pub fn from_bytes(alloc: Global, bytes: &[u8]) -> Result<Text, AllocError>
        ensures { IfOk result (λ text. text ≡ bytes.now) }
    {
        let letters = Letters::of(alloc, bytes)?;
        let start = start_of(bytes);
        Ok(Text { letters, start })
    }

    /// Its bytes.
    pub fn bytes(&self) -> &[u8]
        ensures { result.now ≡ self.now }
    {
        self.letters.bytes()
    }

    /// Whether both have the same bytes. Takes no memory.
    #[inline(always)]
    pub fn is(&self, other: &Text) -> bool
        ensures value { result ≡ pointwise nat_eq self.now other.now }
        ensures meaning { IsTrue result ↔ self.now ≡ other.now }
    {
        if self.start != other.start {
            return false;
        }
        self.is_short() || self.has_bytes_of(other)
    }

    // The same, byte by byte, for names of which the start does not tell all. Apart, so that what asks for the start alone stays
    // small enough to stand wherever names are compared.
    #[inline(never)]
    fn has_bytes_of(&self, other: &Text) -> bool
        ensures value { result ≡ pointwise nat_eq self.now other.now }
        ensures meaning { IsTrue result ↔ self.now ≡ other.now }
    {
        self.bytes() == other.bytes()
    }

    /// The order of bytes: the first one that differs decides, and else a text comes before what it begins. Takes no memory.
    #[inline(always)]
    pub fn compare(&self, other: &Text) -> Ordering
        ensures { result ≡ slice_cmp nat_cmp self.now other.now }
    {
        if self.start != other.start {
            return self.start.cmp(&other.start);
        }
        if self.is_short() {
            return Ordering::Equal;
        }
        self.compare_bytes(other)
    }

    // The same, byte by byte.
    #[inline(never)]
    fn compare_bytes(&self, other: &Text) -> Ordering
        ensures { result ≡ slice_cmp nat_cmp self.now other.now }
    {
        self.bytes().cmp(other.bytes())
    }

    // Its start tells all of it.
    #[inline(always)]
    fn is_short(&self) -> bool
        ensures { IsTrue result ↔ length self.now ≤ 7 }
    {
        self.start % 256 <= START_BYTES as u64
    }

    // Feeds a hash: with its start where that tells all of it, and else with its bytes.
    pub(crate) fn feed<H: Hasher>(&self, state: &mut H)
        ensures { state.new ≡ fold H.write state.old (fed_of_text self.now) }
    {
        if self.is_short() {
            state.write_u64(self.start);
        } else {
            state.write(self.bytes());
        }
    }

    /// An equal text. Only memory can fail.
    pub fn copy(&self, alloc: Global) -> Result<Text, AllocError>
        ensures { IfOk result (λ text. text ≡ self.now) }
    {
        let letters = self.letters.copy(alloc)?;
        let start = self.start;
        Ok(Text { letters, start })
    }
}

impl Letters {
    // These bytes. Only memory can fail.
    fn of(alloc: Global, bytes: &[u8]) -> Result<Letters, AllocError>
        ensures bytes { IfOk result (λ letters. bytes_of letters ≡ bytes.now) }
        ensures within { IfOk result IsWithin }
    {
        let len = bytes.len();
        if len > FEW_BYTES {
            return Ok(Letters::Many(Vec::from_slice(alloc, bytes)?));
        }
        let mut few = [0; FEW_BYTES];
        few[..len].copy_from_slice(bytes);
        Ok(Letters::Few(len, few))
    }

    // The bytes, wherever they stand.
    fn bytes(&self) -> &[u8]
        requires { IsWithin self.now }
        ensures { result.now ≡ bytes_of self.now }
    {
        match self {
            Letters::Few(len, bytes) => &bytes[..*len],
            Letters::Many(bytes) => bytes.as_slice(),
        }
    }

    // The same bytes again. Those that stand in the value are copied as they stand, which a processor does in a few moves. Only
    // memory can fail.
    fn copy(&self, alloc: Global) -> Result<Letters, AllocError>
        requires { IsWithin self.now }
        ensures bytes { IfOk result (λ letters. bytes_of letters ≡ bytes_of self.now) }
        ensures within { IfOk result IsWithin }
    {
        match self {
            Letters::Few(len, bytes) => Ok(Letters::Few(*len, *bytes)),
            Letters::Many(bytes) => Letters::many(alloc, bytes.as_slice()),
        }
    }

    // The same for bytes in an allocation. Apart, so that a copy of a few bytes stays small.
    #[inline(never)]
    fn many(alloc: Global, bytes: &[u8]) -> Result<Letters, AllocError>
        ensures bytes { IfOk result (λ letters. bytes_of letters ≡ bytes.now) }
        ensures within { IfOk result IsWithin }
    {
        Ok(Letters::Many(Vec::from_slice(alloc, bytes)?))
    }
}

// By hand, so that for a proof a drop is one step, wherever the bytes stand.
impl Drop for Text {
    fn drop(self) {
        let Text {
            letters,
            start: _start,
        } = self;
        match letters {
            Letters::Few(_len, _bytes) => {}
            Letters::Many(bytes) => drop(bytes),
        }
    }
}

// The first bytes as one number, the first of them weighing most, and after them how many bytes there are.
fn start_of(bytes: &[u8]) -> u64
    ensures { result ≡ start_of bytes.now }
{
    let mut start = 0;
    'places: for place in 0..START_BYTES {
        start = start * 256 + u64::from(byte_at(bytes, place));
    }
    start * 256 + bytes.len().min(START_BYTES + 1) as u64
}

fn byte_at(bytes: &[u8], place: usize) -> u8
    ensures { result ≡ get_or bytes.now place 0 }
{
    match bytes.get(place) {
        Some(byte) => *byte,
        None => 0,
    }
}
