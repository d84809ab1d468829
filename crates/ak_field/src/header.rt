ghost use Rattle.std.specs.Prelude.{◌≡◌};
ghost use Rattle.ak_field.specs.Reading.{GivesExactly, first_fault};
ghost use Rattle.ak_field.specs.Fields.{header_at, is_magic};

use crate::fault::WireFault;
use crate::fields::Fields;
use crate::write::FORMAT;

impl<'a> Fields<'a> {
    /// The first five bytes of a datagram: `AKC`, the version of the format, 1 or 2, and the kind of the message, from 1 to 25.
    /// Both are given. Takes no memory.
    #[tactic(auto, unfolding(crate::specs::Fields::header_at))]
    pub fn header(&mut self) -> Result<(u8, u8), WireFault>
        ensures { GivesExactly result self.new (header_at self.old) }
    {
        let magic = self.take(3)?;
        if !is_magic(magic) {
            return Err(WireFault::Magic);
        }
        let version = self.byte()?;
        if version < 1 || version > FORMAT {
            return Err(WireFault::Version);
        }
        let kind = self.byte()?;
        if kind < 1 || kind > 25 {
            return Err(WireFault::Kind);
        }
        Ok((version, kind))
    }
}

fn is_magic(bytes: &[u8]) -> bool
    ensures { result ≡ is_magic bytes.now }
{
    matches!(bytes, [b'A', b'K', b'C', ..])
}

/// The number of the fault, from 1 to 4, for which the first five bytes of a datagram are refused; none where they are not:
/// 1 they are not all there, 2 it begins otherwise, 3 its format has another version, 4 there is no such kind. Takes no memory.
pub fn check_header(bytes: &[u8]) -> Option<u8>
    ensures { result ≡ first_fault (header_at bytes.now) }
{
    match Fields::new(bytes).header() {
        Ok(_) => None,
        Err(fault) => fault.number().ok(),
    }
}
