ghost use Rattle.std.specs.Prelude.{◌≡◌, ℕ, List, Ok, Some};
ghost use Rattle.ak_field.specs.Reading.{first_fault};
ghost use Rattle.ak_field.specs.Fields.{header_at};
ghost use Rattle.ak_field.specs.Laws.{IsBytes, IsPrefixFree};
ghost use Rattle.ak_wire.specs.declared.envelope.Envelope.{Envelope};
ghost use Rattle.ak_wire.specs.Datagram.{datagram_in, datagram, spelled, IsValidIn, IsSpelled, SpellsIn, Spells};
ghost use Rattle.ak_field.specs.Ranges.{IsVersionOfFormat};
ghost use Rattle.ak_field.specs.Spelling.{format};
ghost use Rattle.ak_wire.specs.ReadingDatagram.{read};
ghost use Rattle.ak_wire.specs.Laws.{FirstFault, IsDecided};

/// What is spelled of a valid envelope, in any version of the format, is read again, and what is read was spelled so. What has a
/// spelling has one in the version that is written.
pub fn datagrams_are_their_spellings()
    ensures again { (version : ℕ) (e : Envelope) → IsVersionOfFormat version → IsValidIn version e → read (datagram_in version e) ≡ Ok e }
    ensures was { (bytes : List ℕ) (e : Envelope) → IsBytes bytes → read bytes ≡ Ok e → Spells bytes e }
    ensures written { (bytes : List ℕ) (e : Envelope) → Spells bytes e → SpellsIn format (datagram e) e }
{}

/// Of each list of bytes one of these is true, and never both: it spells an envelope, and no other; or reading it meets a first
/// fault, one of eight. A fault of the first five bytes is the first.
pub fn bytes_are_a_datagram_or_at_fault()
    ensures decided { (bytes : List ℕ) → IsBytes bytes → IsDecided bytes }
    ensures header { (bytes : List ℕ) (number : ℕ) → first_fault (header_at bytes) ≡ Some number → FirstFault bytes number }
{}

/// A valid envelope has one spelling in a version of the format, and no spelling is a proper prefix of another, in the same version
/// or in another.
pub fn no_datagram_begins_another()
    ensures one { (version : ℕ) (e : Envelope) (bytes other : List ℕ) → SpellsIn version bytes e → SpellsIn version other e → bytes ≡ other }
    ensures free { IsPrefixFree spelled IsSpelled }
{}
