ghost use Rattle.std.specs.Prelude.{◌≡◌, ℕ, List, Some};
ghost use Rattle.ak_address.specs.Unique.{AddressModel};
ghost use Rattle.ak_address.specs.Spelling.{SpellsAddress};
ghost use Rattle.toml.specs.Data.{Members};
ghost use Rattle.ak_config.specs.Address.{spelled_address};
ghost use Rattle.ak_config.specs.Configuration.{least_unknown};
ghost use Rattle.ak_config.specs.Keys.{IsLeastUnknown};

/// A configuration reads from a text the address that the text spells, and none where it spells none.
pub fn addresses_are_spellings()
    ensures found { (bytes : List ℕ) (a : AddressModel) → SpellsAddress bytes a → spelled_address bytes ≡ Some a }
    ensures only { (bytes : List ℕ) (a : AddressModel) → spelled_address bytes ≡ Some a → SpellsAddress bytes a }
{}

/// The key that is refused as unknown stands in the document, may stand in none, and no other such key comes before it in the
/// order of bytes.
pub fn unknown_keys_are_the_least()
    ensures { (t : Members) (k : List ℕ) → least_unknown t ≡ Some k → IsLeastUnknown t k }
{}
