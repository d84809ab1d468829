ghost use Rattle.std.specs.Prelude.{◌≡◌, ℕ, ◌*◌, ◌<◌, ◌≤◌, ◌^◌, List, All, Contains, decimal};
ghost use Rattle.std.specs.Cmp.{IsTotalOrder};
ghost use Rattle.std.specs.FinMap.{IsAntisymmetric};
ghost use Rattle.std.specs.FinMap as map;
ghost use Rattle.ak_address.specs.Unique.{AddressModel, UniqueModel, IsAddress, IsUnique, address_cmp, unique_cmp};
ghost use Rattle.ak_address.specs.Distinct.{distinct};
ghost use Rattle.ak_address.specs.Spelling.{IsNumber, IsWord, SpellsAddress, SpellsUnique, address_text, unique_text};
ghost use Rattle.ak_address.specs.Table.{merged_tables, merged_at};

use crate::table::Merge;

/// The orders of addresses and of processes are total, and only equal ones tie.
pub fn orders_are_total()
    ensures addresses { IsTotalOrder address_cmp × IsAntisymmetric address_cmp }
    ensures uniques { IsTotalOrder unique_cmp × IsAntisymmetric unique_cmp }
{}

/// Bytes spell at most one number, one address and one unique.
pub fn spellings_have_one_value()
    ensures numbers { (bytes : List ℕ) (m n : ℕ) → IsNumber bytes m → IsNumber bytes n → m ≡ n }
    ensures addresses { (bytes : List ℕ) (a b : AddressModel) → SpellsAddress bytes a → SpellsAddress bytes b → a ≡ b }
    ensures uniques { (bytes : List ℕ) (u v : UniqueModel) → SpellsUnique bytes u → SpellsUnique bytes v → u ≡ v }
{}

/// A spelling has at least one byte, and no space and no line end: each byte is from `!` to `~`, and each of a
/// number is a digit.
pub fn spellings_are_words()
    ensures numbers { (bytes : List ℕ) (n : ℕ) → IsNumber bytes n → IsWord bytes }
    ensures digits { (bytes : List ℕ) (n : ℕ) → IsNumber bytes n → All (λ b. (48 ≤ b) × (b ≤ 57)) bytes }
    ensures addresses { (bytes : List ℕ) (a : AddressModel) → SpellsAddress bytes a → IsWord bytes }
    ensures uniques { (bytes : List ℕ) (u : UniqueModel) → SpellsUnique bytes u → IsWord bytes }
{}

/// What is printed of a number, an address or a unique spells it.
pub fn texts_are_spellings()
    ensures numbers { (n : ℕ) → n < 2 ^ 64 → IsNumber (decimal n) n }
    ensures addresses { (a : AddressModel) → IsAddress a → SpellsAddress (address_text a) a }
    ensures uniques { (u : UniqueModel) → IsUnique u → SpellsUnique (unique_text u) u }
{}

/// What a merge of tables is, at each process: what the two say of it together. Two tables that answer alike at
/// each process are equal, so this is all of it.
pub fn merges_are_pointwise<V: Merge>()
    ensures { (m n : map.FinMap unique_cmp V) (q : UniqueModel) → map.get (merged_tables V.merged m n) q ≡ merged_at V.merged (map.get m q) (map.get n q) }
{}

/// Two quorums share an address: out of fewer than twice a quorum of different addresses, two choices that each have a
/// quorum of different ones have one in common (that a quorum is counted in addresses is this project's choice).
pub fn quorums_share_an_address()
    ensures { (listed one other : List AddressModel) (quorum : ℕ) → ((a : AddressModel) → Contains one a → Contains listed a) → ((a : AddressModel) → Contains other a → Contains listed a) → distinct listed < 2 * quorum → quorum ≤ distinct one → quorum ≤ distinct other → (shared : AddressModel) × Contains one shared × Contains other shared }
{}
