ghost use Rattle.std.specs.Prelude.{ℕ, ◌-◌, ◌<◌, ◌≤◌, ◌^◌};
ghost use Rattle.ak_address.specs.Unique.{IsUnique};
ghost use Rattle.ak_promise.specs.Ballot.{IsBallot};
ghost use Rattle.ak_field.specs.Ranges.{IsProcess, IsEntity, IsEntityIn, IsHeader, IsShard};
ghost use Rattle.ak_field.specs.Spelling.{byte, eight_bytes, header, process, ballot, shard, flag, entity, version, reports};
ghost use Rattle.ak_field.specs.Fields.{header_at, length_at, number_at, shard_at, flag_at, process_at, unique_at, ballot_at, entity_at};
ghost use Rattle.ak_field.specs.Lists.{version_at, reports_at, IsShort, AreReports};
ghost use Rattle.ak_field.specs.Parts.{parts_at, parts, AreSpelled};
ghost use Rattle.ak_field.specs.Laws.{IsField, IsPrefixFree};

/// What is spelled of a field is read again, and the bytes after it are left; and what is read was spelled so, and is in its
/// range. So bytes begin with a value's spelling or have a first fault, and never both.
pub fn fields_are_their_spellings()
    ensures headers { IsField header_at header IsHeader }
    ensures lengths { (least most : ℕ) → most < 2 ^ 8 → IsField (length_at least most) byte (λ n. (least ≤ n) × (n ≤ most)) }
    ensures numbers { (least most : ℕ) → most < 2 ^ 64 → IsField (number_at least most) eight_bytes (λ n. (least ≤ n) × (n ≤ most)) }
    ensures shards { IsField shard_at shard IsShard }
    ensures flags { IsField flag_at flag (λ _. Unit {0}) }
    ensures receivers { (least most : ℕ) → most < 2 ^ 64 → IsField (process_at least most) process (IsProcess least most) }
    ensures uniques { IsField unique_at process IsUnique }
    ensures ballots { IsField ballot_at ballot IsBallot }
    ensures entities { (version : ℕ) → IsField (entity_at version) entity (IsEntityIn version) }
    ensures versions { IsField version_at version IsShort }
    ensures reports { IsField reports_at reports AreReports }
    ensures parts { IsField parts_at parts AreSpelled }
{}

/// No spelling of a field begins that of another value, and a value has one spelling.
pub fn no_spelling_begins_another()
    ensures headers { IsPrefixFree header IsHeader }
    ensures numbers { IsPrefixFree eight_bytes (λ n. n < 2 ^ 64) }
    ensures shards { IsPrefixFree shard IsShard }
    ensures flags { IsPrefixFree flag (λ _. Unit {0}) }
    ensures receivers { IsPrefixFree process (IsProcess 0 (2 ^ 64 - 1)) }
    ensures ballots { IsPrefixFree ballot IsBallot }
    ensures entities { IsPrefixFree entity IsEntity }
    ensures versions { IsPrefixFree version IsShort }
    ensures reports { IsPrefixFree reports AreReports }
    ensures parts { IsPrefixFree parts AreSpelled }
{}
