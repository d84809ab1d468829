ghost use Rattle.std.specs.Prelude.{◌≡◌};
ghost use Rattle.std.specs.FinMap as map;
ghost use Rattle.ak_address.specs.Table.{merged_at};
ghost use Rattle.ak_address.specs.Unique.{UniqueModel};
ghost use Rattle.ak_member.specs.View.{RowTable, later_row, merged_rows, RowsAgree};

/// Of each observer the merge has the later of two rows; at equal numbers the own one. The same rows twice are the
/// same, the grouping does not matter, and the order does not where rows of one number are one row.
pub fn rows_are_merged()
    ensures pointwise { (r s : RowTable) (o : UniqueModel) → map.get (merged_rows r s) o ≡ merged_at later_row (map.get r o) (map.get s o) }
    ensures idempotent { (r : RowTable) → merged_rows r r ≡ r }
    ensures associative { (r s t : RowTable) → merged_rows (merged_rows r s) t ≡ merged_rows r (merged_rows s t) }
    ensures commutative { (r s : RowTable) → RowsAgree r s → merged_rows r s ≡ merged_rows s r }
{}
