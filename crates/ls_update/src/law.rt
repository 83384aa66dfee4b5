//! The laws of coded fields. Each function's contract is a law; its body is empty.
ghost use Rattle.std.specs.Prelude.{◌≡◌, ◌<◌, ◌^◌, ℕ, List, Option, length};
ghost use Rattle.ls_value.specs.declared.row.Value.{Value as FieldValue};
ghost use Rattle.ls_update.specs.declared.reading.ReadRefused.{ReadRefused as Fault};
ghost use Rattle.ls_update.specs.Fields.{spelled};
ghost use Rattle.ls_update.specs.Reading.{Reads, FirstFault, Writable, row_before, tokens_of};

/// The written spelling of a row is read as that row, and no other row is read from those bytes.
pub fn a_written_row_is_read()
    ensures read { (prev : Option (List FieldValue)) (row : List FieldValue) → Writable prev row
        → Reads (row_before (length row) prev) (tokens_of (spelled prev row)) row }
    ensures alone { (prev : Option (List FieldValue)) (row other : List FieldValue) → Writable prev row
        → Reads (row_before (length row) prev) (tokens_of (spelled prev row)) other → other ≡ row }
{}

/// Tokens say one row at most, a first fault stands only where they say none, and there is one first fault at most.
pub fn tokens_have_one_answer()
    ensures row { (prev row other : List FieldValue) (tokens : List (List ℕ)) → length prev < 2 ^ 64
        → Reads prev tokens row → Reads prev tokens other → other ≡ row }
    ensures either { (prev row : List FieldValue) (tokens : List (List ℕ)) (fault : Fault) → length prev < 2 ^ 64
        → Reads prev tokens row → FirstFault prev tokens fault → ⊥ }
    ensures fault { (prev : List FieldValue) (tokens : List (List ℕ)) (fault other : Fault) → length prev < 2 ^ 64
        → FirstFault prev tokens fault → FirstFault prev tokens other → other ≡ fault }
{}
