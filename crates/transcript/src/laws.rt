ghost use Rattle.std.specs.Prelude.{◌≢◌, ℕ, List, ◌++◌};
ghost use Rattle.tbl_kinds.specs.Transcript.{EntryFields, IsEntry, entry_spelling, end_bytes};

/// No bytes begin with an entry and with an end record.
pub fn an_end_is_no_entry()
    ensures { (fields : EntryFields) (status count offset : ℕ) (more others : List ℕ) → IsEntry fields
        → entry_spelling fields ++ more ≢ end_bytes status count offset ++ others }
{}
