//! Laws of the spelling: what is read is spelled so, and what was written is read again.

ghost use Rattle.std.specs.Prelude.{◌≡◌, ℕ, List, None};
ghost use Rattle.tbl_kinds.specs.Fields.{AreBytes};
ghost use Rattle.tbl_kinds.specs.Headers.{Header};
ghost use Rattle.tbl_kinds.specs.Admitted.{Admitted, Admits};
ghost use Rattle.tbl_kinds.specs.TableFiles.{TableFile, IsTableFile, IsWritable, file_flaw, table_file, table_file_in};
ghost use Rattle.table_files.specs.Readings.{IsReadAs, AreAlike, TellTheSame};

/// Every table file of an admitted spacecraft and processor is read, and tells what it was made of.
pub fn table_files_are_read()
    ensures { (admit : Admitted) (bytes : List ℕ) (file : TableFile) → IsTableFile admit bytes file → IsReadAs admit file bytes }
{}

/// Nothing else is read as a table file.
pub fn what_is_read_is_a_table_file()
    ensures { (admit : Admitted) (bytes : List ℕ) → AreBytes bytes → file_flaw admit bytes ≡ None → IsTableFile admit bytes (table_file_in bytes) }
{}

/// A written table file is one under all lists that admit the identifiers of its header, and is read as what it was written
/// with.
pub fn written_files_are_read()
    ensures is_file { (admit : Admitted) (header : Header) (file : TableFile) → IsWritable header file → Admits admit header → IsTableFile admit (table_file header file) file }
    ensures accepted { (admit : Admitted) (header : Header) (file : TableFile) → IsWritable header file → Admits admit header → file_flaw admit (table_file header file) ≡ None }
    ensures same { (header : Header) (file : TableFile) → IsWritable header file → table_file_in (table_file header file) ≡ file }
{}

/// Whether a file is read, and which fault it has, depends on its length, its content type, its subtype, its spacecraft and
/// processor, and the number of image bytes that it states, and on nothing else; not on the spacecraft where its list is
/// empty, and not on the processor where its is. What it tells depends on its offset, on the name that its name field reads as, and on its
/// image bytes.
pub fn nothing_else_is_looked_at()
    ensures flaw { (admit : Admitted) (a b : List ℕ) → AreAlike admit a b → file_flaw admit a ≡ file_flaw admit b }
    ensures file { (a b : List ℕ) → TellTheSame a b → table_file_in a ≡ table_file_in b }
{}
