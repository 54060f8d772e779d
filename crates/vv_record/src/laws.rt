//! Laws of spellings. Each is a function without arguments that does nothing: what it ensures is the law.
ghost use Rattle.std.specs.Prelude.{◌≡◌, ℕ, List, IsTrue, Ok};
ghost use Rattle.vv_fields.specs.Fields.{AreBytes};
ghost use Rattle.vv_record.specs.declared.record.Record.{Record};
ghost use Rattle.vv_record.specs.Records.{record_in};
ghost use Rattle.vv_record.specs.Spelling.{spelling, is_spellable};

/// A record that has a spelling is read from it.
pub fn a_spelled_record_is_read()
    ensures { (r : Record) → IsTrue (is_spellable r) → record_in (spelling r) ≡ Ok r }
{}

/// Bytes that are read as a record are its spelling, and it has one.
pub fn a_record_that_is_read_is_spelled_so()
    ensures { (bytes : List ℕ) → (r : Record) → AreBytes bytes → record_in bytes ≡ Ok r
        → (bytes ≡ spelling r) × IsTrue (is_spellable r) }
{}
