//! Laws of fields. Each is a function without arguments that does nothing: what it ensures is the law.
ghost use Rattle.std.specs.Prelude.{◌≡◌, ◌↔◌, ◌+◌, ◌^◌, ◌<◌, ◌++◌, ℕ, List, length, take, drop, Some, None};
ghost use Rattle.vv_fields.specs.Fields.{AreBytes, be_bytes, taken_at, field_at};

/// The bytes of a number are as many as were asked for, and each is a byte.
pub fn a_number_has_its_length()
    ensures length { (n : ℕ) → (number : ℕ) → length (be_bytes n number) ≡ n }
    ensures bytes { (n : ℕ) → (number : ℕ) → AreBytes (be_bytes n number) }
{}

/// A number that fits n bytes is read where its n bytes were written, whatever stands around them.
pub fn a_written_number_is_read()
    ensures { (n : ℕ) → (number : ℕ) → (before after : List ℕ) → number < 256 ^ n
        → field_at n (before ++ be_bytes n number ++ after) (length before) ≡ Some number }
{}

/// A number that is read of n bytes fits them, and the bytes at the place are its bytes.
pub fn a_number_that_is_read_stands_there()
    ensures { (n : ℕ) → (at : ℕ) → (number : ℕ) → (bytes : List ℕ) → AreBytes bytes → field_at n bytes at ≡ Some number
        → (number < 256 ^ n) × (taken_at n bytes at ≡ Some (be_bytes n number)) }
{}

/// Bytes are taken where they were written, whatever stands around them.
pub fn written_bytes_are_taken()
    ensures { (before part after : List ℕ) → taken_at (length part) (before ++ part ++ after) (length before) ≡ Some part }
{}

/// Bytes that are taken are as many as were asked for, and stand at the place.
pub fn taken_bytes_stand_there()
    ensures { (n : ℕ) → (at : ℕ) → (bytes part : List ℕ) → taken_at n bytes at ≡ Some part
        → (length part ≡ n) × (bytes ≡ take at bytes ++ part ++ drop (at + n) bytes) }
{}

/// Nothing is taken, and nothing is read, exactly where too few bytes are left.
pub fn nothing_is_read_where_too_few_are_left()
    ensures taken { (n : ℕ) → (at : ℕ) → (bytes : List ℕ) → (taken_at n bytes at ≡ None) ↔ (length bytes < at + n) }
    ensures read { (n : ℕ) → (at : ℕ) → (bytes : List ℕ) → (field_at n bytes at ≡ None) ↔ (length bytes < at + n) }
{}
