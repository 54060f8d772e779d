//! Logs that are replayed over tables.
ghost use Rattle.std.specs.Prelude.{◌≡◌, ◌+◌, ℕ, List, [], ◌∷◌, ◌++◌, length, Result, Ok, Err, IsTrue, if◌then◌else◌};
ghost use Rattle.vv_flat.specs.State.{Durable};
ghost use Rattle.vv_flat.specs.Chunks.{Entry};
ghost use Rattle.vv_flat.specs.WellFormed.{is_well_formed};
ghost use Rattle.vv_flat.specs.Logs.{LogRecord, Unfit, record_fits, after_record, replay_from, replay, records_have_forms};
ghost use Rattle.vv_laws.specs.Logs.{and_then, IsFirstUnfit};

/// Well-formed tables are so after a log whose records all fit, and whose fields have their forms.
pub fn replayed_tables_are_well_formed()
    ensures { (tables after : Durable Entry) → (records : List LogRecord) → IsTrue (is_well_formed tables)
        → IsTrue (records_have_forms records) → replay tables records ≡ Ok after → IsTrue (is_well_formed after) }
{}

/// Each record takes the next log number.
pub fn each_record_takes_a_log_number()
    ensures { (tables after : Durable Entry) → (records : List LogRecord) → replay tables records ≡ Ok after
        → after.lsn ≡ tables.lsn + length records }
{}

/// A log goes on from the tables and the number at which its front ended.
pub fn a_log_goes_on_where_its_front_ended()
    ensures { (at : ℕ) → (tables : Durable Entry) → (front rest : List LogRecord)
        → replay_from at tables (front ++ rest)
        ≡ and_then (replay_from at tables front) (λ t. replay_from (at + length front) t rest) }
{}

/// One more record at the end is one more step: it is done where it fits, and else it is the first that doesn't.
pub fn one_more_record_is_one_more_step()
    ensures { (tables : Durable Entry) → (records : List LogRecord) → (next : LogRecord)
        → replay tables (records ++ next ∷ [])
        ≡ and_then (replay tables records)
        (λ t. if record_fits t next then Ok (after_record t next) else Err (record { at = length records; lsn = t.lsn + 1 })) }
{}

/// A log that is refused stops at a record that doesn't fit the tables which all records ahead of it make, and says its
/// number and the log number that it would have.
pub fn a_log_stops_at_the_first_unfit_record()
    ensures { (tables : Durable Entry) → (records : List LogRecord) → (fault : Unfit) → replay tables records ≡ Err fault
        → IsFirstUnfit tables records fault }
{}
