//! Laws of images and of the logs that they hold. Each is a function without arguments that does nothing: what it ensures
//! is the law.
ghost use Rattle.std.specs.Prelude.{◌≡◌, [], ℕ, List, Some, Ok, IsTrue};
ghost use Rattle.vv_units.specs.declared.geometry.Geometry.{Geometry};
ghost use Rattle.vv_flat.specs.State.{Durable, empty_durable};
ghost use Rattle.vv_flat.specs.Chunks.{Entry};
ghost use Rattle.vv_flat.specs.WellFormed.{is_well_formed};
ghost use Rattle.vv_flat.specs.Logs.{record_fits, after_record};
ghost use Rattle.vv_record.specs.declared.record.Record.{Record};
ghost use Rattle.vv_record.specs.Records.{record_in};
ghost use Rattle.vv_area.specs.Spelling.{area_spelling};
ghost use Rattle.vv_journal.specs.Log.{Log, log_of, with_record, fresh_log};
ghost use Rattle.vv_event.specs.Events.{log_record};
ghost use Rattle.vv_image.specs.Opening.{opened, log_tables};

/// An image that holds a log is opened by it: it stands for the tables of the log, or has its fault.
pub fn an_image_is_opened_by_its_log()
    ensures { (log : Log) → (image : List ℕ) → log_of image ≡ Some log → opened image ≡ log_tables log }
{}

/// An image that is opened holds a log, which stands for the same tables.
pub fn an_image_that_is_opened_holds_a_log()
    ensures { (image : List ℕ) → (tables : Durable Entry) → opened image ≡ Ok tables
        → (log : Log) × (log_of image ≡ Some log) × (log_tables log ≡ Ok tables) }
{}

/// A log with one record more, which fits, stands for the tables after that record.
pub fn one_more_record_is_one_more_step()
    ensures { (log : Log) → (payload : List ℕ) → (r : Record) → (tables : Durable Entry) → log_tables log ≡ Ok tables
        → record_in payload ≡ Ok r → IsTrue (record_fits tables (log_record r))
        → log_tables (with_record log payload) ≡ Ok (after_record tables (log_record r)) }
{}

/// A log over an area that spells well-formed tables, without a record, stands for these tables.
pub fn a_new_area_stands_for_its_tables()
    ensures { (log : Log) → (tables : Durable Entry) → IsTrue (is_well_formed tables) → log.geometry ≡ tables.geometry
        → log.spelling ≡ 2 → log.area ≡ area_spelling 2 tables → log.records ≡ [] → log_tables log ≡ Ok tables }
{}

/// The log of a fresh image stands for the empty tables.
pub fn a_fresh_log_stands_for_the_empty_tables()
    ensures { (geometry : Geometry)
        → log_tables (fresh_log geometry (area_spelling 2 (empty_durable {X = Entry} geometry))) ≡ Ok (empty_durable {X = Entry} geometry) }
{}
