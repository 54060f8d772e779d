//! Laws of the flat arrays for which images stand. Each is a function without arguments that does nothing: what it ensures
//! is the law.
ghost use Rattle.std.specs.Prelude.{◌≡◌, ℕ, List, map, Some, Ok, false, IsTrue};
ghost use Rattle.vv_fields.specs.Fields.{AreBytes};
ghost use Rattle.vv_flat.specs.State.{Durable, all_pieces, empty_volatile};
ghost use Rattle.vv_flat.specs.Chunks.{Entry, filled, placed_entries};
ghost use Rattle.vv_flat.specs.Changes.{new_stamp};
ghost use Rattle.vv_flat.specs.NamedPlaces.{is_named};
ghost use Rattle.vv_flat.specs.Flat.{flat_after, new_values};
ghost use Rattle.vv_flat.specs.WellFormed.{is_well_formed};
ghost use Rattle.vv_flat.specs.Logs.{record_fits};
ghost use Rattle.vv_record.specs.declared.record.Record.{Record};
ghost use Rattle.vv_record.specs.Records.{record_in};
ghost use Rattle.vv_journal.specs.Log.{Log, log_of, with_record};
ghost use Rattle.vv_event.specs.Events.{log_record, change_of, places_of};
ghost use Rattle.vv_image.specs.Opening.{opened, log_tables};
ghost use Rattle.vv_image.specs.Standing.{array_in, array_over, bytes_at_place, Stands};

/// The tables for which an image of bytes stands are well-formed.
pub fn the_tables_of_an_image_are_well_formed()
    ensures { (image : List ℕ) → (tables : Durable Entry) → AreBytes image → opened image ≡ Ok tables → IsTrue (is_well_formed tables) }
{}

/// An image that holds a log which stands for tables stands for their flat array.
pub fn an_image_stands_for_the_tables_of_its_log()
    ensures { (log : Log) → (image : List ℕ) → (tables : Durable Entry) → log_of image ≡ Some log → log_tables log ≡ Ok tables
        → Stands image (array_over image tables) }
{}

/// Images that hold one log and have the same bytes at all places that its tables name stand for one flat array.
pub fn images_of_one_log_and_content_stand_for_one_array()
    ensures { (log : Log) → (image other : List ℕ) → (tables : Durable Entry) → log_of image ≡ Some log → log_of other ≡ Some log
        → log_tables log ≡ Ok tables
        → ((place : ℕ) → IsTrue (is_named (all_pieces tables) place)
        → bytes_at_place tables.geometry image place ≡ bytes_at_place tables.geometry other place)
        → array_in image ≡ array_in other }
{}

/// An image that holds one record more, without the mark, which fits, with the bytes from before at all places that were
/// named, and a change's new chunks at the places of the record, stands for the flat array after that change.
pub fn a_record_more_does_what_its_change_does()
    ensures { (log : Log) → (payload image later bytes : List ℕ) → (r : Record) → (tables : Durable Entry) → log_tables log ≡ Ok tables
        → log_of later ≡ Some (with_record log payload) → record_in payload ≡ Ok r → r.first_after_open ≡ false
        → IsTrue (record_fits tables (log_record r))
        → ((place : ℕ) → IsTrue (is_named (all_pieces tables) place)
        → bytes_at_place tables.geometry later place ≡ bytes_at_place tables.geometry image place)
        → map (filled tables.geometry.chunk_blocks (bytes_at_place tables.geometry later))
        (placed_entries (places_of r.event) (new_stamp tables (change_of r.event)))
        ≡ new_values (array_over image tables).durable (change_of r.event) bytes
        → Stands later (record {
          durable = flat_after (array_over image tables).durable (change_of r.event) bytes;
          volatile = empty_volatile;
        }) }
{}
