//! What keeps tables and shapes well-formed.
ghost use Rattle.std.specs.Prelude.{◌≡◌, ◌&&◌, ℕ, List, Option, IsTrue};
ghost use Rattle.vv_units.specs.declared.geometry.Geometry.{Geometry};
ghost use Rattle.vv_flat.specs.State.{Durable, empty_durable};
ghost use Rattle.vv_flat.specs.Chunks.{Entry, shape_of_tables};
ghost use Rattle.vv_flat.specs.Restart.{interrupted_durable};
ghost use Rattle.vv_flat.specs.Profiles.{Misfit};
ghost use Rattle.vv_flat.specs.Refusals.{Accept};
ghost use Rattle.vv_flat.specs.Sharing.{shares};
ghost use Rattle.vv_flat.specs.Changes.{Change, judge, apply_shape};
ghost use Rattle.vv_flat.specs.Replay.{fits, replayed};
ghost use Rattle.vv_flat.specs.Fields.{change_has_forms};
ghost use Rattle.vv_flat.specs.WellFormed.{is_well_formed, is_well_formed_shape};

/// Tables are well-formed exactly where their shape is and they share places rightly.
pub fn well_formed_tables_have_that_shape_and_share()
    ensures { (tables : Durable Entry) → is_well_formed tables ≡ (is_well_formed_shape (shape_of_tables tables) && shares tables) }
{}

/// An accepted change whose fields have their forms keeps a shape well-formed.
pub fn a_well_formed_shape_stays()
    ensures { (misfit : Option Misfit) → (d : Durable ℕ) → (change : Change) → IsTrue (is_well_formed_shape d)
        → IsTrue (change_has_forms change) → judge misfit d change ≡ Accept → IsTrue (is_well_formed_shape (apply_shape d change)) }
{}

/// A record that fits, whose fields have their forms, keeps tables well-formed.
pub fn a_record_keeps_tables_well_formed()
    ensures { (tables : Durable Entry) → (change : Change) → (places : List ℕ) → IsTrue (is_well_formed tables)
        → IsTrue (change_has_forms change) → IsTrue (fits tables change places) → IsTrue (is_well_formed (replayed tables change places)) }
{}

/// So does an interruption,
pub fn interrupted_tables_are_well_formed()
    ensures { (tables : Durable Entry) → IsTrue (is_well_formed tables) → IsTrue (is_well_formed (interrupted_durable tables)) }
{}

/// of a shape too.
pub fn an_interrupted_shape_is_well_formed()
    ensures { (d : Durable ℕ) → IsTrue (is_well_formed_shape d) → IsTrue (is_well_formed_shape (interrupted_durable d)) }
{}

/// The tables of an empty array are well-formed.
pub fn the_empty_tables_are_well_formed()
    ensures { (geometry : Geometry) → IsTrue (is_well_formed (empty_durable {X = Entry} geometry)) }
{}
