//! What tables are asked, and what they reply.
ghost use Rattle.std.specs.Prelude.{◌≡◌, ℕ, List};
ghost use Rattle.vv_flat.specs.State.{Durable, Volatile};
ghost use Rattle.vv_flat.specs.Chunks.{Entry, filled_tables, shape_of_tables};
ghost use Rattle.vv_flat.specs.Profiles.{Capability};
ghost use Rattle.vv_calls.specs.declared.call.Call.{Call};
ghost use Rattle.vv_meaning.specs.Calls.{asked};
ghost use Rattle.vv_meaning.specs.Meaning.{array_shape, blocks_at, reply, reply_over};

/// A call asks of tables what it asks of the flat array for which they stand, whatever bytes the pool has,
pub fn tables_are_asked_as_their_flat_array()
    ensures { (bytes_at : ℕ → List ℕ) → (tables : Durable Entry) → (volatile : Volatile) → (c : Call)
        → asked (array_shape (record { durable = filled_tables bytes_at tables; volatile = volatile })) c
        ≡ asked (record { durable = shape_of_tables tables; volatile = volatile }) c }
{}

/// and the flat array's reply is that over the tables' shape, with the blocks that the flat array has.
pub fn tables_reply_as_their_flat_array()
    ensures { (capabilities : List Capability) → (bytes_at : ℕ → List ℕ) → (tables : Durable Entry) → (volatile : Volatile) → (c : Call)
        → reply capabilities (record { durable = filled_tables bytes_at tables; volatile = volatile }) c
        ≡ reply_over (blocks_at (filled_tables bytes_at tables)) capabilities (record { durable = shape_of_tables tables; volatile = volatile }) c }
{}
