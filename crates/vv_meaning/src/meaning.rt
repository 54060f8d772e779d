//! What calls keep, and what their replies go by.
ghost use Rattle.std.specs.Prelude.{◌≡◌, ◌+◌, ℕ, List, IsTrue, IsFalse};
ghost use Rattle.vv_flat.specs.State.{Array};
ghost use Rattle.vv_flat.specs.Chunks.{ChunkValue, shape};
ghost use Rattle.vv_flat.specs.Profiles.{Capability};
ghost use Rattle.vv_flat.specs.Changes.{Change};
ghost use Rattle.vv_flat.specs.FlatForm.{is_well_formed_array};
ghost use Rattle.vv_flat.specs.Answers.{answer};
ghost use Rattle.vv_laws.specs.VolatileForm.{has_volatile_form};
ghost use Rattle.vv_calls.specs.declared.call.Call.{Call};
ghost use Rattle.vv_calls.specs.Formed.{IsFormed};
ghost use Rattle.vv_reply.specs.Replies.{FitsReply};
ghost use Rattle.vv_meaning.specs.Forms.{call_has_forms, is_command_call};
ghost use Rattle.vv_meaning.specs.Meaning.{array_shape, blocks_at, verdict_on, reply, next, next_shape};
ghost use Rattle.vv_meaning.specs.Steps.{is_journaled};

/// A change of a flat array is answered as its shape says.
pub fn a_change_is_answered_by_the_shape()
    ensures { (capabilities : List Capability) → (a : Array ChunkValue) → (change : Change)
        → answer capabilities a change ≡ verdict_on capabilities (shape a.durable) change }
{}

/// The shape after a call, with queues and attentions, is known from those before it and from the blocks that the call
/// compares.
pub fn the_shape_after_a_call_is_known_from_the_shape()
    ensures { (capabilities : List Capability) → (a : Array ChunkValue) → (c : Call)
        → array_shape (next capabilities a c) ≡ next_shape (blocks_at a.durable) capabilities (array_shape a) c }
{}

/// Two arrays of one shape, with the same queues and attentions, reply alike where the same bytes are read.
pub fn arrays_of_one_shape_reply_alike_but_for_bytes()
    ensures { (capabilities : List Capability) → (a b : Array ChunkValue) → (c : Call) → array_shape a ≡ array_shape b
        → ((volume first blocks : ℕ) → blocks_at a.durable volume first blocks ≡ blocks_at b.durable volume first blocks)
        → reply capabilities a c ≡ reply capabilities b c }
{}

/// A call that is formed keeps the form of queues and attentions.
pub fn a_call_keeps_the_volatile_form()
    ensures { (capabilities : List Capability) → (a : Array ChunkValue) → (c : Call) → IsFormed c → IsTrue (has_volatile_form a)
        → IsTrue (has_volatile_form (next capabilities a c)) }
{}

/// A call whose fields have their forms keeps a flat array well-formed.
pub fn a_call_keeps_an_array_well_formed()
    ensures { (capabilities : List Capability) → (a : Array ChunkValue) → (c : Call) → IsTrue (call_has_forms c)
        → IsTrue (is_well_formed_array a.durable) → IsTrue (is_well_formed_array (next capabilities a c).durable) }
{}

/// A call that is journaled takes the next log number,
pub fn a_journaled_call_takes_the_next_log_number()
    ensures { (capabilities : List Capability) → (a : Array ChunkValue) → (c : Call) → IsTrue (is_journaled capabilities a c)
        → (next capabilities a c).durable.lsn ≡ a.durable.lsn + 1 }
{}

/// any other leaves what is durable as it was,
pub fn a_call_that_is_not_journaled_leaves_the_durable_part()
    ensures { (capabilities : List Capability) → (a : Array ChunkValue) → (c : Call) → IsFalse (is_journaled capabilities a c)
        → (next capabilities a c).durable ≡ a.durable }
{}

/// and where it isn't about a command to a logical unit, queues and attentions too.
pub fn a_call_without_a_command_leaves_all_unless_it_is_journaled()
    ensures { (capabilities : List Capability) → (a : Array ChunkValue) → (c : Call) → IsFalse (is_command_call c)
        → IsFalse (is_journaled capabilities a c) → next capabilities a c ≡ a }
{}

/// Each reply of a well-formed array has a text: its identifiers have numbers that have texts, and its lists are short.
pub fn every_reply_of_a_well_formed_array_has_a_text()
    ensures { (capabilities : List Capability) → (a : Array ChunkValue) → (c : Call) → IsTrue (is_well_formed_array a.durable)
        → FitsReply (reply capabilities a c) }
{}
