//! The form of queues and attentions: 64 queues of at most 32 commands, each of its own host, and attentions in rising
//! order, each at a bound address.
ghost use Rattle.std.specs.Prelude.{◌≤◌, ℕ, List, IsTrue, IsFalse};
ghost use Rattle.vv_units.specs.declared.geometry.Geometry.{Geometry};
ghost use Rattle.vv_flat.specs.State.{Address, QueuedCommand, Array, empty_array};
ghost use Rattle.vv_flat.specs.Chunks.{ChunkValue};
ghost use Rattle.vv_flat.specs.Volatile.{is_queue_full, queue_of, submitted, head_taken, without_attention};
ghost use Rattle.vv_flat.specs.Restart.{restarted, interrupted};
ghost use Rattle.vv_flat.specs.Profiles.{Capability};
ghost use Rattle.vv_flat.specs.Changes.{Change};
ghost use Rattle.vv_flat.specs.Flat.{array_after};
ghost use Rattle.vv_flat.specs.Answers.{next};
ghost use Rattle.vv_laws.specs.VolatileForm.{has_volatile_form};

/// The empty array has the form.
pub fn the_empty_array_has_the_volatile_form()
    ensures { (geometry : Geometry) → IsTrue (has_volatile_form (empty_array {X = ChunkValue} geometry)) }
{}

/// Each change keeps it, the growth of a volume and each kind of unbinding among them,
pub fn a_change_keeps_the_volatile_form()
    ensures { (a : Array ChunkValue) → (change : Change) → (bytes : List ℕ) → IsTrue (has_volatile_form a)
        → IsTrue (has_volatile_form (array_after a change bytes)) }
{}

/// so does a change that is asked for, accepted or not,
pub fn a_step_keeps_the_volatile_form()
    ensures { (capabilities : List Capability) → (a : Array ChunkValue) → (change : Change) → (bytes : List ℕ) → IsTrue (has_volatile_form a)
        → IsTrue (has_volatile_form (next capabilities a change bytes)) }
{}

/// a command that is submitted where its host's queue has room,
pub fn a_submitted_command_keeps_the_volatile_form()
    ensures { (a : Array ChunkValue) → (command : QueuedCommand) → 1 ≤ command.address.host
        → IsFalse (is_queue_full (queue_of a.volatile command.address.host)) → IsTrue (has_volatile_form a)
        → IsTrue (has_volatile_form (record a { volatile = submitted a.volatile command })) }
{}

/// a command that is taken off a queue to be served,
pub fn a_taken_command_keeps_the_volatile_form()
    ensures { (a : Array ChunkValue) → (host : ℕ) → 1 ≤ host → IsTrue (has_volatile_form a)
        → IsTrue (has_volatile_form (record a { volatile = head_taken a.volatile host })) }
{}

/// an attention that is cleared,
pub fn a_cleared_attention_keeps_the_volatile_form()
    ensures { (a : Array ChunkValue) → (address : Address) → IsTrue (has_volatile_form a)
        → IsTrue (has_volatile_form (record a { volatile = record a.volatile { attentions = without_attention a.volatile.attentions address } })) }
{}

/// a restart,
pub fn a_restarted_array_has_the_volatile_form()
    ensures { (a : Array ChunkValue) → IsTrue (has_volatile_form (restarted a)) }
{}

/// and an interruption.
pub fn an_interruption_keeps_the_volatile_form()
    ensures { (a : Array ChunkValue) → IsTrue (has_volatile_form a) → IsTrue (has_volatile_form (interrupted a)) }
{}
