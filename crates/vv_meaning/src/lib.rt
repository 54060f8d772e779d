//! What each call of a line means over the whole array, and the steps of an array that may fail. `specs/` has the
//! definitions: what a call asks, its reply, the array after it, and the runs of the durable array. The functions here are
//! laws of them.
#![tactic(auto)]

mod meaning;
mod steps;
mod table;
mod tables;

pub use meaning::{
    a_call_keeps_an_array_well_formed, a_call_keeps_the_volatile_form,
    a_call_that_is_not_journaled_leaves_the_durable_part,
    a_call_without_a_command_leaves_all_unless_it_is_journaled, a_change_is_answered_by_the_shape,
    a_journaled_call_takes_the_next_log_number, arrays_of_one_shape_reply_alike_but_for_bytes,
    every_reply_of_a_well_formed_array_has_a_text, the_shape_after_a_call_is_known_from_the_shape,
};
pub use steps::{
    a_recovered_number_is_between_those_of_the_states, a_run_goes_on_by_one_line,
    a_run_keeps_states, a_step_keeps_arrays_well_formed, a_step_keeps_states,
    every_reply_of_a_step_has_a_text, log_numbers_never_fall,
};
pub use table::the_reply_to_a_restart;
pub use tables::{tables_are_asked_as_their_flat_array, tables_reply_as_their_flat_array};
