//! Laws of the whole array's definitions that the crates above rest on: what is kept, step by step and over whole runs.
//! Each is a function without arguments that does nothing: what it ensures is the law.
#![tactic(auto)]

mod answers;
mod arrays;
mod contents;
mod counts;
mod logs;
mod plans;
mod units;
mod volatile;
mod volumes;
mod well_formed;

pub use answers::{
    a_misfit_only_refuses_more, a_step_keeps_the_shape_well_formed,
    arrays_of_one_shape_get_one_answer, tables_are_answered_as_their_flat_array,
};
pub use arrays::{
    a_new_stamp_stands_nowhere_at_its_index, a_run_keeps_an_array_well_formed,
    an_accepted_change_keeps_an_array_well_formed, an_accepted_write_is_inside_its_volume,
    stamps_stay_given, the_chunks_of_a_volume_are_whole, the_empty_array_is_well_formed,
};
pub use contents::{
    a_record_does_its_call_in_another_content, filled_tables_have_the_shape_of_the_tables,
    only_named_places_count, well_formed_tables_stand_for_a_well_formed_array,
};
pub use counts::{
    a_place_is_named_where_its_count_is_not_0, a_turn_copies_few_chunks,
    a_turn_copies_the_least_of_16_and_what_is_left, a_write_touches_few_chunks,
    allocated_chunks_go_by_the_change, charges_go_by_the_change, entries_go_by_the_change,
    names_of_places_go_by_the_record, reserved_chunks_go_by_the_change,
    used_places_go_by_the_record,
};
pub use logs::{
    a_log_goes_on_where_its_front_ended, a_log_stops_at_the_first_unfit_record,
    each_record_takes_a_log_number, one_more_record_is_one_more_step,
    replayed_tables_are_well_formed,
};
pub use plans::{
    a_place_is_used_or_fresh, an_accepted_change_finds_its_places, what_is_planned_fits,
};
pub use units::{
    a_bound_volume_stands_and_is_not_busy,
    a_write_that_a_unit_lets_through_passes_the_checks_of_state,
    an_unmap_that_a_unit_lets_through_passes_the_checks_of_state,
};
pub use volatile::{
    a_change_keeps_the_volatile_form, a_cleared_attention_keeps_the_volatile_form,
    a_restarted_array_has_the_volatile_form, a_step_keeps_the_volatile_form,
    a_submitted_command_keeps_the_volatile_form, a_taken_command_keeps_the_volatile_form,
    an_interruption_keeps_the_volatile_form, the_empty_array_has_the_volatile_form,
};
pub use volumes::{
    a_read_joins_parts_of_chunks, a_write_leaves_all_other_volumes,
    a_write_replaces_parts_of_chunks, a_write_writes_its_volume,
    a_written_volume_has_the_new_bytes_at_their_place,
};
pub use well_formed::{
    a_record_keeps_tables_well_formed, a_well_formed_shape_stays,
    an_interrupted_shape_is_well_formed, interrupted_tables_are_well_formed,
    the_empty_tables_are_well_formed, well_formed_tables_have_that_shape_and_share,
};
