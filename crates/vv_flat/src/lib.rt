//! What an array is, and what changes it. `specs/` defines the flat array, in which no volume shares anything, and the
//! tables that stand for it; the functions here are the laws of those definitions.
#![tactic(auto)]

mod laws;

pub use laws::{
    a_change_takes_the_next_number, a_record_does_what_its_call_does, a_record_goes_by_the_shape,
    a_record_keeps_all_rules, a_record_keeps_the_sharing, a_restart_is_done_once,
    a_step_goes_by_the_shape, an_interruption_is_done_once, an_interruption_keeps_all_rules,
    arrays_of_one_shape_are_answered_alike, arrays_of_one_shape_keep_one_shape,
    changes_go_with_the_chunks, charges_stay_within_quotas, chunks_stay_within_the_pool,
    entries_stay_within_the_map, filled_tables_go_as_the_flat_array, nothing_leaves_all_as_it_is,
    shared_entries_have_the_same_bytes, shared_entries_use_what_they_name,
    tables_use_what_they_name, the_empty_tables_meet_all_rules, the_rules_of_the_shape_stay,
    the_shape_goes_its_own_way,
};
