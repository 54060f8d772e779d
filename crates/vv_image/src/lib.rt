//! What an image of a disk stands for: the flat array of its log's tables, with the bytes of its chunks. `specs/` has the
//! definitions; the functions here are laws of them. Nothing here runs.
#![tactic(auto)]

mod arrays;
mod images;

pub use arrays::{
    a_record_more_does_what_its_change_does, an_image_stands_for_the_tables_of_its_log,
    images_of_one_log_and_content_stand_for_one_array, the_tables_of_an_image_are_well_formed,
};
pub use images::{
    a_fresh_log_stands_for_the_empty_tables, a_new_area_stands_for_its_tables,
    an_image_is_opened_by_its_log, an_image_that_is_opened_holds_a_log,
    one_more_record_is_one_more_step,
};
