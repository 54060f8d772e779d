//! The records of a journal as the definitions of the whole array see them: changes, with the places of their new chunks.
//! `specs/` has the definitions; the function here is a law of them. Nothing here runs.
#![tactic(auto)]

mod laws;

pub use laws::an_event_is_told_by_its_change_and_places;
