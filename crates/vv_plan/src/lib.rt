//! What a call asks of an array, over its tables in memory, and the reply where it is answered at once.
#![tactic(auto)]

mod accepted;
mod asks;
mod bitmaps;
mod commands;
mod events;
mod laws;
mod queries;
mod queues;
mod replies;
#[cfg(test)]
mod tests;
mod units;

pub use accepted::{
    bound_at, clone_started, container_made, copy_started, done, left_at, removed_of,
    task_cancelled, task_turned, volume_made,
};
pub use asks::CommandAsk;
pub use bitmaps::{allocated_bitmap, unshared_bitmap, unshared_chunks};
pub use commands::commanded;
pub use events::event_for;
pub use laws::{
    a_plain_change_is_asked_for_with_its_replies, an_answer_is_all_that_its_call_asks_for,
};
pub use queries::{query_container, query_pool, query_volume, task_now};
pub use queues::{Submission, queue_head, queued, served};
pub use replies::{accepted_reply, answered_reply, nothing_reply};
pub use units::unit_at;
