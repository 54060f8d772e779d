//! The records of tasks, as one table that takes all its memory when it is made.
#![tactic(auto)]

mod fault;
mod row;
mod rows;
mod table;
mod task;
#[cfg(test)]
mod tests;

pub use fault::CancelFault;
pub use table::TaskTable;
pub use task::{Job, Task};
