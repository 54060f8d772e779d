//! What an array forgets when it is opened again: the queues of its hosts, and the unit attentions that wait.
#![tactic(auto)]

#[cfg(test)]
mod tests;
mod waiting;

pub use waiting::Waiting;
