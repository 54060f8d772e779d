//! The refusals of a cancelling.

/// Why a task is not cancelled.
#[derive(Clone, Copy, Debug, PartialEq, Eq)]
pub enum CancelFault {
    /// No task has the number.
    NotFound,
    /// The task doesn't run.
    NotCancellable,
}
