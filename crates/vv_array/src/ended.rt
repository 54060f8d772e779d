//! How a call of an array that is up ends.

use vv_reply::Reply;

/// How a call of an array that is up ended, with what it is answered.
#[derive(Drop)]
pub(crate) enum Ended {
    /// It was served.
    Replied(Reply),
    /// A read failed. The array is up as it was.
    ReadFailed(Reply),
    /// A write failed. The array is to be opened again, before the next call.
    WriteFailed(Reply),
    /// There was no memory. The array is up as it was, and nothing was written.
    NoMemory,
}
