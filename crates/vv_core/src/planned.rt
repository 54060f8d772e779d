//! What a call is planned to do.

use vv_record::Event;
use vv_reply::Reply;
use vv_units::{TaskId, VolumeId};

/// The bytes that fill the new chunks of a change.
#[derive(Clone, Copy, Debug, PartialEq, Eq)]
pub enum Fill {
    /// There is no new chunk.
    Nothing,
    /// Those that came with the command: of a comparing write its second half.
    Bytes,
    /// One block, which came with the command, as often as there are blocks.
    Same,
    /// Those of the image of a clone.
    Image { task: TaskId },
}

/// What a call is planned to do.
#[derive(Drop)]
pub enum Planned {
    /// It is answered with this.
    Answer(Reply),
    /// So many blocks of a volume are read, from the first on, and are the data of the reply.
    Read {
        volume: VolumeId,
        first: u64,
        blocks: u32,
    },
    /// An event is journaled. Where `compare` is true, the first half of the bytes that came with the command is compared
    /// first with what stands. The reply is that where no device fault and no miscompare comes.
    Journal {
        event: Event,
        fill: Fill,
        compare: bool,
        reply: Reply,
    },
}
