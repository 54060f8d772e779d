//! What a volume is beside its chunks.

use vv_units::{ContainerId, NeedList, PairList, VolumeKind, VvolType};

/// The head of a volume. `reverted` is the log number of its last revert, or 0.
#[derive(Drop)]
pub struct Head {
    pub container: ContainerId,
    pub vtype: VvolType,
    pub kind: VolumeKind,
    pub reverted: u64,
    pub needs: NeedList,
    pub metadata: PairList,
}
