//! Clones and copies of differences that run, turn by turn.
use crate::tests::is_played;
use std::test::Fail;

/// A clone is made in two turns, and is the volume at its start.
const A_CLONE: &str = r#"$ new d.img 64 8 1024
> {"call":"createVirtualVolume","sizeInMB":1,"vvolType":"Data"}
< {"ok":true,"vvol":"rfc4122.00000000-0001-8000-8000-000000000001"}
> {"call":"bindVirtualVolume","host":1,"vvol":"rfc4122.00000000-0001-8000-8000-000000000001"}
< {"endpoint":1,"ok":true,"secondary":1}
> {"call":"scsi","cdb":"2a00000000000000a000","data":[["11",81920]],"endpoint":1,"host":1,"secondary":1}
< {"data":[],"ok":true,"status":"00"}
> {"call":"cloneVirtualVolume","vvol":"rfc4122.00000000-0001-8000-8000-000000000001"}
< {"ok":true,"target":"rfc4122.00000000-0001-8000-8000-000000000004","task":4,"total":20}
> {"call":"turn","task":4}
< {"done":16,"ok":true,"state":"Running","task":4,"total":20}
> {"call":"scsi","cdb":"2a000000000000000800","data":[["22",4096]],"endpoint":1,"host":1,"secondary":1}
< {"data":[],"ok":true,"status":"00"}
> {"call":"unbindVirtualVolume","endpoint":1,"host":1,"secondary":1}
< {"left":0,"ok":true}
> {"call":"deleteVirtualVolume","vvol":"rfc4122.00000000-0001-8000-8000-000000000001"}
< {"ok":true}
> {"call":"turn","task":4}
< {"done":20,"ok":true,"state":"Success","task":4,"total":20}
> {"call":"queryPool"}
< {"chunks":64,"entries":256,"free":44,"ok":true,"reserved":0,"used":20}
> {"call":"bindVirtualVolume","host":1,"vvol":"rfc4122.00000000-0001-8000-8000-000000000004"}
< {"endpoint":1,"ok":true,"secondary":1}
> {"call":"scsi","cdb":"28000000000000000800","endpoint":1,"host":1,"secondary":1}
< {"data":[["11",4096]],"ok":true,"status":"00"}
> {"call":"turn","task":4}
< {"done":20,"ok":true,"state":"Success","task":4,"total":20}
> {"call":"createVirtualVolume","sizeInMB":1,"vvolType":"Data"}
< {"ok":true,"vvol":"rfc4122.00000000-0001-8000-8000-00000000000b"}
"#;

/// A clone goes on after a restart.
const A_CLONE_OVER_A_RESTART: &str = r#"$ new d.img 64 8 1024
> {"call":"createVirtualVolume","sizeInMB":1,"vvolType":"Data"}
< {"ok":true,"vvol":"rfc4122.00000000-0001-8000-8000-000000000001"}
> {"call":"bindVirtualVolume","host":1,"vvol":"rfc4122.00000000-0001-8000-8000-000000000001"}
< {"endpoint":1,"ok":true,"secondary":1}
> {"call":"scsi","cdb":"2a00000000000000a000","data":[["11",81920]],"endpoint":1,"host":1,"secondary":1}
< {"data":[],"ok":true,"status":"00"}
> {"call":"cloneVirtualVolume","vvol":"rfc4122.00000000-0001-8000-8000-000000000001"}
< {"ok":true,"target":"rfc4122.00000000-0001-8000-8000-000000000004","task":4,"total":20}
> {"call":"turn","task":4}
< {"done":16,"ok":true,"state":"Running","task":4,"total":20}
> {"call":"restart"}
< {"recovered":5}
< {"ok":true}
> {"call":"getTaskUpdate","task":4}
< {"done":16,"ok":true,"state":"Running","task":4,"total":20}
> {"call":"queryVirtualVolume","vvol":"rfc4122.00000000-0001-8000-8000-000000000004"}
< {"fault":"NotFound","name":"vvol","ok":false}
> {"call":"queryPool"}
< {"chunks":64,"entries":768,"free":24,"ok":true,"reserved":4,"used":36}
> {"call":"scsi","cdb":"2a000000000000000800","data":[["33",4096]],"endpoint":1,"host":1,"secondary":1}
< {"data":[],"ok":true,"status":"00"}
> {"call":"queryPool"}
< {"chunks":64,"entries":768,"free":23,"ok":true,"reserved":4,"used":37}
> {"call":"turn","task":4}
< {"done":20,"ok":true,"state":"Success","task":4,"total":20}
> {"call":"queryPool"}
< {"chunks":64,"entries":512,"free":24,"ok":true,"reserved":0,"used":40}
> {"call":"bindVirtualVolume","host":1,"vvol":"rfc4122.00000000-0001-8000-8000-000000000004"}
< {"endpoint":1,"ok":true,"secondary":2}
> {"call":"scsi","cdb":"28000000000000000800","endpoint":1,"host":1,"secondary":2}
< {"data":[["11",4096]],"ok":true,"status":"00"}
> {"call":"scsi","cdb":"28000000000000000800","endpoint":1,"host":1,"secondary":1}
< {"data":[["33",4096]],"ok":true,"status":"00"}
> {"call":"restart"}
< {"recovered":8}
< {"ok":true}
"#;

/// A copy of differences keeps its target, until it is cancelled.
const A_COPY_OF_DIFFERENCES: &str = r#"$ new d.img 16 2048 256
> {"call":"createVirtualVolume","sizeInMB":4,"vvolType":"Data"}
< {"ok":true,"vvol":"rfc4122.00000000-0001-8000-8000-000000000001"}
> {"call":"bindVirtualVolume","host":1,"vvol":"rfc4122.00000000-0001-8000-8000-000000000001"}
< {"endpoint":1,"ok":true,"secondary":1}
> {"call":"scsi","cdb":"2a000000080000000100","data":[["11",512]],"endpoint":1,"host":1,"secondary":1}
< {"data":[],"ok":true,"status":"00"}
> {"call":"snapshotVirtualVolume","vvol":"rfc4122.00000000-0001-8000-8000-000000000001"}
< {"ok":true,"vvol":"rfc4122.00000000-0001-8000-8000-000000000004"}
> {"call":"scsi","cdb":"2a000000080000000100","data":[["22",512]],"endpoint":1,"host":1,"secondary":1}
< {"data":[],"ok":true,"status":"00"}
> {"call":"snapshotVirtualVolume","vvol":"rfc4122.00000000-0001-8000-8000-000000000001"}
< {"ok":true,"vvol":"rfc4122.00000000-0001-8000-8000-000000000006"}
> {"call":"createVirtualVolume","sizeInMB":4,"vvolType":"Data"}
< {"ok":true,"vvol":"rfc4122.00000000-0001-8000-8000-000000000007"}
> {"base":"rfc4122.00000000-0001-8000-8000-000000000004","call":"copyDiffsToVirtualVolume","source":"rfc4122.00000000-0001-8000-8000-000000000006","target":"rfc4122.00000000-0001-8000-8000-000000000007"}
< {"ok":true,"task":8,"total":1}
> {"call":"bindVirtualVolume","host":1,"vvol":"rfc4122.00000000-0001-8000-8000-000000000007"}
< {"fault":"ResourceInUse","name":"vvol","ok":false}
> {"call":"cancelTask","task":8}
< {"done":0,"ok":true,"state":"Cancelled","task":8,"total":1}
> {"call":"bindVirtualVolume","host":1,"vvol":"rfc4122.00000000-0001-8000-8000-000000000007"}
< {"endpoint":1,"ok":true,"secondary":2}
> {"call":"cancelTask","task":8}
< {"fault":"NotCancellable","name":"task","ok":false}
> {"call":"allocatedBitmapVirtualVolume","vvol":"rfc4122.00000000-0001-8000-8000-000000000007"}
< {"bits":"0000","ok":true}
"#;

#[test]
fn tasks_go_as_told(rt: HostRuntime) -> Result<(), Fail> {
    for scene in [A_CLONE, A_CLONE_OVER_A_RESTART, A_COPY_OF_DIFFERENCES] {
        assert!(rt; is_played(rt.alloc(), scene)?);
    }
    Ok(())
}
