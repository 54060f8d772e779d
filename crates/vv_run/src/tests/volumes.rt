//! Volumes: their bytes, snapshots, clones, bits, sizes, and a pool that is full.
use crate::tests::is_played;
use std::test::Fail;

/// An empty script has no reply, and neither has one of an empty line.
const AN_EMPTY_SCRIPT: &str = r#"$ new d.img 16 2048 256
"#;

/// An empty line is passed over.
const AN_EMPTY_LINE: &str = r#"$ new d.img 16 2048 256
> 
"#;

/// A block is written and read, and another host has nothing at that address.
const A_BLOCK: &str = r#"$ new d.img 16 2048 256
> {"call":"createVirtualVolume","sizeInMB":4,"vvolType":"Data"}
< {"ok":true,"vvol":"rfc4122.00000000-0001-8000-8000-000000000001"}
> {"call":"bindVirtualVolume","host":1,"vvol":"rfc4122.00000000-0001-8000-8000-000000000001"}
< {"endpoint":1,"ok":true,"secondary":1}
> {"call":"scsi","cdb":"2a000000000700000100","data":[["5a",512]],"endpoint":1,"host":1,"secondary":1}
< {"data":[],"ok":true,"status":"00"}
> {"call":"scsi","cdb":"28000000000600000300","endpoint":1,"host":1,"secondary":1}
< {"data":[["00",512],["5a",512],["00",512]],"ok":true,"status":"00"}
> {"call":"scsi","cdb":"28000000000600000300","endpoint":1,"host":2,"secondary":1}
< {"ok":false,"sense":"700005000000000a00000000250000000000","status":"02"}
"#;

/// The last block is read, and none past it.
const THE_END: &str = r#"$ new d.img 16 2048 256
> {"call":"createVirtualVolume","sizeInMB":4,"vvolType":"Data"}
< {"ok":true,"vvol":"rfc4122.00000000-0001-8000-8000-000000000001"}
> {"call":"bindVirtualVolume","host":1,"vvol":"rfc4122.00000000-0001-8000-8000-000000000001"}
< {"endpoint":1,"ok":true,"secondary":1}
> {"call":"scsi","cdb":"280000001fff00000100","endpoint":1,"host":1,"secondary":1}
< {"data":[["00",512]],"ok":true,"status":"00"}
> {"call":"scsi","cdb":"280000001fff00000200","endpoint":1,"host":1,"secondary":1}
< {"ok":false,"sense":"700005000000000a00000000210000000000","status":"02"}
> {"call":"scsi","cdb":"28000000200000000000","endpoint":1,"host":1,"secondary":1}
< {"ok":false,"sense":"700005000000000a00000000210000000000","status":"02"}
"#;

/// A write of no block changes nothing and takes no number.
const NO_BLOCK: &str = r#"$ new d.img 16 2048 256
> {"call":"createVirtualVolume","sizeInMB":4,"vvolType":"Data"}
< {"ok":true,"vvol":"rfc4122.00000000-0001-8000-8000-000000000001"}
> {"call":"bindVirtualVolume","host":1,"vvol":"rfc4122.00000000-0001-8000-8000-000000000001"}
< {"endpoint":1,"ok":true,"secondary":1}
> {"call":"scsi","cdb":"2a000000000000000000","endpoint":1,"host":1,"secondary":1}
< {"data":[],"ok":true,"status":"00"}
> {"call":"queryPool"}
< {"chunks":16,"entries":4,"free":16,"ok":true,"reserved":0,"used":0}
> {"call":"createVirtualVolume","sizeInMB":4,"vvolType":"Data"}
< {"ok":true,"vvol":"rfc4122.00000000-0001-8000-8000-000000000003"}
"#;

/// A snapshot, the bits of what was written since, and a revert.
const A_SNAPSHOT: &str = r#"$ new d.img 16 2048 256
> {"call":"createVirtualVolume","sizeInMB":4,"vvolType":"Data"}
< {"ok":true,"vvol":"rfc4122.00000000-0001-8000-8000-000000000001"}
> {"call":"bindVirtualVolume","host":1,"vvol":"rfc4122.00000000-0001-8000-8000-000000000001"}
< {"endpoint":1,"ok":true,"secondary":1}
> {"call":"scsi","cdb":"2a000000080000000100","data":[["11",512]],"endpoint":1,"host":1,"secondary":1}
< {"data":[],"ok":true,"status":"00"}
> {"call":"scsi","cdb":"2a000000100000000100","data":[["22",512]],"endpoint":1,"host":1,"secondary":1}
< {"data":[],"ok":true,"status":"00"}
> {"call":"snapshotVirtualVolume","vvol":"rfc4122.00000000-0001-8000-8000-000000000001"}
< {"ok":true,"vvol":"rfc4122.00000000-0001-8000-8000-000000000005"}
> {"call":"scsi","cdb":"2a000000080000000100","data":[["33",512]],"endpoint":1,"host":1,"secondary":1}
< {"data":[],"ok":true,"status":"00"}
> {"base":"rfc4122.00000000-0001-8000-8000-000000000005","call":"unsharedBitmapVirtualVolume","vvol":"rfc4122.00000000-0001-8000-8000-000000000001"}
< {"bits":"0100","ok":true}
> {"call":"scsi","cdb":"2a000000100000000100","data":[["22",512]],"endpoint":1,"host":1,"secondary":1}
< {"data":[],"ok":true,"status":"00"}
> {"base":"rfc4122.00000000-0001-8000-8000-000000000005","call":"unsharedBitmapVirtualVolume","vvol":"rfc4122.00000000-0001-8000-8000-000000000001"}
< {"bits":"0110","ok":true}
> {"base":"rfc4122.00000000-0001-8000-8000-000000000005","call":"unsharedChunksVirtualVolume","vvol":"rfc4122.00000000-0001-8000-8000-000000000001"}
< {"count":2,"ok":true}
> {"call":"queryPool"}
< {"chunks":16,"entries":8,"free":12,"ok":true,"reserved":0,"used":4}
> {"base":"rfc4122.00000000-0001-8000-8000-000000000005","call":"unsharedBitmapVirtualVolume","count":2,"first":1,"vvol":"rfc4122.00000000-0001-8000-8000-000000000001"}
< {"bits":"11","ok":true}
> {"base":"rfc4122.00000000-0001-8000-8000-000000000005","call":"unsharedBitmapVirtualVolume","first":4,"vvol":"rfc4122.00000000-0001-8000-8000-000000000001"}
< {"bits":"","ok":true}
> {"base":"rfc4122.00000000-0001-8000-8000-000000000005","call":"unsharedBitmapVirtualVolume","first":5,"vvol":"rfc4122.00000000-0001-8000-8000-000000000001"}
< {"fault":"InvalidArgument","name":"first","ok":false}
> {"base":"rfc4122.00000000-0001-8000-8000-000000000005","call":"unsharedBitmapVirtualVolume","count":2,"first":3,"vvol":"rfc4122.00000000-0001-8000-8000-000000000001"}
< {"fault":"InvalidArgument","name":"count","ok":false}
> {"base":"rfc4122.00000000-0001-8000-8000-000000000001","call":"unsharedBitmapVirtualVolume","vvol":"rfc4122.00000000-0001-8000-8000-000000000001"}
< {"bits":"0000","ok":true}
> {"call":"revertVirtualVolume","snapshot":"rfc4122.00000000-0001-8000-8000-000000000005","vvol":"rfc4122.00000000-0001-8000-8000-000000000001"}
< {"fault":"ResourceInUse","name":"vvol","ok":false}
> {"call":"unbindVirtualVolume","endpoint":1,"host":1,"secondary":1}
< {"left":0,"ok":true}
> {"call":"revertVirtualVolume","snapshot":"rfc4122.00000000-0001-8000-8000-000000000005","vvol":"rfc4122.00000000-0001-8000-8000-000000000001"}
< {"ok":true}
> {"base":"rfc4122.00000000-0001-8000-8000-000000000005","call":"unsharedBitmapVirtualVolume","vvol":"rfc4122.00000000-0001-8000-8000-000000000001"}
< {"bits":"0000","ok":true}
> {"call":"queryPool"}
< {"chunks":16,"entries":8,"free":14,"ok":true,"reserved":0,"used":2}
> {"call":"bindVirtualVolume","host":1,"vvol":"rfc4122.00000000-0001-8000-8000-000000000001"}
< {"endpoint":1,"ok":true,"secondary":1}
> {"call":"scsi","cdb":"28000000080000000100","endpoint":1,"host":1,"secondary":1}
< {"data":[["11",512]],"ok":true,"status":"00"}
> {"call":"queryVirtualVolume","vvol":"rfc4122.00000000-0001-8000-8000-000000000001"}
< {"allocated":2,"chunks":4,"container":"rfc4122.00000000-0001-8000-8000-000000000000","kind":"Plain","metadata":[],"of":null,"ok":true,"profile":[],"reverted":9,"type":"Data"}
"#;

/// Ten snapshots of a pool that is full.
const TEN_SNAPSHOTS: &str = r#"$ new d.img 8 2048 256
> {"call":"createVirtualVolume","sizeInMB":8,"vvolType":"Data"}
< {"ok":true,"vvol":"rfc4122.00000000-0001-8000-8000-000000000001"}
> {"call":"bindVirtualVolume","host":1,"vvol":"rfc4122.00000000-0001-8000-8000-000000000001"}
< {"endpoint":1,"ok":true,"secondary":1}
> {"call":"scsi","cdb":"2a000000000000000100","data":[["11",512]],"endpoint":1,"host":1,"secondary":1}
< {"data":[],"ok":true,"status":"00"}
> {"call":"scsi","cdb":"2a000000080000000100","data":[["11",512]],"endpoint":1,"host":1,"secondary":1}
< {"data":[],"ok":true,"status":"00"}
> {"call":"scsi","cdb":"2a000000100000000100","data":[["11",512]],"endpoint":1,"host":1,"secondary":1}
< {"data":[],"ok":true,"status":"00"}
> {"call":"scsi","cdb":"2a000000180000000100","data":[["11",512]],"endpoint":1,"host":1,"secondary":1}
< {"data":[],"ok":true,"status":"00"}
> {"call":"scsi","cdb":"2a000000200000000100","data":[["11",512]],"endpoint":1,"host":1,"secondary":1}
< {"data":[],"ok":true,"status":"00"}
> {"call":"scsi","cdb":"2a000000280000000100","data":[["11",512]],"endpoint":1,"host":1,"secondary":1}
< {"data":[],"ok":true,"status":"00"}
> {"call":"scsi","cdb":"2a000000300000000100","data":[["11",512]],"endpoint":1,"host":1,"secondary":1}
< {"data":[],"ok":true,"status":"00"}
> {"call":"scsi","cdb":"2a000000380000000100","data":[["11",512]],"endpoint":1,"host":1,"secondary":1}
< {"data":[],"ok":true,"status":"00"}
> {"call":"queryPool"}
< {"chunks":8,"entries":8,"free":0,"ok":true,"reserved":0,"used":8}
> {"call":"snapshotVirtualVolume","vvol":"rfc4122.00000000-0001-8000-8000-000000000001"}
< {"ok":true,"vvol":"rfc4122.00000000-0001-8000-8000-00000000000b"}
> {"call":"queryPool"}
< {"chunks":8,"entries":16,"free":0,"ok":true,"reserved":0,"used":8}
> {"call":"snapshotVirtualVolume","vvol":"rfc4122.00000000-0001-8000-8000-000000000001"}
< {"ok":true,"vvol":"rfc4122.00000000-0001-8000-8000-00000000000c"}
> {"call":"queryPool"}
< {"chunks":8,"entries":24,"free":0,"ok":true,"reserved":0,"used":8}
> {"call":"snapshotVirtualVolume","vvol":"rfc4122.00000000-0001-8000-8000-000000000001"}
< {"ok":true,"vvol":"rfc4122.00000000-0001-8000-8000-00000000000d"}
> {"call":"queryPool"}
< {"chunks":8,"entries":32,"free":0,"ok":true,"reserved":0,"used":8}
> {"call":"snapshotVirtualVolume","vvol":"rfc4122.00000000-0001-8000-8000-000000000001"}
< {"ok":true,"vvol":"rfc4122.00000000-0001-8000-8000-00000000000e"}
> {"call":"queryPool"}
< {"chunks":8,"entries":40,"free":0,"ok":true,"reserved":0,"used":8}
> {"call":"snapshotVirtualVolume","vvol":"rfc4122.00000000-0001-8000-8000-000000000001"}
< {"ok":true,"vvol":"rfc4122.00000000-0001-8000-8000-00000000000f"}
> {"call":"queryPool"}
< {"chunks":8,"entries":48,"free":0,"ok":true,"reserved":0,"used":8}
> {"call":"snapshotVirtualVolume","vvol":"rfc4122.00000000-0001-8000-8000-000000000001"}
< {"ok":true,"vvol":"rfc4122.00000000-0001-8000-8000-000000000010"}
> {"call":"queryPool"}
< {"chunks":8,"entries":56,"free":0,"ok":true,"reserved":0,"used":8}
> {"call":"snapshotVirtualVolume","vvol":"rfc4122.00000000-0001-8000-8000-000000000001"}
< {"ok":true,"vvol":"rfc4122.00000000-0001-8000-8000-000000000011"}
> {"call":"queryPool"}
< {"chunks":8,"entries":64,"free":0,"ok":true,"reserved":0,"used":8}
> {"call":"snapshotVirtualVolume","vvol":"rfc4122.00000000-0001-8000-8000-000000000001"}
< {"ok":true,"vvol":"rfc4122.00000000-0001-8000-8000-000000000012"}
> {"call":"queryPool"}
< {"chunks":8,"entries":72,"free":0,"ok":true,"reserved":0,"used":8}
> {"call":"snapshotVirtualVolume","vvol":"rfc4122.00000000-0001-8000-8000-000000000001"}
< {"ok":true,"vvol":"rfc4122.00000000-0001-8000-8000-000000000013"}
> {"call":"queryPool"}
< {"chunks":8,"entries":80,"free":0,"ok":true,"reserved":0,"used":8}
> {"call":"snapshotVirtualVolume","vvol":"rfc4122.00000000-0001-8000-8000-000000000001"}
< {"ok":true,"vvol":"rfc4122.00000000-0001-8000-8000-000000000014"}
> {"call":"queryPool"}
< {"chunks":8,"entries":88,"free":0,"ok":true,"reserved":0,"used":8}
"#;

/// A write that finds no place.
const A_FULL_POOL: &str = r#"$ new d.img 2 2048 256
> {"call":"createVirtualVolume","sizeInMB":2,"vvolType":"Data"}
< {"ok":true,"vvol":"rfc4122.00000000-0001-8000-8000-000000000001"}
> {"call":"bindVirtualVolume","host":1,"vvol":"rfc4122.00000000-0001-8000-8000-000000000001"}
< {"endpoint":1,"ok":true,"secondary":1}
> {"call":"scsi","cdb":"2a000000000000000100","data":[["11",512]],"endpoint":1,"host":1,"secondary":1}
< {"data":[],"ok":true,"status":"00"}
> {"call":"scsi","cdb":"2a000000080000000100","data":[["11",512]],"endpoint":1,"host":1,"secondary":1}
< {"data":[],"ok":true,"status":"00"}
> {"call":"scsi","cdb":"2a000000000000000100","data":[["22",512]],"endpoint":1,"host":1,"secondary":1}
< {"asked":1,"fault":"PoolFull","free":0,"ok":false,"sense":"700007000000000a00000000270700000000","status":"02"}
> {"call":"scsi","cdb":"28000000000000000100","endpoint":1,"host":1,"secondary":1}
< {"data":[["11",512]],"ok":true,"status":"00"}
"#;

/// Two fast clones that are unmapped alike share what is left, and a part of a chunk isn't unmapped.
const UNMAPPED_CLONES: &str = r#"$ new d.img 16 2048 256
> {"call":"createVirtualVolume","sizeInMB":2,"vvolType":"Data"}
< {"ok":true,"vvol":"rfc4122.00000000-0001-8000-8000-000000000001"}
> {"call":"bindVirtualVolume","host":1,"vvol":"rfc4122.00000000-0001-8000-8000-000000000001"}
< {"endpoint":1,"ok":true,"secondary":1}
> {"call":"scsi","cdb":"2a000000000000000100","data":[["11",512]],"endpoint":1,"host":1,"secondary":1}
< {"data":[],"ok":true,"status":"00"}
> {"call":"scsi","cdb":"2a000000080000000100","data":[["22",512]],"endpoint":1,"host":1,"secondary":1}
< {"data":[],"ok":true,"status":"00"}
> {"call":"fastCloneVirtualVolume","vvol":"rfc4122.00000000-0001-8000-8000-000000000001"}
< {"ok":true,"vvol":"rfc4122.00000000-0001-8000-8000-000000000005"}
> {"call":"fastCloneVirtualVolume","vvol":"rfc4122.00000000-0001-8000-8000-000000000001"}
< {"ok":true,"vvol":"rfc4122.00000000-0001-8000-8000-000000000006"}
> {"call":"bindVirtualVolume","host":1,"vvol":"rfc4122.00000000-0001-8000-8000-000000000005"}
< {"endpoint":1,"ok":true,"secondary":2}
> {"call":"bindVirtualVolume","host":1,"vvol":"rfc4122.00000000-0001-8000-8000-000000000006"}
< {"endpoint":1,"ok":true,"secondary":3}
> {"call":"scsi","cdb":"42000000000000001800","data":[["00",1],["16",1],["00",1],["10",1],["00",14],["08",1],["00",5]],"endpoint":1,"host":1,"secondary":2}
< {"data":[],"ok":true,"status":"00"}
> {"call":"scsi","cdb":"42000000000000001800","data":[["00",1],["16",1],["00",1],["10",1],["00",14],["08",1],["00",5]],"endpoint":1,"host":1,"secondary":3}
< {"data":[],"ok":true,"status":"00"}
> {"base":"rfc4122.00000000-0001-8000-8000-000000000006","call":"unsharedBitmapVirtualVolume","vvol":"rfc4122.00000000-0001-8000-8000-000000000005"}
< {"bits":"00","ok":true}
> {"base":"rfc4122.00000000-0001-8000-8000-000000000001","call":"unsharedBitmapVirtualVolume","vvol":"rfc4122.00000000-0001-8000-8000-000000000005"}
< {"bits":"10","ok":true}
> {"call":"queryPool"}
< {"chunks":16,"entries":6,"free":14,"ok":true,"reserved":0,"used":2}
> {"call":"scsi","cdb":"42000000000000001800","data":[["00",1],["16",1],["00",1],["10",1],["00",10],["08",1],["00",3],["04",1],["00",5]],"endpoint":1,"host":1,"secondary":2}
< {"data":[],"ok":true,"status":"00"}
> {"call":"scsi","cdb":"28000000080000000100","endpoint":1,"host":1,"secondary":2}
< {"data":[["22",512]],"ok":true,"status":"00"}
> {"call":"createVirtualVolume","sizeInMB":1,"vvolType":"Data"}
< {"ok":true,"vvol":"rfc4122.00000000-0001-8000-8000-00000000000b"}
"#;

/// A volume grows under its host, which is told once.
const A_LARGER_VOLUME: &str = r#"$ new d.img 16 2048 256
> {"call":"createVirtualVolume","sizeInMB":4,"vvolType":"Data"}
< {"ok":true,"vvol":"rfc4122.00000000-0001-8000-8000-000000000001"}
> {"call":"bindVirtualVolume","host":1,"vvol":"rfc4122.00000000-0001-8000-8000-000000000001"}
< {"endpoint":1,"ok":true,"secondary":1}
> {"call":"snapshotVirtualVolume","vvol":"rfc4122.00000000-0001-8000-8000-000000000001"}
< {"ok":true,"vvol":"rfc4122.00000000-0001-8000-8000-000000000003"}
> {"call":"resizeVirtualVolume","sizeInMB":5,"vvol":"rfc4122.00000000-0001-8000-8000-000000000001"}
< {"ok":true}
> {"call":"scsi","cdb":"28000000000000000100","endpoint":1,"host":1,"secondary":1}
< {"ok":false,"sense":"700006000000000a000000002a0900000000","status":"02"}
> {"call":"scsi","cdb":"28000000000000000100","endpoint":1,"host":1,"secondary":1}
< {"data":[["00",512]],"ok":true,"status":"00"}
> {"call":"scsi","cdb":"2a000000200000000100","data":[["44",512]],"endpoint":1,"host":1,"secondary":1}
< {"data":[],"ok":true,"status":"00"}
> {"base":"rfc4122.00000000-0001-8000-8000-000000000003","call":"unsharedBitmapVirtualVolume","vvol":"rfc4122.00000000-0001-8000-8000-000000000001"}
< {"bits":"00001","ok":true}
> {"base":"rfc4122.00000000-0001-8000-8000-000000000001","call":"unsharedBitmapVirtualVolume","vvol":"rfc4122.00000000-0001-8000-8000-000000000003"}
< {"bits":"0000","ok":true}
> {"call":"resizeVirtualVolume","sizeInMB":4,"vvol":"rfc4122.00000000-0001-8000-8000-000000000001"}
< {"fault":"InvalidArgument","name":"sizeInMB","ok":false}
> {"call":"resizeVirtualVolume","sizeInMB":5,"vvol":"rfc4122.00000000-0001-8000-8000-000000000001"}
< {"ok":true}
> {"call":"scsi","cdb":"28000000000000000100","endpoint":1,"host":1,"secondary":1}
< {"data":[["00",512]],"ok":true,"status":"00"}
> {"call":"createVirtualVolume","sizeInMB":1,"vvolType":"Data"}
< {"ok":true,"vvol":"rfc4122.00000000-0001-8000-8000-000000000006"}
"#;

#[test]
fn volumes_go_as_told(rt: HostRuntime) -> Result<(), Fail> {
    for scene in [
        AN_EMPTY_SCRIPT,
        AN_EMPTY_LINE,
        A_BLOCK,
        THE_END,
        NO_BLOCK,
        A_SNAPSHOT,
        TEN_SNAPSHOTS,
        A_FULL_POOL,
        UNMAPPED_CLONES,
        A_LARGER_VOLUME,
    ] {
        assert!(rt; is_played(rt.alloc(), scene)?);
    }
    Ok(())
}
