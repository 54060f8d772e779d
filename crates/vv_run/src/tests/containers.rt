//! Containers: quotas, profiles, and a map that is full.
use crate::tests::is_played;
use std::test::Fail;

/// A quota is asked for new chunks.
const A_QUOTA: &str = r#"$ new d.img 16 2048 256
> {"call":"createStorageContainer","capabilities":[],"quota":2}
< {"container":"rfc4122.00000000-0001-8000-8000-000000000001","ok":true}
> {"call":"createVirtualVolume","container":"rfc4122.00000000-0001-8000-8000-000000000001","sizeInMB":4,"vvolType":"Data"}
< {"ok":true,"vvol":"rfc4122.00000000-0001-8000-8000-000000000002"}
> {"call":"bindVirtualVolume","host":1,"vvol":"rfc4122.00000000-0001-8000-8000-000000000002"}
< {"endpoint":1,"ok":true,"secondary":1}
> {"call":"scsi","cdb":"2a000000000000000100","data":[["11",512]],"endpoint":1,"host":1,"secondary":1}
< {"data":[],"ok":true,"status":"00"}
> {"call":"scsi","cdb":"2a000000080000000100","data":[["11",512]],"endpoint":1,"host":1,"secondary":1}
< {"data":[],"ok":true,"status":"00"}
> {"call":"scsi","cdb":"2a000000100000000100","data":[["11",512]],"endpoint":1,"host":1,"secondary":1}
< {"asked":1,"charged":2,"fault":"OverQuota","ok":false,"quota":2,"sense":"700007000000000a00000000270700000000","status":"02"}
> {"call":"scsi","cdb":"2a000000000000000100","data":[["22",512]],"endpoint":1,"host":1,"secondary":1}
< {"data":[],"ok":true,"status":"00"}
> {"call":"snapshotVirtualVolume","vvol":"rfc4122.00000000-0001-8000-8000-000000000002"}
< {"asked":2,"charged":2,"fault":"OverQuota","ok":false,"quota":2}
"#;

/// A profile is held against what a container offers.
const PROFILES: &str = r#"$ new d.img 16 2048 256
> {"call":"createStorageContainer","capabilities":[["min-iops",1000],["features",9223372036854775808]],"quota":9}
< {"container":"rfc4122.00000000-0001-8000-8000-000000000001","ok":true}
> {"call":"createVirtualVolume","container":"rfc4122.00000000-0001-8000-8000-000000000001","profile":[["min-iops",500],["colour",1]],"sizeInMB":1,"vvolType":"Data"}
< {"at":1,"fault":"InvalidProfile","ok":false,"why":"Unknown"}
> {"call":"createVirtualVolume","container":"rfc4122.00000000-0001-8000-8000-000000000001","profile":[["features",63]],"sizeInMB":1,"vvolType":"Data"}
< {"ok":true,"vvol":"rfc4122.00000000-0001-8000-8000-000000000002"}
> {"call":"createVirtualVolume","container":"rfc4122.00000000-0001-8000-8000-000000000001","profile":[["features",62]],"sizeInMB":1,"vvolType":"Data"}
< {"at":0,"fault":"InvalidProfile","ok":false,"why":"TooLittle"}
> {"call":"createVirtualVolume","container":"rfc4122.00000000-0001-8000-8000-000000000001","profile":[["max-latency-us",5]],"sizeInMB":1,"vvolType":"Data"}
< {"at":0,"fault":"InvalidProfile","ok":false,"why":"NotOffered"}
"#;

/// A volume that finds no room in the map.
const A_FULL_MAP: &str = r#"$ new d.img 16 2048 256
> {"call":"createVirtualVolume","sizeInMB":256,"vvolType":"Data"}
< {"ok":true,"vvol":"rfc4122.00000000-0001-8000-8000-000000000001"}
> {"call":"createVirtualVolume","sizeInMB":1,"vvolType":"Data"}
< {"asked":1,"entries":256,"fault":"MapFull","limit":256,"ok":false}
"#;

/// A day of three hosts: a container with a profile, bindings, writes, snapshots, and copies of differences.
const A_DAY: &str = r#"$ new day.img 64 2048 512
> {"call":"createStorageContainer","capabilities":[["min-iops",1000]],"quota":48}
< {"container":"rfc4122.00000000-0001-8000-8000-000000000001","ok":true}
> {"call":"createVirtualVolume","container":"rfc4122.00000000-0001-8000-8000-000000000001","sizeInMB":4,"vvolType":"Config"}
< {"ok":true,"vvol":"rfc4122.00000000-0001-8000-8000-000000000002"}
> {"call":"createVirtualVolume","container":"rfc4122.00000000-0001-8000-8000-000000000001","sizeInMB":4,"vvolType":"Swap"}
< {"ok":true,"vvol":"rfc4122.00000000-0001-8000-8000-000000000003"}
> {"call":"createVirtualVolume","container":"rfc4122.00000000-0001-8000-8000-000000000001","profile":[["min-iops",500]],"sizeInMB":40,"vvolType":"Data"}
< {"ok":true,"vvol":"rfc4122.00000000-0001-8000-8000-000000000004"}
> {"call":"setPEContext","endpoints":[1],"host":1}
< {"ok":true}
> {"call":"setPEContext","endpoints":[1,2],"host":2}
< {"ok":true}
> {"call":"setPEContext","endpoints":[2],"host":3}
< {"ok":true}
> {"call":"bindVirtualVolume","host":1,"vvol":"rfc4122.00000000-0001-8000-8000-000000000002"}
< {"endpoint":1,"ok":true,"secondary":1}
> {"call":"bindVirtualVolume","host":1,"vvol":"rfc4122.00000000-0001-8000-8000-000000000004"}
< {"endpoint":1,"ok":true,"secondary":2}
> {"call":"bindVirtualVolume","host":2,"vvol":"rfc4122.00000000-0001-8000-8000-000000000003"}
< {"endpoint":1,"ok":true,"secondary":1}
> {"call":"bindVirtualVolume","host":3,"vvol":"rfc4122.00000000-0001-8000-8000-000000000004"}
< {"endpoint":2,"ok":true,"secondary":1}
> {"call":"scsi","cdb":"2a000000000000000100","data":[["61",512]],"endpoint":1,"host":1,"secondary":1}
< {"data":[],"ok":true,"status":"00"}
> {"call":"scsi","cdb":"2a000000000000080000","data":[["62",1048576]],"endpoint":1,"host":1,"secondary":2}
< {"data":[],"ok":true,"status":"00"}
> {"call":"scsi","cdb":"2a000000100000000100","data":[["63",512]],"endpoint":1,"host":1,"secondary":2}
< {"data":[],"ok":true,"status":"00"}
> {"call":"setMetadata","key":"VMW_VVolName","value":"vm1.vmdk","vvol":"rfc4122.00000000-0001-8000-8000-000000000004"}
< {"ok":true}
> {"call":"snapshotVirtualVolume","vvol":"rfc4122.00000000-0001-8000-8000-000000000004"}
< {"ok":true,"vvol":"rfc4122.00000000-0001-8000-8000-000000000010"}
> {"call":"scsi","cdb":"2a000000100000000100","data":[["64",512]],"endpoint":2,"host":3,"secondary":1}
< {"data":[],"ok":true,"status":"00"}
> {"base":"rfc4122.00000000-0001-8000-8000-000000000010","call":"unsharedChunksVirtualVolume","vvol":"rfc4122.00000000-0001-8000-8000-000000000004"}
< {"count":1,"ok":true}
> {"call":"createVirtualVolume","container":"rfc4122.00000000-0001-8000-8000-000000000001","sizeInMB":40,"vvolType":"Data"}
< {"ok":true,"vvol":"rfc4122.00000000-0001-8000-8000-000000000012"}
> {"base":"rfc4122.00000000-0001-8000-8000-000000000012","call":"copyDiffsToVirtualVolume","source":"rfc4122.00000000-0001-8000-8000-000000000010","target":"rfc4122.00000000-0001-8000-8000-000000000012"}
< {"ok":true,"task":19,"total":2}
> {"call":"turn","task":19}
< {"done":2,"ok":true,"state":"Success","task":19,"total":2}
> {"call":"snapshotVirtualVolume","vvol":"rfc4122.00000000-0001-8000-8000-000000000004"}
< {"ok":true,"vvol":"rfc4122.00000000-0001-8000-8000-000000000015"}
> {"base":"rfc4122.00000000-0001-8000-8000-000000000010","call":"copyDiffsToVirtualVolume","source":"rfc4122.00000000-0001-8000-8000-000000000015","target":"rfc4122.00000000-0001-8000-8000-000000000012"}
< {"ok":true,"task":22,"total":1}
> {"call":"turn","task":22}
< {"done":1,"ok":true,"state":"Success","task":22,"total":1}
> {"base":"rfc4122.00000000-0001-8000-8000-000000000015","call":"unsharedChunksVirtualVolume","vvol":"rfc4122.00000000-0001-8000-8000-000000000012"}
< {"count":0,"ok":true}
> {"call":"unbindAllVirtualVolumesFromHost","host":1}
< {"ok":true,"removed":2}
> {"call":"unbindAllVirtualVolumesFromHost","host":3}
< {"ok":true,"removed":1}
> {"call":"revertVirtualVolume","snapshot":"rfc4122.00000000-0001-8000-8000-000000000010","vvol":"rfc4122.00000000-0001-8000-8000-000000000004"}
< {"ok":true}
> {"call":"deleteVirtualVolume","vvol":"rfc4122.00000000-0001-8000-8000-000000000015"}
< {"ok":true}
> {"call":"queryPool"}
< {"chunks":64,"entries":128,"free":60,"ok":true,"reserved":0,"used":4}
> {"call":"queryStorageContainer","container":"rfc4122.00000000-0001-8000-8000-000000000001"}
< {"charged":7,"ok":true,"quota":48}
"#;

#[test]
fn containers_go_as_told(rt: HostRuntime) -> Result<(), Fail> {
    for scene in [A_QUOTA, PROFILES, A_FULL_MAP, A_DAY] {
        assert!(rt; is_played(rt.alloc(), scene)?);
    }
    Ok(())
}
