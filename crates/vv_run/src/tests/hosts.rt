//! Hosts: queues, bindings, and commands to volumes and endpoints.
use crate::tests::is_played;
use std::test::Fail;

/// A queued command is decided when it is served, and a full queue is told.
const A_QUEUE: &str = r#"$ new d.img 16 2048 256
> {"call":"createVirtualVolume","sizeInMB":4,"vvolType":"Data"}
< {"ok":true,"vvol":"rfc4122.00000000-0001-8000-8000-000000000001"}
> {"call":"bindVirtualVolume","host":1,"vvol":"rfc4122.00000000-0001-8000-8000-000000000001"}
< {"endpoint":1,"ok":true,"secondary":1}
> {"call":"submit","cdb":"2a000000000700000100","data":[["5a",512]],"endpoint":1,"host":1,"secondary":1}
< {"ok":true,"queued":1}
> {"call":"unbindVirtualVolume","endpoint":1,"host":1,"secondary":1}
< {"left":0,"ok":true}
> {"call":"serve","host":1}
< {"ok":false,"sense":"700005000000000a00000000250000000000","status":"02"}
> {"call":"serve","host":1}
< {"ok":true,"served":false}
> {"call":"submit","cdb":"000000000000","endpoint":1,"host":1,"secondary":1}
< {"ok":true,"queued":1}
> {"call":"submit","cdb":"000000000000","endpoint":1,"host":1,"secondary":1}
< {"ok":true,"queued":2}
> {"call":"submit","cdb":"000000000000","endpoint":1,"host":1,"secondary":1}
< {"ok":true,"queued":3}
> {"call":"submit","cdb":"000000000000","endpoint":1,"host":1,"secondary":1}
< {"ok":true,"queued":4}
> {"call":"submit","cdb":"000000000000","endpoint":1,"host":1,"secondary":1}
< {"ok":true,"queued":5}
> {"call":"submit","cdb":"000000000000","endpoint":1,"host":1,"secondary":1}
< {"ok":true,"queued":6}
> {"call":"submit","cdb":"000000000000","endpoint":1,"host":1,"secondary":1}
< {"ok":true,"queued":7}
> {"call":"submit","cdb":"000000000000","endpoint":1,"host":1,"secondary":1}
< {"ok":true,"queued":8}
> {"call":"submit","cdb":"000000000000","endpoint":1,"host":1,"secondary":1}
< {"ok":true,"queued":9}
> {"call":"submit","cdb":"000000000000","endpoint":1,"host":1,"secondary":1}
< {"ok":true,"queued":10}
> {"call":"submit","cdb":"000000000000","endpoint":1,"host":1,"secondary":1}
< {"ok":true,"queued":11}
> {"call":"submit","cdb":"000000000000","endpoint":1,"host":1,"secondary":1}
< {"ok":true,"queued":12}
> {"call":"submit","cdb":"000000000000","endpoint":1,"host":1,"secondary":1}
< {"ok":true,"queued":13}
> {"call":"submit","cdb":"000000000000","endpoint":1,"host":1,"secondary":1}
< {"ok":true,"queued":14}
> {"call":"submit","cdb":"000000000000","endpoint":1,"host":1,"secondary":1}
< {"ok":true,"queued":15}
> {"call":"submit","cdb":"000000000000","endpoint":1,"host":1,"secondary":1}
< {"ok":true,"queued":16}
> {"call":"submit","cdb":"000000000000","endpoint":1,"host":1,"secondary":1}
< {"ok":true,"queued":17}
> {"call":"submit","cdb":"000000000000","endpoint":1,"host":1,"secondary":1}
< {"ok":true,"queued":18}
> {"call":"submit","cdb":"000000000000","endpoint":1,"host":1,"secondary":1}
< {"ok":true,"queued":19}
> {"call":"submit","cdb":"000000000000","endpoint":1,"host":1,"secondary":1}
< {"ok":true,"queued":20}
> {"call":"submit","cdb":"000000000000","endpoint":1,"host":1,"secondary":1}
< {"ok":true,"queued":21}
> {"call":"submit","cdb":"000000000000","endpoint":1,"host":1,"secondary":1}
< {"ok":true,"queued":22}
> {"call":"submit","cdb":"000000000000","endpoint":1,"host":1,"secondary":1}
< {"ok":true,"queued":23}
> {"call":"submit","cdb":"000000000000","endpoint":1,"host":1,"secondary":1}
< {"ok":true,"queued":24}
> {"call":"submit","cdb":"000000000000","endpoint":1,"host":1,"secondary":1}
< {"ok":true,"queued":25}
> {"call":"submit","cdb":"000000000000","endpoint":1,"host":1,"secondary":1}
< {"ok":true,"queued":26}
> {"call":"submit","cdb":"000000000000","endpoint":1,"host":1,"secondary":1}
< {"ok":true,"queued":27}
> {"call":"submit","cdb":"000000000000","endpoint":1,"host":1,"secondary":1}
< {"ok":true,"queued":28}
> {"call":"submit","cdb":"000000000000","endpoint":1,"host":1,"secondary":1}
< {"ok":true,"queued":29}
> {"call":"submit","cdb":"000000000000","endpoint":1,"host":1,"secondary":1}
< {"ok":true,"queued":30}
> {"call":"submit","cdb":"000000000000","endpoint":1,"host":1,"secondary":1}
< {"ok":true,"queued":31}
> {"call":"submit","cdb":"000000000000","endpoint":1,"host":1,"secondary":1}
< {"ok":true,"queued":32}
> {"call":"submit","cdb":"000000000000","endpoint":1,"host":1,"secondary":1}
< {"ok":false,"status":"28"}
"#;

/// A restart empties the queues.
const AN_EMPTIED_QUEUE: &str = r#"$ new d.img 16 2048 256
> {"call":"createVirtualVolume","sizeInMB":4,"vvolType":"Data"}
< {"ok":true,"vvol":"rfc4122.00000000-0001-8000-8000-000000000001"}
> {"call":"bindVirtualVolume","host":1,"vvol":"rfc4122.00000000-0001-8000-8000-000000000001"}
< {"endpoint":1,"ok":true,"secondary":1}
> {"call":"submit","cdb":"28000000000000000100","endpoint":1,"host":1,"secondary":1}
< {"ok":true,"queued":1}
> {"call":"restart"}
< {"recovered":2}
< {"ok":true}
> {"call":"serve","host":1}
< {"ok":true,"served":false}
"#;

/// Bindings count, and an endpoint stays while one is there.
const ENDPOINTS: &str = r#"$ new d.img 16 2048 256
> {"call":"createVirtualVolume","sizeInMB":4,"vvolType":"Data"}
< {"ok":true,"vvol":"rfc4122.00000000-0001-8000-8000-000000000001"}
> {"call":"bindVirtualVolume","host":1,"vvol":"rfc4122.00000000-0001-8000-8000-000000000001"}
< {"endpoint":1,"ok":true,"secondary":1}
> {"call":"bindVirtualVolume","host":1,"vvol":"rfc4122.00000000-0001-8000-8000-000000000001"}
< {"endpoint":1,"ok":true,"secondary":1}
> {"call":"unbindVirtualVolume","endpoint":1,"host":1,"secondary":1}
< {"left":1,"ok":true}
> {"call":"setPEContext","endpoints":[],"host":1}
< {"fault":"ResourceInUse","name":"endpoints","ok":false}
> {"call":"setPEContext","endpoints":[],"host":2}
< {"ok":true}
> {"call":"bindVirtualVolume","host":2,"vvol":"rfc4122.00000000-0001-8000-8000-000000000001"}
< {"fault":"NoEndpoint","name":"host","ok":false}
> {"call":"unbindAllVirtualVolumesFromHost","host":1}
< {"ok":true,"removed":1}
"#;

/// A capacity, a comparing write that misses, an unknown code, a write to a snapshot, and a request for sense.
const COMMANDS: &str = r#"$ new d.img 16 2048 256
> {"call":"createVirtualVolume","sizeInMB":4,"vvolType":"Data"}
< {"ok":true,"vvol":"rfc4122.00000000-0001-8000-8000-000000000001"}
> {"call":"bindVirtualVolume","host":1,"vvol":"rfc4122.00000000-0001-8000-8000-000000000001"}
< {"endpoint":1,"ok":true,"secondary":1}
> {"call":"scsi","cdb":"25000000000000000000","endpoint":1,"host":1,"secondary":1}
< {"data":[["00",2],["1f",1],["ff",1],["00",2],["02",1],["00",1]],"ok":true,"status":"00"}
> {"call":"scsi","cdb":"89000000000000000000000000010000","data":[["00",512],["77",512]],"endpoint":1,"host":1,"secondary":1}
< {"data":[],"ok":true,"status":"00"}
> {"call":"scsi","cdb":"89000000000000000000000000010000","data":[["00",512],["77",512]],"endpoint":1,"host":1,"secondary":1}
< {"ok":false,"sense":"70000e000000000a000000001d0000000000","status":"02"}
> {"call":"scsi","cdb":"ff0000000000","endpoint":1,"host":1,"secondary":1}
< {"ok":false,"sense":"700005000000000a00000000200000000000","status":"02"}
> {"call":"snapshotVirtualVolume","vvol":"rfc4122.00000000-0001-8000-8000-000000000001"}
< {"ok":true,"vvol":"rfc4122.00000000-0001-8000-8000-000000000004"}
> {"call":"bindVirtualVolume","host":1,"vvol":"rfc4122.00000000-0001-8000-8000-000000000004"}
< {"endpoint":1,"ok":true,"secondary":2}
> {"call":"scsi","cdb":"2a000000000000000100","data":[["11",512]],"endpoint":1,"host":1,"secondary":2}
< {"ok":false,"sense":"700007000000000a00000000270000000000","status":"02"}
> {"call":"scsi","cdb":"030000001200","endpoint":1,"host":2,"secondary":1}
< {"data":[["70",1],["00",1],["05",1],["00",4],["0a",1],["00",4],["25",1],["00",5]],"ok":true,"status":"00"}
"#;

/// One block is written to three addresses, a volume tells its number, and an endpoint has no medium.
const ONE_BLOCK_REPEATED: &str = r#"$ new d.img 16 2048 256
> {"call":"createVirtualVolume","sizeInMB":4,"vvolType":"Data"}
< {"ok":true,"vvol":"rfc4122.00000000-0001-8000-8000-000000000001"}
> {"call":"bindVirtualVolume","host":1,"vvol":"rfc4122.00000000-0001-8000-8000-000000000001"}
< {"endpoint":1,"ok":true,"secondary":1}
> {"call":"scsi","cdb":"93000000000000000000000000030000","data":[["77",512]],"endpoint":1,"host":1,"secondary":1}
< {"data":[],"ok":true,"status":"00"}
> {"call":"scsi","cdb":"28000000000000000400","endpoint":1,"host":1,"secondary":1}
< {"data":[["77",1536],["00",512]],"ok":true,"status":"00"}
> {"call":"scsi","cdb":"120180001500","endpoint":1,"host":1,"secondary":1}
< {"data":[["00",1],["80",1],["00",1],["11",1],["76",1],["30",15],["31",1]],"ok":true,"status":"00"}
> {"call":"scsi","cdb":"000000000000","endpoint":1,"host":1,"secondary":0}
< {"data":[],"ok":true,"status":"00"}
> {"call":"scsi","cdb":"28000000000000000100","endpoint":1,"host":1,"secondary":0}
< {"ok":false,"sense":"700005000000000a00000000200000000000","status":"02"}
> {"call":"scsi","cdb":"42000000000000000500","data":[["00",5]],"endpoint":1,"host":1,"secondary":1}
< {"ok":false,"sense":"700005000000000a000000001a0000000000","status":"02"}
"#;

/// An UNMAP of 65 ranges is refused.
const TOO_MANY_RANGES: &str = r#"$ new d.img 16 2048 256
> {"call":"createVirtualVolume","sizeInMB":4,"vvolType":"Data"}
< {"ok":true,"vvol":"rfc4122.00000000-0001-8000-8000-000000000001"}
> {"call":"bindVirtualVolume","host":1,"vvol":"rfc4122.00000000-0001-8000-8000-000000000001"}
< {"endpoint":1,"ok":true,"secondary":1}
> {"call":"scsi","cdb":"42000000000000041800","data":[["04",1],["16",1],["04",1],["10",1],["00",1044]],"endpoint":1,"host":1,"secondary":1}
< {"ok":false,"sense":"700005000000000a00000000260000000000","status":"02"}
"#;

#[test]
fn hosts_go_as_told(rt: HostRuntime) -> Result<(), Fail> {
    for scene in [
        A_QUEUE,
        AN_EMPTIED_QUEUE,
        ENDPOINTS,
        COMMANDS,
        ONE_BLOCK_REPEATED,
        TOO_MANY_RANGES,
    ] {
        assert!(rt; is_played(rt.alloc(), scene)?);
    }
    Ok(())
}
