//! The first lines, and one drawn line.
use crate::generate;
use std::test::Fail;

#[test]
fn the_first_lines_make_and_bind_two_volumes(rt: HostRuntime) -> Result<(), Fail> {
    let text = generate(rt.alloc(), 1, 0)?;
    assert_eq!(rt;
        text.as_slice(),
        b"{\"call\":\"createVirtualVolume\",\"sizeInMB\":4,\"vvolType\":\"Data\"}\n{\"call\":\"createVirtualVolume\",\"sizeInMB\":4,\"vvolType\":\"Data\"}\n{\"call\":\"bindVirtualVolume\",\"host\":1,\"vvol\":\"rfc4122.00000000-0001-8000-8000-000000000001\"}\n{\"call\":\"bindVirtualVolume\",\"host\":2,\"vvol\":\"rfc4122.00000000-0001-8000-8000-000000000002\"}\n".as_slice()
    );
    Ok(())
}

#[test]
fn seed_1_draws_a_bitmap_of_volume_2_first(rt: HostRuntime) -> Result<(), Fail> {
    let first = generate(rt.alloc(), 1, 0)?;
    let text = generate(rt.alloc(), 1, 1)?;
    let (front, line) = text.split_at(first.len());
    assert_eq!(rt; front, first.as_slice());
    assert_eq!(rt;
        line,
        b"{\"base\":\"rfc4122.00000000-0001-8000-8000-000000000001\",\"call\":\"unsharedBitmapVirtualVolume\",\"vvol\":\"rfc4122.00000000-0001-8000-8000-000000000002\"}\n".as_slice()
    );
    Ok(())
}
