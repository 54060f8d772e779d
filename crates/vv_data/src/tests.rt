ghost use Rattle.std.specs.Prelude.{◌≡◌};
ghost use Rattle.vv_data.specs.Layout.{disk_len};

use crate::chunk::area_start;
use crate::{read_chunk, read_part, write_chunk};
use std::test::Fail;
use vv_disk::{Disk, MemDisk};
use vv_units::{Geometry, Place};

fn len_of(geometry: Geometry) -> u64
    ensures { result ≡ disk_len geometry }
{
    let blocks = u64::from(geometry.pool_chunks) * u64::from(geometry.chunk_blocks);
    area_start(geometry) + blocks * 512
}

/// Writes a chunk of this byte all over at place 1 of 2 of chunks of 4096 bytes, and reads it whole and in part.
fn is_kept<D: Disk>(disk: &mut D, geometry: Geometry, byte: u8) -> bool {
    let place = Place(1);
    if disk.len() != len_of(geometry) || geometry.pool_chunks != 2 || geometry.chunk_blocks != 8 {
        return false;
    }
    let mut chunk = [0u8; 4096];
    let mut part = [0u8; 2];
    write_chunk(disk, geometry, place, &[byte; 4096]).is_ok()
        && read_chunk(disk, geometry, place, &mut chunk).is_ok()
        && chunk.as_slice() == [byte; 4096].as_slice()
        && read_part(disk, geometry, place, 4094, &mut part).is_ok()
        && part == [byte; 2]
}

#[test]
fn a_chunk_stands_at_its_place(rt: HostRuntime) -> Result<(), Fail> {
    let alloc = rt.alloc();
    let geometry = Geometry::new(8, 2, 64).ok_or("a geometry")?;
    let content = vec![in alloc; 0u8; 4_209_152]?;
    let mut disk = MemDisk::new(alloc, content, Vec::new(alloc), None, 10_000)?;
    assert!(rt; is_kept(&mut disk, geometry, 0x5a));
    assert_eq!(rt; first_written(disk.content()), Some(4_205_056));
    assert_eq!(rt; count_written(disk.content()), 4096);
    Ok(())
}

fn first_written(image: &[u8]) -> Option<usize> {
    image.iter().position(|byte| *byte != 0)
}

fn count_written(image: &[u8]) -> usize {
    image.iter().filter(|byte| **byte != 0).count()
}
