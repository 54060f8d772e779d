//! Where the parts of an image stand.
ghost use Rattle.std.specs.Prelude.{◌≡◌, ◌+◌, ◌^◌, ◌<◌, ◌≤◌};
ghost use Rattle.vv_data.specs.Layout.{disk_len, area_bytes, half_bytes, half_at, chunks_at};
ghost use Rattle.vv_journal.specs.Half.{gates_at, slot_at};

use vv_units::Geometry;

const BLOCK_BYTES: u64 = 512;

/// The header, in bytes.
pub(crate) const HEADER_BYTES: u64 = 4096;

/// Where the byte stands that selects a half.
pub(crate) const SELECTOR_AT: u64 = 512;

const TABLE_BYTES: u64 = 1_048_576;

const GATES: u64 = 256;

const SLOT_BYTES: u64 = 4096;

/// How many bytes an image has.
pub fn disk_len(geometry: Geometry) -> u64
    ensures { result ≡ disk_len geometry }
{
    let blocks = u64::from(geometry.pool_chunks) * u64::from(geometry.chunk_blocks);
    HEADER_BYTES + 2 * half_len(geometry) + blocks * BLOCK_BYTES
}

/// How many bytes there are for the tables of a half, their length of 8 bytes with them.
pub(crate) fn area_len(geometry: Geometry) -> u64
    ensures { result ≡ area_bytes geometry }
{
    16 * u64::from(geometry.map_chunks) + TABLE_BYTES
}

fn half_len(geometry: Geometry) -> u64
    ensures { result ≡ half_bytes geometry }
{
    area_len(geometry) + GATES + GATES * SLOT_BYTES
}

/// Where a half stands.
pub(crate) fn half_start(geometry: Geometry, half: u8) -> u64
    requires { half ≤ 1 }
    ensures start { result ≡ half_at geometry half }
    ensures fits { result + half_bytes geometry ≤ chunks_at geometry }
{
    if half == 0 {
        HEADER_BYTES
    } else {
        HEADER_BYTES + half_len(geometry)
    }
}

/// Where the gates of a half stand.
pub(crate) fn gates_start(geometry: Geometry, half: u8) -> u64
    requires { half ≤ 1 }
    ensures start { result ≡ gates_at geometry half }
    ensures fits { result + 1048832 ≤ chunks_at geometry }
{
    half_start(geometry, half) + area_len(geometry)
}

/// Where the slot with this index stands in a half.
pub(crate) fn slot_start(geometry: Geometry, half: u8, index: u32) -> u64
    requires half { half ≤ 1 }
    requires index { index < 256 }
    ensures start { result ≡ slot_at geometry half index }
    ensures fits { result + 4096 ≤ chunks_at geometry }
    ensures small { result + 4096 ≤ 2 ^ 63 }
{
    gates_start(geometry, half) + GATES + SLOT_BYTES * u64::from(index)
}
