//! The sizes of an array.
ghost use Rattle.std.specs.Prelude.{◌≡◌, ◌≤◌, ◌+◌, ◌*◌, ◌^◌, ◌↔◌, IsTrue, IsSome, IfSome};
ghost use Rattle.vv_units.specs.Sizes.{IsGeometry, is_chunk_size, volume_chunks, first_touched, touched_count};

/// The sizes of an array, inside their limits.
#[derive(Clone, Copy, Debug, PartialEq, Eq)]
pub struct Geometry {
    /// Blocks of 512 bytes in a chunk: a power of two from 8 to 2048.
    pub chunk_blocks: u32,
    /// Chunks of the pool, 1 to 262,144, of at most 4 GiB in all.
    pub pool_chunks: u32,
    /// How many entries all lists of chunks may have together, 64 to 1,048,576.
    pub map_chunks: u32,
    pub ghost chunk_size: { IsTrue (is_chunk_size chunk_blocks) },
    pub ghost some_chunks: { 1 ≤ pool_chunks },
    pub ghost few_chunks: { pool_chunks ≤ 262144 },
    pub ghost small_pool: { pool_chunks * chunk_blocks ≤ 8388608 },
    pub ghost map_from: { 64 ≤ map_chunks },
    pub ghost map_to: { map_chunks ≤ 1048576 },
}

const MOST_BLOCKS: u64 = 8_388_608;

const MB_BLOCKS: u32 = 2048;

const MOST_VOLUME_CHUNKS: u64 = 1_048_576;

impl Geometry {
    /// These sizes, if they are inside their limits.
    pub fn new(chunk_blocks: u32, pool_chunks: u32, map_chunks: u32) -> Option<Geometry>
        ensures valid { IsSome result ↔ IsGeometry chunk_blocks pool_chunks map_chunks }
        ensures value { IfSome result (λ g. (g.chunk_blocks ≡ chunk_blocks)
            × (g.pool_chunks ≡ pool_chunks) × (g.map_chunks ≡ map_chunks)) }
    {
        let is_chunk_size = matches!(
            chunk_blocks,
            8 | 16 | 32 | 64 | 128 | 256 | 512 | 1024 | 2048
        );
        if !is_chunk_size
            || !(1..=262_144).contains(&pool_chunks)
            || u64::from(pool_chunks) * u64::from(chunk_blocks) > MOST_BLOCKS
            || !(64..=1_048_576).contains(&map_chunks)
        {
            return None;
        }
        Some(Geometry {
            chunk_blocks,
            pool_chunks,
            map_chunks,
        })
    }
}

/// The chunks of a volume of so many MB of 2^20 bytes: none where the number is 0, or where they would be more
/// than a volume may have.
pub fn chunks_of_mb(geometry: Geometry, mb: u64) -> Option<u32>
    ensures { result ≡ volume_chunks geometry.chunk_blocks mb }
{
    let per_mb = u64::from(MB_BLOCKS / geometry.chunk_blocks);
    if mb == 0 || mb > MOST_VOLUME_CHUNKS / per_mb {
        return None;
    }
    Some((mb * per_mb) as u32)
}

/// The chunks that hold at least one of so many blocks from a block on: the first of them, and how many they are.
pub fn touched(first_block: u64, blocks: u32, chunk_blocks: u32) -> (u32, u32)
    requires some { 1 ≤ blocks }
    requires sized { 1 ≤ chunk_blocks }
    requires within { first_block + blocks ≤ 2 ^ 31 }
    ensures first { result.0 ≡ first_touched first_block chunk_blocks }
    ensures count { result.1 ≡ touched_count first_block blocks chunk_blocks }
{
    let size = u64::from(chunk_blocks);
    let first = first_block / size;
    let last = (first_block + u64::from(blocks) - 1) / size;
    (first as u32, (last - first + 1) as u32)
}
