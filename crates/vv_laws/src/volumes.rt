//! The bytes of volumes, read and written chunk by chunk.
ghost use Rattle.std.specs.Prelude.{◌≡◌, ◌≤◌, ◌+◌, ◌*◌, ◌/◌, ◌==◌, ℕ, List, Some, map, length, IsTrue, IsFalse};
ghost use Rattle.std.specs.List.{flat_map};
ghost use Rattle.vv_units.specs.Sizes.{block_bytes, is_chunk_size};
ghost use Rattle.vv_flat.specs.State.{Durable, Volume, volume_of};
ghost use Rattle.vv_flat.specs.Chunks.{ChunkValue, chunk_bytes, bytes_of, blocks_read, overwritten, touched_indexes, written_values, written};
ghost use Rattle.vv_flat.specs.Parts.{are_whole, bytes_in, chunk_start, part_read, part_written};
ghost use Rattle.vv_flat.specs.Changes.{Write};
ghost use Rattle.vv_flat.specs.Flat.{has_its_bytes, flat_after};

/// What a read gives is the joined parts of the chunks that it touches.
pub fn a_read_joins_parts_of_chunks()
    ensures { (chunk_blocks : ℕ) → IsTrue (is_chunk_size chunk_blocks) → (first blocks : ℕ) → (chunks : List ChunkValue)
        → IsTrue (are_whole chunk_blocks chunks)
        → blocks_read chunks first blocks
        ≡ flat_map (λ i. part_read (chunk_start chunk_blocks i) (first * block_bytes) (blocks * block_bytes) (bytes_in chunks i))
        (touched_indexes chunk_blocks first blocks) }
{}

/// The new value of each chunk that a write touches is the old chunk with its part replaced.
pub fn a_write_replaces_parts_of_chunks()
    ensures { (chunk_blocks : ℕ) → (chunks : List ChunkValue) → (first : ℕ) → (new : List ℕ) → (stamp : ℕ)
        → IsTrue (are_whole chunk_blocks chunks)
        → first * block_bytes + length new ≤ length chunks * chunk_bytes chunk_blocks
        → written_values chunk_blocks chunks first new stamp
        ≡ map {A = ℕ} {B = ChunkValue} (λ i. record {
          stamp = stamp;
          bytes = part_written (chunk_bytes chunk_blocks) (chunk_start chunk_blocks i) (first * block_bytes) new (bytes_in chunks i);
        }) (touched_indexes chunk_blocks first (length new / block_bytes)) }
{}

/// The bytes of a volume after a write are the old ones with the new ones at their place.
pub fn a_written_volume_has_the_new_bytes_at_their_place()
    ensures { (chunk_blocks : ℕ) → IsTrue (is_chunk_size chunk_blocks) → (chunks : List ChunkValue) → IsTrue (are_whole chunk_blocks chunks)
        → (first blocks stamp : ℕ) → (new : List ℕ) → IsTrue (length new == blocks * block_bytes)
        → first + blocks ≤ length chunks * chunk_blocks
        → bytes_of (written chunk_blocks chunks first new stamp) ≡ overwritten (bytes_of chunks) (first * block_bytes) new }
{}

/// A write in an array leaves its volume with the written chunks and all else of the volume as it was,
pub fn a_write_writes_its_volume()
    ensures { (d : Durable ChunkValue) → (n first blocks : ℕ) → (bytes : List ℕ) → (volume : Volume ChunkValue)
        → volume_of d n ≡ Some volume → IsTrue (has_its_bytes (Write n first blocks) bytes)
        → volume_of (flat_after d (Write n first blocks) bytes) n
        ≡ Some (record volume { chunks = written d.geometry.chunk_blocks volume.chunks first bytes (d.lsn + 1) }) }
{}

/// and every other volume as it was.
pub fn a_write_leaves_all_other_volumes()
    ensures { (d : Durable ChunkValue) → (n other first blocks : ℕ) → (bytes : List ℕ) → IsFalse (other == n)
        → volume_of (flat_after d (Write n first blocks) bytes) other ≡ volume_of d other }
{}
