//! The bytes that come with a call, and those that fill the new chunks of its event.
ghost use Rattle.std.specs.Prelude.{◌≡◌, ◌*◌, [], ℕ, List, length, drop, IfOk};
ghost use Rattle.vv_units.specs.Sizes.{block_bytes};
ghost use Rattle.vv_flat.specs.Chunks.{same_blocks, compared_half, written_half};
ghost use Rattle.vv_calls.specs.Formed.{IsFormed};
ghost use Rattle.vv_meaning.specs.Meaning.{bytes_for};
ghost use Rattle.vv_core.specs.Plans.{payload_of, bytes_filled, blocks_written};
ghost use Rattle.vv_array.specs.Payloads.{repeated_bytes};

use std::alloc::Global;
use vv_calls::Call;
use vv_core::{Core, Fill};
use vv_record::Event;
use vv_units::NoMemory;

/// The bytes of a block.
const BLOCK_BYTES: usize = 512;

/// The bytes that came with the command that a call is about.
pub(crate) fn payload_of<'a>(core: &'a Core, call: &'a Call) -> &'a [u8]
    requires { IsFormed call.now }
    ensures { result.now ≡ payload_of core.now.array.volatile call.now }
{
    match call {
        Call::Scsi(command) => command.payload.items(),
        Call::Serve { host } => match core.queue_head(*host) {
            Some(command) => command.payload.items(),
            None => &[],
        },
        _ => &[],
    }
}

/// How many blocks an event writes.
pub(crate) fn blocks_written(event: &Event) -> u32
    ensures { result ≡ blocks_written event.now }
{
    match event {
        Event::Write { blocks, .. } => *blocks,
        _ => 0,
    }
}

/// One block, as often as there are blocks, where that is what fills new chunks.
pub(crate) fn repeated(
    alloc: Global,
    fill: Fill,
    blocks: u32,
    payload: &[u8],
) -> Result<Vec<u8>, NoMemory>
    ensures { IfOk result (λ bytes. bytes.items ≡ repeated_bytes fill blocks payload.now) }
{
    match fill {
        Fill::Same => repeated_block(alloc, blocks, payload),
        Fill::Nothing => Ok(Vec::new(alloc)),
        Fill::Bytes => Ok(Vec::new(alloc)),
        Fill::Image { task: _ } => Ok(Vec::new(alloc)),
    }
}

/// One block, so many times.
fn repeated_block(alloc: Global, blocks: u32, block: &[u8]) -> Result<Vec<u8>, NoMemory>
    ensures { IfOk result (λ bytes. bytes.items ≡ same_blocks block.now blocks) }
{
    let mut bytes = Vec::new(alloc);
    'repeats: for _ in 0..blocks {
        let Ok(()) = bytes.extend_from_slice(block) else {
            return Err(NoMemory);
        };
    }
    Ok(bytes)
}

/// The second half of the bytes of a command that compares so many blocks first.
fn written_half(blocks: u32, payload: &[u8]) -> &[u8]
    ensures { result.now ≡ written_half blocks payload.now }
{
    let (_, half) = payload.split_at(payload.len().min(blocks as usize * BLOCK_BYTES));
    half
}

/// The first half of the bytes of a command that compares so many blocks first.
pub(crate) fn compared_half(blocks: u32, payload: &[u8]) -> &[u8]
    ensures { result.now ≡ compared_half blocks payload.now }
{
    let (half, _) = payload.split_at(payload.len().min(blocks as usize * BLOCK_BYTES));
    half
}

/// The bytes that fill the new chunks of an event of so many blocks.
pub(crate) fn bytes_to_write<'a>(
    fill: Fill,
    compare: bool,
    blocks: u32,
    payload: &'a [u8],
    repeated: &'a [u8],
) -> &'a [u8]
    requires { repeated.now ≡ repeated_bytes fill blocks payload.now }
    ensures { result.now ≡ bytes_for (bytes_filled fill compare blocks payload.now) }
{
    match fill {
        Fill::Nothing => &[],
        Fill::Bytes => {
            if compare {
                written_half(blocks, payload)
            } else {
                payload
            }
        }
        Fill::Same => repeated,
        Fill::Image { task: _ } => &[],
    }
}
