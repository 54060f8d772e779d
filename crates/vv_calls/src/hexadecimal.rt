//! Bytes in hexadecimal digits.
ghost use Rattle.std.specs.Prelude.{◌≡◌, ◌*◌, IfOk, IfSome, option_map, length};
ghost use Rattle.vv_calls.specs.Hexadecimal.{hex_bytes as spelled};

use hex::FromHexError;
use std::alloc::Global;
use vv_units::NoMemory;

/// The bytes that a text spells in digits of either case, two digits a byte.
pub(crate) fn hex_bytes(alloc: Global, text: &str) -> Result<Option<Vec<u8>>, NoMemory>
    ensures spelled { IfOk result (λ bytes. option_map (λ v. v.items) bytes ≡ spelled text.now) }
    ensures half { IfOk result (λ bytes. IfSome bytes (λ v. 2 * length v.items ≡ length text.now)) }
{
    match hex::decode(alloc, text) {
        Ok(bytes) => Ok(Some(bytes)),
        Err(error) => match error {
            FromHexError::OutOfMemory => Err(NoMemory),
            _ => Ok(None),
        },
    }
}
