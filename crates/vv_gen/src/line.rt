//! One line of a script.
ghost use Rattle.std.specs.Prelude.{◌≡◌, ◌≤◌, ◌++◌, [], ◌∷◌, OnOk, decimal};
ghost use Rattle.std.specs.Int.{w32, to_be_bytes};
ghost use Rattle.vv_gen.specs.Lines.{drawn_line, line_text, IsOfVolume};
ghost use Rattle.vv_gen.specs.Texts.{hexadecimal, volume_name};

use crate::numbers::Numbers;
use std::alloc::{AllocError, Global};
use vv_units::id_text;

/// What a drawn line asks for, of volume 1 or 2. Each volume is bound for the host of its number.
#[derive(Clone, Copy, Debug, PartialEq, Eq)]
pub enum Line {
    /// A block of equal bytes is written.
    Write { volume: u64, block: u32, byte: u8 },
    /// Eight blocks are read.
    Read { volume: u64, block: u32 },
    /// The chunks are asked for in which the volume differs from the other one.
    Unshared { volume: u64 },
    Snapshot { volume: u64 },
    QueryPool,
}

impl Line {
    /// Draws the next line.
    pub(crate) fn draw(numbers: &mut Numbers) -> Line
        ensures line { result ≡ (drawn_line numbers.old.state).line }
        ensures state { numbers.new.state ≡ (drawn_line numbers.old.state).state }
        ensures volume { IsOfVolume result }
    {
        let kind = numbers.below(8);
        let volume = numbers.below(2) + 1;
        if kind < 4 {
            let block = numbers.below(8192) as u32;
            let byte = numbers.below(256) as u8;
            Line::Write {
                volume,
                block,
                byte,
            }
        } else if kind < 6 {
            let block = numbers.below(8185) as u32;
            Line::Read { volume, block }
        } else if kind == 6 {
            Line::Unshared { volume }
        } else if numbers.below(2) == 0 {
            Line::Snapshot { volume }
        } else {
            Line::QueryPool
        }
    }

    /// Writes its text, with LF, at the end. A volume's number is 1 or 2.
    pub(crate) fn push(&self, alloc: Global, text: &mut Vec<u8>) -> Result<(), AllocError>
        requires { IsOfVolume self.now }
        ensures { OnOk result (text.new.items ≡ text.old.items ++ line_text self.now) }
    {
        match *self {
            Line::Write {
                volume,
                block,
                byte,
            } => push_write(text, alloc, volume, block, byte),
            Line::Read { volume, block } => push_read(text, alloc, volume, block),
            Line::Unshared { volume } => push_unshared(text, alloc, volume),
            Line::Snapshot { volume } => push_snapshot(text, alloc, volume),
            Line::QueryPool => text.extend_from_slice(b"{\"call\":\"queryPool\"}\n"),
        }
    }
}

fn push_write(
    text: &mut Vec<u8>,
    alloc: Global,
    volume: u64,
    block: u32,
    byte: u8,
) -> Result<(), AllocError>
    ensures { OnOk result (text.new.items ≡ text.old.items ++ line_text (Line.Write volume block byte)) }
{
    text.extend_from_slice(b"{\"call\":\"scsi\",\"cdb\":\"2a00")?;
    push_block(text, block)?;
    text.extend_from_slice(b"00000100\",\"data\":[[\"")?;
    push_byte(text, byte)?;
    text.extend_from_slice(b"\",512]],\"endpoint\":1,\"host\":")?;
    push_decimal(text, alloc, volume)?;
    text.extend_from_slice(b",\"secondary\":1}\n")
}

fn push_read(text: &mut Vec<u8>, alloc: Global, volume: u64, block: u32) -> Result<(), AllocError>
    ensures { OnOk result (text.new.items ≡ text.old.items ++ line_text (Line.Read volume block)) }
{
    text.extend_from_slice(b"{\"call\":\"scsi\",\"cdb\":\"2800")?;
    push_block(text, block)?;
    text.extend_from_slice(b"00000800\",\"endpoint\":1,\"host\":")?;
    push_decimal(text, alloc, volume)?;
    text.extend_from_slice(b",\"secondary\":1}\n")
}

fn push_unshared(text: &mut Vec<u8>, alloc: Global, volume: u64) -> Result<(), AllocError>
    requires { volume ≤ 3 }
    ensures { OnOk result (text.new.items ≡ text.old.items ++ line_text (Line.Unshared volume)) }
{
    text.extend_from_slice(b"{\"base\":")?;
    push_name(text, alloc, 3 - volume)?;
    text.extend_from_slice(b",\"call\":\"unsharedBitmapVirtualVolume\",\"vvol\":")?;
    push_name(text, alloc, volume)?;
    text.extend_from_slice(b"}\n")
}

fn push_snapshot(text: &mut Vec<u8>, alloc: Global, volume: u64) -> Result<(), AllocError>
    requires { volume ≤ 3 }
    ensures { OnOk result (text.new.items ≡ text.old.items ++ line_text (Line.Snapshot volume)) }
{
    text.extend_from_slice(b"{\"call\":\"snapshotVirtualVolume\",\"vvol\":")?;
    push_name(text, alloc, volume)?;
    text.extend_from_slice(b"}\n")
}

/// Writes a block's number as eight hexadecimal digits.
fn push_block(text: &mut Vec<u8>, block: u32) -> Result<(), AllocError>
    ensures { OnOk result (text.new.items ≡ text.old.items ++ hexadecimal (to_be_bytes w32 block)) }
{
    let mut digits = [0u8; 8];
    let bytes = block.to_be_bytes();
    match hex::encode_to_slice(bytes, &mut digits) {
        Ok(()) => text.extend_from_slice(&digits),
        Err(_) => unreachable!(),
    }
}

/// Writes a byte as two hexadecimal digits.
fn push_byte(text: &mut Vec<u8>, byte: u8) -> Result<(), AllocError>
    ensures { OnOk result (text.new.items ≡ text.old.items ++ hexadecimal (byte ∷ [])) }
{
    let mut digits = [0u8; 2];
    match hex::encode_to_slice([byte], &mut digits) {
        Ok(()) => text.extend_from_slice(&digits),
        Err(_) => unreachable!(),
    }
}

/// Writes a number in decimal digits.
pub(crate) fn push_decimal(text: &mut Vec<u8>, alloc: Global, number: u64) -> Result<(), AllocError>
    ensures { OnOk result (text.new.items ≡ text.old.items ++ decimal number) }
{
    let digits = format!(in alloc; "{number}")?;
    text.extend_from_slice(digits.as_bytes())
}

/// Writes the name of a volume between quotes.
pub(crate) fn push_name(text: &mut Vec<u8>, alloc: Global, volume: u64) -> Result<(), AllocError>
    requires { volume ≤ 3 }
    ensures { OnOk result (text.new.items ≡ text.old.items ++ volume_name volume) }
{
    let Ok(name) = id_text(alloc, volume) else {
        return Err(AllocError);
    };
    text.push(b'"')?;
    text.extend_from_slice(name.as_bytes())?;
    text.push(b'"')?;
    Ok(())
}
