//! The commands that are known.
ghost use Rattle.std.specs.Prelude.{◌≡◌};
ghost use Rattle.vv_cdb.specs.Cdbs.{data_length, IsLetThrough};

/// A command with the fields of its block that count: addresses (`lba`) and numbers of blocks of 512 bytes, and
/// lengths in bytes.
#[derive(Clone, Copy, Debug, PartialEq, Eq)]
pub enum Command {
    TestReady,
    RequestSense {
        alloc_len: u32,
    },
    Inquiry {
        evpd: bool,
        page: u8,
        alloc_len: u32,
    },
    Capacity10,
    Read {
        lba: u64,
        blocks: u32,
    },
    Write {
        lba: u64,
        blocks: u32,
    },
    Sync {
        lba: u64,
        blocks: u32,
    },
    Unmap {
        list_len: u32,
    },
    Compare {
        lba: u64,
        blocks: u32,
    },
    Same {
        lba: u64,
        blocks: u32,
    },
    Capacity16 {
        alloc_len: u32,
    },
}

/// How many bytes come with a command.
pub fn data_len(command: &Command) -> u32
    requires { IsLetThrough command.now }
    ensures { result ≡ data_length command.now }
{
    match *command {
        Command::Write { blocks, .. } => 512 * blocks,
        Command::Unmap { list_len } => list_len,
        Command::Compare { blocks, .. } => 1024 * blocks,
        Command::Same { .. } => 512,
        _ => 0,
    }
}
