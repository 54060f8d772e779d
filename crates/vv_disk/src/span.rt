//! Ranges of a disk's bytes, and what is put there.
ghost use Rattle.std.specs.Prelude.{◌≡◌, ◌≤◌, ◌+◌, length, replicate};
ghost use Rattle.vv_disk.specs.Images.{overwritten};

/// So many bytes from a place on.
#[derive(Clone, Copy, Debug)]
pub(crate) struct Span {
    pub(crate) at: usize,
    pub(crate) len: usize,
}

/// Puts these bytes over what stands from `at` on.
pub(crate) fn put(disk: &mut [u8], at: usize, bytes: &[u8])
    requires { at + length bytes.now ≤ length disk.old }
    ensures { disk.new ≡ overwritten disk.old at bytes.now }
{
    disk[at..at + bytes.len()].copy_from_slice(bytes);
}

/// Puts one byte all over a range.
pub(crate) fn fill(disk: &mut [u8], span: Span, byte: u8)
    requires { span.at + span.len ≤ length disk.old }
    ensures { disk.new ≡ overwritten disk.old span.at (replicate span.len byte) }
{
    disk[span.at..span.at + span.len].fill(byte);
}
