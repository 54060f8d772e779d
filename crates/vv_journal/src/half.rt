//! The parts of a half as bytes.
ghost use Rattle.std.specs.Prelude.{◌≡◌, ◌⊎◌, ◌<◌, ◌+◌, ℕ, length, slice_index};
ghost use Rattle.vv_fields.specs.Fields.{be_number};
ghost use Rattle.vv_journal.specs.Half.{second_spelling, spelling_in, length_in, is_area};

use crate::layout::area_len;
use vv_units::Geometry;

/// The top bit of a length field, which says spelling 2.
const SECOND_SPELLING: u64 = 1 << 63;

/// The length field of tables of spelling 2 with so many bytes.
pub(crate) fn length_field(len: u64) -> [u8; 8]
    requires { len < second_spelling }
    ensures size { length result ≡ 8 }
    ensures number { be_number result ≡ second_spelling + len }
{
    u64::to_be_bytes(SECOND_SPELLING + len)
}

/// The spelling that a length field says.
pub(crate) fn spelling_of(field: u64) -> u8
    ensures spelling { result ≡ spelling_in field }
    ensures known { (result ≡ 1) ⊎ (result ≡ 2) }
{
    if field >= SECOND_SPELLING { 2 } else { 1 }
}

/// The length of the tables that a length field says.
pub(crate) fn tables_len(field: u64) -> u64
    ensures len { result ≡ length_in field }
    ensures small { result < second_spelling }
{
    if field >= SECOND_SPELLING {
        field - SECOND_SPELLING
    } else {
        field
    }
}

/// Whether an area may have this length field.
pub(crate) fn may_be_area(geometry: Geometry, version: u32, field: u64) -> bool
    ensures { result ≡ is_area (record { geometry = geometry; version = version }) field }
{
    8 + tables_len(field) <= area_len(geometry) && (field >= SECOND_SPELLING || version == 1)
}

/// The gates of a half, all shut.
pub(crate) fn shut_gates() -> [u8; 256]
    ensures size { length result ≡ 256 }
    ensures shut { (i : ℕ) → slice_index result i ≡ 0 }
{
    [0; 256]
}
