//! Opening an image.
ghost use Rattle.std.specs.Prelude.{◌≡◌, ◌⊎◌, ◌<◌, ◌≤◌, ◌+◌, ◌↔◌, List, ℕ, Some, length, IfOk, IfErr, IfSome, MatchResult};
ghost use Rattle.vv_units.specs.Sizes.{is_chunk_size};
ghost use Rattle.vv_disk.specs.Images.{OnlyTold, LeavesOnly, EachImage};
ghost use Rattle.vv_data.specs.Layout.{area_bytes, disk_len, header_bytes};
ghost use Rattle.vv_journal.specs.Half.{is_area};
ghost use Rattle.vv_journal.specs.Openings.{open_fault, header_fault, is_known_version, is_pool_size, is_map_size, HasFields, HasHead, IsOfDisk, IsDamage, HasDiskCause, UnlessDiskFailed, journal_at_first};

use crate::half::{may_be_area, spelling_of, tables_len};
use crate::layout::{HEADER_BYTES, SELECTOR_AT, half_start};
use crate::numbers::{number_of_4, number_of_8};
use crate::steps::{get, settle};
use crate::{Journal, disk_len};
use vv_disk::Disk;
use vv_units::{Damage, DiskFault, Geometry, Part};

/// The byte of the format's gate where an image is formatted.
pub(crate) const FORMATTED: u8 = 0xa5;

/// The bytes `VVARRAY1` as a number.
const MAGIC: u64 = 0x5656_4152_5241_5931;

/// What an image tells before its records are read.
#[derive(Clone, Copy, Debug, PartialEq, Eq)]
pub struct LogHead {
    pub geometry: Geometry,
    /// The selected half, 0 or 1.
    pub half: u8,
    /// How the tables are spelled, 1 or 2.
    pub spelling: u8,
    /// How many bytes the tables have.
    pub area_len: u64,
}

/// Why an image was not opened.
#[derive(Clone, Copy, Debug, PartialEq, Eq)]
pub enum OpenFault {
    /// It is too short for a header, and its length is told, or its first byte is another than A5h, and is told.
    NotFormatted { found: u64 },
    /// The first thing that is wrong with it.
    Damaged(Damage),
    /// The disk failed.
    Disk(DiskFault),
}

impl From<DiskFault> for OpenFault {
    ghost use Rattle.std.specs.Prelude.{◌≡◌};
    ghost use Rattle.vv_journal.specs.declared.opening.OpenFault.TheVariants.{Disk as of_disk};

    ghost from_gives = { λ fault e. e ≡ of_disk fault };

    fn from(fault: DiskFault) -> Self {
        OpenFault::Disk(fault)
    }
}

/// What the fields of a header tell.
#[derive(Clone, Copy, Debug, PartialEq, Eq)]
pub(crate) struct Fields {
    pub(crate) geometry: Geometry,
    pub(crate) version: u32,
}

/// Opens an image: the head of its log, and a journal that stands before the first slot. The disk is synced first, and
/// no byte of it is written.
///
/// `NotFormatted` tells the length in bytes, where it is below 4096, or else the first byte. `Damaged` tells the first
/// thing that is wrong: a field of the header by its offset and the number there, the length of the image by the length
/// that the header asks for and the actual one, or the length of the area by the half.
pub fn open_log<D: Disk>(disk: &mut D) -> Result<(Journal, LogHead), OpenFault>
    ensures head { IfOk result (λ opened. IfSome (D.content disk.new) (HasHead opened.1)) }
    ensures journal { IfOk result (λ opened. opened.0 ≡ journal_at_first opened.1) }
    ensures half { IfOk result (λ opened. opened.1.half ≤ 1) }
    ensures spelling { IfOk result (λ opened. (opened.1.spelling ≡ 1) ⊎ (opened.1.spelling ≡ 2)) }
    ensures fits { IfOk result (λ opened. 8 + opened.1.area_len ≤ area_bytes opened.1.geometry) }
    ensures size { IfOk result (λ opened. D.size disk.new ≡ disk_len opened.1.geometry) }

    // Whatever was found, it was found after a sync.
    ensures only { UnlessDiskFailed result (D.is_honest disk.old → OnlyTold (D.content disk.new) (D.is_image disk.new)) }
    ensures short { D.size disk.old < header_bytes → MatchResult result (λ opened. ⊥) (λ fault. IsOfDisk fault ⊎ (fault ≡ OpenFault.NotFormatted (D.size disk.old))) }

    ensures fault { IfErr result (λ fault. IsOfDisk fault ⊎ IfSome (D.content disk.new) (λ c. open_fault c ≡ Some fault)) }
    ensures cause { IfErr result (HasDiskCause (D.read_faults disk.old) (D.read_faults disk.new) (D.write_faults disk.old) (D.write_faults disk.new)) }
    // No fault is passed over.
    ensures kept_reads { UnlessDiskFailed result (D.read_faults disk.new ≡ D.read_faults disk.old) }
    ensures kept_writes { UnlessDiskFailed result (D.write_faults disk.new ≡ D.write_faults disk.old) }

    ensures len { D.size disk.new ≡ D.size disk.old }
    ensures content { D.content disk.new ≡ D.content disk.old }
    ensures each { D.is_honest disk.old → EachImage (D.is_image disk.old) (D.is_image disk.new) }
    ensures any_moment { D.is_honest disk.old → LeavesOnly D.moment D.left_since disk.old disk.new (D.is_image disk.old) }
    ensures honesty { D.is_honest disk.new ↔ D.is_honest disk.old }
    ensures read_faults { D.read_faults disk.old ≤ D.read_faults disk.new }
    ensures write_faults { D.write_faults disk.old ≤ D.write_faults disk.new }
{
    settle(disk)?;
    let len = disk.len();
    if len < HEADER_BYTES {
        return Err(OpenFault::NotFormatted { found: len });
    }
    let mut bytes = [0u8; 32];
    get(disk, 0, &mut bytes)?;
    if bytes[0] != FORMATTED {
        return Err(OpenFault::NotFormatted {
            found: u64::from(bytes[0]),
        });
    }
    let fields = match fields_of(&bytes) {
        Ok(fields) => fields,
        Err(fault) => return Err(fault),
    };
    let needed = disk_len(fields.geometry);
    if len != needed {
        return Err(damaged(Part::Length, needed, len));
    }
    let mut selector = [0u8; 1];
    get(disk, SELECTOR_AT, &mut selector)?;
    let half = selector[0] % 2;
    let mut field_bytes = [0u8; 8];
    get(disk, half_start(fields.geometry, half), &mut field_bytes)?;
    let field = number_of_8(&field_bytes, 0);
    if !may_be_area(fields.geometry, fields.version, field) {
        return Err(damaged(Part::Area, 0, u64::from(half)));
    }
    let head = LogHead {
        geometry: fields.geometry,
        half,
        spelling: spelling_of(field),
        area_len: tables_len(field),
    };
    Ok((Journal::new(fields.geometry, half, 0), head))
}

/// The fields of a header, or the first of them that is wrong.
fn fields_of(bytes: &[u8]) -> Result<Fields, OpenFault>
    requires { length bytes.now ≡ 32 }
    ensures fields { IfOk result (λ fields. HasFields fields bytes.now) }
    ensures fault { IfErr result (λ fault. header_fault bytes.now ≡ Some fault) }
    ensures damage { IfErr result IsDamage }
{
    let words = number_of_8(bytes, 8);
    if words != MAGIC {
        return Err(damaged(Part::Header, 8, words));
    }
    let version = number_of_4(bytes, 16);
    if !is_known_version(version) {
        return Err(damaged(Part::Header, 16, u64::from(version)));
    }
    let chunk_blocks = number_of_4(bytes, 20);
    if !is_chunk_size(chunk_blocks) {
        return Err(damaged(Part::Header, 20, u64::from(chunk_blocks)));
    }
    let pool_chunks = number_of_4(bytes, 24);
    if !is_pool_size(chunk_blocks, pool_chunks) {
        return Err(damaged(Part::Header, 24, u64::from(pool_chunks)));
    }
    let map_chunks = number_of_4(bytes, 28);
    if !is_map_size(version, map_chunks) {
        return Err(damaged(Part::Header, 28, u64::from(map_chunks)));
    }
    match Geometry::new(chunk_blocks, pool_chunks, map_chunks) {
        Some(geometry) => Ok(Fields { geometry, version }),
        None => unreachable!(),
    }
}

/// A part of an image that is wrong.
fn damaged(part: Part, place: u64, found: u64) -> OpenFault
    ensures { result ≡ OpenFault.Damaged (record { part = part; place = place; found = found }) }
{
    OpenFault::Damaged(Damage { part, place, found })
}

fn is_known_version(version: u32) -> bool
    ensures { result ≡ is_known_version version }
{
    version == 2 || version == 1
}

fn is_chunk_size(chunk_blocks: u32) -> bool
    ensures { result ≡ is_chunk_size chunk_blocks }
{
    matches!(
        chunk_blocks,
        8 | 16 | 32 | 64 | 128 | 256 | 512 | 1024 | 2048
    )
}

/// Whether the chunks of the pool are few enough, and their blocks together.
fn is_pool_size(chunk_blocks: u32, pool_chunks: u32) -> bool
    ensures { result ≡ is_pool_size chunk_blocks pool_chunks }
{
    pool_chunks >= 1
        && pool_chunks <= 262_144
        && u64::from(pool_chunks) * u64::from(chunk_blocks) <= 8_388_608
}

fn is_map_size(version: u32, map_chunks: u32) -> bool
    ensures { result ≡ is_map_size version map_chunks }
{
    map_chunks >= 64 && map_chunks <= 1_048_576 && (version == 2 || map_chunks <= 262_144)
}
