//! Command descriptor blocks are read.
ghost use Rattle.std.specs.Prelude.{◌≡◌, ◌≤◌, length, slice_index, IfOk, IfSome};
ghost use Rattle.vv_cdb.specs.Numbers.{number_at};
ghost use Rattle.vv_cdb.specs.Cdbs.{decoded, of_length, is_code_of_6 as of_6, is_code_of_10 as of_10, is_code_of_16 as of_16, command_of_6 as command_in_6, command_of_10 as command_in_10, command_of_16 as command_in_16};
ghost use Rattle.vv_cdb.specs.Cdbs.{has_low_bit as low_bit, asks_for_protection as protection, may_transfer, read as read_in, write as write_in, compare as compare_in, write_same as write_same_in, request_sense as request_sense_in, is_page as is_page_of, inquiry as inquiry_in, unmap as unmap_in, service_action_in as service_action_of, IsLetThrough};

use crate::command::Command;
use crate::sense::{INVALID_FIELD_IN_CDB, INVALID_OPERATION_CODE, Sense};
use byteorder::{BigEndian, ByteOrder};

const TEST_UNIT_READY: u8 = 0x00;

const REQUEST_SENSE: u8 = 0x03;

const INQUIRY: u8 = 0x12;

const READ_CAPACITY_10: u8 = 0x25;

const READ_10: u8 = 0x28;

const WRITE_10: u8 = 0x2a;

const SYNCHRONIZE_CACHE_10: u8 = 0x35;

const UNMAP: u8 = 0x42;

const READ_16: u8 = 0x88;

const COMPARE_AND_WRITE: u8 = 0x89;

const WRITE_16: u8 = 0x8a;

const SYNCHRONIZE_CACHE_16: u8 = 0x91;

const WRITE_SAME_16: u8 = 0x93;

const SERVICE_ACTION_IN_16: u8 = 0x9e;

/// READ CAPACITY(16), as a service action.
const READ_CAPACITY_16: u8 = 0x10;

/// The most blocks of one transfer.
const TRANSFER_LIMIT: u32 = 2048;

/// The command that a block asks for, after SPC-5 and SBC-4. An operation code that is not known is the sense 5/20/00;
/// a block that is too short for its code, or has a field that is not valid, is 5/24/00.
#[tactic(auto, unfolding(crate::specs::Cdbs::decoded))]
pub fn decode(cdb: &[u8]) -> Result<Command, Sense>
    requires { 1 ≤ length cdb.now }
    ensures value { result ≡ decoded cdb.now }
    ensures fields { IfOk result IsLetThrough }
{
    let code = cdb[0];
    if is_code_of_6(code) {
        return decode_6(code, cdb);
    }
    if is_code_of_10(code) {
        return decode_10(code, cdb);
    }
    if is_code_of_16(code) {
        return decode_16(code, cdb);
    }
    Err(INVALID_OPERATION_CODE)
}

fn is_code_of_6(code: u8) -> bool
    ensures { result ≡ of_6 code }
{
    matches!(code, TEST_UNIT_READY | REQUEST_SENSE | INQUIRY)
}

fn is_code_of_10(code: u8) -> bool
    ensures { result ≡ of_10 code }
{
    matches!(
        code,
        READ_CAPACITY_10 | READ_10 | WRITE_10 | SYNCHRONIZE_CACHE_10 | UNMAP
    )
}

fn is_code_of_16(code: u8) -> bool
    ensures { result ≡ of_16 code }
{
    matches!(
        code,
        READ_16
            | COMPARE_AND_WRITE
            | WRITE_16
            | SYNCHRONIZE_CACHE_16
            | WRITE_SAME_16
            | SERVICE_ACTION_IN_16
    )
}

fn decode_6(code: u8, cdb: &[u8]) -> Result<Command, Sense>
    ensures value { result ≡ of_length 6 cdb.now (command_in_6 code cdb.now) }
    ensures fields { IfOk result IsLetThrough }
{
    if cdb.len() < 6 {
        return Err(INVALID_FIELD_IN_CDB);
    }
    command_of_6(code, cdb).ok_or(INVALID_FIELD_IN_CDB)
}

fn decode_10(code: u8, cdb: &[u8]) -> Result<Command, Sense>
    ensures value { result ≡ of_length 10 cdb.now (command_in_10 code cdb.now) }
    ensures fields { IfOk result IsLetThrough }
{
    if cdb.len() < 10 {
        return Err(INVALID_FIELD_IN_CDB);
    }
    command_of_10(code, cdb).ok_or(INVALID_FIELD_IN_CDB)
}

fn decode_16(code: u8, cdb: &[u8]) -> Result<Command, Sense>
    ensures value { result ≡ of_length 16 cdb.now (command_in_16 code cdb.now) }
    ensures fields { IfOk result IsLetThrough }
{
    if cdb.len() < 16 {
        return Err(INVALID_FIELD_IN_CDB);
    }
    command_of_16(code, cdb).ok_or(INVALID_FIELD_IN_CDB)
}

/// The command of a block of 6 bytes, if its fields are valid.
fn command_of_6(code: u8, cdb: &[u8]) -> Option<Command>
    requires { 6 ≤ length cdb.now }
    ensures value { result ≡ command_in_6 code cdb.now }
    ensures fields { IfSome result IsLetThrough }
{
    match code {
        TEST_UNIT_READY => Some(Command::TestReady),
        REQUEST_SENSE => request_sense(cdb),
        _ => inquiry(cdb),
    }
}

/// The command of a block of 10 bytes, if its fields are valid.
fn command_of_10(code: u8, cdb: &[u8]) -> Option<Command>
    requires { 10 ≤ length cdb.now }
    ensures value { result ≡ command_in_10 code cdb.now }
    ensures fields { IfSome result IsLetThrough }
{
    let (lba, blocks) = range_10(cdb);
    match code {
        READ_CAPACITY_10 => Some(Command::Capacity10),
        READ_10 => read(cdb, lba, blocks),
        WRITE_10 => write(cdb, lba, blocks),
        SYNCHRONIZE_CACHE_10 => Some(Command::Sync { lba, blocks }),
        _ => unmap(cdb),
    }
}

/// The command of a block of 16 bytes, if its fields are valid.
fn command_of_16(code: u8, cdb: &[u8]) -> Option<Command>
    requires { 16 ≤ length cdb.now }
    ensures value { result ≡ command_in_16 code cdb.now }
    ensures fields { IfSome result IsLetThrough }
{
    let (lba, blocks) = range_16(cdb);
    match code {
        READ_16 => read(cdb, lba, blocks),
        COMPARE_AND_WRITE => compare(cdb, lba),
        WRITE_16 => write(cdb, lba, blocks),
        SYNCHRONIZE_CACHE_16 => Some(Command::Sync { lba, blocks }),
        WRITE_SAME_16 => write_same(cdb, lba, blocks),
        _ => service_action_in(cdb),
    }
}

fn range_10(cdb: &[u8]) -> (u64, u32)
    requires { 10 ≤ length cdb.now }
    ensures address { result.0 ≡ number_at 2 4 cdb.now }
    ensures number { result.1 ≡ number_at 7 2 cdb.now }
{
    let lba = BigEndian::read_u32(&cdb[2..]);
    let blocks = BigEndian::read_u16(&cdb[7..]);
    (u64::from(lba), u32::from(blocks))
}

fn range_16(cdb: &[u8]) -> (u64, u32)
    requires { 16 ≤ length cdb.now }
    ensures address { result.0 ≡ number_at 2 8 cdb.now }
    ensures number { result.1 ≡ number_at 10 4 cdb.now }
{
    let lba = BigEndian::read_u64(&cdb[2..]);
    let blocks = BigEndian::read_u32(&cdb[10..]);
    (lba, blocks)
}

/// Whether bit 0 of byte 1 is set.
fn has_low_bit(cdb: &[u8]) -> bool
    requires { 2 ≤ length cdb.now }
    ensures { result ≡ low_bit cdb.now }
{
    cdb[1] % 2 == 1
}

fn asks_for_protection(cdb: &[u8]) -> bool
    requires { 2 ≤ length cdb.now }
    ensures { result ≡ protection cdb.now }
{
    cdb[1] / 32 != 0
}

/// Whether so many blocks may be read or written as the block asks.
fn is_transfer(cdb: &[u8], blocks: u32) -> bool
    requires { 2 ≤ length cdb.now }
    ensures { result ≡ may_transfer cdb.now blocks }
{
    !asks_for_protection(cdb) && blocks <= TRANSFER_LIMIT
}

fn read(cdb: &[u8], lba: u64, blocks: u32) -> Option<Command>
    requires { 2 ≤ length cdb.now }
    ensures value { result ≡ read_in cdb.now (lba, blocks) }
    ensures fields { IfSome result IsLetThrough }
{
    if !is_transfer(cdb, blocks) {
        return None;
    }
    Some(Command::Read { lba, blocks })
}

fn write(cdb: &[u8], lba: u64, blocks: u32) -> Option<Command>
    requires { 2 ≤ length cdb.now }
    ensures value { result ≡ write_in cdb.now (lba, blocks) }
    ensures fields { IfSome result IsLetThrough }
{
    if !is_transfer(cdb, blocks) {
        return None;
    }
    Some(Command::Write { lba, blocks })
}

fn compare(cdb: &[u8], lba: u64) -> Option<Command>
    requires { 16 ≤ length cdb.now }
    ensures value { result ≡ compare_in cdb.now (lba, slice_index cdb.now 13) }
    ensures fields { IfSome result IsLetThrough }
{
    if asks_for_protection(cdb) {
        return None;
    }
    let blocks = u32::from(cdb[13]);
    Some(Command::Compare { lba, blocks })
}

fn write_same(cdb: &[u8], lba: u64, blocks: u32) -> Option<Command>
    requires { 2 ≤ length cdb.now }
    ensures value { result ≡ write_same_in cdb.now (lba, blocks) }
    ensures fields { IfSome result IsLetThrough }
{
    if blocks == 0 || !is_transfer(cdb, blocks) {
        return None;
    }
    Some(Command::Same { lba, blocks })
}

fn request_sense(cdb: &[u8]) -> Option<Command>
    requires { 6 ≤ length cdb.now }
    ensures value { result ≡ request_sense_in cdb.now }
    ensures fields { IfSome result IsLetThrough }
{
    if has_low_bit(cdb) {
        return None;
    }
    let alloc_len = u32::from(cdb[4]);
    Some(Command::RequestSense { alloc_len })
}

fn inquiry(cdb: &[u8]) -> Option<Command>
    requires { 6 ≤ length cdb.now }
    ensures value { result ≡ inquiry_in cdb.now }
    ensures fields { IfSome result IsLetThrough }
{
    let evpd = has_low_bit(cdb);
    let page = cdb[2];
    if !is_page(evpd, page) {
        return None;
    }
    let alloc_len = u32::from(BigEndian::read_u16(&cdb[3..]));
    Some(Command::Inquiry {
        evpd,
        page,
        alloc_len,
    })
}

fn is_page(evpd: bool, page: u8) -> bool
    ensures { result ≡ is_page_of evpd page }
{
    page == 0 || (evpd && page == 0x80)
}

fn unmap(cdb: &[u8]) -> Option<Command>
    requires { 10 ≤ length cdb.now }
    ensures value { result ≡ unmap_in cdb.now }
    ensures fields { IfSome result IsLetThrough }
{
    if has_low_bit(cdb) {
        return None;
    }
    let list_len = u32::from(BigEndian::read_u16(&cdb[7..]));
    Some(Command::Unmap { list_len })
}

fn service_action_in(cdb: &[u8]) -> Option<Command>
    requires { 16 ≤ length cdb.now }
    ensures value { result ≡ service_action_of cdb.now }
    ensures fields { IfSome result IsLetThrough }
{
    if cdb[1] % 32 != READ_CAPACITY_16 {
        return None;
    }
    let alloc_len = BigEndian::read_u32(&cdb[10..]);
    Some(Command::Capacity16 { alloc_len })
}
