//! What a logical unit answers: INQUIRY and REQUEST SENSE after SPC-5, unit attentions after SAM-5.
ghost use Rattle.std.specs.Prelude.{◌≡◌, ◌≤◌, ◌^◌};
ghost use Rattle.vv_lun.specs.Units.{state_of, IsUnit};
ghost use Rattle.vv_lun.specs.Decided.{IsAsked, unbound_command, at_unbound, endpoint_command, at_endpoint, waiting_sense, volume_sense, volume_command, at_volume, decided, inquiry_data};
ghost use Rattle.vv_lun.specs.Answers.{volume_data, endpoint_data, volume_page, endpoint_page};
ghost use Rattle.vv_lun.specs.Actions.{answered_within};

use crate::actions::{answered_clearing, answered_within, attention_told, done, refused};
use crate::answers::{
    endpoint_data, endpoint_page, page_list, unbound_data, volume_data, volume_page,
};
use crate::commands::block_command;
use crate::senses::{
    CAPACITY_DATA_HAS_CHANGED, INVALID_OPERATION_CODE, LOGICAL_UNIT_NOT_SUPPORTED, NO_SENSE,
};
use crate::unit::{Action, Unit};
use vv_cdb::{Command, Sense, sense_bytes};
use vv_units::{EndpointId, VolumeId};

/// What is done with a command to a logical unit, or with a command descriptor block that is refused by a sense. A
/// unit attention is told before all but INQUIRY and REQUEST SENSE (SAM-5). Then come the form of a parameter list, the
/// range of blocks and the write protection, in this order.
#[tactic(auto, unfolding(crate::specs::Decided::decided))]
pub fn decide(unit: Unit, command: &Result<Command, Sense>, payload: &[u8]) -> Action
    requires unit { IsUnit (state_of unit) }
    requires command { IsAsked command.now payload.now }
    ensures { result ≡ decided (state_of unit.entry) command.now payload.now }
{
    match unit {
        Unit::Unbound => at_unbound(command),
        Unit::Endpoint(endpoint) => at_endpoint(endpoint, command),
        Unit::Bound {
            binding,
            blocks,
            snapshot,
            attention,
        } => at_volume(
            binding.volume(),
            blocks,
            snapshot,
            attention,
            command,
            payload,
        ),
    }
}

/// The answer where nothing is bound.
fn at_unbound(command: &Result<Command, Sense>) -> Action
    ensures { result ≡ at_unbound command.now }
{
    match command {
        Ok(command) => unbound_command(command),
        Err(_) => refused(LOGICAL_UNIT_NOT_SUPPORTED),
    }
}

fn unbound_command(command: &Command) -> Action
    ensures { result ≡ unbound_command command.now }
{
    match *command {
        Command::Inquiry {
            evpd: false,
            alloc_len,
            ..
        } => answered_within(alloc_len, &unbound_data()),
        Command::RequestSense { alloc_len } => {
            answered_within(alloc_len, &sense_bytes(LOGICAL_UNIT_NOT_SUPPORTED))
        }
        _ => refused(LOGICAL_UNIT_NOT_SUPPORTED),
    }
}

/// The answer of an endpoint itself.
fn at_endpoint(endpoint: EndpointId, command: &Result<Command, Sense>) -> Action
    ensures { result ≡ at_endpoint endpoint.0 command.now }
{
    match command {
        Ok(command) => endpoint_command(endpoint, command),
        Err(sense) => refused(*sense),
    }
}

fn endpoint_command(endpoint: EndpointId, command: &Command) -> Action
    ensures { result ≡ endpoint_command endpoint.0 command.now }
{
    match *command {
        Command::Inquiry {
            evpd,
            page,
            alloc_len,
        } => endpoint_inquiry(endpoint, evpd, page, alloc_len),
        Command::RequestSense { alloc_len } => answered_within(alloc_len, &sense_bytes(NO_SENSE)),
        Command::TestReady => done(),
        _ => refused(INVALID_OPERATION_CODE),
    }
}

/// INQUIRY of an endpoint.
fn endpoint_inquiry(endpoint: EndpointId, evpd: bool, page: u8, alloc_len: u32) -> Action
    ensures { result ≡ answered_within alloc_len (inquiry_data evpd page endpoint_data (endpoint_page endpoint.0)) }
{
    if !evpd {
        return answered_within(alloc_len, &endpoint_data());
    }
    if page == 0x80 {
        return answered_within(alloc_len, &endpoint_page(endpoint.0));
    }
    answered_within(alloc_len, &page_list())
}

/// The answer of a volume.
fn at_volume(
    volume: VolumeId,
    blocks: u64,
    snapshot: bool,
    attention: bool,
    command: &Result<Command, Sense>,
    payload: &[u8],
) -> Action
    requires some { 1 ≤ blocks }
    requires few { blocks ≤ 2 ^ 31 }
    ensures { result ≡ at_volume volume.0 blocks snapshot attention command.now payload.now }
{
    match command {
        Ok(command) => volume_command(volume, blocks, snapshot, attention, command, payload),
        Err(_) if attention => attention_told(),
        Err(sense) => refused(*sense),
    }
}

fn volume_command(
    volume: VolumeId,
    blocks: u64,
    snapshot: bool,
    attention: bool,
    command: &Command,
    payload: &[u8],
) -> Action
    requires some { 1 ≤ blocks }
    requires few { blocks ≤ 2 ^ 31 }
    ensures { result ≡ volume_command volume.0 blocks snapshot attention command.now payload.now }
{
    match *command {
        Command::Inquiry {
            evpd,
            page,
            alloc_len,
        } => volume_inquiry(volume, evpd, page, alloc_len),
        Command::RequestSense { alloc_len } => volume_sense(attention, alloc_len),
        _ if attention => attention_told(),
        _ => block_command(blocks, snapshot, command, payload),
    }
}

/// INQUIRY of a volume.
fn volume_inquiry(volume: VolumeId, evpd: bool, page: u8, alloc_len: u32) -> Action
    ensures { result ≡ answered_within alloc_len (inquiry_data evpd page volume_data (volume_page volume.0)) }
{
    if !evpd {
        return answered_within(alloc_len, &volume_data());
    }
    if page == 0x80 {
        return answered_within(alloc_len, &volume_page(volume.0));
    }
    answered_within(alloc_len, &page_list())
}

/// REQUEST SENSE of a volume, which clears a unit attention.
fn volume_sense(attention: bool, alloc_len: u32) -> Action
    ensures { result ≡ volume_sense attention alloc_len }
{
    answered_clearing(attention, alloc_len, &sense_bytes(waiting_sense(attention)))
}

/// What REQUEST SENSE of a volume tells.
fn waiting_sense(attention: bool) -> Sense
    ensures { result ≡ waiting_sense attention }
{
    if attention {
        CAPACITY_DATA_HAS_CHANGED
    } else {
        NO_SENSE
    }
}
