//! What commands to logical units ask for.
ghost use Rattle.std.specs.Prelude.{ℕ, ◌≡◌, ◌==◌, ◌≤◌, false, true, not, List, [], Err, IfOk, length};
ghost use Rattle.vv_flat.specs.State.{QueuedCommand};
ghost use Rattle.vv_flat.specs.Chunks.{shape_of_tables};
ghost use Rattle.vv_cdb.specs.Cdbs.{IsLetThrough, decoded, data_length};
ghost use Rattle.vv_lun.specs.Decided.{IsAsked};
ghost use Rattle.vv_meaning.specs.Commands.{has_other_length, wrong_data, commanded, command_of};
ghost use Rattle.vv_plan.specs.SeenArrays.{seen_volatile, seen_array};
ghost use Rattle.vv_plan.specs.CommandAsks.{ask_at, deed_asked};
ghost use Rattle.vv_plan.specs.FitDeeds.{is_fit};

use crate::asks::{CommandAsk, ask_for};
use crate::bitmaps::invalid;
use crate::units::{unit_at, volume_in};
use std::alloc::Global;
use vv_calls::ScsiCall;
use vv_cdb::{Command, Sense, data_len, decode};
use vv_lun::{Attentions, decide};
use vv_reply::Reply;
use vv_tables::Tables;
use vv_units::{Field, NoMemory};

/// The sense of a command descriptor block that is too short.
const TOO_SHORT: Sense = Sense {
    key: 5,
    asc: 0x24,
    ascq: 0,
};

/// The command that a block asks for. A block of no byte is too short.
#[tactic(auto, unfolding(vv_cdb::specs::Cdbs::decoded))]
pub(crate) fn read_command(cdb: &[u8]) -> Result<Command, Sense>
    ensures value { result ≡ decoded cdb.now }
    ensures fields { IfOk result IsLetThrough }
{
    if cdb.is_empty() {
        return Err(TOO_SHORT);
    }
    decode(cdb)
}

/// Whether a command takes another number of bytes than came with it.
fn takes_others(command: &Command, payload: &[u8]) -> bool
    requires { IsLetThrough command.now }
    ensures { result ≡ not (length payload.now == data_length command.now) }
{
    payload.len() != data_len(command) as usize
}

/// Whether a command that is decoded takes another number of bytes than came with it.
pub(crate) fn has_other_length(read: &Result<Command, Sense>, payload: &[u8]) -> bool
    requires { IfOk read.now IsLetThrough }
    ensures value { result ≡ has_other_length read.now payload.now }
    ensures asked { result ≡ false → IsAsked read.now payload.now }
{
    match read {
        Ok(command) => takes_others(command, payload),
        Err(_) => false,
    }
}

/// The reply to a command with another number of bytes than it takes.
pub(crate) fn wrong_data() -> Reply
    ensures { result ≡ wrong_data }
{
    invalid(Field::Data)
}

/// What a command asks for that is done at once, by what is at its address now.
#[tactic(auto, unfolding(vv_meaning::specs::Commands::commanded))]
pub fn commanded(
    alloc: Global,
    tables: &Tables,
    attentions: &Attentions,
    command: &ScsiCall,
) -> Result<CommandAsk, NoMemory>
    ensures ask { IfOk result (λ ask. (queues : List (List QueuedCommand)) → commanded (seen_array tables.now queues attentions.now) (command_of command.now)
        ≡ ask_at (command_of command.now).address command.now.payload (seen_volatile queues attentions.now) ask) }
    ensures fits { IfOk result (λ ask. is_fit (shape_of_tables tables.now.durable) (deed_asked [] ask) ≡ true) }
{
    let read = read_command(command.cdb.items());
    let payload = command.payload.items();
    if has_other_length(&read, payload) {
        return Ok(CommandAsk::Answer {
            reply: wrong_data(),
            clears: false,
        });
    }
    let unit = unit_at(
        tables,
        attentions,
        command.host,
        command.endpoint,
        command.secondary,
    );
    let volume = volume_in(unit);
    let action = decide(unit, &read, payload);
    ask_for(alloc, tables.geometry(), volume, action)
}
