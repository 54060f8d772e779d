//! Commands that are put into the queues of hosts, and served from there.
ghost use Rattle.std.specs.Prelude.{ℕ, ◌≡◌, ◌-◌, ◌≤◌, List, IfOk, length, slice_get};
ghost use Rattle.std.specs.Option.{option_map, option_copied};
ghost use Rattle.vv_flat.specs.State.{Address, Durable};
ghost use Rattle.vv_flat.specs.Volatile.{queue_head};
ghost use Rattle.vv_meaning.specs.Told.{task_set_full};
ghost use Rattle.vv_meaning.specs.Commands.{command_of, queued, served};
ghost use Rattle.vv_plan.specs.Plans.{with_volatile};
ghost use Rattle.vv_plan.specs.SeenArrays.{seen_volatile, seen_array};
ghost use Rattle.vv_plan.specs.SeenQueues.{seen_queues, commands_of, submission_ask, served_ask};

use crate::asks::CommandAsk;
use crate::commands::{commanded, has_other_length, read_command, wrong_data};
use std::alloc::Global;
use vv_calls::ScsiCall;
use vv_lun::Attentions;
use vv_queue::HostQueue;
use vv_reply::{Answer, Reply, ScsiReply};
use vv_tables::Tables;
use vv_units::{HostId, ItemList, NoMemory};

/// The most commands of a queue.
const PLACES: u32 = 32;

/// What becomes of a command that is submitted: its reply, and whether it goes into the queue of its host.
#[derive(Drop)]
pub struct Submission {
    pub reply: Reply,
    pub is_taken: bool,
}

/// The queue of a host, where the queue of host 1 comes first.
fn queue_at(queues: &[HostQueue], host: HostId) -> Option<&HostQueue>
    ensures { option_copied result ≡ slice_get queues.now (host.0 - 1) }
{
    queues.get(host.0.saturating_sub(1) as usize)
}

/// How many commands a host has in its queue.
fn queue_len(queues: &[HostQueue], host: HostId) -> u32
    ensures exact { result ≡ length (commands_of queues.now host.0) }
    ensures few { result ≤ 32 }
{
    match queue_at(queues, host) {
        Some(queue) => queue.len(),
        None => 0,
    }
}

/// The first command of a host's queue, if there is one.
pub fn queue_head(queues: &[HostQueue], host: HostId) -> Option<&ScsiCall>
    ensures { (attentions : List Address) → option_map command_of (option_copied result) ≡ queue_head (seen_volatile (seen_queues queues.now) attentions) host.0 }
{
    match queue_at(queues, host) {
        Some(queue) => queue.head(),
        None => None,
    }
}

/// The reply to a command for which there is no place.
fn task_set_full(alloc: Global) -> Reply
    ensures { result ≡ task_set_full }
{
    Reply::Scsi(ScsiReply {
        status: 0x28,
        sense: None,
        cause: None,
        payload: ItemList::of(Vec::new(alloc)),
    })
}

/// What becomes of a command that is to be put behind the others of its host. What is at its address doesn't count yet.
#[tactic(auto, unfolding(vv_meaning::specs::Commands::queued))]
pub fn queued(alloc: Global, queues: &[HostQueue], command: &ScsiCall) -> Submission
    ensures { (d : Durable ℕ) (attentions : List Address) → queued (with_volatile d (seen_volatile (seen_queues queues.now) attentions)) (command_of command.now)
        ≡ submission_ask (seen_volatile (seen_queues queues.now) attentions) (command_of command.now) result }
{
    let read = read_command(command.cdb.items());
    if has_other_length(&read, command.payload.items()) {
        return Submission {
            reply: wrong_data(),
            is_taken: false,
        };
    }
    let count = queue_len(queues, command.host);
    if count >= PLACES {
        return Submission {
            reply: task_set_full(alloc),
            is_taken: false,
        };
    }
    Submission {
        reply: Reply::Done(Answer::Queued { queued: count + 1 }),
        is_taken: true,
    }
}

/// What the first command of a host's queue asks for once it is taken off, by what is at its address now. There is none
/// where the queue is empty.
pub fn served(
    alloc: Global,
    tables: &Tables,
    attentions: &Attentions,
    queues: &[HostQueue],
    host: HostId,
) -> Result<Option<CommandAsk>, NoMemory>
    ensures { IfOk result (λ ask. served (seen_array tables.now (seen_queues queues.now) attentions.now) host.0
        ≡ served_ask (seen_volatile (seen_queues queues.now) attentions.now) host.0 ask) }
{
    match queue_head(queues, host) {
        Some(command) => Ok(Some(commanded(alloc, tables, attentions, command)?)),
        None => Ok(None),
    }
}
