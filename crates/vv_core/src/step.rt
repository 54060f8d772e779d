//! What a call does to queues and attentions.
ghost use Rattle.std.specs.Prelude.{◌≡◌, IfOk};
ghost use Rattle.vv_flat.specs.Chunks.{shape_of_tables};
ghost use Rattle.vv_flat.specs.Volatile.{is_queue_full};
ghost use Rattle.vv_bind.specs.Table.{IsHost};
ghost use Rattle.vv_calls.specs.Formed.{IsFormed};
ghost use Rattle.vv_meaning.specs.Calls.{asked};
ghost use Rattle.vv_meaning.specs.Commands.{command_of, commanded, queued, served};
ghost use Rattle.vv_plan.specs.CommandAsks.{clears_asked};
ghost use Rattle.vv_plan.specs.Plans.{with_volatile};
ghost use Rattle.vv_waiting.specs.Seen.{seen_queue};
ghost use Rattle.vv_core.specs.Rooms.{stepped, CanStep};

use std::alloc::Global;
use vv_calls::{Call, ScsiCall};
use vv_plan::{CommandAsk, commanded, queued};
use vv_queue::HostQueue;
use vv_tables::Tables;
use vv_units::{EndpointId, HostId, NoMemory, Secondary};
use vv_waiting::Waiting;

/// The most commands of a queue.
const PLACES: u32 = 32;

/// What a call does to queues and attentions once it was asked, with the memory that it takes.
#[derive(Drop)]
pub enum WaitingStep {
    Stay,
    /// A command goes into the queue of its host.
    Submit(ScsiCall),
    /// The attention at an address is cleared.
    Clear {
        host: HostId,
        endpoint: EndpointId,
        secondary: Secondary,
    },
    /// The first command of a host is taken.
    Take {
        taken: HostId,
    },
    /// The first command of a host is taken, and the attention at an address is cleared.
    TakeAndClear {
        taken: HostId,
        host: HostId,
        endpoint: EndpointId,
        secondary: Secondary,
    },
}

/// Does a step.
pub(crate) fn do_step(waiting: &mut Waiting, step: WaitingStep)
    requires { CanStep waiting.old step }
    ensures { waiting.new ≡ stepped waiting.old step }
{
    match step {
        WaitingStep::Stay => {}
        WaitingStep::Submit(command) => waiting.submit(command),
        WaitingStep::Clear {
            host,
            endpoint,
            secondary,
        } => waiting.clear_attention(host, endpoint, secondary),
        WaitingStep::Take { taken } => waiting.take_head(taken),
        WaitingStep::TakeAndClear {
            taken,
            host,
            endpoint,
            secondary,
        } => {
            waiting.take_head(taken);
            waiting.clear_attention(host, endpoint, secondary);
        }
    }
}

/// What a call does to queues and attentions.
#[tactic(auto, unfolding(vv_meaning::specs::Calls::asked))]
pub(crate) fn step_for(
    alloc: Global,
    tables: &Tables,
    waiting: &Waiting,
    call: &Call,
) -> Result<WaitingStep, NoMemory>
    requires { IsFormed call.now }
    ensures can { IfOk result (CanStep waiting.now) }
    ensures step { IfOk result (λ step. stepped waiting.now step ≡ (asked (with_volatile (shape_of_tables tables.now.durable) waiting.now) call.now).volatile) }
{
    match call {
        Call::Scsi(command) => command_step(alloc, tables, waiting, command),
        Call::Submit(command) => submit_step(alloc, tables, waiting, command),
        Call::Serve { host } => serve_step(alloc, tables, waiting, *host),
        _ => Ok(WaitingStep::Stay),
    }
}

/// Whether the attention at a command's address is cleared.
fn clears(ask: &CommandAsk) -> bool
    ensures { result ≡ clears_asked ask.now }
{
    match ask {
        CommandAsk::Answer { reply: _, clears } => *clears,
        _ => false,
    }
}

/// What a command that is done at once does to queues and attentions.
fn command_step(
    alloc: Global,
    tables: &Tables,
    waiting: &Waiting,
    command: &ScsiCall,
) -> Result<WaitingStep, NoMemory>
    ensures can { IfOk result (CanStep waiting.now) }
    ensures step { IfOk result (λ step. stepped waiting.now step ≡ (commanded (with_volatile (shape_of_tables tables.now.durable) waiting.now) (command_of command.now)).volatile) }
{
    let ask = commanded(alloc, tables, waiting.attentions(), command)?;
    if clears(&ask) {
        Ok(WaitingStep::Clear {
            host: command.host,
            endpoint: command.endpoint,
            secondary: command.secondary,
        })
    } else {
        Ok(WaitingStep::Stay)
    }
}

/// Whether a queue has no place for one command more.
fn is_full(queue: &HostQueue) -> bool
    ensures { result ≡ is_queue_full (seen_queue queue.now) }
{
    queue.len() >= PLACES
}

/// What a command that is submitted does to queues and attentions.
fn submit_step(
    alloc: Global,
    tables: &Tables,
    waiting: &Waiting,
    command: &ScsiCall,
) -> Result<WaitingStep, NoMemory>
    requires { IsHost command.now.host.0 }
    ensures can { IfOk result (CanStep waiting.now) }
    ensures step { IfOk result (λ step. stepped waiting.now step ≡ (queued (with_volatile (shape_of_tables tables.now.durable) waiting.now) (command_of command.now)).volatile) }
{
    if is_full(waiting.queue(command.host)) {
        return Ok(WaitingStep::Stay);
    }
    let submission = queued(alloc, waiting.queues(), command);
    if submission.is_taken {
        Ok(WaitingStep::Submit(command.copy(alloc)?))
    } else {
        Ok(WaitingStep::Stay)
    }
}

/// What the first command of a host does to queues and attentions, once it is taken and done.
fn serve_step(
    alloc: Global,
    tables: &Tables,
    waiting: &Waiting,
    taken: HostId,
) -> Result<WaitingStep, NoMemory>
    requires { IsHost taken.0 }
    ensures can { IfOk result (CanStep waiting.now) }
    ensures step { IfOk result (λ step. stepped waiting.now step ≡ (served (with_volatile (shape_of_tables tables.now.durable) waiting.now) taken.0).volatile) }
{
    let Some(command) = waiting.head(taken) else {
        return Ok(WaitingStep::Stay);
    };
    let ask = commanded(alloc, tables, waiting.attentions(), command)?;
    if clears(&ask) {
        Ok(WaitingStep::TakeAndClear {
            taken,
            host: command.host,
            endpoint: command.endpoint,
            secondary: command.secondary,
        })
    } else {
        Ok(WaitingStep::Take { taken })
    }
}
