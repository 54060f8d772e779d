//! What calls are planned to do.
ghost use Rattle.std.specs.Prelude.{◌≡◌, List, false, IfOk, IfErr, option_map};
ghost use Rattle.std.specs.Option.{option_copied};
ghost use Rattle.vv_flat.specs.State.{Volatile};
ghost use Rattle.vv_flat.specs.Volatile.{queue_head};
ghost use Rattle.vv_flat.specs.Profiles.{Capability};
ghost use Rattle.vv_bind.specs.Table.{IsHost};
ghost use Rattle.vv_calls.specs.Formed.{IsFormed};
ghost use Rattle.vv_calls.specs.declared.call.Call.{Call as SeenCall};
ghost use Rattle.vv_calls.specs.declared.call.Call.TheVariants as seen_call;
ghost use Rattle.vv_meaning.specs.Commands.{command_of};
ghost use Rattle.vv_profile.specs.Known.{all_known};
ghost use Rattle.vv_core.specs.Plans.{IsPlannedFor, IsRefusedFor};
ghost use Rattle.vv_core.specs.PlanTexts.{HasText};
ghost use Rattle.vv_core.specs.declared.planned.Planned.{Planned as SeenPlanned};

use crate::array_core::Core;
use crate::planned::Planned;
use crate::planning_changes::{plan_plain, plan_turn};
use crate::planning_commands::plan_command;
use crate::settling::settle;
use std::alloc::Global;
use vv_calls::{Call, ScsiCall};
use vv_plan::queued;
use vv_profile::Capabilities;
use vv_reply::{Answer, Refusal, Reply};
use vv_tables::Tables;
use vv_units::HostId;
use vv_waiting::Waiting;

impl Core {
    /// What a call is planned to do.
    pub fn plan(
        &self,
        alloc: Global,
        capabilities: &Capabilities,
        call: &Call,
    ) -> Result<Planned, Refusal>
        requires formed { IsFormed call.now }
        ensures planned { IfOk result (IsPlannedFor (all_known capabilities.now) self.now.array call.now) }
        ensures refused { IfErr result (IsRefusedFor (all_known capabilities.now) self.now.array call.now) }
        ensures texts { IfOk result HasText }
    {
        have_texts(&self.tables);
        plan_call(alloc, &self.tables, &self.waiting, capabilities, call)
    }

    /// The command of a host that is served next, if one waits.
    pub fn queue_head(&self, host: HostId) -> Option<&ScsiCall>
        requires { IsHost host.0 }
        ensures { option_map command_of (option_copied result) ≡ queue_head self.now.array.volatile host.0 }
    {
        self.waiting.head(host)
    }
}

/// Says that the replies of plans over these tables have texts. It does nothing.
fn have_texts(tables: &Tables)
    ensures { (capabilities : List Capability) → (v : Volatile) → (c : SeenCall) → (plan : SeenPlanned)
        → IsPlannedFor capabilities (record { durable = tables.now.durable; volatile = v }) c plan → HasText plan }
{
    let _well_formed = tables.lsn();
}

/// What a call is planned to do, over these tables and with what waits.
fn plan_call(
    alloc: Global,
    tables: &Tables,
    waiting: &Waiting,
    capabilities: &Capabilities,
    call: &Call,
) -> Result<Planned, Refusal>
    requires formed { IsFormed call.now }
    ensures planned { IfOk result (IsPlannedFor (all_known capabilities.now) (record { durable = tables.now.durable; volatile = waiting.now }) call.now) }
    ensures refused { IfErr result (IsRefusedFor (all_known capabilities.now) (record { durable = tables.now.durable; volatile = waiting.now }) call.now) }
{
    match call {
        Call::Scsi(command) => {
            plan_command(alloc, tables, waiting.attentions(), capabilities, command)
        }
        Call::Submit(command) => settle(queued(alloc, waiting.queues(), command).reply),
        Call::Serve { host } => plan_service(alloc, tables, waiting, capabilities, *host),
        Call::Turn { task } => plan_turn(alloc, tables, capabilities, *task),
        _ => plan_plain(alloc, tables, capabilities, call),
    }
}

/// What the service of a host is planned to do: what its first command does, if one waits.
fn plan_service(
    alloc: Global,
    tables: &Tables,
    waiting: &Waiting,
    capabilities: &Capabilities,
    host: HostId,
) -> Result<Planned, Refusal>
    requires { IsHost host.0 }
    ensures planned { IfOk result (IsPlannedFor (all_known capabilities.now) (record { durable = tables.now.durable; volatile = waiting.now }) (seen_call.Serve host)) }
    ensures refused { IfErr result (IsRefusedFor (all_known capabilities.now) (record { durable = tables.now.durable; volatile = waiting.now }) (seen_call.Serve host)) }
{
    match waiting.head(host) {
        Some(command) => plan_command(alloc, tables, waiting.attentions(), capabilities, command),
        None => settle(Reply::Done(Answer::NothingServed)),
    }
}
