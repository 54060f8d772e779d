//! What calls other than commands are planned to do.
ghost use Rattle.std.specs.Prelude.{◌≡◌, List, false, Some, None, IfOk, IfErr, IsSome};
ghost use Rattle.vv_flat.specs.State.{Volatile};
ghost use Rattle.vv_flat.specs.Chunks.{shape_of_tables};
ghost use Rattle.vv_flat.specs.Profiles.{Capability};
ghost use Rattle.vv_flat.specs.Refusals.{Accept};
ghost use Rattle.vv_flat.specs.Changes.{Turn, judge};
ghost use Rattle.vv_calls.specs.Formed.{IsFormed};
ghost use Rattle.vv_calls.specs.declared.call.Call.TheVariants as seen_call;
ghost use Rattle.vv_event.specs.Events.{change_of};
ghost use Rattle.vv_plan.specs.Plans.{may_take_places, plain_change, accepted_reply, nothing_reply, with_volatile};
ghost use Rattle.vv_meaning.specs.Meaning.{verdict_on};
ghost use Rattle.vv_profile.specs.Known.{all_known};
ghost use Rattle.vv_reply.specs.declared.reply.Refusal.TheVariants as fault;
ghost use Rattle.vv_core.specs.Plans.{IsPlannedFor, IsRefusedFor};

use crate::event_forms::has_forms;
use crate::judging::verdict_on;
use crate::placing::{is_placed, turn_event};
use crate::planned::{Fill, Planned};
use crate::settling::{settle, told_to_call};
use std::alloc::Global;
use vv_calls::Call;
use vv_judge::Verdict;
use vv_plan::{accepted_reply, answered_reply, event_for, nothing_reply, task_now, task_turned};
use vv_profile::Capabilities;
use vv_record::Event;
use vv_reply::{Refusal, Reply};
use vv_tables::Tables;
use vv_units::{ItemList, TaskId};

/// What a turn of a task is planned to do.
pub(crate) fn plan_turn(
    alloc: Global,
    tables: &Tables,
    capabilities: &Capabilities,
    task: TaskId,
) -> Result<Planned, Refusal>
    ensures planned { (v : Volatile) → IfOk result (IsPlannedFor (all_known capabilities.now) (record { durable = tables.now.durable; volatile = v }) (seen_call.Turn task)) }
    ensures refused { (v : Volatile) → IfErr result (IsRefusedFor (all_known capabilities.now) (record { durable = tables.now.durable; volatile = v }) (seen_call.Turn task)) }
{
    let event = Event::Turn {
        task,
        copies: ItemList::of(Vec::new(alloc)),
    };
    match verdict_on(tables, capabilities, &event) {
        Verdict::Refuse(refusal) => settle(told_to_call(alloc, refusal)),
        Verdict::Nothing => settle(task_now(tables, task)),
        Verdict::Accept => journal_turn(alloc, tables, task),
    }
}

/// The plan of a turn that is accepted.
fn journal_turn(alloc: Global, tables: &Tables, task: TaskId) -> Result<Planned, Refusal>
    requires { judge None (shape_of_tables tables.now.durable) (Turn task.0) ≡ Accept }
    ensures planned { (capabilities : List Capability) (v : Volatile) → verdict_on capabilities (shape_of_tables tables.now.durable) (Turn task.0) ≡ Accept
        → IfOk result (IsPlannedFor capabilities (record { durable = tables.now.durable; volatile = v }) (seen_call.Turn task)) }
    ensures refused { IfErr result (λ refusal. refusal ≡ fault.NoMemory) }
{
    let Ok(event) = turn_event(alloc, tables, task) else {
        return Err(Refusal::NoMemory);
    };
    Ok(Planned::Journal {
        event,
        fill: Fill::Image { task },
        compare: false,
        reply: task_turned(tables, task),
    })
}

/// What a call is planned to do that takes no place.
pub(crate) fn plan_plain(
    alloc: Global,
    tables: &Tables,
    capabilities: &Capabilities,
    call: &Call,
) -> Result<Planned, Refusal>
    requires formed { IsFormed call.now }
    requires plain { may_take_places call.now ≡ false }
    ensures planned { (v : Volatile) → IfOk result (IsPlannedFor (all_known capabilities.now) (record { durable = tables.now.durable; volatile = v }) call.now) }
    ensures refused { (v : Volatile) → IfErr result (IsRefusedFor (all_known capabilities.now) (record { durable = tables.now.durable; volatile = v }) call.now) }
{
    let Ok(event) = event_for(alloc, tables, call) else {
        return Err(Refusal::NoMemory);
    };
    match event {
        Some(event) => plan_event(alloc, tables, capabilities, call, event),
        None => plan_answer(alloc, tables, capabilities, call),
    }
}

/// What a call is planned to do that is answered at once.
fn plan_answer(
    alloc: Global,
    tables: &Tables,
    capabilities: &Capabilities,
    call: &Call,
) -> Result<Planned, Refusal>
    requires plain { may_take_places call.now ≡ false }
    requires answered { (v : Volatile) → None ≡ plain_change (with_volatile (shape_of_tables tables.now.durable) v) call.now }
    ensures planned { (v : Volatile) → IfOk result (IsPlannedFor (all_known capabilities.now) (record { durable = tables.now.durable; volatile = v }) call.now) }
    ensures refused { (v : Volatile) → IfErr result (IsRefusedFor (all_known capabilities.now) (record { durable = tables.now.durable; volatile = v }) call.now) }
{
    let Ok(answer) = answered_reply(alloc, tables, call) else {
        return Err(Refusal::NoMemory);
    };
    match answer {
        Some(answer) => settle(answer),
        None => unreachable!(),
    }
}

/// What a call is planned to do that asks for a change which takes no place.
fn plan_event(
    alloc: Global,
    tables: &Tables,
    capabilities: &Capabilities,
    call: &Call,
    event: Event,
) -> Result<Planned, Refusal>
    requires formed { IsFormed call.now }
    requires asked { (v : Volatile) → Some (change_of event) ≡ plain_change (with_volatile (shape_of_tables tables.now.durable) v) call.now }
    ensures planned { (v : Volatile) → IfOk result (IsPlannedFor (all_known capabilities.now) (record { durable = tables.now.durable; volatile = v }) call.now) }
    ensures refused { (v : Volatile) → IfErr result (IsRefusedFor (all_known capabilities.now) (record { durable = tables.now.durable; volatile = v }) call.now) }
{
    match verdict_on(tables, capabilities, &event) {
        Verdict::Refuse(refusal) => settle(told_to_call(alloc, refusal)),
        Verdict::Nothing => settle(reply_to_nothing(tables, call)),
        Verdict::Accept => {
            has_forms(tables, &event);
            is_placed(tables, &event);
            Ok(Planned::Journal {
                event,
                fill: Fill::Nothing,
                compare: false,
                reply: reply_to_change(tables, call),
            })
        }
    }
}

/// The reply to a call that asks for a change which takes no place, where it is accepted.
fn reply_to_change(tables: &Tables, call: &Call) -> Reply
    requires { (v : Volatile) → IsSome (plain_change (with_volatile (shape_of_tables tables.now.durable) v) call.now) }
    ensures { (v : Volatile) → Some result ≡ accepted_reply (with_volatile (shape_of_tables tables.now.durable) v) call.now }
{
    match accepted_reply(tables, call) {
        Some(reply) => reply,
        None => unreachable!(),
    }
}

/// The reply to such a call where the change would change nothing.
fn reply_to_nothing(tables: &Tables, call: &Call) -> Reply
    requires { (v : Volatile) → IsSome (plain_change (with_volatile (shape_of_tables tables.now.durable) v) call.now) }
    ensures { (v : Volatile) → Some result ≡ nothing_reply (with_volatile (shape_of_tables tables.now.durable) v) call.now }
{
    match nothing_reply(tables, call) {
        Some(reply) => reply,
        None => unreachable!(),
    }
}
