//! The order of every answer: what is wrong, then whether nothing would change, then limits.
ghost use Rattle.std.specs.Prelude.{◌≡◌, ◌∷◌, [], Option, None, false};
ghost use Rattle.vv_flat.specs.Chunks.{shape_of_tables};
ghost use Rattle.vv_flat.specs.Refusals.{exhausted, misfits, Refuse, Accept};
ghost use Rattle.vv_flat.specs.Lists.{if_found};
ghost use Rattle.vv_flat.specs.Profiles.{Misfit};
ghost use Rattle.vv_flat.specs.Changes.{judge, state_checks, changes_nothing, room_checks, misfit_in};
ghost use Rattle.vv_event.specs.Events.{change_of};
ghost use Rattle.vv_profile.specs.Known.{all_known};
ghost use Rattle.vv_judge.specs.Seen.{seen_check, seen_verdict, refused_by};

use crate::answer::{Refusal, Verdict, first_refusal};
use crate::checks::exhausted;
use crate::{blocks, copies, hosts, tasks, volumes};
use vv_profile::Capabilities;
use vv_record::Event;
use vv_tables::Tables;

/// How an event is answered over tables: it is refused, it would change nothing durable, or it is accepted.
pub fn judge(tables: &Tables, capabilities: &Capabilities, event: &Event) -> Verdict
    ensures { seen_verdict result ≡ judge (misfit_in (all_known capabilities.now) (shape_of_tables tables.now.durable) (change_of event.now)) (shape_of_tables tables.now.durable) (change_of event.now) }
{
    match state_check(tables, event) {
        Some(refusal) => Verdict::Refuse(refusal),
        None if would_change_nothing(tables, event) => Verdict::Nothing,
        None => {
            let lacks = misfit(tables, capabilities, event);
            verdict_on_room(room_check(tables, lacks, event))
        }
    }
}

/// How the event of a record is answered over tables: as by `judge`, where every profile counts as one that complies.
pub fn judge_record(tables: &Tables, event: &Event) -> Verdict
    ensures { seen_verdict result ≡ judge None (shape_of_tables tables.now.durable) (change_of event.now) }
{
    match state_check(tables, event) {
        Some(refusal) => Verdict::Refuse(refusal),
        None if would_change_nothing(tables, event) => Verdict::Nothing,
        None => verdict_on_room(room_check(tables, None, event)),
    }
}

/// The answer where only limits may be in the way.
fn verdict_on_room(limit: Option<Refusal>) -> Verdict
    ensures { seen_verdict result ≡ if_found (seen_check limit) Refuse Accept }
{
    match limit {
        Some(refusal) => Verdict::Refuse(refusal),
        None => Verdict::Accept,
    }
}

/// What is wrong with the names of an event, or with what they name.
#[tactic(auto, unfolding(vv_event::specs::Events::change_of))]
fn state_check(tables: &Tables, event: &Event) -> Option<Refusal>
    ensures { seen_check result ≡ refused_by (state_checks (shape_of_tables tables.now.durable) (change_of event.now)) }
{
    match event {
        Event::MakeContainer { .. } => volumes::make_container_state(),
        Event::MakeVolume {
            container,
            chunks,
            ..
        } => volumes::make_volume_state(tables, *container, *chunks),
        Event::DeleteVolume { volume } => volumes::delete_volume_state(tables, *volume),
        Event::GrowVolume { volume, chunks } => {
            volumes::grow_volume_state(tables, *volume, *chunks)
        }
        Event::SetMetadata { volume, .. } => volumes::set_metadata_state(tables, *volume),
        Event::Snapshot { volume } => copies::snapshot_state(tables, *volume),
        Event::FastClone { volume } => copies::fast_clone_state(tables, *volume),
        Event::Revert { volume, snapshot } => copies::revert_state(tables, *volume, *snapshot),
        Event::Write {
            volume,
            first_block,
            blocks,
            ..
        } => blocks::write_state(tables, *volume, *first_block, *blocks),
        Event::Unmap { volume, ranges } => { blocks::unmap_state(tables, *volume, ranges.items()) }
        Event::SetEndpoints { host, endpoints } => {
            hosts::set_endpoints_state(tables, *host, endpoints.items())
        }
        Event::Bind { host, volume } => hosts::bind_state(tables, *host, *volume),
        Event::Unbind {
            host,
            endpoint,
            secondary,
        } => hosts::unbind_state(tables, *host, *endpoint, *secondary),
        Event::UnbindAll { .. } => hosts::unbind_all_state(),
        Event::StartClone { volume } => tasks::start_clone_state(tables, *volume),
        Event::StartCopy {
            source,
            base,
            target,
        } => tasks::start_copy_state(tables, *source, *base, *target),
        Event::Turn { task, .. } => tasks::turn_state(tables, *task),
        Event::Cancel { task } => tasks::cancel_state(tables, *task),
    }
}

/// Whether an event would change nothing durable.
#[tactic(auto, unfolding(vv_event::specs::Events::change_of, vv_flat::specs::Changes::changes_nothing))]
fn would_change_nothing(tables: &Tables, event: &Event) -> bool
    ensures { result ≡ changes_nothing (shape_of_tables tables.now.durable) (change_of event.now) }
{
    match event {
        Event::GrowVolume { volume, chunks } => {
            volumes::grow_volume_nothing(tables, *volume, *chunks)
        }
        Event::SetMetadata { volume, key, note } => {
            volumes::set_metadata_nothing(tables, *volume, key, note.as_ref())
        }
        Event::Write { blocks, .. } => blocks::write_nothing(*blocks),
        Event::Unmap { volume, ranges } => {
            blocks::unmap_nothing(tables, *volume, ranges.items())
        }
        Event::SetEndpoints { host, endpoints } => {
            hosts::set_endpoints_nothing(tables, *host, endpoints.items())
        }
        Event::UnbindAll { host } => hosts::unbind_all_nothing(tables, *host),
        Event::Turn { task, .. } => tasks::turn_nothing(tables, *task),
        Event::MakeContainer { .. } => false,
        Event::MakeVolume { .. } => false,
        Event::DeleteVolume { .. } => false,
        Event::Snapshot { .. } => false,
        Event::FastClone { .. } => false,
        Event::Revert { .. } => false,
        Event::Bind { .. } => false,
        Event::Unbind { .. } => false,
        Event::StartClone { .. } => false,
        Event::StartCopy { .. } => false,
        Event::Cancel { .. } => false,
    }
}

/// The log has no number for one change more, and nothing else is in its way.
fn log_room(tables: &Tables) -> Option<Refusal>
    ensures { seen_check result ≡ refused_by (exhausted (shape_of_tables tables.now.durable) ∷ []) }
{
    first_refusal(&[exhausted(tables)])
}

/// What the profile of a volume lacks that an event makes.
#[tactic(auto, unfolding(vv_event::specs::Events::change_of, vv_flat::specs::Changes::misfit_in))]
fn misfit(tables: &Tables, capabilities: &Capabilities, event: &Event) -> Option<Refusal>
    ensures { seen_check result ≡ misfits (misfit_in (all_known capabilities.now) (shape_of_tables tables.now.durable) (change_of event.now)) }
{
    match event {
        Event::MakeVolume {
            container,
            needs,
            ..
        } => { volumes::misfit(tables, capabilities, *container, needs.items()) }
        Event::MakeContainer { .. } => None,
        Event::DeleteVolume { .. } => None,
        Event::GrowVolume { .. } => None,
        Event::SetMetadata { .. } => None,
        Event::Snapshot { .. } => None,
        Event::FastClone { .. } => None,
        Event::Revert { .. } => None,
        Event::Write { .. } => None,
        Event::Unmap { .. } => None,
        Event::SetEndpoints { .. } => None,
        Event::Bind { .. } => None,
        Event::Unbind { .. } => None,
        Event::UnbindAll { .. } => None,
        Event::StartClone { .. } => None,
        Event::StartCopy { .. } => None,
        Event::Turn { .. } => None,
        Event::Cancel { .. } => None,
    }
}

/// The limits that may be in the way of an event with which nothing is wrong and that would change something, where this is
/// what a profile lacks.
#[tactic(auto, unfolding(vv_event::specs::Events::change_of, vv_flat::specs::Changes::room_checks))]
fn room_check(tables: &Tables, misfit: Option<Refusal>, event: &Event) -> Option<Refusal>
    requires right { refused_by (state_checks (shape_of_tables tables.now.durable) (change_of event.now)) ≡ None }
    requires something { changes_nothing (shape_of_tables tables.now.durable) (change_of event.now) ≡ false }
    ensures { (m : Option Misfit) → seen_check misfit ≡ misfits m
        → seen_check result ≡ refused_by (room_checks m (shape_of_tables tables.now.durable) (change_of event.now)) }
{
    match event {
        Event::MakeContainer { .. } => volumes::make_container_room(tables),
        Event::MakeVolume { chunks, .. } => volumes::make_volume_room(tables, misfit, *chunks),
        Event::GrowVolume { volume, chunks } => {
            volumes::grow_volume_room(tables, *volume, *chunks)
        }
        Event::SetMetadata { volume, key, note } => {
            volumes::set_metadata_room(tables, *volume, key, note.as_ref())
        }
        Event::Snapshot { volume } => copies::snapshot_room(tables, *volume),
        Event::FastClone { volume } => copies::fast_clone_room(tables, *volume),
        Event::Revert { volume, snapshot } => copies::revert_room(tables, *volume, *snapshot),
        Event::Write {
            volume,
            first_block,
            blocks,
            ..
        } => blocks::write_room(tables, *volume, *first_block, *blocks),
        Event::Bind { host, volume } => hosts::bind_room(tables, *host, *volume),
        Event::StartClone { volume } => tasks::start_clone_room(tables, *volume),
        Event::StartCopy {
            source,
            base,
            target,
        } => tasks::start_copy_room(tables, *source, *base, *target),
        Event::DeleteVolume { .. } => log_room(tables),
        Event::Unmap { .. } => log_room(tables),
        Event::SetEndpoints { .. } => log_room(tables),
        Event::Unbind { .. } => log_room(tables),
        Event::UnbindAll { .. } => log_room(tables),
        Event::Turn { .. } => log_room(tables),
        Event::Cancel { .. } => log_room(tables),
    }
}
