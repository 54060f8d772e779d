//! What an event does to the attentions.
ghost use Rattle.std.specs.Prelude.{◌≡◌, IsTrue};
ghost use Rattle.vv_flat.specs.Changes.{attentions_after};
ghost use Rattle.vv_laws.specs.VolatileForm.{are_attentions};
ghost use Rattle.vv_event.specs.Events.{change_of};

use vv_record::Event;
use vv_tables::Tables;
use vv_waiting::Waiting;

/// What an event does to the attentions, over the tables ahead of it: a volume that grows sets them where it is bound, and a
/// binding that goes takes its own with it.
#[tactic(auto, unfolding(vv_event::specs::Events::change_of, vv_flat::specs::Changes::attentions_after))]
pub(crate) fn attend(waiting: &mut Waiting, tables: &Tables, event: &Event)
    requires { IsTrue (are_attentions tables.now.durable.bindings waiting.old.attentions) }
    ensures { waiting.new ≡ record waiting.old { attentions = attentions_after tables.now.durable (change_of event.now) waiting.old.attentions } }
{
    match event {
        Event::GrowVolume { volume, .. } => waiting.attend(tables.bindings(), *volume),
        Event::Unbind {
            host,
            endpoint,
            secondary,
        } => {
            let left = tables.bindings().count_left(*host, *endpoint, *secondary);
            if left == 0 {
                waiting.clear_attention(*host, *endpoint, *secondary);
            }
        }
        Event::UnbindAll { host } => waiting.clear_host(*host),
        Event::MakeContainer { .. } => {}
        Event::MakeVolume { .. } => {}
        Event::DeleteVolume { .. } => {}
        Event::SetMetadata { .. } => {}
        Event::Snapshot { .. } => {}
        Event::FastClone { .. } => {}
        Event::Revert { .. } => {}
        Event::Write { .. } => {}
        Event::Unmap { .. } => {}
        Event::SetEndpoints { .. } => {}
        Event::Bind { .. } => {}
        Event::StartClone { .. } => {}
        Event::StartCopy { .. } => {}
        Event::Turn { .. } => {}
        Event::Cancel { .. } => {}
    }
}
