//! How an event is answered.
ghost use Rattle.std.specs.Prelude.{◌≡◌, true};
ghost use Rattle.vv_flat.specs.Chunks.{shape_of_tables};
ghost use Rattle.vv_event.specs.Events.{change_of};
ghost use Rattle.vv_profile.specs.Known.{all_known};
ghost use Rattle.vv_judge.specs.Seen.{seen_verdict};
ghost use Rattle.vv_meaning.specs.Meaning.{verdict_on};
ghost use Rattle.vv_core.specs.FormedChanges.{has_few_needs};
ghost use Rattle.vv_core.specs.PlannedDeeds.{IsTellableVerdict};

use vv_judge::{Verdict, judge};
use vv_profile::Capabilities;
use vv_record::Event;
use vv_tables::Tables;

/// How an event is answered by an array that knows these capabilities. A refusal can be told.
#[tactic(auto, unfolding(vv_meaning::specs::Meaning::verdict_on))]
pub(crate) fn verdict_on(tables: &Tables, capabilities: &Capabilities, event: &Event) -> Verdict
    requires { has_few_needs (change_of event.now) ≡ true }
    ensures verdict { seen_verdict result ≡ verdict_on (all_known capabilities.now) (shape_of_tables tables.now.durable) (change_of event.now) }
    ensures tellable { IsTellableVerdict result }
{
    judge(tables, capabilities, event)
}
