//! Names of states and kinds, as they stand in replies.
ghost use Rattle.std.specs.Prelude.{◌≡◌, ◌≤◌, length};
ghost use Rattle.vv_units.specs.Names.{field_text};
ghost use Rattle.vv_reply.specs.Values as value;

use vv_units::{Field, Part, TaskState, VolumeKind, VvolType, Why};

#[tactic(auto, using(crate::proofs::FieldNames::field_text_short))]
pub(crate) fn field_name(name: Field) -> &'static str
    ensures text { result.now ≡ field_text name }
    ensures short { length result.now ≤ 32 }
{
    name.text()
}

pub(crate) fn type_name(vvol_type: VvolType) -> &'static str
    ensures text { result.now ≡ value.type_text vvol_type }
    ensures short { length result.now ≤ 32 }
{
    match vvol_type {
        VvolType::Config => "Config",
        VvolType::Data => "Data",
        VvolType::Swap => "Swap",
        VvolType::Memory => "Memory",
        VvolType::Other => "Other",
    }
}

pub(crate) fn kind_name(kind: VolumeKind) -> &'static str
    ensures text { result.now ≡ value.kind_text kind }
    ensures short { length result.now ≤ 32 }
{
    match kind {
        VolumeKind::Plain => "Plain",
        VolumeKind::SnapshotOf(_) => "Snapshot",
        VolumeKind::FastCloneOf(_) => "FastClone",
        VolumeKind::FullCloneOf(_) => "FullClone",
    }
}

pub(crate) fn why_name(why: Why) -> &'static str
    ensures text { result.now ≡ value.why_text why }
    ensures short { length result.now ≤ 32 }
{
    match why {
        Why::Unknown => "Unknown",
        Why::NotOffered => "NotOffered",
        Why::TooLittle => "TooLittle",
    }
}

pub(crate) fn state_name(state: TaskState) -> &'static str
    ensures text { result.now ≡ value.state_text state }
    ensures short { length result.now ≤ 32 }
{
    match state {
        TaskState::Running => "Running",
        TaskState::Success => "Success",
        TaskState::Cancelled => "Cancelled",
        TaskState::Interrupted => "Interrupted",
    }
}

pub(crate) fn part_name(part: Part) -> &'static str
    ensures text { result.now ≡ value.part_text part }
    ensures short { length result.now ≤ 32 }
{
    match part {
        Part::Gate => "Gate",
        Part::Header => "Header",
        Part::Length => "Length",
        Part::Area => "Area",
        Part::Rule => "Rule",
        Part::Slot => "Slot",
        Part::Record => "Record",
    }
}
