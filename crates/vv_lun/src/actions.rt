//! Answers made of bytes and senses.
ghost use Rattle.std.specs.Prelude.{◌≡◌, ◌≤◌, length, take};
ghost use Rattle.vv_lun.specs.Actions.{answered, answered_within, answered_clearing, done, refused, attention_told};

use crate::senses::CAPACITY_DATA_HAS_CHANGED;
use crate::short_bytes::ShortBytes;
use crate::unit::Action;
use vv_cdb::Sense;

/// Status GOOD with these bytes.
pub(crate) fn answered(list: &[u8]) -> Action
    requires { length list.now ≤ 36 }
    ensures { result ≡ answered list.now }
{
    Action::Reply {
        bytes: ShortBytes::of(list),
        sense: None,
        clears: false,
    }
}

/// Status GOOD with the first of these bytes, as many as there is room for.
pub(crate) fn answered_within(room: u32, list: &[u8]) -> Action
    requires { length list.now ≤ 36 }
    ensures { result ≡ answered_within room list.now }
{
    answered_clearing(false, room, list)
}

/// Status GOOD with the first of these bytes; the unit attention is cleared or not.
pub(crate) fn answered_clearing(clears: bool, room: u32, list: &[u8]) -> Action
    requires { length list.now ≤ 36 }
    ensures { result ≡ answered_clearing clears (take room list.now) }
{
    Action::Reply {
        bytes: ShortBytes::cut(list, room),
        sense: None,
        clears,
    }
}

/// Status GOOD with no byte.
pub(crate) fn done() -> Action
    ensures { result ≡ done }
{
    Action::Reply {
        bytes: ShortBytes::empty(),
        sense: None,
        clears: false,
    }
}

/// CHECK CONDITION with a sense.
pub(crate) fn refused(sense: Sense) -> Action
    ensures { result ≡ refused sense }
{
    Action::Reply {
        bytes: ShortBytes::empty(),
        sense: Some(sense),
        clears: false,
    }
}

/// CHECK CONDITION with the sense of the unit attention, which is cleared.
pub(crate) fn attention_told() -> Action
    ensures { result ≡ attention_told }
{
    Action::Reply {
        bytes: ShortBytes::empty(),
        sense: Some(CAPACITY_DATA_HAS_CHANGED),
        clears: true,
    }
}
