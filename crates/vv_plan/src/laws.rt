//! Laws of what calls ask for: with its answer, or with its change and both replies, the row of a call is whole. Each is a
//! function without arguments that does nothing: what it ensures is the law.
ghost use Rattle.std.specs.Prelude.{ℕ, ◌≡◌, Some};
ghost use Rattle.vv_flat.specs.State.{Array};
ghost use Rattle.vv_flat.specs.Changes.{Change};
ghost use Rattle.vv_calls.specs.declared.call.Call.{Call};
ghost use Rattle.vv_reply.specs.declared.reply.Reply.{Reply};
ghost use Rattle.vv_meaning.specs.Asks.{Without, answered};
ghost use Rattle.vv_meaning.specs.Calls.{asked, asks_for};
ghost use Rattle.vv_plan.specs.Plans.{plain_change, accepted_reply, nothing_reply, answered_reply};

/// A call that is answered at once is no command, asks for this reply alone, and leaves queues and attentions.
pub fn an_answer_is_all_that_its_call_asks_for()
    ensures { (a : Array ℕ) (c : Call) (reply : Reply) → Some reply ≡ answered_reply a c → asked a c ≡ answered a.volatile reply }
{}

/// A change that never takes a place brings no bytes, is compared with none, and is told as a fault where it is refused.
pub fn a_plain_change_is_asked_for_with_its_replies()
    ensures { (a : Array ℕ) (c : Call) (change : Change) (accepted nothing : Reply) → Some change ≡ plain_change a c → Some accepted ≡ accepted_reply a c
        → Some nothing ≡ nothing_reply a c → asked a c ≡ asks_for a change Without accepted nothing }
{}
