//! The table of calls.
ghost use Rattle.std.specs.Prelude.{◌≡◌, ℕ};
ghost use Rattle.vv_flat.specs.State.{Array};
ghost use Rattle.vv_calls.specs.declared.call.Call.TheVariants as call;
ghost use Rattle.vv_meaning.specs.Told.{done};
ghost use Rattle.vv_meaning.specs.Asks.{answered};
ghost use Rattle.vv_meaning.specs.Calls.{asked};

/// A restart that an array is asked for is answered, and changes nothing in it: what follows is a matter of its disk.
pub fn the_reply_to_a_restart()
    ensures { (a : Array ℕ) → asked a call.Restart ≡ answered a.volatile done }
{}
